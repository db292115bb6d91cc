//! A table tailored and audited in memory.

use crate::Failure;
use crate::key_of_text::SETTINGS;
use std::alloc::Global;
use std::cmp::Ordering;
use uca_collation::{Collate, Collator, Data, Table, Trie, audit, normal, read_rules, tailor};

/// The letter á comes after b, as a letter of its own.
const RULES: &str = "&b < \u{E1}";

/// The table that the rules make of a base, once an audit has accepted it.
pub fn tailored_table(alloc: Global, base: &Table, data: &Data) -> Result<Table, Failure> {
    let rules = read_rules(alloc, RULES.as_bytes(), data)?;
    let (tailored, certificate) = tailor(alloc, base, data, &rules)?;
    audit(alloc, base, data, &rules, &tailored, &certificate)?;
    Ok(tailored)
}

/// The order of two texts under a table.
pub fn order_under(
    alloc: Global,
    table: &Table,
    data: &Data,
    left: &str,
    right: &str,
) -> Result<Ordering, Failure> {
    let rows = Trie::new(alloc, table)?;
    let collator = Collator::new(&rows, &table.header, data);
    let left = normal(alloc, left, data)?;
    let right = normal(alloc, right, data)?;
    let compared = collator.compare(SETTINGS.weighting, SETTINGS.depth, &left, &right);
    Ok(compared.order)
}
