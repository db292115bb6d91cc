//! A data file, the values of files, and collators over them.

use crate::cases::text_of;
use std::alloc::Global;
use std::test::Fail;
use uca_match::{Collator, Lookup, RowList, Trie};
use uca_table::{read_data, read_packed_table, read_table};
use uca_text::{Normal, normal};
use uca_values::{Data, PackedTable, Table};
use uca_weights::Source;

/// Marks above have the class 230, marks below 220. No code point is Han.
pub const CLASSES: &str = "@data 1\n\
    ccc 0300..0314 230\n\
    ccc 0323..0326 220\n";

/// The table of a table file.
pub fn table_of(alloc: Global, file: &str) -> Result<Table, Fail> {
    Ok(read_table(alloc, &mut Source::new(file.as_bytes()))?)
}

/// The table of a table file, with its rows in a few lists.
pub fn packed_table_of(alloc: Global, file: &str) -> Result<PackedTable, Fail> {
    Ok(read_packed_table(alloc, &mut Source::new(file.as_bytes()))?)
}

/// The properties of a data file.
pub fn data_of(alloc: Global, file: &str) -> Result<Data, Fail> {
    Ok(read_data(alloc, &mut Source::new(file.as_bytes()))?)
}

/// The normal form of some code points, each in hexadecimal digits.
pub fn normal_of(alloc: Global, points: &str, data: &Data) -> Result<Normal, Fail> {
    Ok(normal(alloc, &text_of(alloc, points)?, data)?)
}

/// What is checked of a collator with any lookup.
pub trait Check {
    /// Fails unless the collator is right.
    fn check<L: Lookup>(&self, alloc: Global, collator: &Collator<L>) -> Result<(), Fail>;
}

fn over_rows<C: Check>(alloc: Global, table: &Table, data: &Data, cases: &C) -> Result<(), Fail> {
    let rows = RowList::new(table);
    cases.check(alloc, &Collator::new(&rows, &table.header, data))
}

fn over_trie<C: Check>(alloc: Global, table: &Table, data: &Data, cases: &C) -> Result<(), Fail> {
    let trie = Trie::new(alloc, table)?;
    let checked = cases.check(alloc, &Collator::new(&trie, &table.header, data));
    drop(trie);
    checked
}

fn over_values<C: Check>(alloc: Global, table: &Table, data: &Data, cases: &C) -> Result<(), Fail> {
    over_rows(alloc, table, data, cases)?;
    over_trie(alloc, table, data, cases)
}

fn over_table<C: Check>(alloc: Global, table: &Table, data: &str, cases: &C) -> Result<(), Fail> {
    let data = data_of(alloc, data)?;
    let checked = over_values(alloc, table, &data, cases);
    drop(data);
    checked
}

/// Checks the collators over both lookups of a table file.
pub fn over_both<C: Check>(alloc: Global, table: &str, data: &str, cases: &C) -> Result<(), Fail> {
    let table = table_of(alloc, table)?;
    let checked = over_table(alloc, &table, data, cases);
    drop(table);
    checked
}
