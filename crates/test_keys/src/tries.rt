//! Collators over the rows of a table in a trie. Each large value is made in one function, and lent to the next.

use crate::{beginnings, texts};
use std::alloc::Global;
use std::test::Fail;
use test_kit::{DATA, data_of, table_of};
use uca_match::{Collator, Trie};
use uca_values::{Data, Table};
use uca_weights::Source;

/// What is checked of a collator.
#[derive(Clone, Copy)]
pub enum Trial {
    /// Texts that are ordered by what comes after their beginning.
    Beginnings,
    /// Texts whose numbers are ordered by value.
    Numbers,
}

fn over_trie(alloc: Global, table: &Table, data: &Data, trial: Trial) -> Result<(), Fail> {
    let trie = Trie::new(alloc, table)?;
    let collator = Collator::new(&trie, &table.header, data);
    let found = match trial {
        Trial::Beginnings => beginnings::check_all(alloc, &collator),
        Trial::Numbers => texts::check_all(alloc, &collator),
    };
    drop(trie);
    found
}

fn over_data(alloc: Global, table: &Table, trial: Trial) -> Result<(), Fail> {
    let data = data_of(alloc, &mut Source::new(DATA.as_bytes()))?;
    let found = over_trie(alloc, table, &data, trial);
    drop(data);
    found
}

/// Checks a collator of a table file.
pub fn over_table(alloc: Global, file: &str, trial: Trial) -> Result<(), Fail> {
    let table = table_of(alloc, &mut Source::new(file.as_bytes()))?;
    let found = over_data(alloc, &table, trial);
    drop(table);
    found
}
