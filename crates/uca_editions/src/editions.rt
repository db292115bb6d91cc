//! `Editions`: the two tables and data files that `find_changes` compares.

use std::alloc::{Allocator, Global};
use uca_values::{Data, Table};

/// An old table and its data file, and a new table and its data file.
#[derive(Drop)]
pub struct Editions<'a, T: Allocator = Global> {
    /// The old table.
    pub old: &'a Table<T>,
    /// The combining classes and the Han ranges of code points before the change.
    pub old_data: &'a Data<T>,
    /// The new table.
    pub new: &'a Table<T>,
    /// The combining classes and the Han ranges of code points after the change.
    pub new_data: &'a Data<T>,
}
