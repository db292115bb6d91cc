//! What an audit of a change is given.

use crate::Certificate;
use std::alloc::{Allocator, Global};
use uca_change_files::ChangeList;
use uca_values::{Data, Table};

/// What an audit of a change is given.
#[derive(Drop)]
pub struct ChangeInputs<'a, T: Allocator = Global> {
    /// The old table.
    pub old: &'a Table<T>,
    /// The combining classes and the Han ranges of code points before the change.
    pub old_data: &'a Data<T>,
    /// The new table.
    pub new: &'a Table<T>,
    /// The combining classes and the Han ranges of code points after the change.
    pub new_data: &'a Data<T>,
    /// The changed texts and the changed ranges of code points.
    pub changes: &'a ChangeList<T>,
    /// The images of the old table's weights.
    pub certificate: &'a Certificate<T>,
}
