//! `ListedChanges`: a list of changes and a certificate. `find_changes` finds them, and the files of a change have them.

use std::alloc::{Allocator, Global};
use uca_certificates::Certificate;
use uca_change_files::ChangeList;

/// What changes from an old table and its data file to new ones.
#[derive(Drop)]
pub struct ListedChanges<A: Allocator = Global> {
    /// The changed texts and the changed ranges of code points.
    pub list: ChangeList<A>,
    /// The images of the old table's weights.
    pub certificate: Certificate<A>,
}
