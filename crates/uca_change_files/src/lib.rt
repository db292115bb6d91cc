//! Files of changes: the texts, and the ranges of code points, that change from one table and data file to others.
//! `ChangeList` has them in their order. `read_changes` and `write_changes` read and write their one text.
#![tactic(auto)]

mod laws;
mod lines;
mod list;
mod points;
mod read;
mod write;

pub use laws::bytes_mean_at_most_one_change_list;
pub use list::{ChangeList, ChangedText};
pub use read::read_changes;
pub use uca_values::{CodePointRange, FaultKind, TableFault};
pub use write::write_changes;
