//! What the runs of the command share: their errors (`RunFault`), the files and the lines that they read, and what they
//! write. The files of all runs are read here (such as `read_tailor_files` and `read_audit_files`), and keys are
//! printed. The runs that make no keys are here too: that of `check` (`run_check`), and that of the lines that rules
//! affect (`run_affected`).
//!
//! It needs no code of keys. So the runs that have none are proved beside that code.
#![tactic(auto)]

mod affected;
pub mod audit_files;
pub mod change_faults;
mod check;
pub mod faults;
mod files;
pub mod input;
mod key_sizes;
pub mod output;
pub mod print;
mod rule_file;
pub mod tailor_files;

pub use affected::{print_affected, run_affected};
pub use check::run_check;
pub use faults::{FileFault, InputKind, Role, RunFault, StoredKeyKind};
pub use files::{read_book_file, read_certificate_file, read_data_file, read_table_file};
pub use key_sizes::KeySizes;
pub use uca_changes::Affects;
