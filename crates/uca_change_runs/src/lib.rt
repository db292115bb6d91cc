//! The runs over changes from an old table and its data file to new ones. `uca changes` is the maker of `uca_editions`
//! over four files (`run_changes`), and `uca audit-changes` the audit over six (`run_audit_changes`).
//! `uca affected --changes` prints the lines that a change affects (`run_affected_by_changes`), and `uca book` the image of a book
//! under the map of level 1 of a certificate (`run_book`).
#![tactic(auto)]

mod affected;
mod audit_changes;
mod book;
mod book_files;
mod changes;
mod files;

pub use affected::run_affected_by_changes;
pub use audit_changes::run_audit_changes;
pub use book::run_book;
pub use changes::run_changes;
