//! Two editions of a table and its data file: what changes from the old one to the new one.
//!
//! The audit (`audit_change`) is an independent check of such changes. Texts in which no changed text occurs, and which
//! have no code point of a changed range, have to compare as before. The maker (`find_changes`) finds changes: a list
//! of texts and of ranges of code points, and a certificate that has the images of the old table's weights. It ends
//! with the audit, whose modules know nothing of it. `audit_files` audits what was read of files. `ChangeIndex` looks a
//! list up in texts: which of them it affects.
#![tactic(auto)]

mod auditing;
mod borders;
mod chains;
mod changed_ranges;
mod changed_texts;
mod conditions;
mod editions;
mod everything;
mod files;
mod index;
mod inputs;
mod laws;
mod levels;
mod listed;
mod maker;
mod marks;
mod moves;
mod points;
mod searches;

pub use auditing::audit_change;
pub use editions::Editions;
pub use files::{ChangeFiles, Edition, EditionFiles, audit_files};
pub use index::ChangeIndex;
pub use inputs::ChangeInputs;
pub use laws::{affected_by_changes_are_the_others, refused_changes_are_not_accepted};
pub use listed::ListedChanges;
pub use maker::find_changes;
pub use uca_certificates::Certificate;
pub use uca_changes::{ChangeCondition, ChangeFault, ChangePlace};
