//! An upgrade of stored keys that a program can keep (`OwnedUpgrade`): from an old table and its data file to new ones.
//!
//! Say a database has words, and the key of each by Unicode 13.0.0. `OwnedUpgrade::open` reads the bytes of six files:
//! the tables and the data files of 13.0.0 and 15.0.0, and what `uca changes` found between them. These last two are a
//! file of changes and a certificate. It audits the change, as `uca audit-changes` does, and opens only if the audit
//! accepts.
//!
//! Then `affected` says of a word whether its key has to be made anew. `rekey` turns the old key of any other word into
//! its key by 15.0.0.
#![tactic(auto)]

mod calls;
mod faults;
mod files;
mod opening;
mod owned;

pub use faults::UpgradeFault;
pub use files::UpgradeFiles;
pub use owned::OwnedUpgrade;
