//! A collator that owns all that it needs, so that a program can keep it (`OwnedCollator`). It has a table's header and
//! rows, a data file, and memory for texts and keys that is used again. Its texts are bytes.
//!
//! Keys are made as a `KeyWriter` makes them, and texts compared as a `TextComparer` compares them (`uca_key`).
//! `fingerprint_of` is the fingerprint of what a collator keys texts by.
#![tactic(auto)]

mod calls;
mod comparing;
mod faults;
mod files;
mod fingerprints;
pub mod laws;
mod opening;
mod order;
mod owned;
mod reading;

pub use faults::{CompareFault, KeyFault, OpenFault};
pub use files::in_memory;
pub use fingerprints::fingerprint_of;
pub use owned::OwnedCollator;
