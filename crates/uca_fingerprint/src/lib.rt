//! The fingerprint of what keys are made by: 32 bytes that name a table, a data file, settings, and the edition of the
//! normalization. It is the SHA-256 of a stated text. Two collators of one fingerprint make the same
//! keys. The fingerprint of compact keys names the book as well. The headers of key lines are here too.
#![tactic(auto)]

mod fingerprints;
mod headers;
mod texts;

pub use fingerprints::{
    compact_fingerprint, compact_fingerprint_of_sums, fingerprint, fingerprint_of_sums, sum,
};
pub use headers::{KeyHeader, fingerprint_of_digits};
pub use texts::{depth_name, edition, normalization_version};
