//! What the order of texts is, and what a sort key is (UTS #10, sections 1.1, 4 and 7.3): definitions, and laws of all
//! texts. `weighting` has the weights of one element.
//!
//! The crates that `uca_key` passes on make keys and compare texts by these definitions. What only speaks of keys needs
//! none of these crates. So tailorings, changes and their audits are proved beside the code that makes keys.
#![tactic(auto)]

pub mod laws;
pub mod weighting;

/// What is between two levels of a key (UTS #10, section 7.3): the weight 0, in two bytes.
pub const SEPARATOR: [u8; 2] = [0, 0];
