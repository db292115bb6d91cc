//! Changes from one table to another, such as an edition of Unicode to the next: when one is accepted, and what that
//! means for texts and for stored keys. These are definitions and laws. `ChangeFault` says why a change is not
//! accepted, and `Affects` which texts are affected.
#![tactic(auto)]

mod affecting;
mod conditions;
mod faults;
mod laws;

pub use affecting::{Affects, renew_text};
pub use conditions::ChangeCondition;
pub use faults::{ChangeFault, ChangePlace};
pub use laws::{changes_keep_unaffected_texts, tailorings_are_changes, worked_changes};
