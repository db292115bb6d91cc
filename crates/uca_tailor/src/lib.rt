//! The planner: a tailored table and its certificate, made from a base and rules (`tailor`).
//!
//! ```text
//! base, rules ─> positions of all keys (a KeyMap) ─> drafts: relation by relation ─> a list of weights for each level
//!             ─> numbers ─> rows, runs ─> Table, Certificate ─> the certificate's file, then standard output
//! ```
//!
//! Three modules do this, and the first two do not know each other. `drafts` makes the drafts, `numbers` the numbers, and
//! `plan` the table and the certificate of both. No audit runs: a law of `uca_acceptance` says that every plan is accepted.
#![tactic(auto)]

mod drafts;
mod numbers;
mod plan;
mod tailoring;

pub use tailoring::tailor;
pub use uca_plans::{TailorFault, TailorKind};
