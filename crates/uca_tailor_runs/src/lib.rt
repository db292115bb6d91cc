//! The runs over the files of a tailoring: tailoring a table by rules (`run_tailor`, `write_tailored`), and auditing
//! what came of it (`run_audit`).
#![tactic(auto)]

mod audit;
mod tailor;

pub use audit::{run_audit, run_audit_in};
pub use tailor::{run_tailor, run_tailor_in, write_tailored};
