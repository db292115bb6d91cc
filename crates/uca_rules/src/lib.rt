//! The reader of tailoring rules (UTS #35 Part 5, section 3), for a profile of their syntax. What it reads, relations and
//! rules, are values of `uca_relations`.
//!
//! Rules are read in steps of their own:
//!
//! ```text
//! rules bytes ─> UTF-8 ─> characters with positions ─> texts (pieces) ─> statements ─> RulesBuilder ─> Rules
//! ```
//!
//! `read_rules` goes from left to right and stops at the first error. Each step has a definition over the whole list of
//! characters. `specs/inside/Reading.antt` and `proofs/Progress.antt` say how far the reader has come.
#![tactic(auto)]

mod characters;
mod faults;
mod growing;
mod laws;
mod pieces;
mod reader;
mod signs;
mod starred;
mod text_reader;
mod texts;

pub use faults::{RuleFault, RuleFaultKind};
pub use laws::{
    bytes_mean_at_most_one_list_of_relations, bytes_with_a_fault_mean_nothing, worked_rules,
};
pub use reader::{read_rules, read_rules_in};
pub use uca_relations::{Relation, Rules};
