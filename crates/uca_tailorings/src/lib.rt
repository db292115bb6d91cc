//! Tailorings of tables: when one is accepted, and what that means for its relations and for all texts. These are
//! definitions, and the law that joins them: an accepted tailoring changes no text in which no target occurs. The crate
//! has no code but the laws.
#![tactic(auto)]

mod conditions;
mod laws;

pub use conditions::Condition;
pub use laws::{
    accepted_tailorings_are_faithful, faithful_tailorings_keep_untouched_texts, keys_move_by_maps,
    worked_moved_keys, worked_tailorings,
};
