//! Laws of plans: over a well-formed base every plan is an accepted tailoring, with all that this means. So
//! `uca tailor` runs no audit.
//!
//! The proof goes from relation to relation. The invariant has three parts. The lists of the levels (`PlanLists`,
//! `GoodLists`) and the elements so far (`PlanHolds`, `PlanCarried`) are in `uca_plans/proofs`. The order of their
//! weights (`WellDrafts`, `WellSteps`) is in `proofs/` here. There is also one file for each group of conditions:
//! `WellFormedPlans`, `RowConditions`, `PlacedTargets`, `NewWeights`.
#![tactic(auto)]

mod accepted;

pub use accepted::{plans_are_accepted, plans_are_faithful, plans_make_tailorings};
