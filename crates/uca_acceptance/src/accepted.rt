//! Laws of plans. Each is the contract of a function that does nothing.
//!
//! All have the same premises: the base is a table and well-formed under the data for the code points, and the relations are
//! rules. They are about the plan that these give, where they give one: its table, its certificate, and the tailoring of the
//! base that the two are.

ghost use Rattle.uca_acceptance.specs.Accepted.{PlansAreAccepted, PlansAreFaithful, PlansMakeTailorings};

/// A plan meets each condition of an accepted tailoring.
pub fn plans_are_accepted()
    ensures { PlansAreAccepted }
{}

/// A plan is a tailoring, so that the conditions can be asked of it: its table is a table, and the maps of its certificate rise.
pub fn plans_make_tailorings()
    ensures { PlansMakeTailorings }
{}

/// So a plan has all that is proved of an accepted tailoring. Its table is well-formed. Each relation holds, and the
/// target of each relation of strength 1 to 3 is next to its anchor. Any two texts in which no target occurs in order
/// compare as under the base, by order and level, at either depth and under either weighting. If the maps change no
/// weight, such a text keeps its key.
pub fn plans_are_faithful()
    ensures { PlansAreFaithful }
{}
