//! Plans of tailorings: which weights the targets of rules get, and which weights of the base move for that. These are
//! definitions, as functions that compute a plan or the first error, and laws about them. Weights and elements before
//! they are numbered are here, where new weights go, and when there is room.
//!
//! The crate needs no tailorings and no keys, so drafts, numbers and the proof that plans are accepted are proved side
//! by side.
#![tactic(auto)]

mod drafts;
mod faults;
mod laws;

pub use drafts::{DraftElement, DraftWeight, Insertion, Segment};
pub use faults::{TailorFault, TailorKind, level_number};
pub use laws::{
    base_weights_of_elements, drafts_come_from_rows, drafts_read_as_rows,
    drafts_read_by_what_occurs, keys_of_plans, keys_read_as_their_rows, new_weights_stand_nearest,
    new_weights_take_places, no_room_is_counted, nothing_stands_between, numbers_are_proper,
    numbers_rise_along_lists, one_more_row, one_outcome, plans_have_sized_rows,
    relations_read_over_all_keys, room_is_counted, runs_are_longest, runs_send_base_weights,
    worked_plans,
};
