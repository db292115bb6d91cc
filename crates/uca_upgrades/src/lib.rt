//! What a new table means for stored keys, as laws: a database has lines and their keys, and a new table comes. The
//! laws go from the bytes of the files to the order of the keys that the database then has.
#![tactic(auto)]

mod laws;

pub use laws::{
    accepted_changes_keep_order, accepted_tailorings_keep_order, audited_changes_keep_order,
    audited_tailorings_keep_order,
};
