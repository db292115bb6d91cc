//! The rows of a tailored table before weights are numbered, made relation by relation (`draft`).
//!
//! A draft's weights are weights of the base or names of new ones (`drafting.rt`, `targets.rt`). A relation's texts are
//! matched against the keys of all rows, those of later targets too, by one map from each key to its position
//! (`key_rows.rt`, `readings.rt`).

mod drafting;
mod elements;
mod key_rows;
mod readings;
mod row_drafts;
mod targets;
mod variables;

pub(crate) use drafting::{Drafting, draft};
pub(crate) use elements::as_draft;
pub(crate) use row_drafts::{RowDraft, RowElements};
