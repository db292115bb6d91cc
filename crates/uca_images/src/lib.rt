//! Puts rows and stored keys through the maps of a certificate.
//!
//! Conditions of tailorings and of changes ask for rows that become their images, except for those of listed texts:
//! this crate finds the first row that does not. `KeyMover` puts stored keys through the maps, with no text and no
//! table.
#![tactic(auto)]

mod images;
mod invariants;
mod levels;
mod mover;
mod rows;

pub use images::{Images, LevelImages};
pub use invariants::{know_certificate, know_table};
pub use mover::KeyMover;
pub use rows::{are_images, first_changed, first_missing, first_uncovered, first_unknown};
pub use uca_certificates::Certificate;
