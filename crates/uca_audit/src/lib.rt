//! The audit of tailorings: an independent check of a tailored table. The table has to be what its base, its rules and
//! its certificate say, and must not change a text in which no target of the rules occurs.
//!
//! An audit reads five files and judges what they mean:
//!
//! ```text
//! base, data, tailored ────────────────────────────────> conditions 1 to 3: two well-formed tables with one header
//! certificate ─> the images of all weights ────────────> conditions 4 and 5: weights that have an image, rows that are images
//! rules ─> relations: their targets ───────────────────> conditions 6 and 7: rows that are missing, or too many
//! tailored ─> Trie ─> Collator ─> anchors, expansions ─> conditions 8 and 9 ─> Placements
//! Placements, and the images ──────────────────────────> conditions 10 and 11: new weights that are fresh and nearest
//! ```
//!
//! There is one function for each condition. The crate shares no code with anything that makes tables.
#![tactic(auto)]

mod auditing;
mod base_images;
mod conditions;
mod faults;
mod inputs;
mod laws;
mod readings;
mod targets;
mod weight_sets;

pub use auditing::audit;
pub use faults::{AuditFault, Place};
pub use laws::refused_tailorings_are_not_accepted;
pub use uca_certificates::{
    Certificate, CertificateFault, CertificateFaultKind, read_certificate, write_certificate,
};
pub use uca_tailorings::Condition;
