//! Certificates of tailorings: how the weights of a base change, as a map for each level. `read_certificate` and
//! `write_certificate` read and write their one text.
#![tactic(auto)]

mod certificate;
mod faults;
mod laws;
mod lines;
mod read;
mod spelling;
mod write;

pub use certificate::Certificate;
use faults::CertificateFaultKind as Kind;
pub use faults::{CertificateFault, CertificateFaultKind};
pub use laws::{bytes_mean_at_most_one_certificate, bytes_with_a_fault_mean_no_certificate};
pub use read::read_certificate;
use uca_lines::files::FileForm;
pub use write::write_certificate;

/// The format of certificates.
pub const CERTIFICATE_FORM: FileForm<CertificateFaultKind> = FileForm {
    longest: 16,
    too_long: Kind::Line,
    too_many: None,
    no_lf: Kind::Line,
    lf_first: true,
    failed_read: Kind::Read,
    no_memory: Kind::Memory,
    early_end: None,
};
