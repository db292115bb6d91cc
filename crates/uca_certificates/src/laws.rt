//! What is true by the definitions alone.

ghost use Rattle.uca_certificates.specs.Laws.{BytesMeanAtMostOneCertificate, BytesWithAFaultMeanNoCertificate};

/// The law that bytes mean at most one certificate.
pub fn bytes_mean_at_most_one_certificate()
    ensures { BytesMeanAtMostOneCertificate }
{}

/// The law that bytes with an error mean no certificate: what [`crate::read_certificate`] rejects is no certificate,
/// unless reading stopped.
pub fn bytes_with_a_fault_mean_no_certificate()
    ensures { BytesWithAFaultMeanNoCertificate }
{}
