//! Laws of the texts of certificates.

ghost use Rattle.certificate.specs.Laws.{CertificatesAreSpelled};

/// A text is taken for a certificate exactly where it is that certificate's one text, and the certificate is within
/// the format's limits. So whoever knows the spelling knows which certificate a text is, and whether it is one.
pub fn certificates_are_spelled()
    ensures { CertificatesAreSpelled }
{}
