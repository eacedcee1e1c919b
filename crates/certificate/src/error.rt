//! Why a text is no certificate.

ghost use Rattle.std.specs.Prelude.{◌≡◌};
ghost use Rattle.certificate.specs.declared.error.CertificateError.TheVariants.{Fault, Memory};

use causal_order::CertificateFault;
use std::alloc::{AllocError, AllocFailed};
use thiserror::Error;

/// Why a text was not read.
#[derive(Clone, Copy, Debug, PartialEq, Eq, Error)]
pub enum CertificateError {
    /// The text is no certificate.
    #[error("{0}")]
    Fault(CertificateFault),
    /// A growth was refused.
    #[error("out of memory")]
    Memory,
}

impl From<CertificateFault> for CertificateError {
    ghost from_gives = { λ fault e. e ≡ Fault fault };

    fn from(fault: CertificateFault) -> CertificateError {
        CertificateError::Fault(fault)
    }
}

impl From<AllocError> for CertificateError {
    ghost from_gives = { λ _ e. e ≡ Memory };

    fn from(_e: AllocError) -> CertificateError {
        CertificateError::Memory
    }
}

impl<T: Drop> From<AllocFailed<T>> for CertificateError {
    ghost from_gives = { λ _ e. e ≡ Memory };

    fn from(_e: AllocFailed<T>) -> CertificateError {
        CertificateError::Memory
    }
}
