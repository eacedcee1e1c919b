//! Why a text is no address of a report.

ghost use Rattle.std.specs.Prelude.{◌≡◌};
ghost use Rattle.report_addresses.specs.declared.error.ReportAddressError.TheVariants.{Memory};

use std::alloc::AllocError;
use thiserror::Error;

/// Why a text is no address of a report.
#[derive(Clone, Copy, Debug, PartialEq, Eq, Error)]
pub enum ReportAddressError {
    /// It's an IPv4 address, mapped into IPv6 (RFC 4291, section 2.5.5.2).
    #[error("it is an IPv4 address, mapped into IPv6")]
    Ipv4Mapped,
    /// It has a dot, as an IPv4 address has.
    #[error("it has a dot, as an IPv4 address has")]
    Dotted,
    /// It's an address with a zone index (RFC 4007, section 11).
    #[error("it has a zone index")]
    ZoneIndex,
    /// What stands behind its brackets is no port.
    #[error("what stands behind its brackets is no port")]
    Port,
    /// What stands behind its slash is no length.
    #[error("what stands behind its slash is no length")]
    Length,
    /// It's none of what is read.
    #[error("it is no IPv6 address")]
    NoAddress,
    /// A growth was refused.
    #[error("out of memory")]
    Memory,
}

impl From<AllocError> for ReportAddressError {
    ghost from_gives = { λ _ e. e ≡ Memory };

    fn from(_error: AllocError) -> ReportAddressError {
        ReportAddressError::Memory
    }
}
