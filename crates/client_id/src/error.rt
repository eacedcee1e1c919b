//! Why octets or digits are no identifier.

use thiserror::Error;

#[derive(Clone, Copy, Debug, PartialEq, Eq, Error)]
pub enum ClientIdError {
    /// A DUID has at least 3 octets, the two of its type included.
    #[error("a DUID has at least 3 octets")]
    TooShort,
    /// A DUID has at most 130 octets.
    #[error("a DUID has at most 130 octets")]
    TooLong,
    /// The text is no row of lower-case hexadecimal digits, two for each octet.
    #[error("identifiers are written in pairs of lower-case hexadecimal digits")]
    Hex,
    /// A growth was refused.
    #[error("out of memory")]
    Memory,
}
