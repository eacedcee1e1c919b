//! Why numbers or texts are no prefix.

use thiserror::Error;

#[derive(Clone, Copy, Debug, PartialEq, Eq, Error)]
pub enum PrefixError {
    /// A prefix has at most 128 bits.
    #[error("a prefix has at most 128 bits")]
    LengthOver128,
    /// A bit of the address past the length is set.
    #[error("a bit past the prefix's length is set")]
    HostBits,
    /// The text is not in the canonical form.
    #[error("a prefix is eight groups of four lower-case digits, a slash and its length")]
    NotCanonical,
    /// The text is no address in form 1 or 2 of RFC 4291, section 2.2, a slash and one to three digits.
    #[error("a prefix is an IPv6 address, a slash and its length")]
    Text,
    /// A growth was refused.
    #[error("out of memory")]
    Memory,
}
