//! Why options aren't made.

ghost use Rattle.std.specs.Prelude.{◌≡◌};
ghost use Rattle.router_options.specs.declared.error.NameError.TheVariants as names;
ghost use Rattle.router_options.specs.declared.error.OptionsError.TheVariants as options;

use std::alloc::{AllocError, AllocFailed};
use thiserror::Error;

/// Why a text spells no domain name (RFC 1035, section 2.3).
#[derive(Clone, Copy, Debug, PartialEq, Eq, Error)]
pub enum NameError {
    /// A label has no octet.
    #[error("a label is empty")]
    EmptyLabel,
    /// A label has more than 63 octets.
    #[error("a label has more than 63 octets")]
    LongLabel,
    /// A label has an octet that is no letter, digit, hyphen or underscore.
    #[error("a label has a character that is no letter, digit, hyphen or underscore")]
    Character,
    /// The name has more than 255 octets, those of its labels' lengths included.
    #[error("the name has more than 255 octets")]
    TooLong,
    /// A growth was refused.
    #[error("out of memory")]
    Memory,
}

impl From<AllocError> for NameError {
    ghost from_gives = { λ _ e. e ≡ names.Memory };

    fn from(_e: AllocError) -> NameError {
        NameError::Memory
    }
}

impl<T: Drop> From<AllocFailed<T>> for NameError {
    ghost from_gives = { λ _ e. e ≡ names.Memory };

    fn from(_e: AllocFailed<T>) -> NameError {
        NameError::Memory
    }
}

/// Why options aren't made ready to be written.
#[derive(Clone, Copy, Debug, PartialEq, Eq, Error)]
pub enum OptionsError {
    /// The data of an option has more than 65,535 octets.
    #[error("the data of an option has more than 65,535 octets")]
    TooLong,
    /// A growth was refused.
    #[error("out of memory")]
    Memory,
}

impl From<AllocError> for OptionsError {
    ghost from_gives = { λ _ e. e ≡ options.Memory };

    fn from(_e: AllocError) -> OptionsError {
        OptionsError::Memory
    }
}

impl<T: Drop> From<AllocFailed<T>> for OptionsError {
    ghost from_gives = { λ _ e. e ≡ options.Memory };

    fn from(_e: AllocFailed<T>) -> OptionsError {
        OptionsError::Memory
    }
}
