//! Why octets are no client message, and why an answer was not written.

ghost use Rattle.std.specs.Prelude.{◌≡◌};
ghost use Rattle.dhcp6_pd.specs.declared.error.PdError.TheVariants.{Fault, Memory};

use std::alloc::{AllocError, AllocFailed};
use thiserror::Error;

/// What is wrong with a datagram, where its first fault is (RFC 8415, sections 8, 9, 16 and 21).
#[derive(Clone, Copy, Debug, PartialEq, Eq, Error)]
pub enum PdFault {
    /// A fixed part or an option's header is cut, or a relay has no relay message.
    #[error("the message ends within a fixed part")]
    Short,
    /// An option runs past its container, or is too short or too long for what it holds.
    #[error("an option's length does not fit")]
    OptionLength,
    /// A second client identifier, server identifier, relay message or interface identifier in one message or relay,
    /// or a second remote identifier in one relay.
    #[error("an option that may stand once stands twice")]
    DuplicateId,
    /// The message has no client identifier.
    #[error("the message has no client identifier")]
    NoClientId,
    /// A SOLICIT or REBIND has a server identifier.
    #[error("the message may not have a server identifier")]
    ServerIdPresent,
    /// A REQUEST, RENEW or RELEASE has no server identifier.
    #[error("the message has no server identifier")]
    ServerIdMissing,
    /// The server identifier is another server's.
    #[error("the message is for another server")]
    NotOurs,
    /// More than 32 relays.
    #[error("the message came by more than 32 relays")]
    TooDeep,
    /// More than 16 IA_PDs.
    #[error("the message has more than 16 IA_PDs")]
    TooManyIas,
    /// A message of a type that is not read.
    #[error("messages of this type are not read")]
    Ignored,
    /// A prefix has at most 128 bits.
    #[error("a prefix has at most 128 bits")]
    BadPrefixLength,
}

/// Why a datagram was not read, or an answer not written.
#[derive(Clone, Copy, Debug, PartialEq, Eq, Error)]
pub enum PdError {
    /// The octets are no client message for this server.
    #[error("{0}")]
    Fault(PdFault),
    /// The answer has more than 65,535 octets.
    #[error("the answer has more than 65,535 octets")]
    TooLong,
    /// A growth was refused.
    #[error("out of memory")]
    Memory,
}

impl From<PdFault> for PdError {
    ghost from_gives = { λ fault e. e ≡ Fault fault };

    fn from(fault: PdFault) -> PdError {
        PdError::Fault(fault)
    }
}

impl From<AllocError> for PdError {
    ghost from_gives = { λ _ e. e ≡ Memory };

    fn from(_e: AllocError) -> PdError {
        PdError::Memory
    }
}

impl<T: Drop> From<AllocFailed<T>> for PdError {
    ghost from_gives = { λ _ e. e ≡ Memory };

    fn from(_e: AllocFailed<T>) -> PdError {
        PdError::Memory
    }
}
