//! What becomes of a datagram.

use client_service::NoReplyReason;
use dhcp6_pd::{ClientKind, PdError};
use thiserror::Error;

/// What became of a datagram that came.
#[derive(Clone, Copy, Debug, PartialEq, Eq, Error)]
pub enum DatagramOutcome {
    /// It is a message of this type, and its answer is held back until its lines are on the disk.
    #[error("its answer is held back")]
    Answered(ClientKind),
    /// It is a message, and has no answer.
    #[error("it has no answer: {0}")]
    Unanswered(NoReplyReason),
    /// It is a request for options alone, and its answer is held back.
    #[error("its answer is held back")]
    AnsweredInformation,
    /// It is a request for options alone, and has no answer.
    #[error("it has no answer: {0}")]
    UnansweredInformation(NoReplyReason),
    /// It is a message, and its client sends too many: nothing was done.
    #[error("its client sends too many messages")]
    TooMany,
    /// It is a message about what the partner knows of, and this server doesn't: nothing was done.
    #[error("it is left to the partner")]
    LeftToPartner,
    /// It is a RELEASE of what the partner may tell its client again: nothing was done.
    #[error("its client gives back what the partner may tell it again")]
    EarlyRelease,
    /// It is no message to the server, or there was no memory to read it.
    #[error("it is no message: {0}")]
    Malformed(PdError),
}
