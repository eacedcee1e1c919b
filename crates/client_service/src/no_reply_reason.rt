//! Why a message has no answer.

use locked_book::ServeError;
use thiserror::Error;

/// Why a client's message has no answer. The lines of IA_PDs that were served before stand.
#[derive(Clone, Copy, Debug, PartialEq, Eq, Error)]
pub enum NoReplyReason {
    /// The message has no IA_PD.
    #[error("the message has no IA_PD")]
    NothingRequested,
    /// The order of an IA_PD ended in what no client is told: any refusal but `NoPrefix` and `NoBinding`.
    #[error("an order was refused: {0}")]
    Refused(ServeError),
    /// It is a REBIND of nothing that the server has a binding for, and another server may have it.
    #[error("nothing is known of what it asks for, and another server may know it")]
    UnknownBinding,
    /// The answer has more than 65,535 octets.
    #[error("the answer has more than 65,535 octets")]
    TooLong,
    /// A growth was refused.
    #[error("out of memory")]
    Memory,
}
