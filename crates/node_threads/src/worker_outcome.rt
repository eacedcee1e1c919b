//! What becomes of a datagram that came.

ghost use Rattle.std.specs.Prelude.{◌≡◌};
ghost use Rattle.node_threads.specs.Noticing.{notice_of};

use crate::notices::Notice;
use client_service::NoReplyReason;
use dhcp6_pd::PdError;
use locked_book::ServeError;
use order_book::BookError;
use thiserror::Error;

/// What became of a datagram that came. Nothing is sent but an answer.
#[derive(Clone, Copy, Debug, PartialEq, Eq, Error)]
pub enum WorkerOutcome {
    /// Its answer was sent to its peer.
    #[error("it was answered")]
    Answered,
    /// It is a message, and has no answer.
    #[error("it has no answer: {0}")]
    Unanswered(NoReplyReason),
    /// It is no message to the server, or there was no memory to read it.
    #[error("it is no message: {0}")]
    Unread(PdError),
}

impl WorkerOutcome {
    /// Returns what a person is to know by it.
    pub(crate) fn notice(&self) -> Option<Notice>
        ensures { result ≡ notice_of self.now }
    {
        match self {
            WorkerOutcome::Unanswered(NoReplyReason::Refused(ServeError::Book(BookError::Full))) =>
                { Some(Notice::JournalFull) }
            _ => None,
        }
    }
}
