//! Why a request isn't done.

ghost use Rattle.std.specs.Prelude.{◌≡◌};
ghost use Rattle.service_state.specs.declared.refusal.RequestRefusal.TheVariants.{Memory};

use locked_book::ServeError;
use server_timers::RollBlocked;
use std::alloc::AllocError;
use thiserror::Error;

/// Why a request is refused.
#[derive(Clone, Copy, Debug, PartialEq, Eq, Error)]
pub enum RequestRefusal {
    /// The clock is too far behind the journal.
    #[error("the clock is behind the journal by more than twice the skew: set it right first")]
    ClockBehind,
    /// The clock was set.
    #[error("the clock was set: set it right, or say clock-accepted")]
    ClockSet,
    /// The clock is to be taken for right, and nobody set it.
    #[error("the clock wasn't set")]
    ClockNotSet,
    /// The server has yet to begin.
    #[error("it asks its partner's clock and writes no line yet")]
    AsksPartnerClock,
    /// The journal is short.
    #[error("this journal lacks messages that its partner took: stop this server, and see \"A lost disk\"")]
    JournalOlder,
    /// There is a connection with the partner.
    #[error("there is a connection with the partner: it runs")]
    PartnerConnected,
    /// The partner is taken for down already.
    #[error("the partner is taken for down already")]
    IsDown,
    /// The server waits for its partner's answer.
    #[error("this server waits for its partner's answer, since it doesn't know what its partner did meanwhile: start \
             the partner, on another machine if need be")]
    WaitsForPartner,
    /// The partner isn't taken for down.
    #[error("the partner isn't taken for down")]
    IsNotDown,
    /// The partner is taken for down.
    #[error("no volume may follow while the partner is taken for down")]
    PartnerDown,
    /// The same, where the volume would be closed.
    #[error("no volume may follow while the partner is taken for down: the next start would be refused (stop without \
             --close goes on)")]
    CloseWhileDown,
    /// A unit that was seized isn't acknowledged.
    #[error("no volume may follow before the partner has acknowledged the units that were seized from it")]
    UnitMarked,
    /// The same, where the volume would be closed.
    #[error("no volume may follow before the partner has acknowledged the units that were seized from it: the next \
             start would be refused (stop without --close goes on)")]
    CloseWhileMarked,
    /// The disk failed.
    #[error("the disk failed: this server ends, and has to be started again")]
    DiskFailed,
    /// The book takes no such line.
    #[error("{0}")]
    Book(ServeError),
    /// A growth was refused.
    #[error("out of memory")]
    Memory,
}

impl From<AllocError> for RequestRefusal {
    ghost from_gives = { λ _ e. e ≡ Memory };

    fn from(_error: AllocError) -> RequestRefusal {
        RequestRefusal::Memory
    }
}

impl From<RollBlocked> for RequestRefusal {
    fn from(bar: RollBlocked) -> RequestRefusal {
        match bar {
            RollBlocked::PartnerDown => RequestRefusal::PartnerDown,
            RollBlocked::UnitMarked => RequestRefusal::UnitMarked,
        }
    }
}
