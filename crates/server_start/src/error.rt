//! Why a server doesn't start.

ghost use Rattle.std.specs.Prelude.{◌≡◌};
ghost use Rattle.server_start.specs.declared.error.StartError.TheVariants.{Memory};

use crate::opened_settings::OpenedSettings;
use crate::setting::DifferingSettings;
use lead_time::Reading;
use order_book::BookError;
use std::alloc::AllocError;
use thiserror::Error;

/// Why a server doesn't start.
#[derive(Debug, Drop, Error)]
pub enum StartError {
    /// Settings differ from those that the journal was opened with.
    #[error("these settings differ from the journal's, and have to be as they were: {differing}")]
    Settings {
        differing: DifferingSettings,
        /// What the journal was opened with.
        opening: OpenedSettings,
    },
    /// The clock reads more than twice the skew below the journal's last line.
    #[error("set the clock right: it reads {} ms, and the journal {} ms", .now.milliseconds(), .last.milliseconds())]
    ClockBehind {
        now: Reading,
        last: Reading,
    },
    /// The settings of a new directory have no transit: a lease would begin late by as long as its answer is under way.
    #[error("transit_ms: wants 1 to 3600000 in a new directory, has 0")]
    NoTransit,
    /// The last volume is closed, and none may follow it: the partner was taken for down, or hadn't acknowledged a unit
    /// that was seized from it.
    #[error("the last volume was closed while the partner was taken for down or had seized units to acknowledge: \
             none may follow it, and both servers need new books")]
    NoVolumeFollows,
    /// The book refuses the line `restart`, and why: it is full, say.
    #[error("the journal takes no line `restart`: {0}")]
    Refused(BookError),
    /// A growth was refused.
    #[error("out of memory")]
    Memory,
}

impl From<AllocError> for StartError {
    ghost from_gives = { λ _ e. e ≡ Memory };

    fn from(_error: AllocError) -> StartError {
        StartError::Memory
    }
}
