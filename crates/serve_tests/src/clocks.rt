//! Clocks of a trial.

ghost use Rattle.std.specs.Prelude.{⊤};

use lead_time::Reading;
use server_clocks::{Clocks, Moment};
use std::io;
use std::time::{Clock as Handle, Duration, Instant};

/// Clocks that stand still at a reading.
#[derive(Drop)]
pub(crate) struct StillClocks(pub Reading);

/// A monotonic clock that stands at its start.
struct Start;

impl Handle for Start {
    fn monotonic(&self) -> io::Result<Duration> {
        Ok(Duration::ZERO)
    }

    fn since_1970(&self) -> io::Result<Duration> {
        Ok(Duration::ZERO)
    }
}

impl Clocks for StillClocks {
    ghost gives = { λ _. ⊤ };

    ghost fails = { ⊤ };

    fn now(&self) -> Option<Moment> {
        let instant = Instant::now(&Start).ok()?;
        Some(Moment {
            instant,
            reading: self.0,
        })
    }
}
