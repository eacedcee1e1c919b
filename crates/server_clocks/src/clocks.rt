//! What the clocks read.

ghost use Rattle.std.specs.Prelude.{⊤, IfSome, IsNone};

use lead_time::Reading;
use node_threads::{Clock, SystemClock};
use std::time::{Clock as Handle, Instant};

/// What the clocks read in one call of [`Clocks::now`]: first the instant, then the reading. So what is done by the
/// reading was begun no earlier than the instant.
#[derive(Clone, Copy)]
pub struct Moment {
    /// The time since some start, which never goes back: pauses are measured by it.
    pub instant: Instant,
    /// The time, which may be set: the lines of a book have it.
    pub reading: Reading,
}

/// Clocks that tell the time.
pub trait Clocks: Drop {
    ghost use Rattle.server_clocks.specs.declared.clocks.Moment.{Moment as MomentValue};

    /// A call of `now` may have given this moment. Nothing else says so: a contract that promises it of a moment, and
    /// has none before, wants a call.
    ghost gives: { MomentValue → Type 0 };

    /// A clock told no time.
    ghost fails: { Type 0 };

    /// What they read now; `None` where a clock tells no time.
    fn now(&self) -> Option<Moment>
        ensures given { IfSome result gives }
        ensures failed { IsNone result → fails };
}

/// The system's clocks, by a handle of the runtime.
#[derive(Drop)]
pub struct SystemClocks<'a, R: Handle> {
    handle: &'a R,
}

impl<'a, R: Handle> SystemClocks<'a, R> {
    pub fn new(handle: &'a R) -> SystemClocks<'a, R> {
        SystemClocks { handle }
    }
}

impl<R: Handle> Clocks for SystemClocks<'_, R> {
    ghost gives = { λ _. ⊤ };

    ghost fails = { ⊤ };

    fn now(&self) -> Option<Moment> {
        let instant = Instant::now(self.handle).ok()?;
        let reading = SystemClock::new(self.handle).now().ok()?;
        Some(Moment { instant, reading })
    }
}
