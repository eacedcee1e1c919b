//! What is told at most once a minute, or an hour.

ghost use Rattle.std.specs.Prelude.{◌≡◌, ◌↔◌, ◌<◌, true, false, IsTrue, IfSome, IsNone};
ghost use Rattle.server_log.specs.RateLimits.{one_more, IsOver, IsHourOver, IsDue};

use lead_time::Reading;

/// A minute, in milliseconds.
const MINUTE: u64 = 60_000;

/// An hour, in milliseconds.
const HOUR: u64 = 3_600_000;

/// When something was told last, and how often it has happened since.
#[derive(Clone, Copy, Debug, PartialEq, Eq)]
pub(crate) struct RateLimit {
    told: Reading,
    untold: u64,
}

impl RateLimit {
    /// It is told now.
    pub(crate) fn told(now: Reading) -> RateLimit
        ensures { result ≡ record { told = now; untold = 0 } }
    {
        RateLimit {
            told: now,
            untold: 0,
        }
    }

    /// It has happened again.
    pub(crate) fn add(&mut self)
        ensures { self.new ≡ record self.old { untold = one_more self.old.untold } }
    {
        self.untold = self.untold.saturating_add(1);
    }

    /// Returns whether the minute is over behind what was told last. A clock that was set back ends it too.
    fn is_over(&self, now: Reading) -> bool
        ensures { IsTrue result ↔ IsOver self.now.told now }
    {
        let (told, now) = (self.told.milliseconds(), now.milliseconds());
        now < told || told + MINUTE <= now
    }

    /// How often it happened in a minute that is over, which is told now; `None` in a minute that isn't over, and where
    /// it didn't happen.
    pub(crate) fn take(&mut self, now: Reading) -> Option<u64>
        ensures due { IfSome result (λ count. IsDue self.old now × (count ≡ self.old.untold)
            × (self.new ≡ record { told = now; untold = 0 })) }
        ensures not_yet { IsNone result → self.new ≡ self.old }
        ensures none { IsNone result ↔ (IsDue self.old now → ⊥) }
    {
        if self.untold == 0 || !self.is_over(now) {
            return None;
        }
        let count = self.untold;
        *self = RateLimit::told(now);
        Some(count)
    }

    /// Returns whether an hour is over behind what was told last, and then it is told now. A clock that was set back
    /// ends the hour too.
    pub(crate) fn take_hour(&mut self, now: Reading) -> bool
        ensures over { IsTrue result ↔ IsHourOver self.old.told now }
        ensures told { result ≡ true → self.new ≡ record { told = now; untold = 0 } }
        ensures not_yet { result ≡ false → self.new ≡ self.old }
    {
        let (told, read) = (self.told.milliseconds(), now.milliseconds());
        let is_over = read < told || told + HOUR <= read;
        if is_over {
            *self = RateLimit::told(now);
        }
        is_over
    }
}
