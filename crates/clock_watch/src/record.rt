//! What both clocks showed, as it is kept.

ghost use Rattle.std.specs.Prelude.{◌≡◌};
ghost use Rattle.clock_watch.specs.Recording.{expected, compared};

use crate::boot_id::BootId;
use crate::watch::judged;
use lead_time::{Reading, Skew};

/// What both clocks showed.
#[derive(Clone, Copy, Debug, PartialEq, Eq)]
pub struct ClockRecord {
    /// The boot of the system.
    pub boot: BootId,
    /// The time of day.
    pub wall: Reading,
    /// How long the system had run, in milliseconds, by the monotonic clock.
    pub uptime: u64,
}

/// What two records say of the time of day.
#[derive(Clone, Copy, Debug, PartialEq, Eq)]
pub enum RecordVerdict {
    /// They are of two boots: nothing.
    Unknown,
    /// Nobody set it by more than twice the skew.
    Same,
    /// It was set: by the monotonic clock it would show this.
    Set { expected: Reading },
}

impl ClockRecord {
    /// What the time of day would show now, if nobody set it since.
    fn expected(&self, now: &ClockRecord) -> Reading
        ensures { result ≡ expected self.now now.now }
    {
        let sum = u128::from(self.wall.milliseconds()) + u128::from(now.uptime);
        let shown = sum.saturating_sub(u128::from(self.uptime));
        let shown = shown.min(u128::from(Reading::MAX)) as u64;
        Reading::new(shown).unwrap_or(self.wall)
    }

    /// What this record and one of now say of the time of day.
    pub fn compare(&self, now: &ClockRecord, skew: Skew) -> RecordVerdict
        ensures { result ≡ compared self.now now.now skew }
    {
        if self.boot != now.boot {
            return RecordVerdict::Unknown;
        }
        let bound = u128::from(2 * judged(skew));
        let shown = u128::from(now.wall.milliseconds()) + u128::from(self.uptime);
        let wanted = u128::from(self.wall.milliseconds()) + u128::from(now.uptime);
        if shown.abs_diff(wanted) <= bound {
            return RecordVerdict::Same;
        }
        RecordVerdict::Set {
            expected: self.expected(now),
        }
    }
}
