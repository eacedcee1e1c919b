//! Whether a server's clock lets it begin.

ghost use Rattle.std.specs.Prelude.{◌≡◌};
ghost use Rattle.clock_watch.specs.Starts.{IsFirst, IsNext, AsksOn};

use crate::record::RecordVerdict;
use lead_time::Reading;
use link_notices::ClockVerdict;
use std::time::{Duration, Instant};

/// How many seconds a server asks its partner's clock before it begins without an answer.
const LONGEST_ASKING: u64 = 30;

/// Whether a server has a partner.
#[derive(Clone, Copy, Debug, PartialEq, Eq)]
pub enum PartnerLink {
    /// It is alone.
    None,
    Linked,
}

/// What a server knows of its partner's clock.
#[derive(Clone, Copy, Debug, PartialEq, Eq)]
pub enum PartnerSight {
    /// The partner said nothing of it yet.
    Unseen,
    /// The partner can't say it: it is of an older version, or the link has no key.
    Untold,
    /// What its last answer says.
    Told(ClockVerdict),
}

/// Whether a server's clock lets it begin, before it writes a line.
#[derive(Clone, Copy, Debug, PartialEq, Eq)]
pub enum StartClock {
    /// It asks its partner's clock since then.
    Asks { since: Instant },
    /// Its partner's clock is too far off.
    Differs,
    /// It was set since it was kept last: by the monotonic clock it would show this.
    Set { expected: Reading },
    /// It begins.
    Begins,
}

impl StartClock {
    /// What a start begins with, by what was kept of the clock in its directory.
    pub fn first(kept: RecordVerdict, link: PartnerLink, now: Instant) -> StartClock
        ensures { IsFirst kept link now result }
    {
        match (kept, link) {
            (RecordVerdict::Set { expected }, _) => StartClock::Set { expected },
            (RecordVerdict::Same | RecordVerdict::Unknown, PartnerLink::Linked) => {
                StartClock::Asks { since: now }
            }
            (RecordVerdict::Same | RecordVerdict::Unknown, PartnerLink::None) => {
                StartClock::Begins
            }
        }
    }

    /// What it is after a turn, by what the partner's clock and the kept record say now.
    pub fn next(&self, sight: PartnerSight, kept: RecordVerdict, now: Instant) -> StartClock
        ensures { IsNext self.now sight kept now result }
    {
        if let PartnerSight::Told(ClockVerdict::Agrees) = sight {
            return StartClock::Begins;
        }
        match self {
            StartClock::Begins => StartClock::Begins,
            StartClock::Differs => StartClock::Differs,
            StartClock::Set { .. } => match kept {
                RecordVerdict::Set { expected } => StartClock::Set { expected },
                RecordVerdict::Same | RecordVerdict::Unknown => StartClock::Begins,
            },
            StartClock::Asks { since } => match sight {
                PartnerSight::Told(ClockVerdict::TooFarOff) => StartClock::Differs,
                PartnerSight::Untold => StartClock::Begins,
                PartnerSight::Unseen | PartnerSight::Told(_) => asks_on(*since, now),
            },
        }
    }
}

/// A server that nobody answered goes on to ask, up to the longest time.
fn asks_on(since: Instant, now: Instant) -> StartClock
    ensures { AsksOn since now result }
{
    if now.duration_since(since) < Duration::from_secs(LONGEST_ASKING) {
        StartClock::Asks { since }
    } else {
        StartClock::Begins
    }
}
