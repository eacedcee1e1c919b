//! By how much the partner's clock is ahead of this one.

ghost use Rattle.std.specs.Prelude.{◌≡◌, ◌≤◌, ◌+◌, ◌↔◌, ◌+ℤ◌, pos, min, max};
ghost use Rattle.link_notices.specs.Clocks.{IsTooFarOff, IsAgreed};
ghost use Rattle.link_notices.specs.declared.clocks.ClockExchange.{ClockExchange as ExchangeValue};
ghost use Rattle.link_notices.specs.declared.clocks.ClockVerdict.TheVariants.{Agrees, TooFarOff, Unknown};

use lead_time::{Reading, Skew};

/// The least skew, in milliseconds, by which clocks are judged.
pub const LEAST_SKEW: u64 = 100;

/// A question to the partner what its clock shows, and the answer.
#[derive(Clone, Copy, Debug, PartialEq, Eq)]
pub struct ClockExchange {
    /// What this server's clock showed when it asked.
    pub asked: Reading,
    /// What the partner's clock showed when it answered.
    pub answered: Reading,
    /// What this server's clock showed when the answer was back.
    pub back: Reading,
}

/// By how many milliseconds the partner's clock is ahead of this one: from `least` to `most`. They are negative where
/// it is behind.
#[derive(Clone, Copy, Debug, PartialEq, Eq)]
pub struct ClockRange {
    pub least: i64,
    pub most: i64,
}

/// Whether two clocks may both be right.
#[derive(Clone, Copy, Debug, PartialEq, Eq)]
pub enum ClockVerdict {
    /// They differ by no more than two right clocks may.
    Agrees,
    /// They differ by more.
    TooFarOff,
    /// The answer took too long to say, or this server's clock was set back meanwhile.
    Unknown,
}

/// The skew by which two clocks are judged, in milliseconds: the lesser of the two that the servers name, and 100 ms at
/// least.
pub fn judged_skew(own: Skew, other: Skew) -> u64
    ensures value { result ≡ max (min own other) 100 }
    ensures within { result ≤ 86400000 }
{
    own.milliseconds().min(other.milliseconds()).max(LEAST_SKEW)
}

impl ClockExchange {
    /// By how much the partner's clock is ahead, whatever the delay of the link.
    pub fn range(&self) -> ClockRange
        ensures least { result.least +ℤ pos self.now.back ≡ pos self.now.answered }
        ensures most { result.most +ℤ pos self.now.asked ≡ pos self.now.answered }
    {
        let answered = self.answered.milliseconds() as i64;
        ClockRange {
            least: answered - self.back.milliseconds() as i64,
            most: answered - self.asked.milliseconds() as i64,
        }
    }

    /// Returns whether the two clocks may both be right, by the skews that the servers name.
    pub fn verdict(&self, own: Skew, other: Skew) -> ClockVerdict
        ensures agrees { (result ≡ Agrees) ↔ IsAgreed (max (min own other) 100) self.now }
        ensures off { (result ≡ TooFarOff) ↔ IsTooFarOff (max (min own other) 100) self.now }
    {
        let most = 2 * judged_skew(own, other);
        let asked = self.asked.milliseconds();
        let answered = self.answered.milliseconds();
        let back = self.back.milliseconds();
        if back < asked {
            return ClockVerdict::Unknown;
        }
        if back + most < answered || answered + most < asked {
            return ClockVerdict::TooFarOff;
        }
        if back <= answered + most && answered <= asked + most {
            return ClockVerdict::Agrees;
        }
        ClockVerdict::Unknown
    }
}
