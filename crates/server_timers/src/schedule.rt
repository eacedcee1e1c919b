//! When a server owes something.

ghost use Rattle.std.specs.Prelude.{◌≡◌, ◌↔◌, IsTrue, IfSome, IsNone};
ghost use Rattle.server_timers.specs.Timers.{AreTimerSettings, IsContactDue, IsOldEnough, IsRollDue, IsRoll, IsRoom};
ghost use Rattle.server_timers.specs.Timers.{IsShortFor};

use crate::due_actions::{DueActions, OperatorRequest, RollBlocked, RollState, Room};
use crate::growth::{Growth, HOUR};
use lead_time::Reading;
use std::marker::Model;

/// The seconds of an hour.
const HOUR_SECONDS: u64 = 3600;

/// When a running server owes a contact or a roll. Contracts see the record of specs/Timers.
#[derive(Clone, Copy, Debug, PartialEq, Eq)]
pub struct Timers {
    heartbeat: u32,
    volume_lines: u32,
    volume_hours: u32,
}

impl Model for Timers {
    ghost use Rattle.server_timers.specs.Timers.{TimerSettings, AreTimerSettings};

    ghost Value = { TimerSettings };

    ghost view = { λ u. record {
      heartbeat = u.heartbeat;
      volume_lines = u.volume_lines;
      volume_hours = u.volume_hours;
    } };

    ghost invariant = { λ u. AreTimerSettings (record {
      heartbeat = u.heartbeat;
      volume_lines = u.volume_lines;
      volume_hours = u.volume_hours;
    }) };

    ghost inverse = { λ l. record {
      heartbeat = l.heartbeat;
      volume_lines = l.volume_lines;
      volume_hours = l.volume_hours;
    } };
}

impl Timers {
    /// Where settings say nothing: a minute without a line, 200,000 lines, a day.
    pub const DEFAULT: Timers = Timers {
        heartbeat: 60,
        volume_lines: 200_000,
        volume_hours: 24,
    };

    /// A contact after `heartbeat` seconds without a line; a roll after `volume_lines` lines behind the head lines and
    /// after `volume_hours` hours. `None` where one of them is 0.
    pub fn new(heartbeat: u32, volume_lines: u32, volume_hours: u32) -> Option<Timers>
        ensures made { IfSome result (λ u.
            u ≡ record { heartbeat = heartbeat; volume_lines = volume_lines; volume_hours = volume_hours }) }
        ensures none { IsNone result ↔ (AreTimerSettings (record {
          heartbeat = heartbeat;
          volume_lines = volume_lines;
          volume_hours = volume_hours;
        }) → ⊥) }
    {
        if heartbeat == 0 || volume_lines == 0 || volume_hours == 0 {
            return None;
        }
        Some(Timers {
            heartbeat,
            volume_lines,
            volume_hours,
        })
    }

    /// After how many seconds without a line that tells its partner anything a server says that it lives.
    pub fn heartbeat(&self) -> u32
        ensures { result ≡ self.now.heartbeat }
    {
        self.heartbeat
    }

    /// Returns whether a volume holds fewer than seven renewals of leases of so many seconds, each of which comes at
    /// half of that (RFC 8415, section 21.21: T1). Most evidence of a lease is in the volume in which it was granted.
    pub fn is_short_for(&self, life: u32) -> bool
        ensures { IsTrue result ↔ IsShortFor self.now life }
    {
        2 * HOUR_SECONDS * u64::from(self.volume_hours) < 7 * u64::from(life)
    }

    /// Returns whether nothing was written for so long that tells the partner anything.
    fn is_contact_due(&self, growth: &Growth, now: Reading) -> bool
        ensures { IsTrue result ↔ IsContactDue self.now growth.now now }
    {
        growth.spoken.milliseconds() + 1000 * u64::from(self.heartbeat) <= now.milliseconds()
    }

    /// Returns whether the volume is old enough.
    fn is_old_enough(&self, growth: &Growth, now: Reading) -> bool
        ensures { IsTrue result ↔ IsOldEnough self.now growth.now now }
    {
        growth.opened.milliseconds() + HOUR * u64::from(self.volume_hours) <= now.milliseconds()
    }

    /// Returns whether the volume is to be followed, where the rules let.
    fn is_roll_due(&self, growth: &Growth, now: Reading, told: OperatorRequest) -> bool
        ensures { IsTrue result ↔ IsRollDue self.now growth.now now told }
    {
        told == OperatorRequest::Roll
            || growth.lines_written() >= self.volume_lines as usize
            || self.is_old_enough(growth, now)
            || growth.is_full()
    }

    /// Whether the volume is to be followed.
    fn roll_state(
        &self,
        growth: &Growth,
        now: Reading,
        bar: Option<RollBlocked>,
        told: OperatorRequest,
    ) -> RollState
        ensures { IsRoll (IsRollDue self.now growth.now now told) bar result }
    {
        if !self.is_roll_due(growth, now, told) {
            return RollState::NotDue;
        }
        match bar {
            Some(bar) => RollState::Blocked(bar),
            None => RollState::Due,
        }
    }

    /// What a server owes whose clock reads `now`, by what its volume has, what forbids a roll, and what it was told.
    pub fn due_actions(
        &self,
        growth: &Growth,
        now: Reading,
        bar: Option<RollBlocked>,
        told: OperatorRequest,
    ) -> DueActions
        ensures contact { IsTrue result.contact ↔ IsContactDue self.now growth.now now }
        ensures roll { IsRoll (IsRollDue self.now growth.now now told) bar result.roll }
        ensures room { IsRoom growth.now now result.room }
    {
        DueActions {
            contact: self.is_contact_due(growth, now),
            roll: self.roll_state(growth, now, bar, told),
            room: room_left(growth, now),
        }
    }
}

/// How much room the volume has.
fn room_left(growth: &Growth, now: Reading) -> Room
    ensures { IsRoom growth.now now result }
{
    if growth.is_full() {
        Room::Full
    } else if growth.is_full_within_hour(now) {
        Room::FullWithinHour
    } else {
        Room::Enough
    }
}
