//! What is owed.

ghost use Rattle.std.specs.Prelude.{◌≡◌};
ghost use Rattle.server_timers.specs.Timers.{blocked_by};

use lead_time::Reading;
use prefix_range::Prefix;

/// What a person told a server.
#[derive(Clone, Copy, Debug, PartialEq, Eq)]
pub enum OperatorRequest {
    Nothing,
    /// To begin the next volume now.
    Roll,
}

/// Why the rules let no volume be followed.
#[derive(Clone, Copy, Debug, PartialEq, Eq)]
pub enum RollBlocked {
    /// The partner is taken for down.
    PartnerDown,
    /// The partner has yet to acknowledge a unit that was seized from it.
    UnitMarked,
}

/// Whether the volume is to be followed by the next.
#[derive(Clone, Copy, Debug, PartialEq, Eq)]
pub enum RollState {
    NotDue,
    Due,
    /// It is due, and this forbids it: later, then.
    Blocked(RollBlocked),
}

/// How much room the volume has.
#[derive(Clone, Copy, Debug, PartialEq, Eq)]
pub enum Room {
    Enough,
    /// It is full within an hour, by the rate seen.
    FullWithinHour,
    /// Only a close line has room.
    Full,
}

/// What a server owes by now.
#[derive(Clone, Copy, Debug, PartialEq, Eq)]
pub struct DueActions {
    /// Whether a contact is due.
    pub contact: bool,
    pub roll: RollState,
    pub room: Room,
}

impl RollBlocked {
    /// What forbids a roll, by the reading since which the partner is taken for down and by a unit that it has yet to
    /// acknowledge, one of all: what `Book::next_mark` finds from address 0 on.
    pub fn of(down: Option<Reading>, mark: Option<Prefix>) -> Option<RollBlocked>
        ensures { result ≡ blocked_by down mark }
    {
        if down.is_some() {
            Some(RollBlocked::PartnerDown)
        } else if mark.is_some() {
            Some(RollBlocked::UnitMarked)
        } else {
            None
        }
    }
}
