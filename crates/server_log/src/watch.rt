//! What lasts, and is told a person once.

ghost use Rattle.std.specs.Prelude.{◌≡◌};
ghost use Rattle.server_log.specs.Watches.{clock_seen, journal_seen};

use crate::log::Log;
use crate::log_event::LogEvent;
use lead_time::Reading;
use server_status::{ClockState, JournalState};
use server_timers::{DueActions, RollState, Room};

/// How a clock was seen.
#[derive(Clone, Copy, Debug, PartialEq, Eq)]
pub enum SeenClock {
    /// It may go on with the journal.
    Right,
    /// It fell too far behind the journal.
    Behind,
    /// It was set: it shows this, and by the monotonic clock it would show that.
    Set { shows: Reading, expected: Reading },
}

impl SeenClock {
    /// Returns whether the clock may go on with the journal.
    pub fn state(&self) -> ClockState
        ensures { result ≡ clock_seen self.now }
    {
        match self {
            SeenClock::Right => ClockState::Right,
            SeenClock::Behind => ClockState::Behind,
            SeenClock::Set { .. } => ClockState::Set,
        }
    }

    /// What a person is told where it wasn't so before.
    fn event(&self) -> LogEvent {
        match self {
            SeenClock::Right => LogEvent::ClockRight,
            SeenClock::Behind => LogEvent::ClockBehind,
            SeenClock::Set { shows, expected } => LogEvent::ClockSet {
                shows: *shows,
                expected: *expected,
            },
        }
    }
}

/// What was seen last of what lasts: each change is told once.
#[derive(Clone, Copy)]
pub struct StateWatch {
    clock: ClockState,
    journal: JournalState,
    roll: RollState,
    room: Room,
}

impl StateWatch {
    /// All was well.
    pub fn new() -> StateWatch {
        StateWatch {
            clock: ClockState::Right,
            journal: JournalState::Whole,
            roll: RollState::NotDue,
            room: Room::Enough,
        }
    }

    /// Whether the clock may go on with the journal, by what was seen last.
    pub fn clock(&self) -> ClockState
        ensures { result ≡ self.now.clock }
    {
        self.clock
    }

    /// Sees how the clock is, and tells it where it wasn't so before.
    pub fn see_clock<L: Print>(&mut self, seen: &SeenClock, log: &Log<'_, L>)
        ensures { self.new ≡ record self.old { clock = clock_seen seen.now } }
    {
        let clock = seen.state();
        if clock == self.clock {
            return;
        }
        self.clock = clock;
        log.log(&seen.event());
    }

    /// Whether the journal has all that the partner took of it, by what was seen so far.
    pub fn journal(&self) -> JournalState
        ensures { result ≡ self.now.journal }
    {
        self.journal
    }

    /// Sees how the journal is. Once it was older than what its partner took, it stays so.
    pub fn see_journal<L: Print>(&mut self, journal: &JournalState, log: &Log<'_, L>)
        ensures { self.new ≡ record self.old { journal = journal_seen self.old.journal journal.now } }
    {
        if let (JournalState::Whole, JournalState::Older(_)) = (self.journal, journal) {
            self.journal = *journal;
            log.log(&LogEvent::JournalOlder);
        }
    }

    /// Sees what is owed.
    pub fn see_owed<L: Print>(&mut self, owed: &DueActions, log: &Log<'_, L>) {
        if owed.roll != self.roll {
            self.roll = owed.roll;
            if let RollState::Blocked(bar) = owed.roll {
                log.log(&LogEvent::RollForbidden(bar));
            }
        }
        if owed.room != self.room {
            self.room = owed.room;
            match owed.room {
                Room::Enough => {}
                Room::FullWithinHour => log.log(&LogEvent::NearlyFull),
                Room::Full => log.log(&LogEvent::Full),
            }
        }
    }
}
