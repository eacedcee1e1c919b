//! Pauses of a wire, and the seconds that they make up.

ghost use Rattle.std.specs.Prelude.{◌≡◌, ◌≤◌, ◌+◌, ◌↔◌, IsTrue, if◌then◌else◌};
ghost use Rattle.node_threads.specs.Noticing.{notice_after, pauses_after};

use crate::notices::Notice;
use crate::wire::Got;

/// How many milliseconds a read waits for octets: a pause. It is slept, since the time limit that the system has for a
/// read counts ticks of a timer: with one every 4 ms it would be 8 ms.
pub(crate) const PAUSE: u64 = 2;

/// How many pauses are a second.
pub const PAUSES_A_SECOND: u32 = 500;

/// Behind how many pauses without octets a person is told of it: 10 s.
const LONG: u32 = 10 * PAUSES_A_SECOND;

/// The count of pauses in which nothing came, until they fill a second.
#[derive(Clone, Copy, Debug, PartialEq, Eq)]
pub struct IdleTimer {
    count: u32,
}

impl IdleTimer {
    /// None yet.
    pub fn new() -> IdleTimer
        ensures { result.count ≡ 0 }
    {
        IdleTimer { count: 0 }
    }

    /// Begins again, since something came.
    pub fn begin(&mut self)
        ensures { self.new.count ≡ 0 }
    {
        self.count = 0;
    }

    /// One pause more. Returns whether it fills a second: the next one then begins another.
    pub fn fills_a_second(&mut self) -> bool
        ensures full { IsTrue result ↔ (500 ≤ self.old.count + 1) }
        ensures next { self.new.count ≡ (if result then 0 else self.old.count + 1) }
    {
        let count = self.count.saturating_add(1);
        if count < PAUSES_A_SECOND {
            self.count = count;
            return false;
        }
        self.count = 0;
        true
    }
}

/// The count of pauses since octets came last.
#[derive(Clone, Copy)]
pub(crate) struct SilenceTimer {
    pauses: u32,
}

impl SilenceTimer {
    /// None yet.
    pub(crate) fn new() -> SilenceTimer
        ensures { result.pauses ≡ 0 }
    {
        SilenceTimer { pauses: 0 }
    }

    /// What a read brought. Returns what a person is to know by it: once, where it makes the quiet ten seconds long.
    pub(crate) fn notice(&mut self, got: &Got) -> Option<Notice>
        ensures long { result ≡ notice_after self.old.pauses got.now }
        ensures next { self.new.pauses ≡ pauses_after self.old.pauses got.now }
    {
        match got {
            Got::Idle => {
                self.pauses = self.pauses.saturating_add(1);
                if self.pauses == LONG {
                    Some(Notice::PartnerSilent)
                } else {
                    None
                }
            }
            Got::Octets(_) | Got::End => {
                self.pauses = 0;
                None
            }
        }
    }
}
