//! The time of a day, and the offset from UTC at which a clock shows it (RFC 3339, section 5.6).

ghost use Rattle.std.specs.Prelude.{◌≡◌, ◌≤◌, ◌^◌, ◌+◌, ◌*◌, ◌↔◌, IsTrue};
ghost use Rattle.time_text.specs.Calendar.{since_midnight, ahead, behind, IsClock, IsOffset};

/// What a clock shows.
#[derive(Clone, Copy, Debug)]
pub struct Clock {
    pub hour: u64,
    pub minute: u64,
    pub second: u64,
    pub millisecond: u64,
}

/// How far local time is ahead of UTC, or behind it.
#[derive(Clone, Copy, Debug)]
pub struct Offset {
    pub is_behind: bool,
    pub hour: u64,
    pub minute: u64,
}

impl Clock {
    /// Returns whether a clock shows it on a day of 24 hours.
    pub fn is_real(&self) -> bool
        ensures { IsTrue result ↔ IsClock self.now }
    {
        self.hour <= 23 && self.minute <= 59 && self.second <= 59
    }

    /// The milliseconds since midnight.
    pub fn since_midnight(&self) -> u64
        requires clock { IsClock self.now }
        requires millisecond { self.now.millisecond ≤ 1000 }
        ensures value { result ≡ since_midnight self.now }
        ensures within { result ≤ 2 ^ 27 }
    {
        1000 * (60 * (60 * self.hour + self.minute) + self.second) + self.millisecond
    }
}

impl Offset {
    /// Returns whether its hours and minutes are those of a clock.
    pub fn is_real(&self) -> bool
        ensures { IsTrue result ↔ IsOffset self.now }
    {
        self.minute <= 59 && self.hour <= 23
    }

    fn milliseconds(&self) -> u64
        requires { IsOffset self.now }
        ensures value { result ≡ 60000 * (60 * self.now.hour + self.now.minute) }
        ensures within { result ≤ 2 ^ 27 }
    {
        60_000 * (60 * self.hour + self.minute)
    }

    /// The milliseconds by which local time is ahead of UTC, or 0.
    pub fn ahead(&self) -> u64
        requires { IsOffset self.now }
        ensures value { result ≡ ahead self.now }
        ensures within { result ≤ 2 ^ 27 }
    {
        if self.is_behind {
            0
        } else {
            self.milliseconds()
        }
    }

    /// The milliseconds by which it is behind, or 0.
    pub fn behind(&self) -> u64
        requires { IsOffset self.now }
        ensures value { result ≡ behind self.now }
        ensures within { result ≤ 2 ^ 27 }
    {
        if self.is_behind {
            self.milliseconds()
        } else {
            0
        }
    }
}
