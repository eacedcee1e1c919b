//! Moments: what calendar and clock show, as milliseconds since 1970 UTC.

ghost use Rattle.std.specs.Prelude.{◌≡◌, ◌≤◌, ◌^◌, ◌+◌, ◌/◌, ◌%◌, ℕ, None, IfSome};
ghost use Rattle.time_text.specs.Calendar.{IsDate, IsClock, IsOffset, IsShownAt, first_day, day_number, since_midnight};

use crate::calendar::Date;
use crate::clock::{Clock, Offset};
use lead_time::Reading;

/// The milliseconds of a day.
const DAY: u64 = 86_400_000;

/// The number of the first of January 1970.
const FIRST_DAY: u64 = 719_529;

/// The moment at which calendar and clock show this at this offset, where it is one that a reading may have.
#[tactic(auto, using(crate::proofs::Years::first_day_is))]
pub fn moment_of(date: &Date, clock: &Clock, offset: &Offset) -> Option<Reading>
    requires date { IsDate date.now }
    requires year { date.now.year ≤ 2 ^ 20 }
    requires clock { IsClock clock.now }
    requires millisecond { clock.now.millisecond ≤ 1000 }
    requires offset { IsOffset offset.now }
    ensures found { IfSome result (IsShownAt date.now clock.now offset.now) }
    ensures none { result ≡ None → (m : ℕ) → m ≤ 2 ^ 48 → IsShownAt date.now clock.now offset.now m → ⊥ }
{
    let shown = DAY * date.number() + clock.since_midnight();
    let utc = (shown + offset.behind()).checked_sub(offset.ahead())?;
    Reading::new(utc.checked_sub(DAY * FIRST_DAY)?).ok()
}

/// The last moment of the year 9999, in milliseconds since 1970 UTC.
pub const LAST: u64 = 253_402_300_799_999;

/// Returns what the calendar shows in UTC.
#[tactic(auto, using(crate::proofs::Years::first_day_is))]
pub fn date_at(moment: u64) -> Date
    requires { moment ≤ 253402300799999 }
    ensures date { IsDate result }
    ensures four_digits { result.year ≤ 9999 }
    ensures number { day_number result ≡ first_day + moment / 86400000 }
{
    Date::with_number(FIRST_DAY + moment / DAY)
}

/// Returns what a clock shows in UTC.
pub fn clock_at(moment: u64) -> Clock
    ensures clock { IsClock result }
    ensures three_decimals { result.millisecond ≤ 999 }
    ensures since { since_midnight result ≡ moment % 86400000 }
{
    let millisecond = moment % DAY;
    let second = millisecond / 1000;
    let minute = second / 60;
    Clock {
        hour: minute / 60,
        minute: minute % 60,
        second: second % 60,
        millisecond: millisecond % 1000,
    }
}
