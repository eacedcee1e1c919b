//! Writing a time.

ghost use Rattle.std.specs.Prelude.{◌≡◌, ◌≤◌, ◌+◌, ◌++◌, List, ℕ, OnOk};
ghost use Rattle.time_text.specs.Calendar.{IsDate, IsClock};
ghost use Rattle.time_text.specs.Time.{two, three, date_text, clock_text, IsClockText, IsTimeText};

use crate::calendar::Date;
use crate::clock::Clock;
use crate::moment::{LAST, clock_at, date_at};
use lead_time::Reading;
use std::alloc::AllocError;
use text_fields::push_number;

/// One digit.
fn digit(n: u64) -> u8
    requires { n ≤ 9 }
    ensures { result ≡ 48 + n }
{
    b'0' + n as u8
}

/// Two digits.
fn push_two(out: &mut Vec<u8>, n: u64) -> Result<(), AllocError>
    requires { n ≤ 99 }
    ensures { OnOk result (out.new.items ≡ out.old.items ++ two n) }
{
    out.extend_from_slice(&[digit(n / 10), digit(n % 10)])
}

/// Three digits.
fn push_three(out: &mut Vec<u8>, n: u64) -> Result<(), AllocError>
    requires { n ≤ 999 }
    ensures { OnOk result (out.new.items ≡ out.old.items ++ three n) }
{
    out.push(digit(n / 100))?;
    push_two(out, n % 100)
}

fn push_date(out: &mut Vec<u8>, date: &Date) -> Result<(), AllocError>
    requires date { IsDate date.now }
    requires four_digits { date.now.year ≤ 9999 }
    ensures { OnOk result (out.new.items ≡ out.old.items ++ date_text date.now) }
{
    push_two(out, date.year / 100)?;
    push_two(out, date.year % 100)?;
    out.push(b'-')?;
    push_two(out, date.month)?;
    out.push(b'-')?;
    push_two(out, date.day)
}

fn push_clock(out: &mut Vec<u8>, clock: &Clock) -> Result<(), AllocError>
    requires clock { IsClock clock.now }
    requires three_decimals { clock.now.millisecond ≤ 999 }
    ensures { OnOk result (out.new.items ≡ out.old.items ++ clock_text clock.now) }
{
    push_two(out, clock.hour)?;
    out.push(b':')?;
    push_two(out, clock.minute)?;
    out.push(b':')?;
    push_two(out, clock.second)?;
    out.push(b'.')?;
    push_three(out, clock.millisecond)
}

fn push_moment(out: &mut Vec<u8>, moment: u64) -> Result<(), AllocError>
    requires { moment ≤ 253402300799999 }
    ensures { OnOk result ((text : List ℕ) × (out.new.items ≡ out.old.items ++ text) × IsClockText moment text) }
{
    push_date(out, &date_at(moment))?;
    out.push(b'T')?;
    push_clock(out, &clock_at(moment))?;
    out.push(b'Z')?;
    Ok(())
}

/// Appends the moment in UTC, as RFC 3339 writes it, with three decimals: or its milliseconds, where it is behind the
/// year 9999.
pub fn push_time(out: &mut Vec<u8>, moment: Reading) -> Result<(), AllocError>
    ensures { OnOk result ((text : List ℕ) × (out.new.items ≡ out.old.items ++ text) × IsTimeText moment text) }
{
    let milliseconds = moment.milliseconds();
    if milliseconds > LAST {
        push_number(out, milliseconds)
    } else {
        push_moment(out, milliseconds)
    }
}
