//! Reading a time.

ghost use Rattle.std.specs.Prelude.{◌≡◌, ◌≤◌, ◌<◌, ◌+◌, ◌^◌, ℕ, length, None, IfSome};
ghost use Rattle.time_text.specs.Time.{IsTimeOf, two_at, date_of, fraction, milliseconds_of, clock_of, offset_of};

use crate::calendar::Date;
use crate::clock::{Clock, Offset};
use crate::form::is_time_form;
use crate::moment::moment_of;
use lead_time::Reading;

/// The number that two digits write, from a place on.
fn two_at(text: &[u8], place: usize) -> u64
    requires { place + 1 < length text.now }
    ensures value { result ≡ two_at place text.now }
    ensures within { result ≤ 2277 }
{
    10 * u64::from(text[place].saturating_sub(b'0'))
        + u64::from(text[place + 1].saturating_sub(b'0'))
}

fn date_of(text: &[u8]) -> Date
    requires { 20 ≤ length text.now }
    ensures date { result ≡ date_of text.now }
    ensures within { result.year ≤ 2 ^ 20 }
{
    Date {
        year: 100 * two_at(text, 0) + two_at(text, 2),
        month: two_at(text, 5),
        day: two_at(text, 8),
    }
}

/// Tenths, hundredths and thousandths, as digits write them up to the first octet that is none.
fn fraction(digits: &[u8]) -> u64
    ensures value { result ≡ fraction 100 digits.now }
    ensures within { result ≤ 1000 }
{
    let mut total = 0;
    let mut worth = 100;
    for octet in digits {
        if !octet.is_ascii_digit() {
            return total;
        }
        total += worth * u64::from(*octet - b'0');
        worth /= 10;
    }
    total
}

fn milliseconds_of(text: &[u8]) -> u64
    requires { 20 ≤ length text.now }
    ensures value { result ≡ milliseconds_of text.now }
    ensures within { result ≤ 1000 }
{
    if text[19] == b'.' {
        fraction(&text[20..])
    } else {
        0
    }
}

fn clock_of(text: &[u8]) -> Clock
    requires { 20 ≤ length text.now }
    ensures clock { result ≡ clock_of text.now }
    ensures within { result.millisecond ≤ 1000 }
{
    Clock {
        hour: two_at(text, 11),
        minute: two_at(text, 14),
        second: two_at(text, 17),
        millisecond: milliseconds_of(text),
    }
}

fn offset_of(text: &[u8]) -> Offset
    ensures { result ≡ offset_of text.now }
{
    let length = text.len();
    if length < 25 {
        return Offset {
            is_behind: false,
            hour: 0,
            minute: 0,
        };
    }
    Offset {
        is_behind: text[length - 6] == b'-',
        hour: two_at(text, length - 5),
        minute: two_at(text, length - 2),
    }
}

/// The moment that a text spells: a date and a time of day as RFC 3339 writes them (section 5.6), with an offset and up
/// to three decimals of a second. `None` where it has another form; where the calendar hasn't the day, or the hour is
/// over 23, the minute or the second over 59, the offset's hour over 23 or its minute over 59; and where the moment is
/// before 1970 or more than 2^48 milliseconds behind it. The second 60 is none: moments don't count leap seconds.
pub fn read_time(text: &[u8]) -> Option<Reading>
    ensures found { IfSome result (IsTimeOf text.now) }
    ensures none { result ≡ None → (m : ℕ) → m ≤ 2 ^ 48 → IsTimeOf text.now m → ⊥ }
{
    if !is_time_form(text) {
        return None;
    }
    let date = date_of(text);
    let clock = clock_of(text);
    let offset = offset_of(text);
    if !date.is_real() || !clock.is_real() || !offset.is_real() {
        return None;
    }
    moment_of(&date, &clock, &offset)
}
