//! Dates as mail has them.

ghost use Rattle.std.specs.Prelude.{◌≡◌, ◌≤◌, ℕ, None, IfSome};
ghost use Rattle.report_times.specs.MailDates.{next_word, minutes_of, zone_of, is_told, is_leap};
ghost use Rattle.report_times.specs.MailDates.{IsDated, IsSaid};

use crate::moments::moment_of;
use crate::parts::{OctetKind, behind, behind_run, front_run};
use jiff::Timestamp;
use jiff::fmt::rfc2822::DateTimeParser;
use lead_time::Reading;

/// What a mail's date says.
#[derive(Clone, Copy, Debug, PartialEq, Eq)]
pub(crate) enum MailDate {
    /// This moment.
    Moment(Reading),
    /// A moment by a zone that has a name alone.
    NamedZone,
    /// It isn't one.
    NotOne,
}

/// The word behind the first word of a text.
fn next_word(text: &[u8]) -> &[u8]
    ensures { result.now ≡ next_word text.now }
{
    let rest = behind_run(OctetKind::Word, text);
    front_run(OctetKind::Word, behind_run(OctetKind::Space, rest))
}

/// What follows the first colon.
fn minutes_of(text: &[u8]) -> &[u8]
    ensures { result.now ≡ minutes_of text.now }
{
    behind(behind_run(OctetKind::NoColon, text), 1)
}

/// The offset, or the zone's name.
fn zone_of(text: &[u8]) -> &[u8]
    ensures { result.now ≡ zone_of text.now }
{
    next_word(minutes_of(text))
}

/// Returns whether it is an offset, or a name of UTC.
fn is_told(zone: &[u8]) -> bool
    ensures { result ≡ is_told zone.now }
{
    matches!(zone.first(), Some(b'+' | b'-'))
        || zone.eq_ignore_ascii_case(b"GMT")
        || zone.eq_ignore_ascii_case(b"UT")
        || zone.eq_ignore_ascii_case(b"Z")
}

/// Returns whether the clock shows a leap second.
fn is_leap(text: &[u8]) -> bool
    ensures { result ≡ is_leap text.now }
{
    matches!(minutes_of(text), [_, _, b':', b'6', ..])
}

/// The milliseconds since 1970 of a mail's date, whatever its zone.
fn milliseconds_of(text: &[u8]) -> Option<u64>
    ensures given { IfSome result (IsDated text.now) }
    ensures none { result ≡ None → (m : ℕ) → IsDated text.now m → ⊥ }
{
    let Ok(timestamp) = DateTimeParser::new().parse_timestamp(text) else {
        return None;
    };
    let milliseconds = Timestamp::from_plain(timestamp).as_millisecond();
    if milliseconds < 0 {
        return None;
    }
    Some(milliseconds as u64)
}

/// The moment of a mail's date, whatever its zone.
#[tactic(auto, using(crate::proofs::MailDates::one_date))]
fn dated(text: &[u8]) -> Option<Reading>
    ensures given { IfSome result (IsDated text.now) }
    ensures none { result ≡ None → (m : ℕ) → m ≤ 281474976710656 → IsDated text.now m → ⊥ }
{
    let milliseconds = milliseconds_of(text)?;
    let moment = moment_of(milliseconds)?;
    Some(moment)
}

/// What a text says as a mail's date.
pub(crate) fn mail_date(text: &[u8]) -> MailDate
    ensures { IsSaid text.now result }
{
    match dated(text) {
        None => MailDate::NotOne,
        Some(_) if !is_told(zone_of(text)) => MailDate::NamedZone,
        Some(_) if is_leap(text) => MailDate::NotOne,
        Some(moment) => MailDate::Moment(moment),
    }
}
