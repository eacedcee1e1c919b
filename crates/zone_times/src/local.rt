//! Local times.

ghost use Rattle.std.specs.Prelude.{◌≡◌, ◌≤◌, ◌++◌, ◌∷◌, [], ◌+◌, ◌+ℤ◌, ◌*ℤ◌, pos, OnOk, IfOk, IfSome};
ghost use Rattle.time_text.specs.Time.{two, IsTimeText};
ghost use Rattle.zone_times.specs.Local.{hours_text, offset_text, AddsUtc, AddsShown, AddsLocal};

use crate::zone::ZoneFile;
use lead_time::Reading;
use std::alloc::{AllocError, Global};
use time_text::push_time;

/// What a clock at this offset shows, as if it were one in UTC. `None` where that is before 1970 or past the last
/// reading.
fn shown_at(moment: Reading, seconds: i32) -> Option<Reading>
    ensures { IfSome result (λ shown. pos shown ≡ pos moment +ℤ (pos 1000 *ℤ seconds)) }
{
    let shown = moment.milliseconds() as i64 + 1000 * i64::from(seconds);
    if shown < 0 {
        return None;
    }
    Reading::new(shown as u64).ok()
}

/// The time of a moment in UTC, without its Z; `None` where it has none.
fn front_of(alloc: Global, moment: Reading) -> Result<Option<Vec<u8>>, AllocError>
    ensures { IfOk result (λ front. IfSome front (λ text. IsTimeText moment (text.items ++ 90 ∷ []))) }
{
    let mut text = Vec::new(alloc);
    push_time(&mut text, moment)?;
    match text.pop() {
        Some(b'Z') => Ok(Some(text)),
        _ => Ok(None),
    }
}

/// One digit.
fn digit(n: u32) -> u8
    requires { n ≤ 9 }
    ensures { result ≡ 48 + n }
{
    b'0' + n as u8
}

/// Appends a number with two digits.
fn push_two(out: &mut Vec<u8>, n: u32) -> Result<(), AllocError>
    requires { n ≤ 99 }
    ensures { OnOk result (out.new.items ≡ out.old.items ++ two n) }
{
    out.extend_from_slice(&[digit(n / 10), digit(n % 10)])
}

/// Appends a sign, and so many seconds as hours and minutes.
fn push_hours(out: &mut Vec<u8>, sign: u8, seconds: u32) -> Result<(), AllocError>
    ensures { OnOk result (out.new.items ≡ out.old.items ++ hours_text sign seconds) }
{
    out.push(sign)?;
    push_two(out, seconds / 3600 % 100)?;
    out.push(b':')?;
    push_two(out, seconds / 60 % 60)
}

/// Appends an offset from UTC.
fn push_offset(out: &mut Vec<u8>, seconds: i32) -> Result<(), AllocError>
    ensures { OnOk result (out.new.items ≡ out.old.items ++ offset_text seconds) }
{
    if seconds < 0 {
        push_hours(out, b'-', seconds.unsigned_abs())
    } else {
        push_hours(out, b'+', seconds as u32)
    }
}

/// Appends the moment in UTC.
fn push_utc(out: &mut Vec<u8>, moment: Reading) -> Result<(), AllocError>
    ensures { OnOk result (AddsUtc moment out.old.items out.new.items) }
{
    push_time(out, moment)
}

/// Appends a moment as a clock at this offset shows it, if one can.
#[tactic(auto, using(crate::proofs::Locals::shown_local, crate::proofs::Locals::utc_shown))]
fn push_shown(
    out: &mut Vec<u8>,
    alloc: Global,
    moment: Reading,
    seconds: i32,
) -> Result<(), AllocError>
    ensures { OnOk result (AddsShown moment seconds out.old.items out.new.items) }
{
    if seconds % 60 != 0 {
        return push_utc(out, moment);
    }
    let Some(shown) = shown_at(moment, seconds) else {
        return push_utc(out, moment);
    };
    let Some(front) = front_of(alloc, shown)? else {
        return push_utc(out, moment);
    };
    out.extend_from_slice(&front)?;
    push_offset(out, seconds)
}

/// Appends a moment as a clock of the zone shows it, with its offset: in UTC, where the offset isn't of whole minutes
/// or the clock shows a time before 1970 or behind the year 9999.
#[tactic(auto, using(crate::proofs::Locals::local))]
pub fn push_local(
    out: &mut Vec<u8>,
    alloc: Global,
    zone: &ZoneFile,
    moment: Reading,
) -> Result<(), AllocError>
    ensures { OnOk result (AddsLocal zone.now.table moment out.old.items out.new.items) }
{
    let seconds = zone.offset(moment);
    push_shown(out, alloc, moment, seconds)
}
