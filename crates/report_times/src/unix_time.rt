//! Numbers that count from 1970.

ghost use Rattle.std.specs.Prelude.{◌≡◌, ◌≢◌, ◌≤◌, ◌^◌, ◌*◌, ◌++◌, ◌∷◌, [], ℕ, List, None, IfSome, MatchOption};
ghost use Rattle.time_text.specs.Time.{fraction};
ghost use Rattle.report_times.specs.declared.parts.OctetKind.TheVariants.{Digit};
ghost use Rattle.report_times.specs.Parts.{behind_run};
ghost use Rattle.report_times.specs.UnixTimes.{IsBare, IsMilliseconds, IsSeconds, IsDecimal, IsUnixTime, IsEither};

use crate::moments::{moment_of, moment_of_seconds};
use crate::parts::{OctetKind, behind_run, front_run};
use lead_time::Reading;
use text_fields::number_of;

/// From this number on one without a unit is milliseconds.
const SURE_MILLISECONDS: u64 = 100_000_000_000;

/// The moment of a number without a unit.
fn bare(text: &[u8]) -> Option<Reading>
    ensures given { IfSome result (IsBare text.now) }
    ensures none { result ≡ None → (m : ℕ) → m ≤ 2 ^ 48 → IsBare text.now m → ⊥ }
{
    let number = number_of(text)?;
    if number < SURE_MILLISECONDS {
        return None;
    }
    let moment = moment_of(number)?;
    Some(moment)
}

/// What stands before a unit, if a text ends with it.
fn without_unit<'a>(text: &'a [u8], unit: &[u8]) -> Option<&'a [u8]>
    ensures { MatchOption result ((front : List ℕ) → text.now ≡ front ++ unit.now → ⊥)
        (λ front. text.now ≡ front.now ++ unit.now) }
{
    text.strip_suffix(unit)
}

/// The moment of a number with the unit `ms`.
fn with_milliseconds(text: &[u8]) -> Option<Reading>
    ensures given { IfSome result (IsMilliseconds text.now) }
    ensures none { result ≡ None → (m : ℕ) → m ≤ 2 ^ 48 → IsMilliseconds text.now m → ⊥ }
{
    let number = without_unit(text, b"ms")?;
    let value = number_of(number)?;
    let moment = moment_of(value)?;
    Some(moment)
}

/// The moment of a number with the unit `s`.
fn with_seconds(text: &[u8]) -> Option<Reading>
    ensures given { IfSome result (IsSeconds text.now) }
    ensures none { result ≡ None → (m : ℕ) → m ≤ 2 ^ 48 → IsSeconds text.now m → ⊥ }
{
    let number = without_unit(text, b"s")?;
    let seconds = number_of(number)?;
    let moment = moment_of_seconds(seconds, 0)?;
    Some(moment)
}

/// The first three decimals of a second, in milliseconds.
fn decimal_part(digits: &[u8]) -> u64
    ensures value { result ≡ fraction 100 digits.now }
    ensures within { result ≤ 1000 }
{
    let mut total = 0;
    let mut worth = 100;
    for octet in digits {
        if !octet.is_ascii_digit() {
            return total;
        }
        total += worth * u64::from(*octet - b'0');
        worth /= 10;
    }
    total
}

/// The decimals behind a point, which are all digits.
fn decimals_in(text: &[u8]) -> Option<&[u8]>
    ensures { MatchOption result
        ((d : List ℕ) → text.now ≡ 46 ∷ d → d ≢ [] → behind_run Digit d ≡ [] → ⊥)
        (λ d. (text.now ≡ 46 ∷ d.now) × (d.now ≢ []) × (behind_run Digit d.now ≡ [])) }
{
    match text {
        [b'.', decimals @ ..]
            if !decimals.is_empty() && behind_run(OctetKind::Digit, decimals).is_empty() => Some(
            decimals,
        ),
        _ => None,
    }
}

/// The moment of a number of seconds with decimals.
fn with_decimals(text: &[u8]) -> Option<Reading>
    ensures given { IfSome result (IsDecimal text.now) }
    ensures none { result ≡ None → (m : ℕ) → m ≤ 2 ^ 48 → IsDecimal text.now m → ⊥ }
{
    let decimals = decimals_in(behind_run(OctetKind::Digit, text))?;
    let seconds = number_of(front_run(OctetKind::Digit, text))?;
    let moment = moment_of_seconds(seconds, decimal_part(decimals))?;
    Some(moment)
}

/// The moment that a number says, if it can't be another.
pub(crate) fn unix_time(text: &[u8]) -> Option<Reading>
    ensures given { IfSome result (IsUnixTime text.now) }
    ensures none { result ≡ None → (m : ℕ) → m ≤ 2 ^ 48 → IsUnixTime text.now m → ⊥ }
{
    if let Some(moment) = bare(text) {
        return Some(moment);
    }
    if let Some(moment) = with_milliseconds(text) {
        return Some(moment);
    }
    if let Some(moment) = with_seconds(text) {
        return Some(moment);
    }
    with_decimals(text)
}

/// The number that may be seconds or milliseconds.
pub(crate) fn either(text: &[u8]) -> Option<u64>
    ensures given { IfSome result (IsEither text.now) }
    ensures none { result ≡ None → (n : ℕ) → IsEither text.now n → ⊥ }
{
    let number = number_of(text)?;
    if SURE_MILLISECONDS <= number {
        return None;
    }
    Some(number)
}
