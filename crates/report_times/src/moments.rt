//! Moments that readings may have.

ghost use Rattle.std.specs.Prelude.{◌≡◌, ◌<◌, ◌+◌, ◌*◌, ◌≤◌, MatchOption};

use lead_time::Reading;

/// The moment of so many milliseconds, if a reading may have it.
pub(crate) fn moment_of(milliseconds: u64) -> Option<Reading>
    ensures { MatchOption result (281474976710656 < milliseconds) (λ moment. moment ≡ milliseconds) }
{
    Reading::new(milliseconds).ok()
}

/// The moment of so many seconds and milliseconds, if a reading may have it.
pub(crate) fn moment_of_seconds(seconds: u64, milliseconds: u64) -> Option<Reading>
    ensures { MatchOption result (281474976710656 < 1000 * seconds + milliseconds)
        (λ moment. moment ≡ 1000 * seconds + milliseconds) }
{
    let whole = seconds.checked_mul(1000)?;
    let sum = whole.checked_add(milliseconds)?;
    moment_of(sum)
}
