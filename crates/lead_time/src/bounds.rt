//! The moments at which a clock may have shown a reading.

ghost use Rattle.std.specs.Prelude.{◌≡◌, ◌+◌, pos, ◌+ℤ◌};

use crate::reading::Reading;
use crate::skew::Skew;

/// The first moment at which a clock within the skew of true time shows the reading, in milliseconds.
pub fn earliest(reading: Reading, skew: Skew) -> i64
    ensures { result +ℤ pos skew ≡ pos reading }
{
    reading.milliseconds() as i64 - skew.milliseconds() as i64
}

/// The last moment at which a clock within the skew of true time shows the reading, in milliseconds.
pub fn latest(reading: Reading, skew: Skew) -> i64
    ensures { result ≡ pos (reading + skew) }
{
    (reading.milliseconds() + skew.milliseconds()) as i64
}
