//! The moments that a line's own reading gives: each with the sum that it comes from, in milliseconds of true time.

ghost use Rattle.std.specs.Prelude.{◌≡◌, ◌+◌, ◌*◌};
ghost use Rattle.candidate_leases.specs.Near.{ends_by, shows_to, may_begin};

use attribution::Lasting;
use journal_lines::Lease;
use lead_time::{Reading, Skew, Transit};

/// The moment by which what was granted at this reading had surely reached its client: the reading, the skew and the
/// transit.
pub fn begun_by(reading: Reading, skew: Skew, transit: Transit) -> u64
    ensures { result ≡ reading + skew + transit }
{
    reading.milliseconds() + skew.milliseconds() + transit.milliseconds()
}

/// The moment before which what was granted at this reading surely wasn't its client's: the reading less the skew, or
/// 0.
pub fn may_begin(reading: Reading, skew: Skew) -> u64
    ensures { result ≡ may_begin reading skew }
{
    reading.milliseconds().saturating_sub(skew.milliseconds())
}

/// The moment from which on what was told of at this reading surely isn't its client's any longer: the reading and the
/// lifetime, or the end that is carried, and the skew and the transit. `None` where it never ends.
pub fn ends_by(reading: Reading, lasting: &Lasting, skew: Skew, transit: Transit) -> Option<u64>
    ensures { result ≡ ends_by skew transit reading lasting.now }
{
    match lasting {
        Lasting::For(Lease::INFINITE) => None,
        Lasting::For(valid) => { Some(begun_by(reading, skew, transit) + u64::from(*valid) * 1000) }
        Lasting::Until(end) => {
            Some(end.milliseconds() + skew.milliseconds() + transit.milliseconds())
        }
    }
}

/// The moment up to which what was granted at this reading surely lasts, if nothing gives it back: the reading and the
/// lifetime, less the skew, or 0. `None` where it never ends.
pub fn lasts_from(reading: Reading, valid: u32, skew: Skew) -> Option<u64>
    ensures { result ≡ shows_to skew reading valid }
{
    if valid == Lease::INFINITE {
        return None;
    }
    let end = reading.milliseconds() + u64::from(valid) * 1000;
    Some(end.saturating_sub(skew.milliseconds()))
}
