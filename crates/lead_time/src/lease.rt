//! How long a lease may last, and when it ends. Bare numbers are seconds; milliseconds are readings, ends, skews and
//! transits.

ghost use Rattle.std.specs.Prelude.{◌≡◌, ◌+◌, ◌*◌, ◌≤◌, ◌↔◌, IsTrue, max};
ghost use Rattle.lead_time.specs.Lease.{allowed_lifetime};

use crate::end::End;
use crate::reading::Reading;
use crate::skew::Skew;
use crate::transit::Transit;

/// When a server holds its own grant of `valid` seconds for ended: the reading at the grant, the lifetime, twice the
/// skew, since the client's end and the server's clock may both be off by it, and the transit, since the lifetime
/// begins when the answer comes.
pub fn own_end(granted: Reading, valid: u32, skew: Skew, transit: Transit) -> End
    ensures { result ≡ granted + 1000 * valid + 2 * skew + transit }
{
    let lasts = granted.milliseconds() + 1000 * u64::from(valid);
    End::from_sum(lasts + 2 * skew.milliseconds() + transit.milliseconds())
}

/// From which reading on, in milliseconds, a server whose partner is down may take over a unit of the partner's: the
/// later of the end that the partner told and the reading at which it was taken for down, the maximum client lead time
/// of `mclt` seconds, twice the skew, and the transit. No lease that the partner gave meanwhile reaches it.
pub fn takeover(told: End, down: Reading, mclt: u32, skew: Skew, transit: Transit) -> u64
    ensures { result ≡ max told down + 1000 * mclt + 2 * skew + transit }
{
    let known = told.milliseconds().max(down.milliseconds());
    known + 1000 * u64::from(mclt) + 2 * skew.milliseconds() + transit.milliseconds()
}

/// Returns whether a grant has ended when the server's clock shows `now`: from its end on.
pub fn is_past(now: Reading, own_end: End) -> bool
    ensures { IsTrue result ↔ (own_end ≤ now) }
{
    now.milliseconds() >= own_end.milliseconds()
}

/// The lifetime in seconds that a client may be given (RFC 8156, section 4.4): the desired one, but no lease ends
/// more than the maximum client lead time `mclt` after what the partner has acknowledged, or after now where that
/// is later. `acked` is 0 where nothing was acknowledged.
pub fn allowed_valid(desired: u32, mclt: u32, acked: End, now: Reading) -> u32
    ensures { result ≡ allowed_lifetime desired mclt acked now }
{
    let now = now.milliseconds();
    let last = acked.milliseconds().max(now) + 1000 * u64::from(mclt);
    u64::from(desired).min((last - now) / 1000) as u32
}

/// The end that the partner is told of a grant: twice the desired lifetime of `desired` seconds from now on, so
/// that the next renewal may have the whole lifetime.
pub fn told_end(now: Reading, desired: u32) -> End
    ensures { result ≡ now + 2000 * desired }
{
    End::from_sum(now.milliseconds() + 2000 * u64::from(desired))
}
