//! What remains of a grant.

ghost use Rattle.std.specs.Prelude.{◌≡◌, min, IfSome};
ghost use Rattle.client_service.specs.ReusableLeases.{end_of, remaining, MayReuse};

use crate::grants::GrantLine;
use crate::terms::ReuseTerms;
use lead_time::{End, Reading, own_end};

/// The seconds that remain of a grant and of its unit, whatever the clock did within the skew and however long the
/// answer is under way within the transit.
fn remaining(terms: &ReuseTerms, granted: &GrantLine, unit: End, now: Reading) -> u64
    ensures { result ≡ remaining terms.now (min (end_of terms.now granted.now.reading granted.now.valid) unit) now }
{
    let end = own_end(granted.reading, granted.valid, terms.skew, terms.transit).min(unit);
    let margins = 4 * terms.skew.milliseconds() + 2 * terms.transit.milliseconds();
    let left = end
        .milliseconds()
        .saturating_sub(now.milliseconds() + margins);
    left / 1000
}

/// The seconds for which a grant may be told again, where its unit ends at `unit`. None where it is too old, or where
/// less remains of it than half of what would be granted now.
pub(crate) fn reuse_lifetime(
    terms: &ReuseTerms,
    granted: &GrantLine,
    unit: End,
    now: Reading,
    anew: u32,
) -> Option<u32>
    ensures { IfSome result (MayReuse terms.now granted.now.reading granted.now.valid unit now anew) }
{
    let age = now
        .milliseconds()
        .saturating_sub(granted.reading.milliseconds());
    if age >= 1000 * u64::from(terms.floor) {
        return None;
    }
    let Ok(valid) = u32::try_from(remaining(terms, granted, unit, now)) else {
        return None;
    };
    if valid == 0 || u64::from(anew) > 2 * u64::from(valid) {
        return None;
    }
    Some(valid)
}
