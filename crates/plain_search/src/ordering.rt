//! The order of two lines, as they alone show it.

ghost use Rattle.std.specs.Prelude.{◌≡◌, ◌↔◌, ◌+◌, ◌<◌, [], ◌∷◌, IsTrue, IfOk};
ghost use Rattle.causal_order.specs.Tests.{is_later};
ghost use Rattle.plain_search.specs.Collected.{shows_before};
ghost use Rattle.plain_search.specs.Search.{IsPlainlyBefore, plain_order};

use crate::asking::reading_at;
use crate::collected::DatedRelease;
use causal_order::{Chain, Lines, Precedes, Ref};
use lead_time::{Reading, Skew};
use std::alloc::{AllocError, Global};

/// Returns whether the one reference stands later in the same journal.
fn is_later(earlier: Ref, later: Ref) -> bool
    ensures { result ≡ is_later earlier later }
{
    earlier.side == later.side && earlier.number < later.number
}

/// Returns whether the readings lie further apart than both skews.
pub fn are_apart(earlier: Reading, later: Reading, skew: Skew) -> bool
    ensures { IsTrue result ↔ (earlier + skew + skew < later) }
{
    earlier.milliseconds() + 2 * skew.milliseconds() < later.milliseconds()
}

/// Returns whether two lines and their readings show that the first was written before the second.
pub fn shows_before(first: &DatedRelease, second: &DatedRelease, skew: Skew) -> bool
    ensures { result ≡ shows_before skew first.now second.now }
{
    is_later(first.at, second.at)
        || first.reading.milliseconds() + 2 * skew.milliseconds() < second.reading.milliseconds()
}

/// Returns whether the two lines alone show that the first was written before the second: by their journal, or by their
/// clocks.
#[tactic(auto, using(crate::proofs::Orders::before_by_tests, crate::proofs::Orders::not_read_first, crate::proofs::Orders::not_read_second,))]
pub fn is_plainly_before<L: Lines>(lines: &L, first: Ref, second: Ref, skew: Skew) -> bool
    ensures { IsTrue result ↔ IsPlainlyBefore (L.journals lines.now) skew first second }
{
    let Some(earlier) = reading_at(lines, first) else {
        return false;
    };
    let Some(later) = reading_at(lines, second) else {
        return false;
    };
    is_later(first, second) || are_apart(earlier, later, skew)
}

/// The chain of one line.
pub fn single(alloc: Global, at: Ref) -> Result<Chain, AllocError>
    ensures { IfOk result (λ chain. chain ≡ at ∷ []) }
{
    Ok(Chain::new(vec![in alloc; at]?))
}

/// How the two lines show that the first was written before the second.
pub fn plain_order(alloc: Global, first: Ref, second: Ref) -> Result<Precedes, AllocError>
    ensures { IfOk result (λ order. order ≡ plain_order first second) }
{
    if is_later(first, second) {
        return Ok(Precedes::Chain(Chain::new(vec![in alloc; first, second]?)));
    }
    let latest = single(alloc, first)?;
    let earliest = single(alloc, second)?;
    Ok(Precedes::Clock(latest, earliest))
}
