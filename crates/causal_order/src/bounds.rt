//! Chains of lines, and the bounds that they give to the moments at which lines were written.

ghost use Rattle.std.specs.Prelude.{◌≡◌, ◌↔◌, ◌∷◌, IsTrue};
ghost use Rattle.causal_order.specs.Order.{IsLater, IsChain};
ghost use Rattle.causal_order.specs.Tests.{is_line, is_later, follows, is_chain, first_of_chain, last_of_chain};
ghost use Rattle.causal_order.specs.Bounds.{reading_of, IsLatest, IsEarliest};

use crate::lines::Lines;
use crate::messages::is_take_of;
use crate::reference::Ref;
use lead_time::{Reading, Skew, earliest, latest};

/// Returns whether the reference names a line.
fn is_line<L: Lines>(lines: &L, at: Ref) -> bool
    ensures { result ≡ is_line (L.journals lines.now) at }
{
    lines.line(at).is_some()
}

/// Returns whether the one reference stands later in the same journal.
fn is_later(earlier: Ref, later: Ref) -> bool
    ensures decided { IsTrue result ↔ IsLater earlier later }
    ensures value { result ≡ is_later earlier later }
{
    earlier.side == later.side && earlier.number < later.number
}

/// Returns whether the one line was written before the other by their journal, or by a message.
fn follows<L: Lines>(lines: &L, earlier: Ref, later: Ref) -> bool
    ensures { result ≡ follows (L.journals lines.now) earlier later }
{
    is_later(earlier, later) || is_take_of(lines, earlier, later)
}

/// Returns whether the references from `first` on name lines, each of which was written after the one before it.
#[tactic(auto, using(crate::proofs::Walking::breaks_at_line, crate::proofs::Walking::breaks_at_link, crate::proofs::Walking::goes_on, crate::proofs::Walking::ends,))]
fn is_chain_from<L: Lines>(lines: &L, first: Ref, rest: &[Ref]) -> bool
    ensures { result ≡ is_chain (L.journals lines.now) (first ∷ rest.now) }
{
    let mut last = first;
    for next in rest {
        if !is_line(lines, last) || !follows(lines, last, *next) {
            return false;
        }
        last = *next;
    }
    is_line(lines, last)
}

/// Returns whether the references name lines, each of which was written after the one before it. None are no chain.
#[tactic(auto, using(crate::proofs::Walking::chain_decided))]
pub fn is_chain<L: Lines>(lines: &L, chain: &[Ref]) -> bool
    ensures decided { IsTrue result ↔ IsChain (L.journals lines.now) chain.now }
    ensures value { result ≡ is_chain (L.journals lines.now) chain.now }
{
    match chain.split_first() {
        None => false,
        Some((first, rest)) => is_chain_from(lines, *first, rest),
    }
}

/// Returns what the clock showed at the line that the reference names.
fn reading_of<L: Lines>(lines: &L, at: Ref) -> Option<Reading>
    ensures { result ≡ reading_of (L.journals lines.now) at }
{
    let line = lines.line(at)?;
    Some(line.reading)
}

/// The reference that a chain begins with.
#[tactic(auto, using(crate::proofs::Walking::first_is))]
pub fn first_of_chain(chain: &[Ref]) -> Option<Ref>
    ensures { result ≡ first_of_chain chain.now }
{
    chain.first().copied()
}

/// The reference that a chain ends with.
#[tactic(auto, using(crate::proofs::Walking::last_is))]
pub fn last_of_chain(chain: &[Ref]) -> Option<Ref>
    ensures { result ≡ last_of_chain chain.now }
{
    chain.last().copied()
}

/// The moment by which the chain's first line was written: what the clock showed at its last line, and the skew,
/// in milliseconds. `None` where it is no chain.
#[tactic(auto, using(crate::proofs::Walking::some_latest, crate::proofs::Walking::chain_ends, crate::proofs::Walking::end_is_read,))]
pub fn latest_of<L: Lines>(lines: &L, chain: &[Ref], skew: Skew) -> Option<i64>
    ensures { IsLatest (L.journals lines.now) chain.now skew result }
{
    if !is_chain(lines, chain) {
        return None;
    }
    let end = last_of_chain(chain)?;
    let reading = reading_of(lines, end)?;
    Some(latest(reading, skew))
}

/// The moment before which the chain's last line was not written: what the clock showed at its first line, less
/// the skew, in milliseconds. `None` where it is no chain.
#[tactic(auto, using(crate::proofs::Walking::some_earliest, crate::proofs::Walking::chain_begins, crate::proofs::Walking::begin_is_read,))]
pub fn earliest_of<L: Lines>(lines: &L, chain: &[Ref], skew: Skew) -> Option<i64>
    ensures { IsEarliest (L.journals lines.now) chain.now skew result }
{
    if !is_chain(lines, chain) {
        return None;
    }
    let begin = first_of_chain(chain)?;
    let reading = reading_of(lines, begin)?;
    Some(earliest(reading, skew))
}
