//! What the clocks showed at the ends of chains.

ghost use Rattle.std.specs.Prelude.{◌≡◌, ◌↔◌, IsTrue};
ghost use Rattle.evidence_report.specs.Marks.{mark_of, IsLatestMark, IsEarliestMark};

use crate::mark::LineReading;
use causal_order::{Chain, Lines, Ref, first_of_chain, is_chain, last_of_chain};

/// The line that the reference names, with its reading.
pub fn mark_at<L: Lines>(lines: &L, at: Ref) -> Option<LineReading>
    ensures { result ≡ mark_of (L.journals lines.now) at }
{
    let line = lines.line(at)?;
    Some(LineReading {
        at,
        reading: line.reading,
    })
}

fn is_same(one: &Ref, other: &Ref) -> bool
    ensures { IsTrue result ↔ (one.now ≡ other.now) }
{
    one == other
}

/// The last line of a chain from the line `at`: by its reading, and the skew, `at` was written. `None` where it is no
/// chain from it.
#[tactic(auto, using(crate::proofs::Marks::latest_shown, crate::proofs::Marks::none_from_broken, crate::proofs::Marks::none_from_other, crate::proofs::Marks::none_from_empty, crate::proofs::Marks::none_from_endless))]
pub fn latest_mark<L: Lines>(lines: &L, chain: &Chain, at: Ref) -> Option<LineReading>
    ensures { IsLatestMark (L.journals lines.now) chain.now at result }
{
    let refs = chain.as_slice();
    if !is_same(&first_of_chain(refs)?, &at) {
        return None;
    }
    if !is_chain(lines, refs) {
        return None;
    }
    mark_at(lines, last_of_chain(refs)?)
}

/// The first line of a chain to the line `at`: at its reading less the skew, or later, `at` was written. `None` where
/// it is no chain to it.
#[tactic(auto, using(crate::proofs::Marks::earliest_shown, crate::proofs::Marks::none_to_broken, crate::proofs::Marks::none_to_other, crate::proofs::Marks::none_to_empty, crate::proofs::Marks::none_to_beginless))]
pub fn earliest_mark<L: Lines>(lines: &L, chain: &Chain, at: Ref) -> Option<LineReading>
    ensures { IsEarliestMark (L.journals lines.now) chain.now at result }
{
    let refs = chain.as_slice();
    if !is_same(&last_of_chain(refs)?, &at) {
        return None;
    }
    if !is_chain(lines, refs) {
        return None;
    }
    mark_at(lines, first_of_chain(refs)?)
}
