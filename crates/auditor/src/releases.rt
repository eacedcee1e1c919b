//! Whether a release cuts a piece short.

ghost use Rattle.std.specs.Prelude.{◌↔◌, IsTrue, MatchOption};
ghost use Rattle.causal_order.specs.declared.reference.Ref.{Ref as RefValue};
ghost use Rattle.attribution.specs.Acceptance.{IsCleared, Discharges, IsDischarged};
ghost use Rattle.causal_order.specs.LineOrder.{IsLeast};
ghost use Rattle.attribution.specs.FirstRefusal.{CutsShort};
ghost use Rattle.auditor.specs.Refusals.{AreDischarged, CutsLeaseShort, ClearsAt, OneClears, IsCutShortAt};

use crate::grants::{is_written_from, lease_at};
use crate::order::comes_first;
use crate::source::LineSource;
use attribution::Delegation;
use causal_order::{Certificate, ClearReason, Lines, Piece, Ref, precedes};
use lead_time::Skew;

/// Returns whether the release is shown to have come before the piece's grant, or not before its end.
fn is_cleared<L: Lines>(
    lines: &L,
    piece: &Piece,
    release: Ref,
    why: &ClearReason,
    skew: Skew,
) -> bool
    ensures { IsTrue result ↔ IsCleared (L.journals lines.now) skew release piece.now.grant piece.now.to why.now }
{
    match why {
        ClearReason::Before(order) => precedes(lines, release, piece.grant, order, skew),
        ClearReason::After(chain) => is_written_from(lines, chain, release, skew, piece.to),
    }
}

/// Returns whether the clear entry at this index shows that the release doesn't cut the piece short.
#[tactic(auto, using(crate::proofs::ShortCuts::cleared_at, crate::proofs::ShortCuts::no_entry))]
fn clears<L: Lines>(lines: &L, piece: &Piece, index: u32, release: Ref, skew: Skew) -> bool
    ensures { IsTrue result ↔ ClearsAt (L.journals lines.now) skew piece.now release index }
{
    match piece.clear.as_slice().get(index as usize) {
        Some(clear) => is_cleared(lines, piece, release, &clear.why, skew),
        None => false,
    }
}

/// Returns whether the clear entry at one of these indexes does.
fn one_clears<L: Lines>(lines: &L, piece: &Piece, indexes: &[u32], release: Ref, skew: Skew) -> bool
    ensures { IsTrue result ↔ OneClears (L.journals lines.now) skew piece.now release indexes.now }
{
    indexes
        .iter()
        .any(|index| clears(lines, piece, *index, release, skew))
}

/// Returns whether some clear entry of the piece discharges the release.
fn is_discharged<L: Lines>(lines: &L, piece: &Piece, release: Ref, skew: Skew) -> bool
    ensures { IsTrue result ↔ Discharges (L.journals lines.now) skew piece.now release }
{
    one_clears(lines, piece, piece.clear.naming(release), release, skew)
}

/// The least line that gives back what the piece's grant gave and that no clear entry discharges.
fn least_cutting<S: LineSource>(
    source: &S,
    piece: &Piece,
    delegation: &Delegation,
    skew: Skew,
) -> Option<Ref>
    ensures { MatchOption result
        ((r : RefValue) → CutsLeaseShort (S.journals source.now) skew piece.now delegation.now r → ⊥)
        (IsLeast (CutsLeaseShort (S.journals source.now) skew piece.now delegation.now)) }
{
    let mut least: Option<Ref> = None;
    let mut walk = source.releases(delegation);
    while let Some(at) = source.next_release(delegation, &mut walk) {
        if comes_first(at, least) && !is_discharged(source, piece, at, skew) {
            least = Some(at);
        }
    }
    least
}

/// The least release that cuts the piece short.
#[tactic(auto, using(crate::proofs::ShortCuts::discharged_of_none))]
fn cutting_release<S: LineSource>(source: &S, piece: &Piece, skew: Skew) -> Option<Ref>
    ensures { MatchOption result (IsDischarged (S.journals source.now) skew piece.now)
        (IsLeast (CutsShort (S.journals source.now) skew piece.now)) }
{
    let lease = lease_at(source, piece.grant)?;
    least_cutting(source, piece, &Delegation::of_lease(&lease), skew)
}

/// The number, from 1, of the first piece that a release cuts short, and the least such release.
#[tactic(auto, using(crate::proofs::ShortCuts::cut_at))]
pub fn first_cut_short<S: LineSource>(
    source: &S,
    certificate: &Certificate,
    skew: Skew,
) -> Option<(u64, Ref)>
    ensures { MatchOption result (AreDischarged (S.journals source.now) skew certificate.now)
        (IsCutShortAt (S.journals source.now) skew certificate.now) }
{
    for (index, piece) in certificate.pieces.as_slice().iter().enumerate() {
        if let Some(release) = cutting_release(source, piece, skew) {
            return Some((index as u64 + 1, release));
        }
    }
    None
}
