//! Whether a certificate's pieces cover its interval, and whether their grants carry them.

ghost use Rattle.std.specs.Prelude.{MatchOption};
ghost use Rattle.attribution.specs.Acceptance.{IsGranted};
ghost use Rattle.attribution.specs.FirstRefusal.{IsTiled, IsGap};
ghost use Rattle.auditor.specs.Refusals.{IsUngranted, AreGranted};

use crate::grants::is_granted;
use causal_order::{Certificate, Lines};
use lead_time::{Skew, Transit};

/// The number, from 1, of the first piece that doesn't begin where it must or has no moment. Where the pieces end
/// before the interval or past it, or there is none, the number past the last.
#[tactic(auto, using(crate::proofs::Tiling::gap_begins, crate::proofs::Tiling::gap_empty, crate::proofs::Tiling::next_in_place, crate::proofs::Tiling::first_in_place, crate::proofs::Tiling::all_in_place, crate::proofs::Tiling::gap_past_last, crate::proofs::Tiling::gap_of_none,))]
pub fn first_gap(certificate: &Certificate) -> Option<u64>
    ensures { MatchOption result (IsTiled certificate.now) (IsGap certificate.now) }
{
    let pieces = certificate.pieces.as_slice();
    let mut begin = certificate.from;
    for (index, piece) in pieces.iter().enumerate() {
        if piece.from != begin || piece.from >= piece.to {
            return Some(index as u64 + 1);
        }
        begin = piece.to;
    }
    if pieces.is_empty() || begin != certificate.to {
        return Some(pieces.len() as u64 + 1);
    }
    None
}

/// The number, from 1, of the first piece that its grant doesn't carry.
pub fn first_ungranted<L: Lines>(
    lines: &L,
    certificate: &Certificate,
    skew: Skew,
    transit: Transit,
) -> Option<u64>
    ensures { MatchOption result (AreGranted (L.journals lines.now) skew transit certificate.now)
        (IsUngranted (L.journals lines.now) skew transit certificate.now) }
{
    for (index, piece) in certificate.pieces.as_slice().iter().enumerate() {
        if !is_granted(lines, certificate, piece, skew, transit) {
            return Some(index as u64 + 1);
        }
    }
    None
}
