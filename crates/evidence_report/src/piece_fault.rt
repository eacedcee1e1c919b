//! Why a grant doesn't carry a piece.

ghost use Rattle.std.specs.Prelude.{◌≡◌, MatchOption};
ghost use Rattle.causal_order.specs.Journals.{Journals};
ghost use Rattle.causal_order.specs.declared.certificate.Piece.{Piece as PieceValue};
ghost use Rattle.attribution.specs.Acceptance.{IsGranted};
ghost use Rattle.auditor.specs.Bounds.{IsHolders};
ghost use Rattle.evidence_report.specs.Pieces.{IsPieceReport};
ghost use Rattle.evidence_report.specs.Faults.{FailsPiece, IsHolderFault, BeginsBy, IsBeginFault, LastsBy, IsEndFault};

use crate::faults::PieceFault;
use crate::mark::LineReading;
use crate::piece_report::PieceReport;
use causal_order::{Certificate, Piece};
use journal_lines::Lease;
use lead_time::{Skew, Transit};

/// Why the lease isn't one of the holder's, of a prefix round the one asked of.
fn holder_fault(lease: &Lease, certificate: &Certificate) -> Option<PieceFault>
    ensures { MatchOption result (IsHolders lease.now certificate.now) (IsHolderFault lease.now certificate.now) }
{
    if lease.client != certificate.holder {
        return Some(PieceFault::OtherClient(lease.client));
    }
    if !lease.prefix.contains(&certificate.prefix) {
        return Some(PieceFault::OtherPrefix(lease.prefix));
    }
    None
}

/// Why the lease isn't shown to stand from the piece's beginning on.
fn begin_fault(
    latest: &Option<LineReading>,
    piece: &Piece,
    skew: Skew,
    transit: Transit,
) -> Option<PieceFault>
    ensures { MatchOption result (BeginsBy latest.now skew transit piece.now.from)
        (IsBeginFault latest.now skew transit piece.now.from) }
{
    let Some(mark) = latest else {
        return Some(PieceFault::NoChainFrom);
    };
    let from = piece.from.milliseconds();
    let begun = mark.reading.milliseconds() + skew.milliseconds() + transit.milliseconds();
    if from < begun {
        return Some(PieceFault::BegunLate { begun, from });
    }
    None
}

/// Why the lease isn't shown to last to the piece's end.
fn end_fault(
    earliest: &Option<LineReading>,
    piece: &Piece,
    valid: u32,
    skew: Skew,
) -> Option<PieceFault>
    ensures { MatchOption result (LastsBy earliest.now skew valid piece.now.to)
        (IsEndFault earliest.now skew valid piece.now.to) }
{
    let Some(mark) = earliest else {
        return Some(PieceFault::NoChainTo);
    };
    let needed = piece.to.milliseconds() + skew.milliseconds();
    let shown = mark.reading.milliseconds() + 1000 * u64::from(valid);
    if valid != Lease::INFINITE && needed > shown {
        return Some(PieceFault::EndsEarly { needed, shown });
    }
    None
}

impl PieceReport<'_> {
    /// Why the grant doesn't carry the piece of this certificate: the first comparison that fails, with its numbers.
    /// `None` where it does.
    pub fn fault(
        &self,
        certificate: &Certificate,
        skew: Skew,
        transit: Transit,
    ) -> Option<PieceFault>
        ensures { (js : Journals) (p : PieceValue) → IsPieceReport js skew p self.now
            → MatchOption result (IsGranted js skew transit certificate.now p)
            (FailsPiece js skew transit certificate.now p) }
    {
        let Some(granted) = &self.granted else {
            return Some(PieceFault::NoGrant);
        };
        if let Some(fault) = holder_fault(&granted.lease, certificate) {
            return Some(fault);
        }
        if let Some(fault) = begin_fault(&self.latest, self.piece, skew, transit) {
            return Some(fault);
        }
        end_fault(&self.earliest, self.piece, granted.lease.valid, skew)
    }
}
