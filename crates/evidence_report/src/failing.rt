//! Which comparison a refusal rests on.

ghost use Rattle.std.specs.Prelude.{◌≡◌, ◌↔◌, ℕ, ◌+◌, ◌≤◌, IsTrue, MatchOption, Some, None, All};
ghost use Rattle.std.specs.Prelude.{length, option_map, slice_get};
ghost use Rattle.causal_order.specs.Journals.{Journals};
ghost use Rattle.causal_order.specs.declared.certificate.Certificate.{Certificate as CertificateValue};
ghost use Rattle.causal_order.specs.declared.certificate.Piece.{Piece as PieceValue};
ghost use Rattle.attribution.specs.declared.delegation.Delegation.{Delegation as DelegationValue};
ghost use Rattle.attribution.specs.Acceptance.{IsGranted, IsPastOpen, IsPastPartner, Tells, ReasonHolds};
ghost use Rattle.attribution.specs.FirstRefusal.{IsVerdict, begin_at};
ghost use Rattle.auditor.specs.Opened.{HasLineOf, IsClearOfOpen, IsPastOwn};
ghost use Rattle.evidence_report.specs.Reports.{IsReport};
ghost use Rattle.evidence_report.specs.Pieces.{IsPieceReport};
ghost use Rattle.evidence_report.specs.Failures.{IsOpenFailure, IsBeforeOpen, span_of, IsFailureOf, side_in};
ghost use Rattle.evidence_report.specs.Failures.{condition_of, IsUncarried, IsUnreasoned};

use crate::faults::Failure;
use crate::piece_report::PieceReport;
use crate::report::{Report, SideReport};
use crate::reported_delegation::told_at;
use attribution::Verdict;
use auditor::LineSource;
use binding_rules::Role;
use causal_order::{Certificate, Chain, Lines, Ref};
use lead_time::Reading;

/// What is shown of the side's journal.
fn side_of<'a>(report: &'a Report, side: Role) -> &'a SideReport
    ensures { result.now ≡ side_in report.now side }
{
    match side {
        Role::Primary => &report.primary,
        Role::Secondary => &report.secondary,
    }
}

/// The interval's end and the skew are later than the reading of the side's close line.
fn past_end(report: &Report, side: Role) -> Failure
    ensures { result ≡ Failure.PastEnd side (report.now.certificate.now.to + report.now.skew)
        (side_in report.now side).closed }
{
    Failure::PastEnd {
        side,
        needed: report.certificate.to.milliseconds() + report.skew.milliseconds(),
        closed: side_of(report, side).closed,
    }
}

/// Where the piece at this index must begin: at the interval's beginning, or where the piece before it ends.
#[tactic(auto, using(crate::proofs::Refusing::begins_behind, crate::proofs::Refusing::begins_first))]
fn begin_at(certificate: &Certificate, index: usize) -> Reading
    ensures { index ≤ length certificate.now.pieces
        → result ≡ begin_at certificate.now.from certificate.now.pieces index }
{
    let pieces = certificate.pieces.as_slice();
    if index == 0 {
        return certificate.from;
    }
    match pieces.get(index - 1) {
        Some(before) => before.to,
        None => certificate.from,
    }
}

/// Where the piece at this index begins and ends.
fn span_at(certificate: &Certificate, index: usize) -> Option<(Reading, Reading)>
    ensures { result ≡ option_map span_of (slice_get certificate.now.pieces index) }
{
    let piece = certificate.pieces.as_slice().get(index)?;
    Some((piece.from, piece.to))
}

/// The piece of this number isn't in its place.
fn piece_gap(certificate: &Certificate, number: u64) -> Failure
    ensures { (k : ℕ) → number ≡ k + 1 → k ≤ length certificate.now.pieces
        → result ≡ Failure.PieceGap number (begin_at certificate.now.from certificate.now.pieces k)
        (option_map span_of (slice_get certificate.now.pieces k)) }
{
    let index = number.saturating_sub(1) as usize;
    Failure::PieceGap {
        number,
        must: begin_at(certificate, index),
        piece: span_at(certificate, index),
    }
}

/// The piece of this number isn't carried by its grant.
fn piece_grant(report: &Report, number: u64) -> Option<Failure>
    ensures { (js : Journals) (skew transit : ℕ) (c : CertificateValue) → IsReport js skew transit c report.now
        → (k : ℕ) (p : PieceValue) → number ≡ k + 1 → slice_get c.pieces k ≡ Some p
        → MatchOption result (IsGranted js skew transit c p) (IsUncarried js skew transit c p number) }
{
    let index = number.saturating_sub(1) as usize;
    let shown = report.pieces.get(index)?;
    let fault = shown.fault(report.certificate, report.skew, report.transit)?;
    Some(Failure::PieceGrant { number, fault })
}

/// The side has earlier volumes, whose answers had reached their clients too late.
fn before_open(report: &Report, side: Role) -> Option<Failure>
    ensures { (js : Journals) (skew transit : ℕ) (c : CertificateValue) → IsReport js skew transit c report.now
        → MatchOption result (IsPastOwn js skew transit c side) (IsOpenFailure js skew transit c) }
{
    let shown = side_of(report, side);
    let opened = shown.opened?;
    let from = report.certificate.from;
    let latest = opened.milliseconds() + report.skew.milliseconds();
    let needed = latest + report.transit.milliseconds();
    if shown.volume > 1 && needed > from.milliseconds() {
        return Some(Failure::BeforeOpen { side, needed, from });
    }
    None
}

/// Returns whether a reference of the chain is to a line of this side.
fn has_line_of(chain: &Chain, side: Role) -> bool
    ensures { IsTrue result ↔ HasLineOf chain.now side }
{
    chain.as_slice().iter().any(|at| at.side == side)
}

/// Returns whether the reading at the first line of the chain to the piece's grant is later than that of the side's
/// open line by more than both skews.
fn is_clear_of_open(report: &Report, shown: &PieceReport, side: Role) -> bool
    ensures { (js : Journals) (skew transit : ℕ) (c : CertificateValue) (p : PieceValue)
        → IsReport js skew transit c report.now → IsPieceReport js skew p shown.now
        → IsTrue result ↔ IsClearOfOpen js skew p side }
{
    let Some(opened) = &side_of(report, side).opened else {
        return false;
    };
    let Some(earliest) = &shown.earliest else {
        return false;
    };
    opened.milliseconds() + 2 * report.skew.milliseconds() < earliest.reading.milliseconds()
}

/// The partner of the server that granted the piece, where it has earlier volumes and the grant isn't shown to have
/// come behind them.
fn unopened(report: &Report, shown: &PieceReport) -> Option<Role>
    ensures { (js : Journals) (skew transit : ℕ) (c : CertificateValue) (p : PieceValue)
        → IsReport js skew transit c report.now → IsPieceReport js skew p shown.now
        → MatchOption result (IsPastPartner js skew p) (IsBeforeOpen js skew p) }
{
    let side = shown.piece.grant.side.partner();
    if side_of(report, side).volume <= 1 {
        return None;
    }
    if has_line_of(&shown.piece.earliest, side) || is_clear_of_open(report, shown, side) {
        return None;
    }
    Some(side)
}

/// The first piece whose grant isn't shown to have come behind the earlier volumes of its server's partner.
fn piece_before_open(report: &Report) -> Option<Failure>
    ensures { (js : Journals) (skew transit : ℕ) (c : CertificateValue) → IsReport js skew transit c report.now
        → MatchOption result (All (IsPastPartner js skew) c.pieces) (IsOpenFailure js skew transit c) }
{
    for (index, shown) in report.pieces.iter().enumerate() {
        if let Some(side) = unopened(report, shown) {
            let number = index as u64 + 1;
            return Some(Failure::PieceBeforeOpen { number, side });
        }
    }
    None
}

/// Earlier volumes, which these journals don't show, may touch what the certificate says.
fn opening_failure(report: &Report) -> Option<Failure>
    ensures { (js : Journals) (skew transit : ℕ) (c : CertificateValue) → IsReport js skew transit c report.now
        → MatchOption result (IsPastOpen js skew transit c) (IsOpenFailure js skew transit c) }
{
    if let Some(failure) = before_open(report, Role::Primary) {
        return Some(failure);
    }
    if let Some(failure) = before_open(report, Role::Secondary) {
        return Some(failure);
    }
    piece_before_open(report)
}

/// The line tells of a delegation that no foreign entry names.
fn uncovered<L: Lines>(lines: &L, at: Ref) -> Option<Failure>
    ensures { MatchOption result ((d : DelegationValue) → Tells (L.journals lines.now) at d → ⊥)
        (λ f. (d : DelegationValue) × (f ≡ Failure.Uncovered at d) × Tells (L.journals lines.now) at d) }
{
    let told = told_at(lines, at)?;
    Some(Failure::Uncovered {
        at,
        delegation: told.delegation,
    })
}

/// The first foreign entry whose reason doesn't hold.
fn reason_failure(report: &Report) -> Option<Failure>
    ensures { (js : Journals) (skew transit : ℕ) (c : CertificateValue) → IsReport js skew transit c report.now
        → MatchOption result (All (ReasonHolds js skew transit c) c.foreign) (IsUnreasoned js skew transit c) }
{
    for shown in &report.foreign {
        if let Some(fault) = shown.fault(report.certificate, report.skew, report.transit) {
            return Some(Failure::Reason {
                at: shown.entry.grant,
                fault,
            });
        }
    }
    None
}

/// The comparison that fails where the certificate is refused by this verdict, with its numbers. `None` where it is
/// accepted, and for verdicts that come before the certificate's conditions.
pub fn failure_of<S: LineSource>(source: &S, report: &Report, verdict: &Verdict) -> Option<Failure>
    ensures none { condition_of verdict.now ≡ None → result ≡ None }
    ensures failure { (skew transit : ℕ) (c : CertificateValue)
        → IsReport (S.journals source.now) skew transit c report.now
        → IsVerdict (S.journals source.now) skew transit c verdict.now
        → IsFailureOf (S.journals source.now) skew transit c verdict.now result }
{
    match verdict {
        Verdict::EmptyInterval => Some(Failure::EmptyInterval {
            from: report.certificate.from,
            to: report.certificate.to,
        }),
        Verdict::PastEnd(side) => Some(past_end(report, *side)),
        Verdict::PieceGap(number) => Some(piece_gap(report.certificate, *number)),
        Verdict::PieceGrant(number) => piece_grant(report, *number),
        Verdict::BeforeOpen => opening_failure(report),
        Verdict::PieceRelease(number, release) => Some(Failure::PieceRelease {
            number: *number,
            release: *release,
        }),
        Verdict::Uncovered(at) => uncovered(source, *at),
        Verdict::Reason(_) => reason_failure(report),
        _ => None,
    }
}
