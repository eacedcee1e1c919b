//! What is shown of the releases of what a piece's grant gave.

ghost use Rattle.std.specs.Prelude.{◌≡◌, ◌↔◌, IfOk, IsTrue, MatchOption, Contains as Has};
ghost use Rattle.causal_order.specs.declared.reference.Ref.{Ref as RefValue};
ghost use Rattle.causal_order.specs.declared.certificate.Clear.{Clear as ClearValue};
ghost use Rattle.causal_order.specs.Naming.{NamesAt};
ghost use Rattle.attribution.specs.Acceptance.{IsCleared, Discharges};
ghost use Rattle.auditor.specs.Bounds.{IsWrittenFrom};
ghost use Rattle.auditor.specs.Refusals.{ClearsAt};
ghost use Rattle.auditor.specs.Walks.{AreReleases};
ghost use Rattle.evidence_report.specs.Lines.{AreRising, AreExactly};
ghost use Rattle.evidence_report.specs.Marks.{Reads, Exists};
ghost use Rattle.evidence_report.specs.Pieces.{IsClearing, IsDischarging, IsShownEntry, IsReleaseReport, AreReportsOf};
ghost use Rattle.evidence_report.specs.Pieces.{EndsDelegation, AreReleaseReports};

use crate::chains::{earliest_mark, mark_at};
use crate::line_order::in_order;
use crate::mark::LineReading;
use crate::orders::order_report;
use crate::piece_report::{ClearReport, PieceReleases, ReleaseReport};
use crate::told_releases::told_releases;
use attribution::Delegation;
use auditor::LineSource;
use causal_order::{Chain, Clear, ClearReason, Lines, Piece, Ref, precedes};
use lead_time::{Reading, Skew};
use std::alloc::{AllocError, Global};

/// How the entry clears the release.
fn cleared<'a, L: Lines>(
    lines: &L,
    piece: &Piece,
    release: Ref,
    why: &'a ClearReason,
    skew: Skew,
) -> ClearReport<'a>
    ensures { IsClearing (L.journals lines.now) piece.now release why.now result }
{
    match why {
        ClearReason::Before(order) => ClearReport::Before(order_report(
            lines,
            order,
            release,
            piece.grant,
            skew,
        )),
        ClearReason::After(chain) => ClearReport::After(
            chain,
            earliest_mark(lines, chain, release),
        ),
    }
}

/// Returns whether the chain shows that the line was written at the moment or later.
#[tactic(auto, using(crate::proofs::Clearing::after_by_mark, crate::proofs::Clearing::never_after))]
fn is_after<L: Lines>(lines: &L, chain: &Chain, at: Ref, skew: Skew, moment: Reading) -> bool
    ensures { IsTrue result ↔ IsWrittenFrom (L.journals lines.now) chain.now at skew moment }
{
    match earliest_mark(lines, chain, at) {
        Some(mark) => { moment.milliseconds() + skew.milliseconds() <= mark.reading.milliseconds() }
        None => false,
    }
}

/// Returns whether the release is shown to have come before the piece's grant, or not before its end.
fn is_cleared<L: Lines>(
    lines: &L,
    piece: &Piece,
    release: Ref,
    why: &ClearReason,
    skew: Skew,
) -> bool
    ensures { IsTrue result ↔ IsCleared (L.journals lines.now) skew release piece.now.grant piece.now.to why.now }
{
    match why {
        ClearReason::Before(order) => precedes(lines, release, piece.grant, order, skew),
        ClearReason::After(chain) => is_after(lines, chain, release, skew, piece.to),
    }
}

/// The entry at this index, which names the release, where it discharges it.
fn discharging_at<'a, L: Lines>(
    lines: &L,
    piece: &'a Piece,
    index: u32,
    release: Ref,
    skew: Skew,
) -> Option<&'a Clear>
    requires { NamesAt (λ k. k.release) piece.now.clear release index }
    ensures { MatchOption result (ClearsAt (L.journals lines.now) skew piece.now release index → ⊥)
        (λ k. IsDischarging (L.journals lines.now) skew piece.now release k.now) }
{
    let clear = piece.clear.as_slice().get(index as usize)?;
    if is_cleared(lines, piece, release, &clear.why, skew) {
        return Some(clear);
    }
    None
}

/// An entry that discharges the release.
fn discharging<'a, L: Lines>(
    lines: &L,
    piece: &'a Piece,
    release: Ref,
    skew: Skew,
) -> Option<&'a Clear>
    ensures { MatchOption result (Discharges (L.journals lines.now) skew piece.now release → ⊥)
        (λ k. IsDischarging (L.journals lines.now) skew piece.now release k.now) }
{
    for index in piece.clear.naming(release) {
        if let Some(clear) = discharging_at(lines, piece, *index, release, skew) {
            return Some(clear);
        }
    }
    None
}

/// An entry that names the release.
fn naming<'a>(piece: &'a Piece, release: Ref) -> Option<&'a Clear>
    ensures { MatchOption result ((k : ClearValue) → Has piece.now.clear k → k.release ≡ release → ⊥)
        (λ k. Has piece.now.clear k.now × (k.now.release ≡ release)) }
{
    let index = piece.clear.naming(release).first()?;
    let clear = piece.clear.as_slice().get(*index as usize)?;
    Some(clear)
}

/// How the entry clears the release, with the entry.
fn clearing<'a, L: Lines>(
    lines: &L,
    piece: &Piece,
    release: Ref,
    clear: &'a Clear,
    skew: Skew,
) -> (&'a Clear, ClearReport<'a>)
    ensures entry { result.0.now ≡ clear.now }
    ensures clearing { IsClearing (L.journals lines.now) piece.now release clear.now.why result.1 }
{
    (clear, cleared(lines, piece, release, &clear.why, skew))
}

/// What is shown of a release that no entry discharges: an entry that names it.
fn failing_entry<'a, L: Lines>(
    lines: &L,
    piece: &'a Piece,
    release: Ref,
    skew: Skew,
) -> Option<(&'a Clear, ClearReport<'a>)>
    requires { Discharges (L.journals lines.now) skew piece.now release → ⊥ }
    ensures { IsShownEntry (L.journals lines.now) skew piece.now release result }
{
    let clear = naming(piece, release)?;
    Some(clearing(lines, piece, release, clear, skew))
}

/// What is shown of a release.
fn release_report<'a, L: Lines>(
    lines: &L,
    piece: &'a Piece,
    release: LineReading,
    skew: Skew,
) -> ReleaseReport<'a>
    requires { Reads (L.journals lines.now) release.at release.reading }
    ensures release { result.release ≡ release }
    ensures shown { IsReleaseReport (L.journals lines.now) skew piece.now result }
{
    match discharging(lines, piece, release.at, skew) {
        Some(clear) => ReleaseReport {
            release,
            entry: Some(clearing(lines, piece, release.at, clear, skew)),
            is_discharged: true,
        },
        None => ReleaseReport {
            release,
            entry: failing_entry(lines, piece, release.at, skew),
            is_discharged: false,
        },
    }
}

/// The lines that give the delegation back, each once, in order. `AllocError` where a growth was refused.
pub fn releases_of<S: LineSource>(
    alloc: Global,
    source: &S,
    delegation: &Delegation,
) -> Result<Vec<Ref>, AllocError>
    ensures releases { IfOk result (λ refs. AreReleases (S.journals source.now) delegation.now refs.items) }
    ensures once { IfOk result (λ refs. AreRising refs.items) }
{
    let mut refs = Vec::new(alloc);
    let mut walk = source.releases(delegation);
    while let Some(at) = source.next_release(delegation, &mut walk) {
        refs.push(at)?;
    }
    let once = in_order(alloc, refs)?;
    Ok(once)
}

/// What is shown of each of these lines.
fn reports_of<'a, L: Lines>(
    alloc: Global,
    lines: &L,
    piece: &'a Piece,
    refs: &[Ref],
    skew: Skew,
) -> Result<Vec<ReleaseReport<'a>>, AllocError>
    requires { (r : RefValue) → Has refs.now r → Exists (L.journals lines.now) r }
    ensures { IfOk result (λ v. AreReportsOf (L.journals lines.now) skew piece.now refs.now v.items) }
{
    let mut releases = Vec::new(alloc);
    for at in refs {
        if let Some(release) = mark_at(lines, *at) {
            releases.extend_from_slice(&[release_report(lines, piece, release, skew)])?;
        }
    }
    Ok(releases)
}

/// What is shown of the delegation's releases, of which these are all.
pub fn release_reports<'a, L: Lines>(
    alloc: Global,
    lines: &L,
    piece: &'a Piece,
    delegation: &Delegation,
    releases: &[Ref],
    skew: Skew,
) -> Result<PieceReleases<'a>, AllocError>
    requires { AreExactly (EndsDelegation (L.journals lines.now) delegation.now) releases.now }
    ensures { IfOk result (AreReleaseReports (L.journals lines.now) skew piece.now
        (EndsDelegation (L.journals lines.now) delegation.now)) }
{
    let refs = told_releases(alloc, lines, piece, delegation, releases)?;
    let more = (releases.len() - refs.len()) as u64;
    let told = reports_of(alloc, lines, piece, &refs, skew)?;
    Ok(PieceReleases { told, more })
}
