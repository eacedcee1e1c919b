//! The delegations of addresses of a prefix that lines tell of, round a moment.

ghost use Rattle.std.specs.Prelude.{◌≡◌, ◌↔◌, ◌+◌, ◌<◌, ◌++◌, IsTrue, IfOk, OnOk};
ghost use Rattle.prefix_range.specs.Prefix.{Overlaps};
ghost use Rattle.attribution.specs.Acceptance.{IsNew, Tells};
ghost use Rattle.evidence_report.specs.Marks.{Reads};
ghost use Rattle.candidate_leases.specs.Conditions.{asked_of};
ghost use Rattle.candidate_leases.specs.Near.{IsNear};
ghost use Rattle.candidate_leases.specs.Leases.{AreReleaseMarks, AreMarksOf, AreConcerning, IsNearLease, IsNearAt};
ghost use Rattle.candidate_leases.specs.Leases.{AreNearLeases, found_list};

use crate::at_moment::{AtMoment, state_at};
use crate::sums::ends_by;
use attribution::{Delegation, Lasting};
use auditor::LineSource;
use causal_order::Ref;
use evidence_report::{LineReading, in_order, mark_at, releases_of, told_at};
use plain_search::HolderQuery;
use prefix_range::Prefix;
use std::alloc::{AllocError, Global};

/// A day, in milliseconds.
const DAY: u64 = 86_400_000;

/// A delegation of an address of a prefix, by the line that tells of it.
#[derive(Clone, Copy, Debug)]
pub struct CandidateLease {
    /// The line, and its reading.
    pub line: LineReading,
    pub delegation: Delegation,
    /// What both journals show of the moment asked about.
    pub state: AtMoment,
}

/// Returns whether it was surely granted more than a day later.
fn is_far_later(line: &LineReading, lasting: &Lasting, query: &HolderQuery) -> bool
    ensures { IsTrue result ↔ (IsNew lasting.now
        × ((asked_of query.now).at + (asked_of query.now).skew + 86400000 < line.now.reading)) }
{
    let from = query.at.milliseconds() + query.skew.milliseconds() + DAY;
    match lasting {
        Lasting::For(_) => from < line.reading.milliseconds(),
        Lasting::Until(_) => false,
    }
}

/// Returns whether what the line tells of may have been its client's within a day of the moment.
fn is_near(line: &LineReading, lasting: &Lasting, query: &HolderQuery) -> bool
    ensures { IsTrue result ↔ IsNear (asked_of query.now) line.now lasting.now }
{
    if is_far_later(line, lasting, query) {
        return false;
    }
    match ends_by(line.reading, lasting, query.skew, query.transit) {
        Some(end) => query.at.milliseconds().saturating_sub(DAY) <= end,
        None => true,
    }
}

/// The lines, with their readings.
#[tactic(auto, using(crate::proofs::Listed::none_marked, crate::proofs::Listed::one_marked, crate::proofs::Listed::one_unmarked, crate::proofs::Listed::all_marked))]
fn marks_of<S: LineSource>(
    alloc: Global,
    source: &S,
    refs: &[Ref],
) -> Result<Vec<LineReading>, AllocError>
    ensures { IfOk result (λ marks. AreMarksOf (S.journals source.now) refs.now marks.items) }
{
    let mut marks = Vec::new(alloc);
    for at in refs {
        if let Some(mark) = mark_at(source, *at) {
            marks.extend_from_slice(&[mark])?;
        }
    }
    Ok(marks)
}

/// The releases of a delegation, with their readings.
#[tactic(auto, using(crate::proofs::Listed::release_marks))]
fn release_marks_of<S: LineSource>(
    alloc: Global,
    source: &S,
    delegation: &Delegation,
) -> Result<Vec<LineReading>, AllocError>
    ensures { IfOk result (λ marks. AreReleaseMarks (S.journals source.now) delegation.now marks.items) }
{
    let releases = releases_of(alloc, source, delegation)?;
    let marks = marks_of(alloc, source, &releases)?;
    Ok(marks)
}

/// What is shown of a delegation that a line tells of, by the releases of it.
#[tactic(auto, using(crate::proofs::Listed::lease_so))]
fn lease_by<S: LineSource>(
    source: &S,
    line: LineReading,
    delegation: &Delegation,
    releases: &[LineReading],
    query: &HolderQuery,
) -> CandidateLease
    requires tells { Tells (S.journals source.now) line.at delegation.now }
    requires reads { Reads (S.journals source.now) line.at line.reading }
    requires overlaps { Overlaps delegation.now.prefix query.now.prefix }
    requires near { IsNear (asked_of query.now) line delegation.now.lasting }
    requires releases { AreReleaseMarks (S.journals source.now) delegation.now releases.now }
    ensures lease { IsNearLease (S.journals source.now) query.now.prefix (asked_of query.now) result }
    ensures line { result.line ≡ line }
{
    CandidateLease {
        line,
        delegation: *delegation,
        state: state_at(source, &line, &delegation.lasting, releases, query),
    }
}

/// What is shown of a delegation that a line tells of.
fn lease_of<S: LineSource>(
    alloc: Global,
    source: &S,
    line: LineReading,
    delegation: &Delegation,
    query: &HolderQuery,
) -> Result<CandidateLease, AllocError>
    requires tells { Tells (S.journals source.now) line.at delegation.now }
    requires reads { Reads (S.journals source.now) line.at line.reading }
    requires overlaps { Overlaps delegation.now.prefix query.now.prefix }
    requires near { IsNear (asked_of query.now) line delegation.now.lasting }
    ensures { IfOk result (λ lease. IsNearLease (S.journals source.now) query.now.prefix (asked_of query.now) lease
        × (lease.line ≡ line)) }
{
    let releases = release_marks_of(alloc, source, delegation)?;
    Ok(lease_by(source, line, delegation, &releases, query))
}

/// Returns whether the delegation that the line tells of is of an address of the prefix, and near the moment.
fn concerns(line: &LineReading, delegation: &Delegation, query: &HolderQuery) -> bool
    ensures { IsTrue result ↔ (Overlaps delegation.now.prefix query.now.prefix
        × IsNear (asked_of query.now) line.now delegation.now.lasting) }
{
    delegation.prefix.overlaps(&query.prefix) && is_near(line, &delegation.lasting, query)
}

/// What the line shows, if it tells of a delegation of an address of the prefix that may have been its client's within
/// a day of the moment.
#[tactic(auto, using(crate::proofs::Listed::untold, crate::proofs::Listed::unconcerned))]
fn near_at<S: LineSource>(
    alloc: Global,
    source: &S,
    at: Ref,
    query: &HolderQuery,
) -> Result<Option<CandidateLease>, AllocError>
    ensures { IfOk result (IsNearAt (S.journals source.now) query.now.prefix (asked_of query.now) at) }
{
    let Some(told) = told_at(source, at) else {
        return Ok(None);
    };
    let line = LineReading {
        at,
        reading: told.reading,
    };
    if !concerns(&line, &told.delegation, query) {
        return Ok(None);
    }
    let lease = lease_of(alloc, source, line, &told.delegation, query)?;
    Ok(Some(lease))
}

/// The lines that concern the prefix, in their order.
#[tactic(auto, using(crate::proofs::Listed::none_gathered, crate::proofs::Listed::one_gathered))]
fn concerning<S: LineSource>(
    alloc: Global,
    source: &S,
    prefix: &Prefix,
) -> Result<Vec<Ref>, AllocError>
    ensures { IfOk result (λ refs. AreConcerning (S.journals source.now) prefix.now refs.items) }
{
    let mut refs = Vec::new(alloc);
    let mut walk = source.overlaps(prefix);
    while let Some(at) = source.next_overlap(prefix, &mut walk) {
        refs.push(at)?;
    }
    let once = in_order(alloc, refs)?;
    Ok(once)
}

/// Appends what was found, if anything was.
fn push_found(
    leases: &mut Vec<CandidateLease>,
    found: Option<CandidateLease>,
) -> Result<(), AllocError>
    ensures { OnOk result (leases.new.items ≡ leases.old.items ++ found_list found) }
{
    match found {
        Some(lease) => leases.extend_from_slice(&[lease]),
        None => Ok(()),
    }
}

/// Each delegation of an address of the prefix that may have been a client's within a day of the moment, by the line
/// that tells of it: the primary's lines before the secondary's, and then by number. `AllocError` where a growth was
/// refused.
#[tactic(auto, using(crate::proofs::Listed::none_near, crate::proofs::Listed::looked, crate::proofs::Listed::all_near))]
pub fn candidate_leases<S: LineSource>(
    alloc: Global,
    source: &S,
    query: &HolderQuery,
) -> Result<Vec<CandidateLease>, AllocError>
    // Exactly those that lines tell of.
    ensures { IfOk result (λ leases.
        AreNearLeases (S.journals source.now) query.now.prefix (asked_of query.now) leases.items) }
{
    let refs = concerning(alloc, source, &query.prefix)?;
    let mut leases = Vec::new(alloc);
    for at in &refs {
        let found = near_at(alloc, source, *at, query)?;
        push_found(&mut leases, found)?;
    }
    Ok(leases)
}
