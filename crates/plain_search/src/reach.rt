//! The moments that the holder's grants carry.

ghost use Rattle.std.specs.Prelude.{◌≡◌, ◌↔◌, ℕ, ◌+◌, ◌^◌, ◌<◌, ◌≤◌, ◌⊎◌, All, IsTrue, MatchOption, IfOk};
ghost use Rattle.std.specs.Prelude.{OnOk};
ghost use Rattle.plain_search.specs.Collected.{IsRecent};
ghost use Rattle.plain_search.specs.Search.{IsPastPartners, IsHolders, NoCandidateAt, IsCandidate, CarriesTo};
ghost use Rattle.plain_search.specs.Search.{begin_of, lease_limit, CarriesAt, IsReach, AreAllReaches, AreInOrder};

use crate::asking::{lease_at, reading_at};
use crate::ordering::are_apart;
use crate::query::Query;
use crate::recent::ReleaseCache;
use crate::releases::kept_limit;
use crate::sweep::sort;
use auditor::LineSource;
use causal_order::Ref;
use journal_lines::Lease;
use lead_time::{Reading, Skew};
use std::alloc::{AllocError, Global};

/// A grant that may carry pieces: what it gives, and what the clock showed.
#[derive(Clone, Copy, Debug)]
pub struct Candidate {
    pub grant: Ref,
    pub lease: Lease,
    pub reading: Reading,
}

/// A grant, and the moments that it carries: from `begin` up to `end`.
#[derive(Clone, Copy, Debug)]
pub struct CarriedSpan {
    pub grant: Ref,
    pub begin: Reading,
    pub end: Reading,
}

/// Returns whether clocks show that the line was written after the earlier volumes of its server's partner.
fn is_past_partners<S: LineSource>(source: &S, at: Ref, reading: Reading, skew: Skew) -> bool
    ensures { IsTrue result ↔ IsPastPartners (S.journals source.now) skew at reading }
{
    let partner = at.side.partner();
    if source.volume(partner) <= 1 {
        return true;
    }
    let open = Ref {
        side: partner,
        number: 1,
    };
    match reading_at(source, open) {
        Some(opened) => are_apart(opened, reading, skew),
        None => false,
    }
}

/// Returns whether the lease is the holder's, of a prefix round the one asked of.
pub fn is_holders(lease: &Lease, query: &Query) -> bool
    ensures { IsTrue result ↔ IsHolders lease.now query.now }
{
    lease.client == query.holder && lease.prefix.contains(&query.prefix)
}

/// The line as a grant that may carry pieces.
#[tactic(auto, using(crate::proofs::Candidates::not_holders, crate::proofs::Candidates::not_past))]
fn candidate_at<S: LineSource>(source: &S, query: &Query, at: Ref) -> Option<Candidate>
    ensures { MatchOption result (NoCandidateAt (S.journals source.now) query.now at)
        (λ c. (c.grant ≡ at) × IsCandidate (S.journals source.now) query.now c) }
{
    let lease = lease_at(source, at)?;
    let reading = reading_at(source, at)?;
    if !is_holders(&lease, query) {
        return None;
    }
    if !is_past_partners(source, at, reading, query.skew) {
        return None;
    }
    Some(Candidate {
        grant: at,
        lease,
        reading,
    })
}

/// From when on the grant may carry a piece: its answer has reached the client. `None` where that is past the query.
pub fn begin_of(query: &Query, candidate: &Candidate) -> Option<Reading>
    ensures { MatchOption result (query.now.to ≤ begin_of query.now candidate.now)
        (λ begin. begin ≡ begin_of query.now candidate.now) }
{
    let reached = candidate.reading.milliseconds()
        + query.skew.milliseconds()
        + query.transit.milliseconds();
    if reached >= query.to.milliseconds() {
        return None;
    }
    Reading::new(reached).ok()
}

/// The reading up to which the lease lasts, but none past the query.
pub fn lease_limit(query: &Query, candidate: &Candidate) -> u64
    ensures value { result ≡ lease_limit query.now candidate.now }
    ensures within { result ≤ 2 ^ 48 + query.now.skew }
{
    let asked = query.to.milliseconds() + query.skew.milliseconds();
    if candidate.lease.valid == Lease::INFINITE {
        return asked;
    }
    asked.min(candidate.reading.milliseconds() + 1000 * u64::from(candidate.lease.valid))
}

/// The moment that is the skew before this reading, where there is one.
pub fn less_skew(reading: u64, skew: Skew) -> Option<Reading>
    ensures { MatchOption result ((reading < skew) ⊎ (2 ^ 48 + skew < reading)) (λ m. m + skew ≡ reading) }
{
    Reading::new(reading.checked_sub(skew.milliseconds())?).ok()
}

/// Up to when the grant may carry a piece. `None` where that isn't past the query's beginning.
fn end_of<S: LineSource>(
    alloc: Global,
    source: &S,
    recent: &mut ReleaseCache,
    query: &Query,
    candidate: &Candidate,
) -> Result<Option<Reading>, AllocError>
    requires { IsRecent (S.journals source.now) recent.old }
    ensures recent { OnOk result (IsRecent (S.journals source.now) recent.new) }
    ensures end { IfOk result (λ found. MatchOption found
        ((m : ℕ) → query.now.from ≤ m → CarriesTo (S.journals source.now) query.now candidate.now (m + 1) → ⊥)
        (λ end. (to : ℕ) → CarriesTo (S.journals source.now) query.now candidate.now to ↔ to ≤ end)) }
{
    let limit = lease_limit(query, candidate);
    if limit <= query.from.milliseconds() + query.skew.milliseconds() {
        return Ok(None);
    }
    let kept = kept_limit(alloc, source, recent, candidate, query.skew, limit)?;
    Ok(less_skew(kept, query.skew))
}

/// The line as a grant with the moments of the query that it carries, where there are any.
pub fn reach_at<S: LineSource>(
    alloc: Global,
    source: &S,
    recent: &mut ReleaseCache,
    query: &Query,
    at: Ref,
) -> Result<Option<CarriedSpan>, AllocError>
    requires { IsRecent (S.journals source.now) recent.old }
    ensures recent { OnOk result (IsRecent (S.journals source.now) recent.new) }
    ensures reach { IfOk result (λ found. MatchOption found
        ((m : ℕ) → query.now.from ≤ m → CarriesAt (S.journals source.now) query.now m at → ⊥)
        (λ x. (x.grant ≡ at) × IsReach (S.journals source.now) query.now x)) }
{
    let Some(candidate) = candidate_at(source, query, at) else {
        return Ok(None);
    };
    let Some(begin) = begin_of(query, &candidate) else {
        return Ok(None);
    };
    let end = end_of(alloc, source, recent, query, &candidate)?;
    match end {
        Some(end) => Ok(Some(CarriedSpan {
            grant: at,
            begin,
            end,
        })),
        None => Ok(None),
    }
}

/// The grants that carry moments of the query, in the order in which the source gives their lines.
fn found_reaches<S: LineSource>(
    alloc: Global,
    source: &S,
    query: &Query,
) -> Result<Vec<CarriedSpan>, AllocError>
    ensures each { IfOk result (λ xs. All (IsReach (S.journals source.now) query.now) xs.items) }
    ensures all { IfOk result (λ xs. AreAllReaches (S.journals source.now) query.now xs.items) }
{
    let _bits = query.prefix.len();
    let mut reaches = Vec::new(alloc);
    let mut recent = ReleaseCache::new(alloc);
    let mut walk = source.overlaps(&query.prefix);
    while let Some(at) = source.next_overlap(&query.prefix, &mut walk) {
        let found = reach_at(alloc, source, &mut recent, query, at)?;
        if let Some(reach) = found {
            reaches.push(reach)?;
        }
    }
    Ok(reaches)
}

/// The grants that carry moments of the query, the first that does first.
pub fn reaches<S: LineSource>(
    alloc: Global,
    source: &S,
    query: &Query,
) -> Result<Vec<CarriedSpan>, AllocError>
    ensures each { IfOk result (λ xs. All (IsReach (S.journals source.now) query.now) xs.items) }
    ensures all { IfOk result (λ xs. AreAllReaches (S.journals source.now) query.now xs.items) }
    ensures sorted { IfOk result (λ xs. AreInOrder xs.items) }
{
    let mut reaches = found_reaches(alloc, source, query)?;
    sort(&mut reaches)?;
    Ok(reaches)
}
