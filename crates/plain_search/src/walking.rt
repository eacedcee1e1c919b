//! What releases leave of a grant, each looked at: where they are few, or their readings don't rise.

ghost use Rattle.std.specs.Prelude.{◌≡◌, ◌↔◌, ℕ, ◌+◌, ◌≤◌, IsTrue, MatchOption};
ghost use Rattle.causal_order.specs.declared.reference.Ref.{Ref as RefValue};
ghost use Rattle.attribution.specs.Acceptance.{GivesBack};
ghost use Rattle.auditor.specs.Walks.{AreReleases};
ghost use Rattle.plain_search.specs.Search.{IsReadAt, IsPlainlyBefore, AreKeptTo, IsReturnedBy};

use crate::asking::reading_at;
use crate::ordering::is_plainly_before;
use crate::query::Query;
use crate::reach::Candidate;
use attribution::Delegation;
use auditor::{LineSource, Walk};
use causal_order::{Lines, Ref};
use lead_time::{Reading, Skew};

/// Returns what the clock showed at a release that isn't plainly before the grant.
fn cutting_reading<L: Lines>(lines: &L, release: Ref, grant: Ref, skew: Skew) -> Option<Reading>
    ensures { MatchOption result
        ((x : ℕ) → IsReadAt (L.journals lines.now) release x
        → IsPlainlyBefore (L.journals lines.now) skew release grant)
        (λ x. IsReadAt (L.journals lines.now) release x
        × (IsPlainlyBefore (L.journals lines.now) skew release grant → ⊥)) }
{
    if is_plainly_before(lines, release, grant, skew) {
        return None;
    }
    reading_at(lines, release)
}

/// The greatest reading up to this one that no release of what the grant gave cuts off.
pub fn kept_limit<S: LineSource>(source: &S, candidate: &Candidate, skew: Skew, limit: u64) -> u64
    ensures { (least : ℕ) → least ≤ result
        ↔ ((least ≤ limit) × AreKeptTo (S.journals source.now) skew candidate.now least) }
{
    let delegation = Delegation::of_lease(&candidate.lease);
    let mut kept = limit;
    let mut walk = source.releases(&delegation);
    while let Some(release) = source.next_release(&delegation, &mut walk) {
        if let Some(reading) = cutting_reading(source, release, candidate.grant, skew) {
            kept = kept.min(reading.milliseconds());
        }
    }
    kept
}

/// Returns whether the release was plainly written after the line, and by the query's beginning.
fn is_returned_by<L: Lines>(lines: &L, query: &Query, at: Ref, release: Ref) -> bool
    ensures { IsTrue result ↔ IsReturnedBy (L.journals lines.now) query.now at release }
{
    let Some(reading) = reading_at(lines, release) else {
        return false;
    };
    reading.milliseconds() + query.skew.milliseconds() <= query.from.milliseconds()
        && is_plainly_before(lines, at, release, query.skew)
}

/// A line that gives back what this line tells of, plainly after it and by the query's beginning.
pub fn returning<S: LineSource>(
    source: &S,
    query: &Query,
    at: Ref,
    delegation: &Delegation,
    walk: Walk,
) -> Option<Ref>
    requires { AreReleases (S.journals source.now) delegation.now (S.returned source.now delegation.now walk) }
    ensures { MatchOption result
        ((j : RefValue) → GivesBack (S.journals source.now) j delegation.now
        → IsReturnedBy (S.journals source.now) query.now at j → ⊥)
        (λ j. GivesBack (S.journals source.now) j delegation.now
        × IsReturnedBy (S.journals source.now) query.now at j) }
{
    let mut walk = walk;
    while let Some(release) = source.next_release(delegation, &mut walk) {
        if is_returned_by(source, query, at, release) {
            return Some(release);
        }
    }
    None
}

/// How many releases are few.
const FEW: usize = 16;

/// Returns whether the walk has no more than a few releases to give.
pub fn are_few<S: LineSource>(source: &S, delegation: &Delegation, walk: Walk) -> bool {
    let mut walk = walk;
    for _index in 0..FEW {
        if source.next_release(delegation, &mut walk).is_none() {
            return true;
        }
    }
    false
}
