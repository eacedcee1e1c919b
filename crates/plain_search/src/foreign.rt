//! Why other clients' delegations stay out of the interval.

ghost use Rattle.std.specs.Prelude.{◌≡◌, ◌↔◌, ◌+◌, ◌≤◌, IsTrue, MatchOption, IfOk, IsErrOf, OnOk};
ghost use Rattle.attribution.specs.declared.delegation.Delegation.{Delegation as DelegationValue};
ghost use Rattle.attribution.specs.Acceptance.{EndsBy, IsNew};
ghost use Rattle.plain_search.specs.Collected.{IsRecent};
ghost use Rattle.plain_search.specs.Search.{IsOthersAt, IsAnothers, IsAside, HasNoReason, AreForeign, IsInTheWay};

use crate::asking::{delegation_at, reading_at};
use crate::error::FindError;
use crate::ordering::{plain_order, single};
use crate::query::Query;
use crate::recent::ReleaseCache;
use crate::releases::returning;
use attribution::{Delegation, Lasting};
use auditor::LineSource;
use causal_order::{Foreign, ForeignList, Lines, Reason, Ref};
use journal_lines::Lease;
use lead_time::Reading;
use std::alloc::Global;

/// Returns whether what was told of at this reading has ended by the query's beginning.
pub fn has_ended(query: &Query, lasting: Lasting, granted: Reading) -> bool
    ensures { IsTrue result ↔ EndsBy query.now.skew query.now.transit granted query.now.from lasting }
{
    let late = query.skew.milliseconds() + query.transit.milliseconds();
    let from = query.from.milliseconds();
    match lasting {
        Lasting::For(seconds) => {
            seconds != Lease::INFINITE
                && granted.milliseconds() + late + 1000 * u64::from(seconds) <= from
        }
        Lasting::Until(end) => end.milliseconds() + late <= from,
    }
}

/// Returns whether what is told of at this reading begins past the query.
pub fn begins_late(query: &Query, lasting: Lasting, granted: Reading) -> bool
    ensures { IsTrue result ↔ (IsNew lasting × (query.now.to + query.now.skew ≤ granted)) }
{
    match lasting {
        Lasting::For(_) => {
            query.to.milliseconds() + query.skew.milliseconds() <= granted.milliseconds()
        }
        Lasting::Until(_) => false,
    }
}

/// Why the delegation that the line tells of stays out of the interval: it ended before, began after, or was given
/// back before. `NoneFound` where single lines show none of these.
fn reason_of<S: LineSource>(
    alloc: Global,
    source: &S,
    recent: &mut ReleaseCache,
    query: &Query,
    at: Ref,
    delegation: &Delegation,
) -> Result<Reason, FindError>
    requires { IsRecent (S.journals source.now) recent.old }
    ensures recent { OnOk result (IsRecent (S.journals source.now) recent.new) }
    ensures holds { IfOk result (IsAside (S.journals source.now) query.now at delegation.now) }
    ensures none { IsErrOf result FindError.NoneFound
        → HasNoReason (S.journals source.now) query.now at delegation.now }
    ensures short { IsErrOf result FindError.TooLong → ⊥ }
{
    let Some(granted) = reading_at(source, at) else {
        return Err(FindError::NoneFound);
    };
    if has_ended(query, delegation.lasting, granted) {
        return Ok(Reason::Early(single(alloc, at)?));
    }
    if begins_late(query, delegation.lasting, granted) {
        return Ok(Reason::Late(single(alloc, at)?));
    }
    let found = returning(alloc, source, recent, query, at, delegation)?;
    let Some(release) = found else {
        return Err(FindError::NoneFound);
    };
    let order = plain_order(alloc, at, release)?;
    let latest = single(alloc, release)?;
    Ok(Reason::Released {
        release,
        order,
        latest,
    })
}

/// Returns whether the delegation is another client's, of a prefix that overlaps the one asked of.
fn is_anothers(delegation: &Delegation, query: &Query) -> bool
    ensures { IsTrue result ↔ IsAnothers delegation.now query.now }
{
    delegation.client != query.holder && delegation.prefix.overlaps(&query.prefix)
}

/// Another client's delegation of a prefix that overlaps the one asked of, which the line tells of.
pub fn others_at<L: Lines>(lines: &L, query: &Query, at: Ref) -> Option<Delegation>
    ensures { MatchOption result
        ((d : DelegationValue) → IsOthersAt (L.journals lines.now) query.now at d → ⊥)
        (IsOthersAt (L.journals lines.now) query.now at) }
{
    let delegation = delegation_at(lines, at)?;
    if !is_anothers(&delegation, query) {
        return None;
    }
    Some(delegation)
}

/// An entry for each line that tells of such a delegation. `NoneFound` where one is in the way.
pub fn foreign_entries<S: LineSource>(
    alloc: Global,
    source: &S,
    query: &Query,
) -> Result<ForeignList, FindError>
    ensures found { IfOk result (AreForeign (S.journals source.now) query.now) }
    ensures none { IsErrOf result FindError.NoneFound → IsInTheWay (S.journals source.now) query.now }
    ensures short { IsErrOf result FindError.TooLong → ⊥ }
{
    let mut entries = ForeignList::new(alloc);
    let mut recent = ReleaseCache::new(alloc);
    let mut walk = source.overlaps(&query.prefix);
    while let Some(grant) = source.next_overlap(&query.prefix, &mut walk) {
        if let Some(delegation) = others_at(source, query, grant) {
            let reason = reason_of(alloc, source, &mut recent, query, grant, &delegation)?;
            entries.push(Foreign { grant, reason })?;
        }
    }
    Ok(entries)
}
