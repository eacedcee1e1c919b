//! Why other clients' delegations stay out of the interval, by chains through both journals.

ghost use Rattle.std.specs.Prelude.{OnOk};
ghost use Rattle.plain_search.specs.Collected.{IsRecent};

use crate::bounds::{earliest, earliest_chain, latest, latest_chain};
use crate::linking::{is_before, order};
use crate::messages::DeliveredMessages;
use attribution::Delegation;
use auditor::LineSource;
use causal_order::{Foreign, ForeignList, Lines, Reason, Ref};
use plain_search::{
    DatedRelease, FindError, Query, ReleaseCache, begins_late, first_read, has_ended, others_at,
};
use std::alloc::{AllocError, Global};

/// The first of a server's releases that was shown to be written after the line, where it was by the query's beginning.
fn first_return<L: Lines>(
    lines: &L,
    messages: &DeliveredMessages,
    query: &Query,
    at: Ref,
    releases: &[DatedRelease],
) -> Option<DatedRelease> {
    let place = releases.partition_point(|release| !is_before(
        lines, messages, at, release.at, query.skew,
    ));
    let release = *releases.get(place)?;
    let bound = latest(lines, messages, release.at)?;
    if bound.reading.milliseconds() + query.skew.milliseconds() > query.from.milliseconds() {
        return None;
    }
    Some(release)
}

/// A line that gives back what this line tells of, after it and by the query's beginning.
fn returning<S: LineSource>(
    alloc: Global,
    source: &S,
    messages: &DeliveredMessages,
    recent: &mut ReleaseCache,
    query: &Query,
    at: Ref,
    delegation: &Delegation,
) -> Result<Option<DatedRelease>, AllocError>
    requires { IsRecent (S.journals source.now) recent.old }
    ensures { OnOk result (IsRecent (S.journals source.now) recent.new) }
{
    let place = recent.place_for(alloc, source, delegation)?;
    let releases = &recent.collected[place];
    let primary = first_return(source, messages, query, at, &releases.primary);
    let secondary = first_return(source, messages, query, at, &releases.secondary);
    Ok(first_read(primary, secondary))
}

/// The reason that such a line gives.
fn returned<S: LineSource>(
    alloc: Global,
    source: &S,
    messages: &DeliveredMessages,
    query: &Query,
    at: Ref,
    release: Ref,
) -> Result<Reason, FindError> {
    let Some(bound) = latest(source, messages, release) else {
        return Err(FindError::NoneFound);
    };
    let order = order(alloc, source, messages, at, release, query.skew)?;
    let latest = latest_chain(alloc, release, &bound)?;
    Ok(Reason::Released {
        release,
        order,
        latest,
    })
}

/// Why the delegation that the line tells of stays out of the interval. `NoneFound` where no chain shows it.
fn reason_of<S: LineSource>(
    alloc: Global,
    source: &S,
    messages: &DeliveredMessages,
    recent: &mut ReleaseCache,
    query: &Query,
    at: Ref,
    delegation: &Delegation,
) -> Result<Reason, FindError>
    requires { IsRecent (S.journals source.now) recent.old }
    ensures { OnOk result (IsRecent (S.journals source.now) recent.new) }
{
    let (Some(granted), Some(since)) = (
        latest(source, messages, at),
        earliest(source, messages, at),
    ) else {
        return Err(FindError::NoneFound);
    };
    if has_ended(query, delegation.lasting, granted.reading) {
        return Ok(Reason::Early(latest_chain(alloc, at, &granted)?));
    }
    if begins_late(query, delegation.lasting, since.reading) {
        return Ok(Reason::Late(earliest_chain(alloc, at, &since)?));
    }
    let found = returning(alloc, source, messages, recent, query, at, delegation)?;
    let Some(release) = found else {
        return Err(FindError::NoneFound);
    };
    returned(alloc, source, messages, query, at, release.at)
}

/// An entry for each line that tells of such a delegation. `NoneFound` where one is in the way.
pub fn linked_foreign<S: LineSource>(
    alloc: Global,
    source: &S,
    messages: &DeliveredMessages,
    query: &Query,
) -> Result<ForeignList, FindError> {
    let mut entries = ForeignList::new(alloc);
    let mut recent = ReleaseCache::new(alloc);
    let mut walk = source.overlaps(&query.prefix);
    while let Some(grant) = source.next_overlap(&query.prefix, &mut walk) {
        if let Some(delegation) = others_at(source, query, grant) {
            let recent = &mut recent;
            let reason = reason_of(alloc, source, messages, recent, query, grant, &delegation)?;
            entries.push(Foreign { grant, reason })?;
        }
    }
    Ok(entries)
}
