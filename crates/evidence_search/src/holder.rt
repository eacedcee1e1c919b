//! Who held a prefix at a moment.

ghost use Rattle.std.specs.Prelude.{◌≡◌, ◌↔◌, ◌+◌, List, ℕ, IsTrue, IfOk, IsErrOf, MatchOption, OnOk, Some};
ghost use Rattle.attribution.specs.Acceptance.{IsTrueInEveryRun};
ghost use Rattle.book_rules.specs.NextHead.{AreLegal};
ghost use Rattle.evidence_search.specs.Claim.{held_by, HasNoPlainEvidence, IsRound, IsAcceptedOf, IsWidest};
ghost use Rattle.evidence_search.specs.Claim.{HasNoPlainHolder, IsTooLong, IsTooLongOfOne};
ghost use Rattle.plain_search.specs.Collected.{IsRecent};
ghost use Rattle.evidence_search.specs.Search.{HasMoment, IsClientAt};

use crate::messages::DeliveredMessages;
use crate::pieces::linked_reach_at;
use crate::widening::widest;
use auditor::LineSource;
use binding_rules::Role;
use causal_order::{Certificate, Ref};
use client_id::Duid;
use lead_time::Reading;
use plain_search::{CarriedSpan, FindError, HolderQuery, Query, ReleaseCache, lease_at, reach_at};
use std::alloc::{AllocError, Global};

/// Returns whether this client held the prefix from the moment to the next.
fn held_by(query: &HolderQuery, holder: Duid, next: Reading) -> Query
    requires { next ≡ query.now.at + 1 }
    ensures { result ≡ held_by query.now holder }
{
    Query {
        holder,
        prefix: query.prefix,
        from: query.at,
        to: next,
        skew: query.skew,
        transit: query.transit,
    }
}

/// Returns whether there is a grant, and it carries the moment.
fn carries(reach: &Option<CarriedSpan>, moment: Reading) -> bool
    ensures { IsTrue result ↔ HasMoment reach.now moment }
{
    match reach {
        Some(reach) => reach.begin <= moment && moment < reach.end,
        None => false,
    }
}

/// The client to which the line grants what carries the moment, as single lines show it, or these messages.
fn client_at<S: LineSource>(
    alloc: Global,
    source: &S,
    messages: Option<&DeliveredMessages>,
    recent: &mut ReleaseCache,
    query: &HolderQuery,
    next: Reading,
    at: Ref,
) -> Result<Option<Duid>, AllocError>
    requires next { next ≡ query.now.at + 1 }
    requires recent { IsRecent (S.journals source.now) recent.old }
    ensures recent { OnOk result (IsRecent (S.journals source.now) recent.new) }
    ensures client { IfOk result (λ found. MatchOption found
        ((holder : List ℕ) → IsClientAt (S.journals source.now) query.now at holder → ⊥)
        (λ client. (holder : List ℕ) → IsClientAt (S.journals source.now) query.now at holder → holder ≡ client)) }
{
    let Some(lease) = lease_at(source, at) else {
        return Ok(None);
    };
    let held = held_by(query, lease.client, next);
    let plain = reach_at(alloc, source, recent, &held, at)?;
    if carries(&plain, query.at) {
        return Ok(Some(lease.client));
    }
    let Some(messages) = messages else {
        return Ok(None);
    };
    let linked = linked_reach_at(alloc, source, messages, recent, &held, at)?;
    if carries(&linked, query.at) {
        return Ok(Some(lease.client));
    }
    Ok(None)
}

/// Returns whether this client is the last that was asked about.
fn is_last(last: &Option<Duid>, client: &Duid) -> bool
    ensures { IsTrue result → last.now ≡ Some client.now }
{
    match last {
        Some(last) => last == client,
        None => false,
    }
}

/// The certificate of the widest interval round the moment that is shown for this client.
fn widest_of<S: LineSource>(
    alloc: Global,
    source: &S,
    messages: Option<&DeliveredMessages>,
    query: &HolderQuery,
    holder: Duid,
    next: Reading,
) -> Result<Certificate, FindError>
    requires { next ≡ query.now.at + 1 }
    ensures round { IfOk result (IsRound query.now) }
    ensures shown { IfOk result (IsAcceptedOf (S.journals source.now) query.now) }
    ensures headline { IfOk result
        (IsTrueInEveryRun AreLegal (S.journals source.now) query.now.skew query.now.transit) }
    ensures widest { IfOk result (IsWidest (S.journals source.now) query.now) }
    ensures none { IsErrOf result FindError.NoneFound
        → HasNoPlainEvidence (S.journals source.now) (held_by query.now holder) }
    ensures long { IsErrOf result FindError.TooLong
        → IsTooLong (S.journals source.now) (held_by query.now holder) }
{
    let held = held_by(query, holder, next);
    widest(alloc, source, messages, &held)
}

/// The certificate of the first client that is shown to have held the prefix at the moment, up to the next.
fn holder_over<S: LineSource>(
    alloc: Global,
    source: &S,
    messages: Option<&DeliveredMessages>,
    query: &HolderQuery,
    next: Reading,
) -> Result<Certificate, FindError>
    requires { next ≡ query.now.at + 1 }
    ensures round { IfOk result (IsRound query.now) }
    ensures shown { IfOk result (IsAcceptedOf (S.journals source.now) query.now) }
    ensures headline { IfOk result
        (IsTrueInEveryRun AreLegal (S.journals source.now) query.now.skew query.now.transit) }
    ensures widest { IfOk result (IsWidest (S.journals source.now) query.now) }
    ensures none { IsErrOf result FindError.NoneFound → HasNoPlainHolder (S.journals source.now) query.now }
    ensures long { IsErrOf result FindError.TooLong → IsTooLongOfOne (S.journals source.now) query.now }
{
    let _bits = query.prefix.len();
    let mut last = None;
    let mut recent = ReleaseCache::new(alloc);
    let mut walk = source.overlaps(&query.prefix);
    while let Some(at) = source.next_overlap(&query.prefix, &mut walk) {
        let found = client_at(alloc, source, messages, &mut recent, query, next, at)?;
        let Some(client) = found else {
            continue;
        };
        if is_last(&last, &client) {
            continue;
        }
        match widest_of(alloc, source, messages, query, client, next) {
            Err(FindError::NoneFound) => last = Some(client),
            found => return found,
        }
    }
    Err(FindError::NoneFound)
}

/// Searches for the client that held the whole prefix at the moment, and gives the certificate of the widest interval
/// round it that is shown for that client by as many lines as a text may have, which `audit` accepts: one of single
/// lines where these show the moment, and else one of chains through both servers' messages. `NoneFound` where no
/// client is shown to have held it, and `audit` accepts no plain certificate of any client's from the moment to the
/// next. `TooLong` where single lines show the moment itself for a client, but by more lines. `Memory` where a growth
/// was refused.
pub fn find_holder<S: LineSource>(
    alloc: Global,
    source: &S,
    query: &HolderQuery,
) -> Result<Certificate, FindError>
    // The certificate is of all of the prefix, and the moment is in its interval.
    ensures round { IfOk result (IsRound query.now) }
    ensures shown { IfOk result (IsAcceptedOf (S.journals source.now) query.now) }
    // What is found is true in every run of the pair that leaves the source's journals, whatever volumes came before,
    // with each clock within the skew of true time and each answer within the transit.
    ensures headline { IfOk result
        (IsTrueInEveryRun AreLegal (S.journals source.now) query.now.skew query.now.transit) }
    // Neither end can be moved outward by a millisecond: that isn't shown, or by more lines than a text may have.
    ensures widest { IfOk result (IsWidest (S.journals source.now) query.now) }
    ensures none { IsErrOf result FindError.NoneFound → HasNoPlainHolder (S.journals source.now) query.now }
    ensures long { IsErrOf result FindError.TooLong → IsTooLongOfOne (S.journals source.now) query.now }
{
    let closed = source.close_reading(Role::Primary);
    if query.at.milliseconds() >= closed.milliseconds() {
        return Err(FindError::NoneFound);
    }
    let Ok(next) = Reading::new(query.at.milliseconds() + 1) else {
        return Err(FindError::NoneFound);
    };
    match holder_over(alloc, source, None, query, next) {
        Err(FindError::NoneFound) => {
            let messages = DeliveredMessages::between(alloc, source)?;
            holder_over(alloc, source, Some(&messages), query, next)
        }
        found => found,
    }
}
