//! Which IA_PDs of a message may be ordered: by how much their client and its port may have, and by that port.

ghost use Rattle.std.specs.Prelude.{◌≡◌, ◌+◌, IfOk, length, option_map};
ghost use Rattle.client_limits.specs.Quotas.{has_unit, has_under, holds_under, is_current, is_used, count_of};
ghost use Rattle.client_limits.specs.Quotas.{count_used, has_one, is_reached, may_ask, is_other, is_elsewhere};
ghost use Rattle.client_limits.specs.Quotas.{asks_for_more, is_port_full, is_full, is_refused, quota_permit, may_take};
ghost use Rattle.client_limits.specs.Quotas.{has_hinted, is_known, is_known_hinted, has_any, knows_any, gives_back, is_unknown};
ghost use Rattle.client_limits.specs.Quotas.{is_apart, port_match, other_permit, unknown_permit};
ghost use Rattle.client_limits.specs.Quotas.{permit_for, is_allowed, is_omitted, extends, has_some, is_left};
ghost use Rattle.std.specs.List.{list_all};
ghost use Rattle.client_limits.specs.Quotas.{permits_from, permits_of};
ghost use Rattle.client_limits.specs.Contexts.{known_of, asking_of};

use crate::grant_records::GrantRecords;
use crate::holders::Holders;
use crate::limits::{Limits, PortRule};
use crate::partner_reach::PartnerReach;
use binding_rules::{Unit, UnitStatus};
use client_id::{Duid, Iaid};
use client_service::Permit;
use dhcp6_pd::{ClientKind, ClientMessage, IaPd};
use lead_time::Reading;
use order_book::Book;
use prefix_range::Prefix;
use std::alloc::{AllocError, Global};

/// What is known where a message comes.
#[derive(Clone, Copy)]
pub(crate) struct LimitContext<'a> {
    pub limits: &'a Limits,
    /// How far the partner is.
    pub reach: PartnerReach,
    pub book: &'a Book,
    /// Whose units are.
    pub clients: &'a Holders,
    /// By which relay ports units were given.
    pub ports: &'a Holders,
    /// Of which grants there are access records.
    pub records: &'a GrantRecords,
    /// When it came.
    pub reading: Reading,
}

/// Who asks: a client, the name of the relay port that its message came by, and the message's type.
#[derive(Clone, Copy)]
pub(crate) struct Requester<'a> {
    pub client: &'a Duid,
    pub port: Option<&'a [u8]>,
    pub kind: ClientKind,
}

/// Returns whether a lease of a unit lasts yet: one that this server gave, or one that the partner told of.
fn is_current(unit: &Unit, now: Reading) -> bool
    ensures { result ≡ is_current now unit.now }
{
    now.milliseconds() < unit.own_end.max(unit.told).milliseconds()
}

/// Returns whether a client has a unit whose lease lasts, under any identity association.
fn has_unit(known: &LimitContext<'_>, client: &Duid, unit: &Prefix) -> bool
    ensures { result ≡ has_unit (known_of known.now) client.now unit.now }
{
    match known.book.unit(*unit) {
        Some(unit) => match &unit.status {
            UnitStatus::Active(binding) => binding.client == *client
                && is_current(&unit, known.reading),
            _ => false,
        },
        None => false,
    }
}

/// Returns whether a client has a unit whose lease lasts, under an identity association.
fn holds_under(known: &LimitContext<'_>, client: &Duid, iaid: Iaid, unit: &Prefix) -> bool
    ensures { result ≡ holds_under (known_of known.now) client.now iaid unit.now }
{
    match known.book.unit(*unit) {
        Some(unit) => match &unit.status {
            UnitStatus::Active(binding) => binding.client == *client
                && binding.iaid == iaid
                && is_current(&unit, known.reading),
            _ => false,
        },
        None => false,
    }
}

/// Returns whether a unit is delegated to a client under an identity association, though its lease may have lapsed.
fn has_under(known: &LimitContext<'_>, client: &Duid, iaid: Iaid, unit: &Prefix) -> bool
    ensures { result ≡ has_under (known_of known.now) client.now iaid unit.now }
{
    match known.book.unit(*unit) {
        Some(unit) => match &unit.status {
            UnitStatus::Active(binding) => binding.client == *client && binding.iaid == iaid,
            _ => false,
        },
        None => false,
    }
}

/// Returns whether anyone has a unit whose lease lasts, who may have it by a grant of this server.
fn is_used(known: &LimitContext<'_>, unit: &Prefix) -> bool
    ensures { result ≡ is_used (known_of known.now) unit.now }
{
    match known.book.unit(*unit) {
        Some(unit) => matches!(unit.status, UnitStatus::Active(_))
            && is_current(&unit, known.reading)
            && 0 < unit.out_end.milliseconds(),
        None => false,
    }
}

/// Counts those of some units that a client has.
fn count_of(known: &LimitContext<'_>, client: &Duid, units: &[Prefix]) -> usize
    ensures { result ≡ count_of (known_of known.now) client.now units.now }
{
    units
        .iter()
        .filter(|unit| has_unit(known, client, unit))
        .count()
}

/// Counts those of some units that someone has.
fn count_used(known: &LimitContext<'_>, units: &[Prefix]) -> usize
    ensures { result ≡ count_used (known_of known.now) units.now }
{
    units.iter().filter(|unit| is_used(known, unit)).count()
}

/// Returns whether one of some units is a client's under an identity association.
fn has_one(known: &LimitContext<'_>, client: &Duid, iaid: Iaid, units: &[Prefix]) -> bool
    ensures { result ≡ has_one (known_of known.now) client.now iaid units.now }
{
    units
        .iter()
        .any(|unit| holds_under(known, client, iaid, unit))
}

/// Returns whether so many are no fewer than a limit, which 0 lifts.
fn is_reached(limit: u32, count: usize, more: usize) -> bool
    ensures { result ≡ is_reached limit (count + more) }
{
    limit != 0 && u128::from(limit) <= count as u128 + more as u128
}

/// Returns whether a message of this type may ask for a unit that its client doesn't have yet.
fn may_ask(kind: ClientKind) -> bool
    ensures { result ≡ may_ask kind }
{
    match kind {
        ClientKind::Solicit | ClientKind::Request => true,
        ClientKind::Renew | ClientKind::Rebind | ClientKind::Release => false,
    }
}

/// Returns whether a port is another than the one that a unit was given by, if that is known.
fn is_other(given: Option<&[u8]>, port: Option<&[u8]>) -> bool
    ensures { result ≡ is_other (option_map (λ o. o.now) given.entry) (option_map (λ o. o.now) port.entry) }
{
    match (given, port) {
        (None, _) => false,
        (Some(_), None) => true,
        (Some(given), Some(port)) => given != port,
    }
}

/// Returns whether the port of a unit is known: there is an access record of this server's last grant of it, and the
/// partner told of no later one.
fn is_known(known: &LimitContext<'_>, unit: &Prefix) -> bool
    ensures { result ≡ is_known (known_of known.now) unit.now }
{
    match known.book.unit(*unit) {
        Some(state) => {
            known.records.has(unit.first())
                && state.told.milliseconds() <= state.out_end.milliseconds()
        }
        None => false,
    }
}

/// Returns whether an IA_PD comes from another port than the one that is known for its unit.
fn has_moved(known: &LimitContext<'_>, asking: &Requester<'_>, iaid: Iaid) -> bool
    ensures { result ≡ is_elsewhere (known_of known.now) (asking_of asking.now) iaid }
{
    known.clients.units(asking.client.as_bytes()).iter().any(|unit| {
        has_under(known, asking.client, iaid, unit)
            && is_known(known, unit)
            && is_other(known.ports.holder(unit.first()), asking.port)
    })
}

/// Returns whether an IA_PD names a unit that its client has under it.
fn names_own(known: &LimitContext<'_>, asking: &Requester<'_>, ia: &IaPd) -> bool
    ensures { result ≡ has_hinted (known_of known.now) asking.now.client.now ia.now.iaid ia.now.hint }
{
    match ia.hint {
        Some(unit) => has_under(known, asking.client, ia.iaid, &unit),
        None => false,
    }
}

/// Returns whether the port of the unit that an IA_PD names is known.
fn is_known_hinted(known: &LimitContext<'_>, hint: Option<Prefix>) -> bool
    ensures { result ≡ is_known_hinted (known_of known.now) hint }
{
    match hint {
        Some(unit) => is_known(known, &unit),
        None => false,
    }
}

/// Returns whether a client has a unit under an identity association.
fn has_any(known: &LimitContext<'_>, asking: &Requester<'_>, iaid: Iaid) -> bool
    ensures { result ≡ has_any (known_of known.now) (asking_of asking.now) iaid }
{
    known
        .clients
        .units(asking.client.as_bytes())
        .iter()
        .any(|unit| has_under(known, asking.client, iaid, unit))
}

/// Returns whether a client has a unit under an identity association whose port is known.
fn knows_any(known: &LimitContext<'_>, asking: &Requester<'_>, iaid: Iaid) -> bool
    ensures { result ≡ knows_any (known_of known.now) (asking_of asking.now) iaid }
{
    known.clients.units(asking.client.as_bytes()).iter().any(|unit| has_under(
        known,
        asking.client,
        iaid,
        unit,
    ) && is_known(known, unit))
}

/// Returns whether a message of this type gives units back.
fn gives_back(kind: ClientKind) -> bool
    ensures { result ≡ gives_back kind }
{
    matches!(kind, ClientKind::Release)
}

/// Returns whether the unit that an IA_PD is about has no port that is known: the one that it names, where its client
/// has that under it; else a RELEASE is about none, and any other message about whichever the client has under it.
fn is_unknown(known: &LimitContext<'_>, asking: &Requester<'_>, ia: &IaPd) -> bool
    ensures { result ≡ is_unknown (known_of known.now) (asking_of asking.now) ia.now }
{
    if names_own(known, asking, ia) {
        return !is_known_hinted(known, ia.hint);
    }
    !gives_back(asking.kind)
        && has_any(known, asking, ia.iaid)
        && !knows_any(known, asking, ia.iaid)
}

/// Returns whether the partner is taken for down, or the two have been apart for more than a minute.
fn is_apart(known: &LimitContext<'_>) -> bool
    ensures { result ≡ is_apart (known_of known.now) }
{
    known.book.down().is_some() || matches!(known.reach, PartnerReach::Apart)
}

/// Whether the port of an IA_PD's unit is the one that the message came by.
#[derive(Clone, Copy, Debug, PartialEq, Eq)]
enum PortMatch {
    /// It is, or there is no unit, or ports are free.
    Same,
    /// It is another.
    Other,
    /// It isn't known.
    Unknown,
}

/// Returns whether the port of an IA_PD's unit is the message's, where associations belong to their ports.
fn port_match(known: &LimitContext<'_>, asking: &Requester<'_>, ia: &IaPd) -> PortMatch
    ensures { result ≡ port_match (known_of known.now) (asking_of asking.now) ia.now }
{
    match known.limits.ports {
        PortRule::Free => PortMatch::Same,
        PortRule::Bound => {
            if has_moved(known, asking, ia.iaid) {
                PortMatch::Other
            } else if is_unknown(known, asking, ia) {
                PortMatch::Unknown
            } else {
                PortMatch::Same
            }
        }
    }
}

/// Returns whether an IA_PD asks for a unit, and its client has none under it.
fn asks_for_more(known: &LimitContext<'_>, asking: &Requester<'_>, iaid: Iaid) -> bool
    ensures { result ≡ asks_for_more (known_of known.now) (asking_of asking.now) iaid }
{
    may_ask(asking.kind)
        && !has_one(
            known,
            asking.client,
            iaid,
            known.clients.units(asking.client.as_bytes()),
        )
}

/// Returns whether those behind the port of a message have as many units as they may, with so many more.
fn is_port_full(known: &LimitContext<'_>, asking: &Requester<'_>, more: usize) -> bool
    ensures { result ≡ is_port_full (known_of known.now) (asking_of asking.now) (asking_of asking.now).port more }
{
    if known.limits.units_per_port == 0 {
        return false;
    }
    match asking.port {
        Some(port) => is_reached(
            known.limits.units_per_port,
            count_used(known, known.ports.units(port)),
            more,
        ),
        None => false,
    }
}

/// Returns whether no unit more is given, at a place of a message, where so many before it may be given one more.
fn is_full(known: &LimitContext<'_>, asking: &Requester<'_>, place: usize, more: usize) -> bool
    ensures { result ≡ is_full (known_of known.now) (asking_of asking.now) place more }
{
    is_reached(known.limits.ias_per_message, place, 0)
        || is_reached(
            known.limits.units_per_client,
            count_of(
                known,
                asking.client,
                known.clients.units(asking.client.as_bytes()),
            ),
            more,
        )
        || is_port_full(known, asking, more)
}

/// Returns whether a quota refuses an IA_PD, at a place of a message, where so many before it may be given one more.
fn is_refused(
    known: &LimitContext<'_>,
    asking: &Requester<'_>,
    place: usize,
    more: usize,
    iaid: Iaid,
) -> bool
    ensures { result ≡ is_refused (known_of known.now) (asking_of asking.now) place more iaid }
{
    asks_for_more(known, asking, iaid) && is_full(known, asking, place, more)
}

/// Whether an IA_PD may be ordered by the quotas.
fn quota_permit(is_refused: bool) -> Permit
    ensures { result ≡ quota_permit is_refused }
{
    if is_refused {
        Permit::Denied
    } else {
        Permit::Allowed
    }
}

/// Whether an IA_PD may be ordered whose unit was given by another port: it may not.
fn other_permit(kind: ClientKind) -> Permit
    ensures { result ≡ other_permit kind }
{
    match kind {
        ClientKind::Release => Permit::Unbound,
        ClientKind::Solicit | ClientKind::Request | ClientKind::Renew | ClientKind::Rebind => {
            Permit::Denied
        }
    }
}

/// Whether an IA_PD may be ordered whose unit has no port that is known, by whether the partner is apart and by what
/// the quotas say of it.
fn unknown_permit(kind: ClientKind, is_apart: bool, quota: Permit) -> Permit
    ensures { result ≡ unknown_permit kind is_apart quota }
{
    match kind {
        ClientKind::Solicit | ClientKind::Request => quota,
        ClientKind::Renew | ClientKind::Rebind => {
            if is_apart {
                Permit::Anew
            } else {
                Permit::Omitted
            }
        }
        ClientKind::Release => Permit::Omitted,
    }
}

/// Returns whether an IA_PD may be ordered, at a place of a message, where so many before it may be given one more.
fn permit_for(
    known: &LimitContext<'_>,
    asking: &Requester<'_>,
    place: usize,
    more: usize,
    ia: &IaPd,
) -> Permit
    ensures { result ≡ permit_for (known_of known.now) (asking_of asking.now) place more ia.now }
{
    let quota = quota_permit(is_refused(known, asking, place, more, ia.iaid));
    match port_match(known, asking, ia) {
        PortMatch::Same => quota,
        PortMatch::Other => other_permit(asking.kind),
        PortMatch::Unknown => unknown_permit(asking.kind, is_apart(known), quota),
    }
}

/// Returns whether a permit allows what is asked.
fn is_allowed(permit: Permit) -> bool
    ensures { result ≡ is_allowed permit }
{
    matches!(permit, Permit::Allowed)
}

/// Returns whether an IA_PD may be given a unit more.
fn may_take(
    known: &LimitContext<'_>,
    asking: &Requester<'_>,
    place: usize,
    more: usize,
    ia: &IaPd,
) -> bool
    ensures { result ≡ may_take (known_of known.now) (asking_of asking.now) place more ia.now }
{
    asks_for_more(known, asking, ia.iaid) && is_allowed(permit_for(known, asking, place, more, ia))
}

/// Says of each of some IA_PDs, in their order, whether it may be ordered.
fn permits(
    alloc: Global,
    known: &LimitContext<'_>,
    asking: &Requester<'_>,
    ias: &[IaPd],
) -> Result<Vec<Permit>, AllocError>
    ensures { IfOk result (λ all. all.items ≡ permits_from (known_of known.now) (asking_of asking.now) 0 0 ias.now) }
{
    let mut permits = Vec::new(alloc);
    let mut more = 0;
    for place in 0..ias.len() {
        let ia = &ias[place];
        let permit = permit_for(known, asking, place, more, ia);
        if may_take(known, asking, place, more, ia) {
            more += 1;
        }
        permits.extend_from_slice(&[permit])?;
    }
    Ok(permits)
}

/// Says of each IA_PD of a message, in its order, whether it may be ordered: the message came by the port of this name,
/// or by no relay.
pub(crate) fn permits_by(
    alloc: Global,
    known: &LimitContext<'_>,
    port: Option<&[u8]>,
    message: &ClientMessage,
) -> Result<Vec<Permit>, AllocError>
    ensures { IfOk result (λ all. all.items ≡ permits_of (known_of known.now) (option_map (λ o. o.now) port.entry)
        message.now) }
{
    let asking = Requester {
        client: &message.client,
        port,
        kind: message.kind,
    };
    permits(alloc, known, &asking, message.ias.as_slice())
}

/// Returns whether a permit has the answer say nothing.
fn is_omitted(permit: &Permit) -> bool
    ensures { result ≡ is_omitted permit.now }
{
    matches!(permit, Permit::Omitted)
}

/// Returns whether a message of this type extends leases.
fn extends(kind: ClientKind) -> bool
    ensures { result ≡ extends kind }
{
    matches!(kind, ClientKind::Renew | ClientKind::Rebind)
}

/// Returns whether all of some permits have the answer say nothing.
fn are_omitted(permits: &[Permit]) -> bool
    ensures { result ≡ list_all is_omitted permits.now }
{
    permits.iter().all(|permit| is_omitted(permit))
}

/// Returns whether there is any permit.
fn has_some(permits: &[Permit]) -> bool
    ensures { result ≡ has_some permits.now }
{
    !permits.is_empty()
}

/// Returns whether all that a message asks for is left to the partner: it is a RENEW or REBIND, and has no answer.
pub(crate) fn is_left_to_partner(kind: ClientKind, permits: &[Permit]) -> bool
    ensures { result ≡ is_left kind permits.now }
{
    extends(kind) && has_some(permits) && are_omitted(permits)
}

/// Returns whether it is a quota that refuses an IA_PD with this permit, and not the port that its unit was given by.
fn is_over_quota(
    known: &LimitContext<'_>,
    asking: &Requester<'_>,
    permit: Permit,
    ia: &IaPd,
) -> bool {
    matches!(permit, Permit::Denied) && port_match(known, asking, ia) != PortMatch::Other
}

/// Counts the IA_PDs of a message that a quota refuses, by the permits that were given.
pub(crate) fn refused_in(
    known: &LimitContext<'_>,
    port: Option<&[u8]>,
    message: &ClientMessage,
    permits: &[Permit],
) -> u64 {
    let asking = Requester {
        client: &message.client,
        port,
        kind: message.kind,
    };
    let ias = message.ias.as_slice();
    let mut count: u64 = 0;
    for place in 0..permits.len() {
        if place < ias.len() && is_over_quota(known, &asking, permits[place], &ias[place]) {
            count = count.saturating_add(1);
        }
    }
    count
}

/// Counts the IA_PDs of a message that come from another port than their unit was given by.
pub(crate) fn moved_clients_in(
    known: &LimitContext<'_>,
    port: Option<&[u8]>,
    message: &ClientMessage,
) -> u64 {
    let asking = Requester {
        client: &message.client,
        port,
        kind: message.kind,
    };
    message
        .ias
        .as_slice()
        .iter()
        .filter(|ia| has_moved(known, &asking, ia.iaid))
        .count() as u64
}
