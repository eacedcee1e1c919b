//! Whether a grant carries a piece, and whether it stays out of an interval.

ghost use Rattle.std.specs.Prelude.{◌≡◌, ◌↔◌, ◌*◌, ◌^◌, ◌≤◌, IsTrue, pos, ◌+ℤ◌, ◌≤ℤ◌};
ghost use Rattle.attribution.specs.Acceptance.{GivesBack, IsOutside, IsGranted, ReasonHolds};
ghost use Rattle.attribution.specs.Acceptance.{IsNew};
ghost use Rattle.journal_lines.specs.declared.event.Event.TheVariants.{Release};
ghost use Rattle.attribution.specs.Tests.{lease_of, delegation_of};
ghost use Rattle.auditor.specs.Bounds.{IsLatestAt, IsEarliestAt, LastsTo, IsSurelyOver, IsWrittenBy, IsReachedBy};
ghost use Rattle.auditor.specs.Bounds.{IsWrittenFrom, IsOver, IsLasting, IsHolders, IsDelegationOf, IsValidThroughout};

use crate::source::LineSource;
use attribution::{Delegation, Lasting};
use causal_order::{
    Certificate, Chain, Foreign, Lines, Piece, Reason, Ref, earliest_of, first_of_chain,
    last_of_chain, latest_of, precedes,
};
use client_id::{Duid, Iaid};
use journal_lines::{Event, Lease};
use lead_time::{Reading, Skew, Transit};
use prefix_range::Prefix;

/// The lease that the line grants.
pub fn lease_at<L: Lines>(lines: &L, at: Ref) -> Option<Lease>
    ensures { result ≡ lease_of (L.journals lines.now) at }
{
    let line = lines.line(at)?;
    match line.event {
        Event::Grant(lease) => Some(lease),
        _ => None,
    }
}

/// The delegation that the line tells of.
pub fn delegation_at<L: Lines>(lines: &L, at: Ref) -> Option<Delegation>
    ensures { result ≡ delegation_of (L.journals lines.now) at }
{
    let line = lines.line(at)?;
    Delegation::told_by(&line.event)
}

/// The moment by which the chain shows the line to be written, in milliseconds: `None` where it is no chain from it.
#[tactic(auto, using(crate::proofs::Bounds::latest_at, crate::proofs::Bounds::no_chain_from, crate::proofs::Bounds::begins_elsewhere,))]
fn latest_at<L: Lines>(lines: &L, chain: &Chain, at: Ref, skew: Skew) -> Option<i64>
    ensures { IsLatestAt (L.journals lines.now) chain.now at skew result }
{
    let refs = chain.as_slice();
    if first_of_chain(refs)? != at {
        return None;
    }
    latest_of(lines, refs, skew)
}

/// The moment at which, or after which, the chain shows the line to be written, in milliseconds: `None` where it is
/// no chain to it.
#[tactic(auto, using(crate::proofs::Bounds::earliest_at, crate::proofs::Bounds::no_chain_to, crate::proofs::Bounds::ends_elsewhere,))]
pub fn earliest_at<L: Lines>(lines: &L, chain: &Chain, at: Ref, skew: Skew) -> Option<i64>
    ensures { IsEarliestAt (L.journals lines.now) chain.now at skew result }
{
    let refs = chain.as_slice();
    if last_of_chain(refs)? != at {
        return None;
    }
    earliest_of(lines, refs, skew)
}

/// A valid lifetime in milliseconds.
fn lifetime_of(valid: u32) -> i64
    ensures { result ≡ pos (1000 * valid) }
{
    i64::from(valid) * 1000
}

/// Returns whether the lease, granted at this moment, lasts to the other one.
fn lasts_to(lease: &Lease, granted: i64, to: Reading) -> bool
    ensures { IsTrue result ↔ LastsTo lease.now.valid granted to }
{
    lease.valid == Lease::INFINITE || to.milliseconds() as i64 - lifetime_of(lease.valid) <= granted
}

/// Returns whether what came by this moment, and so many milliseconds more, are past by the other one.
fn is_past(given: i64, wait: u64, moment: Reading) -> bool
    requires { wait ≤ 2 ^ 60 }
    ensures { IsTrue result ↔ (given +ℤ pos wait) ≤ℤ pos moment }
{
    given <= moment.milliseconds() as i64 - wait as i64
}

/// Returns whether what was told of by this moment has ended by the other one.
fn ends_by(lasting: Lasting, granted: i64, skew: Skew, transit: Transit, moment: Reading) -> bool
    ensures { IsTrue result ↔ IsSurelyOver lasting granted skew transit moment }
{
    match lasting {
        Lasting::For(valid) => {
            valid != Lease::INFINITE
                && is_past(
                    granted,
                    transit.milliseconds() + u64::from(valid) * 1000,
                    moment,
                )
        }
        Lasting::Until(end) => {
            end.milliseconds() + skew.milliseconds() + transit.milliseconds()
                <= moment.milliseconds()
        }
    }
}

/// Returns whether the chain shows that the line was written by the moment.
#[tactic(auto, using(crate::proofs::Bounds::before_by_latest, crate::proofs::Bounds::never_before))]
fn is_written_by<L: Lines>(lines: &L, chain: &Chain, at: Ref, skew: Skew, moment: Reading) -> bool
    ensures { IsTrue result ↔ IsWrittenBy (L.journals lines.now) chain.now at skew moment }
{
    match latest_at(lines, chain, at, skew) {
        Some(latest) => latest <= moment.milliseconds() as i64,
        None => false,
    }
}

/// Returns whether the chain shows that the answer of the line had reached its client by the moment.
#[tactic(auto, using(crate::proofs::Bounds::reached_by_latest, crate::proofs::Bounds::never_reached))]
fn is_reached_by<L: Lines>(
    lines: &L,
    chain: &Chain,
    at: Ref,
    skew: Skew,
    transit: Transit,
    moment: Reading,
) -> bool
    ensures { IsTrue result ↔ IsReachedBy (L.journals lines.now) chain.now at skew transit moment }
{
    match latest_at(lines, chain, at, skew) {
        Some(latest) => is_past(latest, transit.milliseconds(), moment),
        None => false,
    }
}

/// Returns whether the chain shows that the line was written at the moment or later.
#[tactic(auto, using(crate::proofs::Bounds::after_by_earliest, crate::proofs::Bounds::never_after))]
pub fn is_written_from<L: Lines>(
    lines: &L,
    chain: &Chain,
    at: Ref,
    skew: Skew,
    moment: Reading,
) -> bool
    ensures { IsTrue result ↔ IsWrittenFrom (L.journals lines.now) chain.now at skew moment }
{
    match earliest_at(lines, chain, at, skew) {
        Some(earliest) => moment.milliseconds() as i64 <= earliest,
        None => false,
    }
}

/// Returns whether the chain shows that what the line tells of had ended by the moment.
#[tactic(auto, using(crate::proofs::Bounds::ended_by_latest, crate::proofs::Bounds::never_ended))]
fn is_over<L: Lines>(
    lines: &L,
    chain: &Chain,
    at: Ref,
    lasting: Lasting,
    skew: Skew,
    transit: Transit,
    moment: Reading,
) -> bool
    ensures { IsTrue result ↔ IsOver (L.journals lines.now) chain.now at lasting skew transit moment }
{
    match latest_at(lines, chain, at, skew) {
        Some(latest) => ends_by(lasting, latest, skew, transit, moment),
        None => false,
    }
}

/// Returns whether the chain shows that the lease of the grant lasts to the moment.
#[tactic(auto, using(crate::proofs::Bounds::lasts_by_earliest, crate::proofs::Bounds::never_lasts))]
fn is_lasting<L: Lines>(
    lines: &L,
    chain: &Chain,
    grant: Ref,
    lease: &Lease,
    skew: Skew,
    moment: Reading,
) -> bool
    ensures { IsTrue result ↔ IsLasting (L.journals lines.now) chain.now grant lease.now.valid skew moment }
{
    match earliest_at(lines, chain, grant, skew) {
        Some(earliest) => lasts_to(lease, earliest, moment),
        None => false,
    }
}

/// Returns whether the event gives the delegation back: a release by its client, of its identity association and its
/// prefix.
pub fn is_release_of(delegation: &Delegation, event: &Event) -> bool
    ensures { IsTrue result ↔ (event.now ≡ Release delegation.now.client delegation.now.iaid delegation.now.prefix) }
{
    match event {
        Event::Release {
            client,
            iaid,
            prefix,
        } => is_delegation_of(delegation, client, *iaid, prefix),
        _ => false,
    }
}

/// Returns whether the line gives the delegation back.
pub fn gives_back<L: Lines>(lines: &L, at: Ref, delegation: &Delegation) -> bool
    ensures { IsTrue result ↔ GivesBack (L.journals lines.now) at delegation.now }
{
    match lines.line(at) {
        Some(line) => is_release_of(delegation, &line.event),
        None => false,
    }
}

/// Returns whether the delegation is this client's, for this identity association, of this prefix.
fn is_delegation_of(delegation: &Delegation, client: &Duid, iaid: Iaid, prefix: &Prefix) -> bool
    ensures { IsTrue result ↔ IsDelegationOf delegation.now client.now iaid prefix.now }
{
    *client == delegation.client && iaid == delegation.iaid && *prefix == delegation.prefix
}

/// Returns whether the lease is the holder's, of a prefix round the one asked of.
fn is_holders(lease: &Lease, certificate: &Certificate) -> bool
    ensures { IsTrue result ↔ IsHolders lease.now certificate.now }
{
    lease.client == certificate.holder && lease.prefix.contains(&certificate.prefix)
}

/// Returns whether the piece's chains show its grant's lease to be valid from its beginning to its end.
fn is_valid_throughout<L: Lines>(
    lines: &L,
    piece: &Piece,
    lease: &Lease,
    skew: Skew,
    transit: Transit,
) -> bool
    ensures { IsTrue result ↔ IsValidThroughout (L.journals lines.now) piece.now lease.now skew transit }
{
    is_reached_by(lines, &piece.latest, piece.grant, skew, transit, piece.from)
        && is_lasting(lines, &piece.earliest, piece.grant, lease, skew, piece.to)
}

/// Returns whether the grant that the piece names carries it: the lease is the holder's, of a prefix round the one
/// asked of, and lasts from the piece's beginning to its end.
#[tactic(auto, using(crate::proofs::Leases::granted_by_lease, crate::proofs::Leases::not_holders, crate::proofs::Leases::no_granted_lease,))]
pub fn is_granted<L: Lines>(
    lines: &L,
    certificate: &Certificate,
    piece: &Piece,
    skew: Skew,
    transit: Transit,
) -> bool
    ensures { IsTrue result ↔ IsGranted (L.journals lines.now) skew transit certificate.now piece.now }
{
    let Some(lease) = lease_at(lines, piece.grant) else {
        return false;
    };
    is_holders(&lease, certificate) && is_valid_throughout(lines, piece, &lease, skew, transit)
}

/// Returns whether it began where it is told of: what is carried began before.
fn is_new(lasting: Lasting) -> bool
    ensures { IsTrue result ↔ IsNew lasting }
{
    match lasting {
        Lasting::For(_) => true,
        Lasting::Until(_) => false,
    }
}

/// Returns whether another client's delegation is shown to stay out of the interval.
fn is_outside<L: Lines>(
    lines: &L,
    certificate: &Certificate,
    foreign: &Foreign,
    delegation: &Delegation,
    skew: Skew,
    transit: Transit,
) -> bool
    ensures { IsTrue result ↔ IsOutside (L.journals lines.now) skew transit foreign.now.grant delegation.now
        certificate.now.from certificate.now.to foreign.now.reason }
{
    match &foreign.reason {
        Reason::Early(chain) => {
            is_over(
                lines,
                chain,
                foreign.grant,
                delegation.lasting,
                skew,
                transit,
                certificate.from,
            )
        }
        Reason::Late(chain) => {
            is_new(delegation.lasting)
                && is_written_from(lines, chain, foreign.grant, skew, certificate.to)
        }
        Reason::Released {
            release,
            order,
            latest,
        } => {
            gives_back(lines, *release, delegation)
                && precedes(lines, foreign.grant, *release, order, skew)
                && is_written_by(lines, latest, *release, skew, certificate.from)
        }
    }
}

/// Returns whether the entry names a line that tells of a delegation, which is shown to stay out of the interval.
#[tactic(auto, using(crate::proofs::Leases::reason_by_delegation, crate::proofs::Leases::no_reason))]
pub fn reason_holds<S: LineSource>(
    source: &S,
    certificate: &Certificate,
    foreign: &Foreign,
    skew: Skew,
    transit: Transit,
) -> bool
    ensures { IsTrue result ↔ ReasonHolds (S.journals source.now) skew transit certificate.now foreign.now }
{
    match delegation_at(source, foreign.grant) {
        Some(delegation) => is_outside(source, certificate, foreign, &delegation, skew, transit),
        None => false,
    }
}
