//! What lines grant, tell of and give back.

ghost use Rattle.std.specs.Prelude.{◌≡◌, ◌↔◌, IsTrue};
ghost use Rattle.journal_lines.specs.declared.event.Event.TheVariants.{Release};
ghost use Rattle.attribution.specs.Acceptance.{GivesBack};
ghost use Rattle.auditor.specs.Bounds.{IsDelegationOf};
ghost use Rattle.evidence_report.specs.Marks.{IsGrantedAt, IsToldAt};

use crate::foreign_report::ReportedDelegation;
use crate::piece_report::ReportedGrant;
use attribution::Delegation;
use causal_order::{Lines, Ref};
use client_id::{Duid, Iaid};
use journal_lines::{Event, Line};
use prefix_range::Prefix;

/// What the line grants, with its reading.
#[tactic(auto, using(crate::proofs::Granting::line_grants, crate::proofs::Granting::no_line_grants, crate::proofs::Granting::grants_nothing))]
pub fn granted_at<L: Lines>(lines: &L, at: Ref) -> Option<ReportedGrant>
    ensures { IsGrantedAt (L.journals lines.now) at result }
{
    let Line { reading, event, .. } = lines.line(at)?;
    match event {
        Event::Grant(lease) => Some(ReportedGrant { lease, reading }),
        _ => None,
    }
}

/// The delegation that the line tells of, with its reading.
#[tactic(auto, using(crate::proofs::Granting::line_tells, crate::proofs::Granting::no_line_tells, crate::proofs::Granting::tells_nothing))]
pub fn told_at<L: Lines>(lines: &L, at: Ref) -> Option<ReportedDelegation>
    ensures { IsToldAt (L.journals lines.now) at result }
{
    let line = lines.line(at)?;
    let delegation = Delegation::told_by(&line.event)?;
    Some(ReportedDelegation {
        delegation,
        reading: line.reading,
    })
}

/// Returns whether the delegation is this client's, for this identity association, of this prefix.
fn is_delegation_of(delegation: &Delegation, client: &Duid, iaid: Iaid, prefix: &Prefix) -> bool
    ensures { IsTrue result ↔ IsDelegationOf delegation.now client.now iaid prefix.now }
{
    *client == delegation.client && iaid == delegation.iaid && *prefix == delegation.prefix
}

/// Returns whether the event gives the delegation back: a release by its client, of its identity association and its
/// prefix.
fn is_release_of(delegation: &Delegation, event: &Event) -> bool
    ensures { IsTrue result ↔ (event.now ≡ Release delegation.now.client delegation.now.iaid delegation.now.prefix) }
{
    match event {
        Event::Release {
            client,
            iaid,
            prefix,
        } => is_delegation_of(delegation, client, *iaid, prefix),
        _ => false,
    }
}

/// Returns whether the line gives the delegation back.
pub fn gives_back<L: Lines>(lines: &L, at: Ref, delegation: &Delegation) -> bool
    ensures { IsTrue result ↔ GivesBack (L.journals lines.now) at delegation.now }
{
    match lines.line(at) {
        Some(line) => is_release_of(delegation, &line.event),
        None => false,
    }
}
