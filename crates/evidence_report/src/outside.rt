//! What is shown of other clients' delegations.

ghost use Rattle.std.specs.Prelude.{◌↔◌, IfOk, IsTrue};
ghost use Rattle.evidence_report.specs.Others.{EndsTold, IsOutsideReport, IsForeignReport};
ghost use Rattle.evidence_report.specs.Reports.{AreShown};

use crate::chains::{earliest_mark, latest_mark};
use crate::foreign_report::{ForeignEvidence, ForeignReport};
use crate::orders::order_report;
use crate::reported_delegation::{gives_back, told_at};
use causal_order::{Certificate, Foreign, Lines, Reason, Ref};
use lead_time::Skew;
use std::alloc::{AllocError, Global};

/// Returns whether the release gives back what the line tells of.
fn is_given_back<L: Lines>(lines: &L, at: Ref, release: Ref) -> bool
    ensures { IsTrue result ↔ EndsTold (L.journals lines.now) at release }
{
    match told_at(lines, at) {
        Some(told) => gives_back(lines, release, &told.delegation),
        None => false,
    }
}

/// What is shown of the entry's reason.
fn reason_report<'a, L: Lines>(lines: &L, entry: &'a Foreign, skew: Skew) -> ForeignEvidence<'a>
    ensures { IsOutsideReport (L.journals lines.now) entry.now.grant entry.now.reason result }
{
    match &entry.reason {
        Reason::Early(chain) => ForeignEvidence::Early(
            chain,
            latest_mark(lines, chain, entry.grant),
        ),
        Reason::Late(chain) => ForeignEvidence::Late(
            chain,
            earliest_mark(lines, chain, entry.grant),
        ),
        Reason::Released {
            release,
            order,
            latest,
        } => ForeignEvidence::Released {
            release: *release,
            gives_back: is_given_back(lines, entry.grant, *release),
            order: order_report(lines, order, entry.grant, *release, skew),
            chain: latest,
            latest: latest_mark(lines, latest, *release),
        },
    }
}

/// What is shown of a foreign entry.
fn foreign_report<'a, L: Lines>(lines: &L, entry: &'a Foreign, skew: Skew) -> ForeignReport<'a>
    ensures { IsForeignReport (L.journals lines.now) entry.now result }
{
    let told = told_at(lines, entry.grant);
    let outside = reason_report(lines, entry, skew);
    ForeignReport {
        entry,
        told,
        outside,
    }
}

/// What is shown of each foreign entry.
pub fn foreign_reports<'a, L: Lines>(
    alloc: Global,
    lines: &L,
    certificate: &'a Certificate,
    skew: Skew,
) -> Result<Vec<ForeignReport<'a>>, AllocError>
    ensures { IfOk result
        (λ v. AreShown (IsForeignReport (L.journals lines.now)) certificate.now.foreign v.items) }
{
    let mut foreign = Vec::new(alloc);
    for entry in certificate.foreign.as_slice() {
        foreign.extend_from_slice(&[foreign_report(lines, entry, skew)])?;
    }
    Ok(foreign)
}
