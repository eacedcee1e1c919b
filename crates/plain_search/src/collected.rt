//! The releases of a delegation, collected once.

ghost use Rattle.std.specs.Prelude.{◌≡◌, ◌↔◌, IsTrue, IfOk};
ghost use Rattle.plain_search.specs.Collected.{AreReleasesOn, IsFollowedBy, AreRising, AreReleases};

use crate::asking::reading_at;
use attribution::Delegation;
use auditor::LineSource;
use binding_rules::Role;
use causal_order::Ref;
use lead_time::Reading;
use std::alloc::{AllocError, Global};

/// A line, and what the clock showed at it.
#[derive(Clone, Copy, Debug)]
pub struct DatedRelease {
    pub at: Ref,
    pub reading: Reading,
}

/// The releases of a delegation, each server's apart.
#[derive(Drop)]
pub struct Releases {
    pub delegation: Delegation,
    pub primary: Vec<DatedRelease>,
    pub secondary: Vec<DatedRelease>,
    /// Whether both numbers and readings rise from each to the next, as they do where a journal keeps the rules.
    pub are_rising: bool,
}

fn is_on(at: Ref, side: Role) -> bool
    ensures { IsTrue result ↔ (at.side ≡ side) }
{
    at.side == side
}

/// The lines of this server that give the delegation back.
fn releases_on<S: LineSource>(
    alloc: Global,
    source: &S,
    delegation: &Delegation,
    side: Role,
) -> Result<Vec<DatedRelease>, AllocError>
    ensures { IfOk result (λ xs. AreReleasesOn (S.journals source.now) delegation.now side xs.items) }
{
    let mut releases = Vec::new(alloc);
    let mut walk = source.releases(delegation);
    while let Some(at) = source.next_release(delegation, &mut walk) {
        if !is_on(at, side) {
            continue;
        }
        if let Some(reading) = reading_at(source, at) {
            releases.push(DatedRelease { at, reading })?;
        }
    }
    Ok(releases)
}

fn is_followed_by(line: &DatedRelease, next: &DatedRelease) -> bool
    ensures { IsTrue result ↔ IsFollowedBy line.now next.now }
{
    line.at.side == next.at.side
        && line.at.number <= next.at.number
        && line.reading.milliseconds() <= next.reading.milliseconds()
}

/// Returns whether the lines stand in the order of their journal, and their readings rise with them.
fn are_rising(lines: &[DatedRelease]) -> bool
    ensures { IsTrue result → AreRising lines.now }
{
    for index in 1..lines.len() {
        if !is_followed_by(&lines[index - 1], &lines[index]) {
            return false;
        }
    }
    true
}

impl Releases {
    /// The lines of both journals that give the delegation back.
    pub fn of<S: LineSource>(
        alloc: Global,
        source: &S,
        delegation: &Delegation,
    ) -> Result<Releases, AllocError>
        ensures releases { IfOk result (AreReleases (S.journals source.now)) }
        ensures delegation { IfOk result (λ c. c.delegation ≡ delegation.now) }
    {
        let primary = releases_on(alloc, source, delegation, Role::Primary)?;
        let secondary = releases_on(alloc, source, delegation, Role::Secondary)?;
        let are_rising = are_rising(&primary) && are_rising(&secondary);
        Ok(Releases {
            delegation: *delegation,
            primary,
            secondary,
            are_rising,
        })
    }
}
