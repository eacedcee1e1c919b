//! Who has what at a world's moment.

ghost use Rattle.std.specs.Prelude.{◌≡◌, ◌<◌, ◌↔◌, ℕ, List, IsTrue, IfOk, IfErr, OnOk, MatchOption, length};
ghost use Rattle.std.specs.BTreeSet.{contains, IsOrdered};
ghost use Rattle.attribution.specs.Run.{IsReleasedBy};
ghost use Rattle.journal_lines.specs.declared.event.Event.TheVariants.{Grant};
ghost use Rattle.journal_lines.specs.declared.event.Lease.{Lease as LeaseValue};
ghost use Rattle.pair_world.specs.Holders.{client_cmp, MayLast, GivesBackBy, MayHold, HasByStep, IsNoted, AreHolders};

use crate::client::Client;
use crate::error::WorldError;
use crate::run_step::Step;
use crate::world::World;
use client_id::Duid;
use journal_lines::{Event, Lease};
use lead_time::{Reading, Transit};
use prefix_range::Prefix;
use std::alloc::Global;
use std::collections::BTreeSet;

/// Returns whether a lease that was granted at a moment may be valid now.
fn may_last(moment: Reading, transit: Transit, valid: u32, now: Reading) -> bool
    ensures { IsTrue result ↔ MayLast moment transit valid now }
{
    let granted = moment.milliseconds();
    let now = now.milliseconds();
    let latest = granted + transit.milliseconds();
    let start = if latest < now { latest } else { now };
    granted <= now && (valid == Lease::INFINITE || now < start + 1000 * u64::from(valid))
}

/// Returns whether the step gives a lease back by now.
fn gives_back(step: &Step, lease: &Lease, now: Reading) -> bool
    ensures { IsTrue result ↔ GivesBackBy step.now lease.now now }
{
    match &step.line.event {
        Event::Release {
            client,
            iaid,
            prefix,
        } => {
            *client == lease.client
                && (*iaid == lease.iaid
                    && (*prefix == lease.prefix
                        && step.moment.milliseconds() <= now.milliseconds()))
        }
        _ => false,
    }
}

/// Returns whether a step behind this one gives the lease back by now.
fn is_released(run: &[Step], index: usize, lease: &Lease, now: Reading) -> bool
    requires { index < length run.now }
    ensures { IsTrue result ↔ IsReleasedBy run.now index lease.now now }
{
    for place in index + 1..run.len() {
        if gives_back(&run[place], lease, now) {
            return true;
        }
    }
    false
}

/// The lease that a step grants, if any.
fn granted(step: &Step) -> Option<Lease>
    ensures { MatchOption result ((g : LeaseValue) → step.now.line.event ≡ Grant g → ⊥)
        (λ g. step.now.line.event ≡ Grant g) }
{
    match &step.line.event {
        Event::Grant(lease) => Some(*lease),
        _ => None,
    }
}

/// The clients of a set, in its order.
fn clients_of(alloc: Global, found: &BTreeSet<Client>) -> Result<Vec<Duid>, WorldError>
    ensures clients { IfOk result (λ v. v.items ≡ found.now.keys) }
    ensures ordered { IsOrdered client_cmp found.now }
    ensures refused { IfErr result (λ e. e ≡ WorldError.Memory) }
{
    let mut clients = Vec::new(alloc);
    for client in found {
        clients.extend_from_slice(&[client.0])?;
    }
    Ok(clients)
}

impl World {
    /// Returns whether a lease that a step granted is of an address of the prefix, and may be valid now.
    fn may_hold(&self, index: usize, moment: Reading, lease: &Lease, prefix: &Prefix) -> bool
        requires { index < length self.now.run }
        ensures { IsTrue result ↔ MayHold self.now prefix.now index moment lease.now }
    {
        if !lease.prefix.overlaps(prefix) {
            return false;
        }
        if !may_last(moment, self.transit, lease.valid, self.moment) {
            return false;
        }
        !is_released(&self.run, index, lease, self.moment)
    }

    /// Whose lease of an address of the prefix the step granted, where that may be valid now.
    #[tactic(auto, using(crate::proofs::HolderLaws::has_by, crate::proofs::HolderLaws::not_by))]
    fn held_by(&self, index: usize, prefix: &Prefix) -> Option<Client>
        requires { index < length self.now.run }
        ensures { MatchOption result ((c : List ℕ) → HasByStep self.now prefix.now index c → ⊥)
            (HasByStep self.now prefix.now index) }
    {
        let step = &self.run[index];
        let lease = granted(step)?;
        if !self.may_hold(index, step.moment, &lease, prefix) {
            return None;
        }
        Some(Client(lease.client))
    }

    /// The clients that have an address of the prefix now.
    fn found(&self, alloc: Global, prefix: &Prefix) -> Result<BTreeSet<Client>, WorldError>
        ensures found { IfOk result (λ s. IsNoted self.now prefix.now (length self.now.run) (contains client_cmp s)) }
        ensures refused { IfErr result (λ e. e ≡ WorldError.Memory) }
    {
        let mut found = BTreeSet::new(alloc);
        for index in 0..self.run.len() {
            match self.held_by(index, prefix) {
                Some(client) => {
                    found.insert(client)?;
                }
                None => {}
            }
        }
        Ok(found)
    }

    /// Who has an address of the prefix at the world's moment: each client to which some choice of starts within the
    /// transit gives a valid delegation of one, each once, in the order of their octets.
    #[tactic(auto, using(crate::proofs::HolderLaws::are_holders))]
    pub fn holders(&self, alloc: Global, prefix: &Prefix) -> Result<Vec<Duid>, WorldError>
        ensures holders { IfOk result (λ v. AreHolders self.now prefix.now v.items) }
        ensures refused { IfErr result (λ e. e ≡ WorldError.Memory) }
    {
        let found = self.found(alloc, prefix)?;
        clients_of(alloc, &found)
    }
}
