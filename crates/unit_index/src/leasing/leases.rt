//! What each client has, as lines come.

ghost use Rattle.std.specs.Prelude.{◌≡◌, ◌≤◌, ◌⊎◌, ◌↔◌, true, IsTrue, IfSome, IfErr, IfOk, OnOk, Some};
ghost use Rattle.book_state.specs.Book.{is_in, units_in};
ghost use Rattle.book_state.specs.Effects.{after};
ghost use Rattle.book_state.specs.Places.{IsPool};
ghost use Rattle.book_rules.specs.Rules.{IsStep};
ghost use Rattle.book_rules.specs.State.{state};
ghost use Rattle.unit_index.specs.declared.leasing.LeaseKey.{LeaseKey as LeasedValue};
ghost use Rattle.unit_index.specs.Units.{IsLeastOf};
ghost use Rattle.unit_index.specs.Leases.{AreLeases, HasLease, IsHeld, leased, leased_under};
ghost use Rattle.unit_index.specs.Leases.{coming_in, coming_of, held_before};
ghost use Rattle.unit_index.specs.Subjects.{KeepsPools};

use crate::leasing::LeaseKey;
use crate::subject::subject_of;
use binding_rules::{Body, Status, UnitStatus, renewable};
use book_rules::{Pool, Table};
use client_id::{Duid, Iaid};
use journal_lines::{Event, Line};
use prefix_range::Prefix;
use std::alloc::{AllocError, Global};
use std::collections::BTreeSet;

/// Returns what a unit of this status is delegated under.
fn leased_under(prefix: &Prefix, status: &UnitStatus) -> Option<LeaseKey>
    ensures { result ≡ leased_under prefix.now status.now }
{
    match status {
        UnitStatus::Active(binding) => Some(LeaseKey {
            iaid: binding.iaid,
            client: binding.client,
            prefix: *prefix,
        }),
        _ => None,
    }
}

fn coming_in(body: &Body) -> Option<LeaseKey>
    ensures { result ≡ coming_in body.now }
{
    match body {
        Body::Update(update) => match (update.status, update.client) {
            (Status::Active, Some(client)) => Some(LeaseKey {
                iaid: update.iaid,
                client,
                prefix: update.prefix,
            }),
            _ => None,
        },
        _ => None,
    }
}

/// The only lease that an event may begin.
fn coming_of(event: &Event) -> Option<LeaseKey>
    ensures { result ≡ coming_of event.now }
{
    match event {
        Event::Unit(kept) => leased_under(&kept.prefix, &kept.status),
        Event::Grant(lease) => Some(LeaseKey {
            iaid: lease.iaid,
            client: lease.client,
            prefix: lease.prefix,
        }),
        Event::Take(message) => coming_in(&message.body),
        _ => None,
    }
}

/// Returns what the unit that an event is about is delegated under before it.
fn held_before(table: &Table, event: &Event) -> Option<LeaseKey>
    ensures { result ≡ held_before (state table.now) event.now }
{
    match subject_of(event) {
        Some(prefix) => leased_under(&prefix, &table.unit_or_fresh(&prefix).status),
        None => None,
    }
}

/// Returns whether a client has a unit, by a table.
fn is_held(table: &Table, held: &LeaseKey) -> bool
    ensures { IsTrue result ↔ IsHeld (state table.now) held.now }
{
    // from this call the proof learns what every prefix keeps
    let _length = held.prefix.len();
    match table.unit(&held.prefix) {
        Some(unit) => renewable(&unit, &held.client, held.iaid),
        None => false,
    }
}

/// Forgets what a client no longer has.
fn settle(leases: &mut BTreeSet<LeaseKey>, table: &Table, held: &Option<LeaseKey>)
    ensures fewer { (h : LeasedValue) → HasLease leases.new h → HasLease leases.old h }
    ensures gone { (h : LeasedValue) → held.now ≡ Some h → HasLease leases.new h → IsHeld (state table.now) h }
    ensures kept { (h : LeasedValue) → IsHeld (state table.now) h → HasLease leases.old h → HasLease leases.new h }
{
    if let Some(held) = held {
        if !is_held(table, held) {
            leases.remove(held);
        }
    }
}

/// Notes what a client may come to have.
fn expect(leases: &mut BTreeSet<LeaseKey>, held: &Option<LeaseKey>) -> Result<(), AllocError>
    ensures more { (h : LeasedValue) → HasLease leases.old h → HasLease leases.new h }
    ensures only { (h : LeasedValue) → HasLease leases.new h → HasLease leases.old h ⊎ (held.now ≡ Some h) }
    ensures there { OnOk result ((h : LeasedValue) → held.now ≡ Some h → HasLease leases.new h) }
    ensures refused { IfErr result (λ _. (h : LeasedValue) → HasLease leases.new h → HasLease leases.old h) }
{
    if let Some(held) = held {
        leases.insert(*held)?;
    }
    Ok(())
}

/// Enters a line that breaks no rule and adds no pool. Where the memory is refused nothing has changed.
pub(crate) fn enter(
    table: &mut Table,
    leases: &mut BTreeSet<LeaseKey>,
    line: &Line,
) -> Result<(), AllocError>
    requires step { IsStep (state table.old) line.now }
    requires pools { KeepsPools line.now.event }
    ensures entered { OnOk result (state table.new ≡ after (state table.old) line.now) }
    ensures refused { IfErr result (λ _. state table.new ≡ state table.old) }
    ensures held { AreLeases (state table.old) leases.old → AreLeases (state table.new) leases.new }
{
    let before = held_before(table, &line.event);
    let coming = coming_of(&line.event);
    expect(leases, &coming)?;
    match table.enter(line) {
        Ok(()) => {
            settle(leases, table, &before);
            settle(leases, table, &coming);
            Ok(())
        }
        Err(error) => {
            settle(leases, table, &coming);
            Err(error)
        }
    }
}

/// Returns what a prefix is delegated under, where it is a unit.
fn held_by(table: &Table, prefix: &Prefix) -> Option<LeaseKey>
    ensures sound { IfSome result (IsHeld (state table.now)) }
    ensures exact { (h : LeasedValue) → IsHeld (state table.now) h → h.prefix ≡ prefix.now → result ≡ Some h }
{
    match table.unit(prefix) {
        Some(unit) => leased_under(prefix, &unit.status),
        None => None,
    }
}

/// Adds what clients have of a pool.
fn add_pool(leases: &mut BTreeSet<LeaseKey>, table: &Table, pool: &Pool) -> Result<(), AllocError>
    requires pool { IsPool pool.now }
    requires few { units_in pool.now ≤ 65536 }
    ensures sound { ((h : LeasedValue) → HasLease leases.old h → IsHeld (state table.now) h)
        → (h : LeasedValue) → HasLease leases.new h → IsHeld (state table.now) h }
    ensures more { OnOk result ((h : LeasedValue) → HasLease leases.old h → HasLease leases.new h) }
    ensures all { OnOk result ((h : LeasedValue) → IsHeld (state table.now) h → is_in pool.now h.prefix ≡ true
        → HasLease leases.new h) }
{
    for index in 0..pool.count() {
        let held = held_by(table, &pool.unit(index));
        expect(leases, &held)?;
    }
    Ok(())
}

/// Returns what clients have by a table.
pub(crate) fn leases_of(alloc: Global, table: &Table) -> Result<BTreeSet<LeaseKey>, AllocError>
    ensures { IfOk result (AreLeases (state table.now)) }
{
    let mut leases = BTreeSet::new(alloc);
    for pool in table.pools() {
        add_pool(&mut leases, table, pool)?;
    }
    Ok(leases)
}

/// No prefix stands before this one.
fn first_prefix() -> Prefix
    ensures { result ≡ record { address = 0; length = 0 } }
{
    match Prefix::new(0, 0) {
        Ok(prefix) => prefix,
        Err(_) => unreachable!(),
    }
}

/// The lowest unit that a client has under an identity association.
pub(crate) fn lowest_leased(
    leases: &BTreeSet<LeaseKey>,
    client: &Duid,
    iaid: Iaid,
) -> Option<Prefix>
    ensures { IsLeastOf (λ p. HasLease leases.now (leased client.now iaid p)) result }
{
    let from = LeaseKey {
        iaid,
        client: *client,
        prefix: first_prefix(),
    };
    let Some(first) = leases.range(from..).next() else {
        return None;
    };
    if first.iaid != iaid {
        return None;
    }
    if first.client != *client {
        return None;
    }
    Some(first.prefix)
}
