//! The units of a server's pools.

ghost use Rattle.std.specs.Prelude.{◌≡◌, ◌+◌, ◌<◌, ◌≤◌, ◌↔◌, ◌∷◌, ◌++◌, [], IsTrue, IfSome, IfOk, IfErr, OnOk, true};
ghost use Rattle.std.specs.Prelude.{length, if◌then◌else◌, All, Contains as Has};
ghost use Rattle.std.specs.List.{sum_by};
ghost use Rattle.prefix_range.specs.Prefix.{Prefix as PrefixValue, IsPrefix, Overlaps};
ghost use Rattle.book_state.specs.declared.pool.Pool.{Pool as PoolValue};
ghost use Rattle.book_state.specs.Book.{is_unit, units_in};
ghost use Rattle.book_state.specs.Effects.{same_prefix};
ghost use Rattle.book_state.specs.Changes.{with_change, ChangesUnit};
ghost use Rattle.book_state.specs.Places.{IsPool, place_on, unit_at, mark_of, ArePools, AreUnmarked};

use crate::change::Change;
use crate::pool::Pool;
use binding_rules::Unit;
use prefix_range::Prefix;
use std::alloc::{AllocError, Global};
use std::marker::Model;

/// Where the unit of a prefix stands among those of the pools; `None` where the prefix is no unit.
fn place_in(pools: &[Pool], prefix: &Prefix) -> Option<usize>
    requires pools { All IsPool pools.now }
    requires few { sum_by units_in pools.now ≤ 65536 }
    ensures { result ≡ place_on 0 pools.now prefix.now }
{
    let mut offset = 0usize;
    for pool in pools {
        if pool.has(prefix) {
            return Some(offset + pool.index_of(prefix));
        }
        offset += pool.count();
    }
    None
}

/// Returns what a unit adds to the count of marked ones.
fn mark(unit: &Unit) -> usize
    ensures { result ≡ mark_of unit.now }
{
    if unit.marked { 1 } else { 0 }
}

/// Pools and their units, found by pool and offset. Contracts see the pools and the units in their order.
#[derive(Drop)]
pub struct Units {
    pools: Vec<Pool>,
    units: Vec<Unit>,
    /// How many of the units are marked.
    marks: usize,
    /// What is lent where a prefix is no unit.
    blank: Unit,
}

impl Model for Units {
    ghost use Rattle.book_state.specs.Places.{Delegable, AreKept};

    ghost Value = { Delegable };

    ghost view = { λ t. record { pools = t.pools.items; units = t.units.items } };

    ghost invariant = { λ t. AreKept t.pools.items t.units.items t.marks t.blank };
}

impl Units {
    /// No pools yet.
    pub fn new(alloc: Global) -> Units
        ensures { result ≡ record { pools = []; units = [] } }
    {
        Units {
            pools: Vec::new(alloc),
            units: Vec::new(alloc),
            marks: 0,
            blank: Unit::fresh(),
        }
    }

    /// Where the unit of a prefix stands; `None` where the prefix is no unit.
    #[tactic(auto, using(crate::proofs::PlaceLaws::place_within))]
    fn place(&self, prefix: &Prefix) -> Option<usize>
        ensures place { result ≡ place_on 0 self.now.pools prefix.now }
        ensures within { IfSome result (λ i. i < length self.now.units) }
        ensures whole { IsPrefix prefix.now }
    {
        // from this call the proof learns what every prefix keeps, of which `whole` speaks
        let _length = prefix.len();
        place_in(&self.pools, prefix)
    }

    /// The pools.
    pub fn pools(&self) -> &[Pool]
        ensures pools { result.now ≡ self.now.pools }
        ensures whole { ArePools result.now }
    {
        &self.pools
    }

    /// Returns how many units there are.
    pub fn count(&self) -> usize
        ensures count { result ≡ sum_by units_in self.now.pools }
        ensures few { result ≤ 65536 }
    {
        self.units.len()
    }

    /// Returns whether a prefix is a unit.
    pub fn has(&self, prefix: &Prefix) -> bool
        ensures { result ≡ is_unit self.now.pools prefix.now }
    {
        match self.place(prefix) {
            Some(_) => true,
            None => false,
        }
    }

    /// The unit of a prefix, or a fresh one where the prefix is none.
    pub fn unit(&self, prefix: &Prefix) -> &Unit
        ensures { result.now ≡ unit_at self.now prefix.now }
    {
        match self.place(prefix) {
            Some(place) => &self.units[place],
            None => &self.blank,
        }
    }

    /// Changes a unit.
    pub(crate) fn put(&mut self, prefix: &Prefix, unit: Unit)
        requires { is_unit self.old.pools prefix.now ≡ true }
        ensures pools { self.new.pools ≡ self.old.pools }
        ensures units { (q : PrefixValue) → unit_at self.new q
            ≡ (if same_prefix q prefix.now then unit else unit_at self.old q) }
    {
        if let Some(place) = self.place(prefix) {
            let was = mark(&self.units[place]);
            self.marks = self.marks - was + mark(&unit);
            self.units[place] = unit;
        }
    }

    /// Makes a change, if there is one.
    pub fn change(&mut self, change: &Option<Change>)
        requires { ChangesUnit self.old.pools change.now }
        ensures pools { self.new.pools ≡ self.old.pools }
        ensures units { (q : PrefixValue) → unit_at self.new q ≡ with_change (unit_at self.old) change.now q }
    {
        if let Some(change) = change {
            self.put(&change.prefix, change.unit);
        }
    }

    /// Adds a pool, whose units are fresh. Where the memory is refused nothing has changed.
    pub fn add(&mut self, pool: Pool) -> Result<(), AllocError>
        requires pool { IsPool pool }
        requires apart { (q : PoolValue) → Has self.old.pools q → Overlaps q.prefix pool.prefix → ⊥ }
        requires few { sum_by units_in self.old.pools + units_in pool ≤ 65536 }
        ensures pools { OnOk result (self.new.pools ≡ self.old.pools ++ pool ∷ []) }
        ensures units { OnOk result ((q : PrefixValue) → unit_at self.new q ≡ unit_at self.old q) }
        ensures refused { IfErr result (λ _. self.new ≡ self.old) }
    {
        let count = self.units.len() + pool.count();
        self.pools.push(pool)?;
        match self.units.resize(count, Unit::fresh()) {
            Ok(()) => Ok(()),
            Err(error) => {
                self.pools.pop();
                Err(error)
            }
        }
    }

    /// The same pools and units, in memory of their own.
    pub fn copy(&self) -> Result<Units, AllocError>
        ensures { IfOk result (λ u. u ≡ self.now) }
    {
        let pools = self.pools.clone()?;
        let units = self.units.clone()?;
        Ok(Units {
            pools,
            units,
            marks: self.marks,
            blank: Unit::fresh(),
        })
    }

    /// Returns whether no unit is marked.
    pub fn is_unmarked(&self) -> bool
        ensures { IsTrue result ↔ AreUnmarked self.now }
    {
        self.marks == 0
    }
}
