//! The kinds of the units of pools.

ghost use Rattle.std.specs.Prelude.{◌≡◌, ◌<◌, ◌≤◌, true, false, MatchOption, IfOk, All, length};
ghost use Rattle.prefix_range.specs.Prefix.{Prefix as PrefixValue, size_of};
ghost use Rattle.binding_rules.specs.declared.unit.Unit.{Unit as UnitValue};
ghost use Rattle.book_state.specs.Book.{is_in, units_in};
ghost use Rattle.book_state.specs.Places.{IsPool, IsUnitAt, index_in};
ghost use Rattle.book_rules.specs.State.{state};
ghost use Rattle.unit_index.specs.PoolTrees.{HasKinds, with_unit_at, pools_of};

use crate::kind_tree::KindTree;
use crate::pool_tree::PoolTree;
use crate::unit_kinds::UnitKinds;
use binding_rules::{Role, Unit};
use book_rules::{Pool, Table};
use prefix_range::Prefix;
use std::alloc::{AllocError, Global};

/// Returns how many addresses a prefix of this length has, where these aren't all addresses.
pub(crate) fn addresses(length: u8) -> u128
    requires some { 1 ≤ length }
    requires short { length ≤ 128 }
    ensures { result ≡ size_of length }
{
    1u128 << (128 - length)
}

/// The place of a unit among its pool's.
#[tactic(auto, using(book_state::proofs::Ranges::index_below))]
fn index_of(pool: &Pool, unit: &Prefix) -> usize
    requires pool { IsPool pool.now }
    requires within { is_in pool.now unit.now ≡ true }
    requires few { units_in pool.now ≤ 65536 }
    ensures { result ≡ index_in pool.now unit.now }
{
    if unit.len() == 0 {
        return 0;
    }
    let size = addresses(unit.len());
    (unit.first() / size - pool.prefix.first() / size) as usize
}

/// Returns whether a prefix is one of the pool's units.
fn has(pool: &Pool, prefix: &Prefix) -> bool
    requires { IsPool pool.now }
    ensures { result ≡ is_in pool.now prefix.now }
{
    prefix.len() == pool.unit_length && pool.prefix.contains(prefix)
}

impl PoolTree {
    /// The place of a prefix among the pool's units, if it is one.
    fn place(&self, prefix: &Prefix) -> Option<usize>
        ensures { MatchOption result (is_in self.now.pool prefix.now ≡ false)
            (λ i. (i < units_in self.now.pool) × IsUnitAt self.now.pool i prefix.now) }
    {
        // from this call the proof learns what every prefix keeps
        let _length = prefix.len();
        if !has(&self.pool, prefix) {
            return None;
        }
        Some(index_of(&self.pool, prefix))
    }

    /// Notes what a unit is now.
    pub(crate) fn follow(&mut self, role: Role, prefix: &Prefix, unit: &Unit)
        ensures pool { self.new.pool ≡ self.old.pool }
        ensures follows { (units : PrefixValue → UnitValue) → HasKinds role units self.old
            → HasKinds role (with_unit_at units prefix.now unit.now) self.new }
    {
        if let Some(place) = self.place(prefix) {
            self.chart.put(place, UnitKinds::of(role, unit));
        }
    }

    /// The kinds of a pool's units, as a table has them.
    fn of(alloc: Global, table: &Table, pool: &Pool) -> Result<PoolTree, AllocError>
        requires pool { IsPool pool.now }
        requires few { units_in pool.now ≤ 65536 }
        ensures pool { IfOk result (λ c. c.pool ≡ pool.now) }
        ensures kinds { IfOk result (HasKinds (state table.now).role (state table.now).units) }
    {
        let mut chart = KindTree::new(alloc, pool.unit_length - pool.prefix.len())?;
        for index in 0..pool.count() {
            let unit = table.unit_or_fresh(&pool.unit(index));
            chart.put(index, UnitKinds::of(table.role(), &unit));
        }
        Ok(PoolTree { pool: *pool, chart })
    }
}

/// The kinds of all units, as a table has them.
pub(crate) fn trees_of(alloc: Global, table: &Table) -> Result<Vec<PoolTree>, AllocError>
    ensures pools { IfOk result (λ v. pools_of v.items ≡ (state table.now).pools) }
    ensures kinds { IfOk result (λ v. All (HasKinds (state table.now).role (state table.now).units) v.items) }
{
    let mut charts = Vec::new(alloc);
    for pool in table.pools() {
        charts.push(PoolTree::of(alloc, table, pool)?)?;
    }
    Ok(charts)
}

/// Notes what a unit is now.
pub(crate) fn follow(charts: &mut [PoolTree], role: Role, prefix: &Prefix, unit: &Unit)
    ensures count { length charts.new ≡ length charts.old }
    ensures pools { pools_of charts.new ≡ pools_of charts.old }
    ensures follows { (units : PrefixValue → UnitValue) → All (HasKinds role units) charts.old
        → All (HasKinds role (with_unit_at units prefix.now unit.now)) charts.new }
{
    for index in 0..charts.len() {
        charts[index].follow(role, prefix, unit);
    }
}
