//! The lowest unit of a kind.

ghost use Rattle.std.specs.Prelude.{◌≡◌, ◌≤◌, ◌↔◌, ℕ, IsTrue};
ghost use Rattle.prefix_range.specs.Prefix.{Prefix as PrefixValue};
ghost use Rattle.book_state.specs.Places.{IsPool, IsUnitAt};
ghost use Rattle.book_rules.specs.State.{state};
ghost use Rattle.unit_index.specs.Units.{IsLeastOf};
ghost use Rattle.unit_index.specs.PoolTrees.{HasKinds};
ghost use Rattle.unit_index.specs.Queries.{MayExpire};
ghost use Rattle.unit_index.specs.Searching.{MatchesQuery, IsSome, IsThere, IsThereIn, lower_of};

use crate::pool_tree::PoolTree;
use crate::pool_tree::building::addresses;
use crate::unit_index::UnitIndex;
use binding_rules::{Status, Unit, grantable};
use book_rules::{Pool, Table};
use book_state::GREATEST_START;
use lead_time::{Reading, is_past};
use prefix_range::Prefix;

/// The kinds of units that are looked for.
#[derive(Clone, Copy)]
pub enum UnitQuery {
    /// One that the server may give to any client.
    Usable,
    /// One whose lease has ended.
    Expirable(Reading),
    /// One of a partner that is down, whose leases have all ended.
    Seizable(Reading),
    /// One with a pending reply.
    Pending,
    /// One with a change that the partner has yet to acknowledge.
    Due,
    /// One that was seized, which the partner has yet to acknowledge.
    Marked,
    /// One whose count of changes is over what a later volume may begin with.
    Overcounted,
}

fn may_expire(now: Reading, unit: &Unit) -> bool
    ensures { IsTrue result ↔ MayExpire now unit.now }
{
    unit.status.status() == Status::Active && is_past(now, unit.own_end) && is_past(now, unit.told)
}

fn is_wanted(table: &Table, wanted: &UnitQuery, unit: &Unit) -> bool
    ensures { IsTrue result ↔ MatchesQuery (state table.now) wanted.now unit.now }
{
    match wanted {
        UnitQuery::Usable => grantable(table.role(), unit),
        UnitQuery::Expirable(now) => may_expire(*now, unit),
        UnitQuery::Seizable(now) => table.is_seizable(*now, unit),
        UnitQuery::Pending => unit.pending.is_some(),
        UnitQuery::Due => unit.due.is_some(),
        UnitQuery::Marked => unit.marked,
        UnitQuery::Overcounted => unit.mine.number() > GREATEST_START,
    }
}

fn is_there(table: &Table, wanted: &UnitQuery, from: u128, prefix: &Prefix) -> bool
    ensures { IsTrue result ↔ IsThere (state table.now) wanted.now from prefix.now }
{
    // from this call the proof learns what every prefix keeps
    let _length = prefix.len();
    match table.unit(prefix) {
        Some(unit) => from <= prefix.first() && is_wanted(table, wanted, &unit),
        None => false,
    }
}

/// A place of a pool before which no unit begins at an address or above.
fn first_place(pool: &Pool, from: u128) -> usize
    requires { IsPool pool.now }
    ensures { (i : ℕ) (p : PrefixValue) → IsUnitAt pool.now i p → from ≤ p.address → result ≤ i }
{
    let first = pool.prefix.first();
    if from <= first || pool.unit_length == 0 {
        return 0;
    }
    let size = addresses(pool.unit_length);
    ((from - first) / size).min(65536) as usize
}

/// The lowest unit of a pool that is wanted, from an address on.
fn lowest_in(table: &Table, chart: &PoolTree, wanted: &UnitQuery, from: u128) -> Option<Prefix>
    requires { HasKinds (state table.now).role (state table.now).units chart.now }
    ensures { IsLeastOf (IsThereIn (state table.now) wanted.now from chart.now.pool) result }
{
    let pool = &chart.pool;
    let mut place = first_place(pool, from);
    while let Some(found) = chart.chart.next(wanted, place) {
        let prefix = pool.unit(found);
        if is_there(table, wanted, from, &prefix) {
            return Some(prefix);
        }
        place = found + 1;
    }
    None
}

/// The lower of two prefixes.
fn lower(one: Option<Prefix>, other: Option<Prefix>) -> Option<Prefix>
    ensures { result ≡ lower_of one other }
{
    match (one, other) {
        (None, _) => other,
        (_, None) => one,
        (Some(first), Some(second)) => if first.first() <= second.first() {
            one
        } else {
            other
        },
    }
}

/// The lowest unit that is wanted, from an address on.
pub fn lowest_from(register: &UnitIndex, wanted: &UnitQuery, from: u128) -> Option<Prefix>
    ensures { IsLeastOf (IsThere (state register.now.table) wanted.now from) result }
{
    let table = &register.table;
    let mut best = None;
    for chart in &register.charts {
        best = lower(best, lowest_in(table, chart, wanted, from));
    }
    best
}

/// The lowest unit that is wanted.
pub fn lowest(register: &UnitIndex, wanted: &UnitQuery) -> Option<Prefix>
    ensures { IsLeastOf (IsSome (state register.now.table) wanted.now) result }
{
    lowest_from(register, wanted, 0)
}
