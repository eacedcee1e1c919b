//! The complaints about the keys of each pool.

ghost use Rattle.std.specs.Prelude.{◌≡◌, ◌++◌, List, OnOk};
ghost use Rattle.toml.specs.View.{table_view, items_view, view};
ghost use Rattle.text_fields.specs.Parsing.{Finds};
ghost use Rattle.settings_diagnostics.specs.declared.key_diagnostic.KeyDiagnostic.{KeyDiagnostic};
ghost use Rattle.settings_diagnostics.specs.Pools.{prefix_in, least_unit, IsPoolPrefix, pool_key_rules, members_in};
ghost use Rattle.settings_diagnostics.specs.Pools.{AreOfPool, pools_in, AreOfPools};

use crate::key::Key;
use crate::key_diagnostic::{KeyDiagnostic, KeyTable};
use crate::key_rule::{Expectation, KeyRule, TextFormat};
use crate::key_rules::{add_diagnostics, always, value_at};
use prefix_range::Prefix;
use server_settings::prefix_of;
use std::alloc::{AllocError, Global};
use toml::{Table, Value};

/// Returns the prefix that a pool names, if it names one.
#[tactic(auto, unfolding(crate::specs::Pools::prefix_in, server_settings::specs::Document::text_at))]
fn prefix_in(table: &Table) -> Option<Prefix>
    ensures { Finds (λ p. p) result (prefix_in (table_view table.now)) }
{
    prefix_of(value_at(table, "prefix")?.as_str()?)
}

/// Returns the length of the prefix that a pool names, 0 where it names none.
fn least_unit(table: &Table) -> u8
    ensures length { result ≡ least_unit (table_view table.now) }
    ensures whole { IsPoolPrefix (prefix_in (table_view table.now)) }
{
    match prefix_in(table) {
        Some(prefix) => prefix.len(),
        None => 0,
    }
}

/// Returns the wishes of the keys of a pool: its units are no shorter than its prefix.
fn pool_key_rules(table: &Table) -> [KeyRule; 2]
    ensures wishes { result ≡ pool_key_rules (table_view table.now) }
    ensures whole { IsPoolPrefix (prefix_in (table_view table.now)) }
{
    let unit = Expectation::Number {
        least: u64::from(least_unit(table)),
        most: 128,
    };
    [
        always(Key::Prefix, Expectation::Text(TextFormat::Range)),
        always(Key::Unit, unit),
    ]
}

/// Appends the complaints about the keys of a table that is a pool, with so many pools before it.
fn add_of_table(
    out: &mut Vec<KeyDiagnostic>,
    table: &Table,
    before: usize,
) -> Result<(), AllocError>
    ensures { OnOk result ((more : List KeyDiagnostic) × (out.new.items ≡ out.old.items ++ more)
        × AreOfPool before (table_view table.now) more) }
{
    add_diagnostics(out, table, KeyTable::Pool(before), &pool_key_rules(table))
}

/// Appends the complaints about the keys of a pool, with so many before it: what is no table has no keys.
fn add_of_pool(
    alloc: Global,
    out: &mut Vec<KeyDiagnostic>,
    pool: &Value,
    before: usize,
) -> Result<(), AllocError>
    ensures { OnOk result ((more : List KeyDiagnostic) × (out.new.items ≡ out.old.items ++ more)
        × AreOfPool before (members_in (view pool.now)) more) }
{
    match pool.as_table() {
        Some(table) => add_of_table(out, table, before),
        None => add_of_table(out, &Table::new(alloc), before),
    }
}

/// Appends the complaints about the keys of each of some pools.
fn add_of_each(
    alloc: Global,
    out: &mut Vec<KeyDiagnostic>,
    pools: &[Value],
) -> Result<(), AllocError>
    ensures { OnOk result ((more : List KeyDiagnostic) × (out.new.items ≡ out.old.items ++ more)
        × AreOfPools 0 (items_view pools.now) more) }
{
    for (before, pool) in pools.iter().enumerate() {
        add_of_pool(alloc, out, pool, before)?;
    }
    Ok(())
}

/// Appends the complaints about the keys of each pool of a document.
pub(crate) fn add_of_pools(
    alloc: Global,
    out: &mut Vec<KeyDiagnostic>,
    table: &Table,
) -> Result<(), AllocError>
    ensures { OnOk result ((more : List KeyDiagnostic) × (out.new.items ≡ out.old.items ++ more)
        × AreOfPools 0 (pools_in (table_view table.now)) more) }
{
    let Some(value) = value_at(table, "pool") else {
        return Ok(());
    };
    match value.as_array() {
        Some(pools) => add_of_each(alloc, out, pools),
        None => Ok(()),
    }
}
