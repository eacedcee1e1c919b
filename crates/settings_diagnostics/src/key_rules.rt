//! The complaints about the keys of one table.

ghost use Rattle.std.specs.Prelude.{◌≡◌, ◌++◌, List, MatchOption, OnOk};
ghost use Rattle.toml.specs.Data.{get_member};
ghost use Rattle.toml.specs.View.{table_view, view};
ghost use Rattle.text_fields.specs.Parsing.{Finds};
ghost use Rattle.settings_diagnostics.specs.declared.key_diagnostic.KeyDiagnostic.{KeyDiagnostic};
ghost use Rattle.settings_diagnostics.specs.Keys.{key_name};
ghost use Rattle.settings_diagnostics.specs.KeyRules.{always, maybe, wishes, IsWrong, IsMet, IsDiagnostic, AreDiagnostics};

use crate::key::Key;
use crate::key_diagnostic::{KeyDiagnostic, KeyTable};
use crate::key_rule::{Expectation, KeyRule, Presence, TextFormat, ValueFault, fault_of};
use std::alloc::AllocError;
use toml::{Table, Value};

/// Returns that a key has to be there, and the wish on its value.
pub(crate) fn always(key: Key, wish: Expectation) -> KeyRule
    ensures { result ≡ always key wish }
{
    KeyRule {
        key,
        need: Presence::Required,
        wish,
    }
}

/// Returns that a key may be left out, and the wish on its value.
fn maybe(key: Key, wish: Expectation) -> KeyRule
    ensures { result ≡ maybe key wish }
{
    KeyRule {
        key,
        need: Presence::Optional,
        wish,
    }
}

fn number(least: u64, most: u64) -> Expectation
    ensures { result ≡ Expectation.Number least most }
{
    Expectation::Number { least, most }
}

/// Returns the wishes of the keys of a node's settings, those of the pools apart.
pub(crate) fn wishes() -> [KeyRule; 10]
    ensures { result ≡ wishes }
{
    [
        always(Key::Role, Expectation::Text(TextFormat::RoleName)),
        always(Key::Duid, Expectation::Text(TextFormat::Identifier)),
        always(Key::SkewMs, number(0, 86_400_000)),
        always(Key::Mclt, number(1, 31_536_000)),
        always(Key::Life, number(1, 31_536_000)),
        maybe(Key::TransitMs, number(0, 3_600_000)),
        always(Key::Listen, Expectation::Text(TextFormat::Address)),
        maybe(Key::Link, Expectation::Text(TextFormat::Address)),
        always(Key::Workers, number(1, 63)),
        always(Key::Pool, Expectation::Tables { least: 1, most: 16 }),
    ]
}

/// Returns the value at a key.
pub(crate) fn value_at<'a>(table: &'a Table, key: &str) -> Option<&'a Value>
    ensures { Finds (λ v. view v.now) result (get_member key.now (table_view table.now)) }
{
    table.get(key)
}

/// Returns the fault of what is at a key of a table, if that isn't as wanted.
fn fault_at(table: &Table, wanted: &KeyRule) -> Option<ValueFault>
    ensures { MatchOption result (IsMet (table_view table.now) wanted.now)
        (IsWrong wanted.now (get_member (key_name wanted.now.key) (table_view table.now))) }
{
    match value_at(table, wanted.key.name()) {
        Some(value) => fault_of(value, &wanted.wish),
        None => match wanted.need {
            Presence::Optional => None,
            Presence::Required => Some(ValueFault::Missing),
        },
    }
}

/// Returns the complaint about a key of a table, if it isn't as wanted.
fn diagnostic_at(table: &Table, place: KeyTable, wanted: &KeyRule) -> Option<KeyDiagnostic>
    ensures { MatchOption result (IsMet (table_view table.now) wanted.now)
        (IsDiagnostic (table_view table.now) place wanted.now) }
{
    match fault_at(table, wanted) {
        Some(fault) => Some(KeyDiagnostic {
            place,
            wanted: *wanted,
            fault,
        }),
        None => None,
    }
}

/// Appends the complaints about the keys of a table, in the order of the wishes: one for each that isn't met.
pub(crate) fn add_diagnostics(
    out: &mut Vec<KeyDiagnostic>,
    table: &Table,
    place: KeyTable,
    wishes: &[KeyRule],
) -> Result<(), AllocError>
    ensures { OnOk result ((more : List KeyDiagnostic) × (out.new.items ≡ out.old.items ++ more)
        × AreDiagnostics (table_view table.now) place wishes.now more) }
{
    for wanted in wishes {
        if let Some(complaint) = diagnostic_at(table, place, wanted) {
            out.extend_from_slice(&[complaint])?;
        }
    }
    Ok(())
}
