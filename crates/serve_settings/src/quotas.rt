//! How much clients may take, by a document.

ghost use Rattle.std.specs.Prelude.{◌≡◌, Some, None, MatchResult};
ghost use Rattle.toml.specs.View.{view, table_view};
ghost use Rattle.text_fields.specs.Parsing.{Finds};
ghost use Rattle.serve_settings.specs.Serving.{number_of, quota_at, rule_by, port_rule_in, shares_in, quotas_in};
ghost use Rattle.serve_settings.specs.Serving.{IsShareFault, IsQuotaFault};

use crate::error::ServeSettingsError;
use crate::limits::value_at;
use client_limits::{Limits, PortRule};
use toml::{Table, Value};

/// IA_PDs of a message that may ask for more, where nothing else is said.
const IAS_PER_MESSAGE: u32 = 4;

/// Units of a client, where nothing else is said.
const UNITS_PER_CLIENT: u32 = 8;

/// Units of those behind one relay port, where nothing else is said.
const UNITS_PER_PORT: u32 = 64;

/// Messages of a client in a second, where nothing else is said.
const CLIENT_RATE: u32 = 20;

/// The whole number up to the limit that a value is.
#[tactic(auto, unfolding(crate::specs::Serving::number_of))]
fn number_of(value: &Value, most: u32) -> Option<u32>
    ensures { Finds (λ n. n) result (number_of most (view value.now)) }
{
    let number = u32::try_from(value.as_integer()?).ok()?;
    if number <= most { Some(number) } else { None }
}

/// The whole number up to the limit at a key, or what is meant where the key isn't there; or this fault.
#[tactic(auto, unfolding(crate::specs::Serving::quota_at))]
fn quota_at(
    table: &Table,
    key: &str,
    unsaid: u32,
    most: u32,
    fault: ServeSettingsError,
) -> Result<u32, ServeSettingsError>
    ensures { MatchResult result (λ n. quota_at key.now unsaid most (table_view table.now) ≡ Some n)
        (λ e. (e ≡ fault) × (quota_at key.now unsaid most (table_view table.now) ≡ None)) }
{
    let found = match value_at(table, key) {
        Some(value) => number_of(value, most),
        None => Some(unsaid),
    };
    match found {
        Some(number) => Ok(number),
        None => Err(fault),
    }
}

fn rule_by(is_bound: bool) -> PortRule
    ensures { result ≡ rule_by is_bound }
{
    if is_bound {
        PortRule::Bound
    } else {
        PortRule::Free
    }
}

/// Whether an identity association stays at its relay port.
#[tactic(auto, unfolding(crate::specs::Serving::port_rule_in))]
fn port_rule_in(table: &Table) -> Option<PortRule>
    ensures { Finds (λ r. r) result (port_rule_in (table_view table.now)) }
{
    match value_at(table, "bind_to_port") {
        Some(value) => Some(rule_by(value.as_bool()?)),
        None => Some(PortRule::Free),
    }
}

/// How much a message may ask for, and how many units a client, and those behind one relay port, may have.
#[derive(Clone, Copy)]
struct Shares {
    ias_per_message: u32,
    units_per_client: u32,
    units_per_port: u32,
}

/// The shares of a document. `IasPerMessage`, `UnitsPerClient` or `UnitsPerPort`, in this order, where that key has no
/// number within its limits.
fn shares_in(table: &Table) -> Result<Shares, ServeSettingsError>
    ensures { MatchResult result (λ s. shares_in (table_view table.now)
        ≡ Some s) (IsShareFault (table_view table.now)) }
{
    let ias_per_message = quota_at(
        table,
        "ias_per_message",
        IAS_PER_MESSAGE,
        65_535,
        ServeSettingsError::IasPerMessage,
    )?;
    let units_per_client = quota_at(
        table,
        "units_per_client",
        UNITS_PER_CLIENT,
        65_536,
        ServeSettingsError::UnitsPerClient,
    )?;
    let units_per_port = quota_at(
        table,
        "units_per_port",
        UNITS_PER_PORT,
        65_536,
        ServeSettingsError::UnitsPerPort,
    )?;
    Ok(Shares {
        ias_per_message,
        units_per_client,
        units_per_port,
    })
}

/// How much clients may take. `IasPerMessage`, `UnitsPerClient`, `UnitsPerPort`, `ClientRate` or `BindToPort`, in this
/// order, where that key has nothing within its limits.
pub(crate) fn quotas_in(table: &Table) -> Result<Limits, ServeSettingsError>
    ensures { MatchResult result (λ l. quotas_in (table_view table.now)
        ≡ Some l) (IsQuotaFault (table_view table.now)) }
{
    let shares = shares_in(table)?;
    let client_rate = quota_at(
        table,
        "client_rate",
        CLIENT_RATE,
        1_000_000,
        ServeSettingsError::ClientRate,
    )?;
    let Some(ports) = port_rule_in(table) else {
        return Err(ServeSettingsError::BindToPort);
    };
    Ok(Limits {
        ias_per_message: shares.ias_per_message,
        units_per_client: shares.units_per_client,
        units_per_port: shares.units_per_port,
        client_rate,
        ports,
    })
}
