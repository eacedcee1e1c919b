//! Settings out of a TOML document.

ghost use Rattle.std.specs.Prelude.{◌≡◌, ◌≤◌, IfSome, IfOk, IsErrOf, codes};
ghost use Rattle.toml.specs.Data.{Members, get_member};
ghost use Rattle.toml.specs.View.{view, table_view, items_view};
ghost use Rattle.text_fields.specs.Parsing.{Finds};
ghost use Rattle.client_id.specs.Duid.{duid_word};
ghost use Rattle.server_settings.specs.Settings.{ServerSettings, AreWithin};
ghost use Rattle.server_settings.specs.Document.{IsDocument, role_of, prefix_of, up_to, text_at, number_at, role_in};
ghost use Rattle.server_settings.specs.Document.{duid_in, transit_in, pool_of, pools_of, pools_in, named_in};
ghost use Rattle.server_settings.specs.Document.{AreRead, Reads};
ghost use Rattle.book_state.specs.Places.{AreDisjoint};

use crate::error::OpenError;
use crate::settings::Settings;
use binding_rules::Role;
use book_state::{Pool, YEAR};
use client_id::Duid;
use lead_time::{Skew, Transit};
use prefix_range::{Prefix, read_text};
use std::alloc::Global;
use toml::{Table, Value};

/// The role that a word names.
#[tactic(auto, unfolding(crate::specs::Document::role_of))]
pub fn role_of(word: &str) -> Option<Role>
    ensures { Finds (λ r. r) result (role_of word.now) }
{
    if word == "primary" {
        Some(Role::Primary)
    } else if word == "secondary" {
        Some(Role::Secondary)
    } else {
        None
    }
}

/// The prefix that a word spells as people write prefixes.
#[tactic(auto, unfolding(crate::specs::Document::prefix_of))]
pub fn prefix_of(word: &str) -> Option<Prefix>
    ensures { Finds (λ p. p) result (prefix_of word.now) }
{
    match read_text(word.as_bytes()) {
        Ok(prefix) => Some(prefix),
        Err(_) => None,
    }
}

/// The identifier that a word spells in lower-case hexadecimal digits.
pub fn duid_of(word: &str) -> Option<Duid>
    ensures { Finds (λ d. d) result (duid_word word.now) }
{
    match Duid::from_hex(word.as_bytes()) {
        Ok(duid) => Some(duid),
        Err(_) => None,
    }
}

fn value_at<'a>(table: &'a Table, key: &str) -> Option<&'a Value>
    ensures { Finds (λ v. view v.now) result (get_member key.now (table_view table.now)) }
{
    table.get(key)
}

#[tactic(auto, unfolding(crate::specs::Document::text_at))]
fn text_at<'a>(table: &'a Table, key: &str) -> Option<&'a str>
    ensures { Finds (λ s. s.now) result (text_at key.now (table_view table.now)) }
{
    value_at(table, key)?.as_str()
}

#[tactic(auto, unfolding(crate::specs::Document::up_to))]
fn up_to(most: u64, n: i64) -> Option<u64>
    ensures value { Finds (λ n. n) result (up_to most n) }
    ensures few { IfSome result (λ n. n ≤ most) }
{
    let n = u64::try_from(n).ok()?;
    if n <= most { Some(n) } else { None }
}

/// The whole number at a key, from 0 to the limit.
#[tactic(auto, unfolding(crate::specs::Document::number_at))]
fn number_at(table: &Table, key: &str, most: u64) -> Option<u64>
    ensures value { Finds (λ n. n) result (number_at key.now most (table_view table.now)) }
    ensures few { IfSome result (λ n. n ≤ most) }
{
    up_to(most, value_at(table, key)?.as_integer()?)
}

#[tactic(auto, unfolding(crate::specs::Document::role_in))]
fn role_in(table: &Table) -> Option<Role>
    ensures { Finds (λ r. r) result (role_in (table_view table.now)) }
{
    role_of(text_at(table, "role")?)
}

#[tactic(auto, unfolding(crate::specs::Document::duid_in))]
fn duid_in(table: &Table) -> Option<Duid>
    ensures { Finds (λ d. d) result (duid_in (table_view table.now)) }
{
    duid_of(text_at(table, "duid")?)
}

fn skew_in(table: &Table) -> Option<Skew>
    ensures { Finds (λ s. s) result (number_at (codes "skew_ms") 86400000 (table_view table.now)) }
{
    match Skew::new(number_at(table, "skew_ms", Skew::MAX)?) {
        Ok(skew) => Some(skew),
        Err(_) => None,
    }
}

/// A number of seconds, at most a year.
fn seconds_at(table: &Table, key: &str) -> Option<u32>
    ensures { Finds (λ n. n) result (number_at key.now 31536000 (table_view table.now)) }
{
    let seconds = number_at(table, key, u64::from(YEAR))?;
    Some(seconds as u32)
}

fn transit_at(table: &Table) -> Option<Transit>
    ensures { Finds (λ d. d) result (number_at (codes "transit_ms") 3600000 (table_view table.now)) }
{
    match Transit::new(number_at(table, "transit_ms", Transit::MAX)?) {
        Ok(transit) => Some(transit),
        Err(_) => None,
    }
}

#[tactic(auto, unfolding(crate::specs::Document::transit_in))]
fn transit_in(table: &Table) -> Option<Transit>
    ensures { Finds (λ d. d) result (transit_in (table_view table.now)) }
{
    match value_at(table, "transit_ms") {
        Some(_) => transit_at(table),
        None => Some(Transit::ZERO),
    }
}

#[tactic(auto, unfolding(crate::specs::Document::pool_of))]
fn pool_of(value: &Value) -> Option<Pool>
    ensures { Finds (λ p. p) result (pool_of (view value.now)) }
{
    let table = value.as_table()?;
    let prefix = prefix_of(text_at(table, "prefix")?)?;
    let unit_length = number_at(table, "unit", 128)? as u8;
    Some(Pool {
        prefix,
        unit_length,
    })
}

fn pools_of(alloc: Global, values: &[Value]) -> Result<Vec<Pool>, OpenError>
    ensures { Reads (λ ps. ps.items) result (pools_of (items_view values.now)) }
{
    let mut pools = Vec::new(alloc);
    for value in values {
        let Some(pool) = pool_of(value) else {
            return Err(OpenError::Settings);
        };
        pools.extend_from_slice(&[pool])?;
    }
    Ok(pools)
}

#[tactic(auto, unfolding(crate::specs::Document::pools_in))]
fn pools_in(alloc: Global, table: &Table) -> Result<Vec<Pool>, OpenError>
    ensures { Reads (λ ps. ps.items) result (pools_in (table_view table.now)) }
{
    let value = value_at(table, "pool").ok_or(OpenError::Settings)?;
    let values = value.as_array().ok_or(OpenError::Settings)?;
    pools_of(alloc, values)
}

/// The settings that the table of a TOML document names, whatever other keys it has. `Settings` where it lacks a key,
/// or has another kind or value at it, or the settings are out of their limits; then `Overlap` where two pools have an
/// address in common. `Memory` where a growth was refused.
#[tactic(auto, unfolding(crate::specs::Document::named_in))]
pub fn settings_in(alloc: Global, table: &Table) -> Result<Settings, OpenError>
    ensures { AreRead result (named_in (table_view table.now)) }
{
    let role = role_in(table).ok_or(OpenError::Settings)?;
    let duid = duid_in(table).ok_or(OpenError::Settings)?;
    let skew = skew_in(table).ok_or(OpenError::Settings)?;
    let mclt = seconds_at(table, "mclt").ok_or(OpenError::Settings)?;
    let life = seconds_at(table, "life").ok_or(OpenError::Settings)?;
    let transit = transit_in(table).ok_or(OpenError::Settings)?;
    let pools = pools_in(alloc, table)?;
    Settings::new(role, duid, skew, mclt, life, transit, pools)
}

/// The settings that a TOML document names: `role` (`"primary"` or `"secondary"`), `duid` (lower-case hexadecimal),
/// `skew_ms`, `mclt`, `life`, `transit_ms` (0 where it isn't there), and tables `pool`, each with `prefix` (as people
/// write prefixes) and `unit`; other keys are passed over. `Settings` where the text is no such document, lacks a key,
/// or has another kind or value at it, or the settings are out of their limits; then `Overlap` where two pools have an
/// address in common. `Memory` where a growth was refused.
pub fn read_settings(alloc: Global, text: &[u8]) -> Result<Settings, OpenError>
    ensures found { IfOk result (λ s. (members : Members) × IsDocument text.now members
        × (named_in members ≡ Some s)) }
    ensures settings { IsErrOf result OpenError.Settings → (members : Members) → IsDocument text.now members
        → (s : ServerSettings) → named_in members ≡ Some s → AreWithin s → ⊥ }
    ensures overlap { IsErrOf result OpenError.Overlap → (members : Members) × IsDocument text.now members
        × ((s : ServerSettings) × (named_in members ≡ Some s) × AreWithin s × (AreDisjoint s.pools → ⊥)) }
{
    match toml::table_from_slice(alloc, text) {
        Ok(table) => settings_in(alloc, &table),
        Err(e) if e.is_memory() => Err(OpenError::Memory),
        Err(_) => Err(OpenError::Settings),
    }
}
