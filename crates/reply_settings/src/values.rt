//! Values of a document: numbers, addresses, names, and lists of these.

ghost use Rattle.std.specs.Prelude.{◌≡◌, None, Some, MatchResult};
ghost use Rattle.toml.specs.Data.{get_member};
ghost use Rattle.toml.specs.View.{view, table_view, items_view};
ghost use Rattle.text_fields.specs.Parsing.{Finds};
ghost use Rattle.reply_settings.specs.Values.{Misses, number_of, number_at, address_word, address_of, addresses_of};
ghost use Rattle.reply_settings.specs.Values.{addresses_at, address_at};
ghost use Rattle.reply_settings.specs.Values.{name_of, names_of, names_at};

use crate::error::ReplyPolicyError;
use prefix_range::read_text;
use router_options::{DomainName, NameError};
use std::alloc::Global;
use toml::{Table, Value};

/// The most addresses or names of a list.
const MOST: usize = 16;

/// Returns the value at a key.
pub(crate) fn value_at<'a>(table: &'a Table, key: &str) -> Option<&'a Value>
    ensures { Finds (λ v. view v.now) result (get_member key.now (table_view table.now)) }
{
    table.get(key)
}

/// The whole number within these limits that a value is.
#[tactic(auto, unfolding(crate::specs::Values::number_of))]
fn number_of(value: &Value, least: u32, most: u32) -> Option<u32>
    ensures { Finds (λ n. n) result (number_of least most (view value.now)) }
{
    let number = u32::try_from(value.as_integer()?).ok()?;
    if least <= number && number <= most {
        Some(number)
    } else {
        None
    }
}

/// The whole number within these limits at a key, or none where the key isn't there; or this fault.
#[tactic(auto, unfolding(crate::specs::Values::number_at))]
pub(crate) fn number_at(
    table: &Table,
    key: &str,
    least: u32,
    most: u32,
    fault: ReplyPolicyError,
) -> Result<Option<u32>, ReplyPolicyError>
    ensures { MatchResult result (λ n. number_at key.now least most (table_view table.now) ≡ Some n)
        (λ e. (e ≡ fault) × (number_at key.now least most (table_view table.now) ≡ None)) }
{
    let Some(value) = value_at(table, key) else {
        return Ok(None);
    };
    match number_of(value, least, most) {
        Some(number) => Ok(Some(number)),
        None => Err(fault),
    }
}

/// The address that a word spells: that of the prefix of all 128 bits.
#[tactic(auto, unfolding(crate::specs::Values::address_word))]
fn address_word(
    alloc: Global,
    word: &str,
    fault: ReplyPolicyError,
) -> Result<u128, ReplyPolicyError>
    ensures { MatchResult result (λ a. address_word word.now ≡ Some a) (λ e. Misses fault e (address_word word.now ≡
        None)) }
{
    let Ok(mut text) = word.as_bytes().to_vec(alloc) else {
        return Err(ReplyPolicyError::Memory);
    };
    if text.extend_from_slice(b"/128").is_err() {
        return Err(ReplyPolicyError::Memory);
    }
    match read_text(&text) {
        Ok(prefix) => Ok(prefix.first()),
        Err(_) => Err(fault),
    }
}

/// The address that a value spells.
#[tactic(auto, unfolding(crate::specs::Values::address_of))]
fn address_of(
    alloc: Global,
    value: &Value,
    fault: ReplyPolicyError,
) -> Result<u128, ReplyPolicyError>
    ensures { MatchResult result (λ a. address_of (view value.now) ≡ Some a)
        (λ e. Misses fault e (address_of (view value.now) ≡ None)) }
{
    match value.as_str() {
        Some(word) => address_word(alloc, word, fault),
        None => Err(fault),
    }
}

/// The address at a key, or none where the key isn't there; or this fault.
#[tactic(auto, unfolding(crate::specs::Values::address_at))]
pub(crate) fn address_at(
    alloc: Global,
    table: &Table,
    key: &str,
    fault: ReplyPolicyError,
) -> Result<Option<u128>, ReplyPolicyError>
    ensures { MatchResult result (λ a. address_at key.now (table_view table.now) ≡ Some a)
        (λ e. Misses fault e (address_at key.now (table_view table.now) ≡ None)) }
{
    let Some(value) = value_at(table, key) else {
        return Ok(None);
    };
    match address_of(alloc, value, fault) {
        Ok(address) => Ok(Some(address)),
        Err(error) => Err(error),
    }
}

fn addresses_of(
    alloc: Global,
    values: &[Value],
    fault: ReplyPolicyError,
) -> Result<Vec<u128>, ReplyPolicyError>
    ensures { MatchResult result (λ v. addresses_of (items_view values.now) ≡ Some v.items)
        (λ e. Misses fault e (addresses_of (items_view values.now) ≡ None)) }
{
    let mut addresses = Vec::new(alloc);
    for value in values {
        let address = match address_of(alloc, value, fault) {
            Ok(address) => address,
            Err(error) => return Err(error),
        };
        if addresses.push(address).is_err() {
            return Err(ReplyPolicyError::Memory);
        }
    }
    Ok(addresses)
}

/// The addresses at a key, none where the key isn't there; or this fault.
#[tactic(auto, unfolding(crate::specs::Values::addresses_at))]
pub(crate) fn addresses_at(
    alloc: Global,
    table: &Table,
    key: &str,
    fault: ReplyPolicyError,
) -> Result<Vec<u128>, ReplyPolicyError>
    ensures { MatchResult result (λ v. addresses_at key.now (table_view table.now) ≡ Some v.items)
        (λ e. Misses fault e (addresses_at key.now (table_view table.now) ≡ None)) }
{
    let Some(value) = value_at(table, key) else {
        return Ok(Vec::new(alloc));
    };
    let Some(values) = value.as_array() else {
        return Err(fault);
    };
    let addresses = match addresses_of(alloc, values, fault) {
        Ok(addresses) => addresses,
        Err(error) => return Err(error),
    };
    if addresses.len() > MOST {
        return Err(fault);
    }
    Ok(addresses)
}

/// The domain name that a value spells.
#[tactic(auto, unfolding(crate::specs::Values::name_of))]
fn name_of(
    alloc: Global,
    value: &Value,
    fault: ReplyPolicyError,
) -> Result<DomainName, ReplyPolicyError>
    ensures { MatchResult result (λ n. name_of (view value.now) ≡ Some n)
        (λ e. Misses fault e (name_of (view value.now) ≡ None)) }
{
    let Some(word) = value.as_str() else {
        return Err(fault);
    };
    match DomainName::of_text(alloc, word.as_bytes()) {
        Ok(name) => Ok(name),
        Err(NameError::Memory) => Err(ReplyPolicyError::Memory),
        Err(_) => Err(fault),
    }
}

fn names_of(
    alloc: Global,
    values: &[Value],
    fault: ReplyPolicyError,
) -> Result<Vec<DomainName>, ReplyPolicyError>
    ensures { MatchResult result (λ v. names_of (items_view values.now) ≡ Some v.items)
        (λ e. Misses fault e (names_of (items_view values.now) ≡ None)) }
{
    let mut names = Vec::new(alloc);
    for value in values {
        let name = match name_of(alloc, value, fault) {
            Ok(name) => name,
            Err(error) => return Err(error),
        };
        if names.push(name).is_err() {
            return Err(ReplyPolicyError::Memory);
        }
    }
    Ok(names)
}

/// The domain names at a key, none where the key isn't there; or this fault.
#[tactic(auto, unfolding(crate::specs::Values::names_at))]
pub(crate) fn names_at(
    alloc: Global,
    table: &Table,
    key: &str,
    fault: ReplyPolicyError,
) -> Result<Vec<DomainName>, ReplyPolicyError>
    ensures { MatchResult result (λ v. names_at key.now (table_view table.now) ≡ Some v.items)
        (λ e. Misses fault e (names_at key.now (table_view table.now) ≡ None)) }
{
    let Some(value) = value_at(table, key) else {
        return Ok(Vec::new(alloc));
    };
    let Some(values) = value.as_array() else {
        return Err(fault);
    };
    let names = match names_of(alloc, values, fault) {
        Ok(names) => names,
        Err(error) => return Err(error),
    };
    if names.len() > MOST {
        return Err(fault);
    }
    Ok(names)
}
