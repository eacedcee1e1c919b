//! The wish that a value at a key has to meet, and the fault of one that doesn't.

ghost use Rattle.std.specs.Prelude.{◌↔◌, IsTrue, MatchOption, length};
ghost use Rattle.toml.specs.View.{view};
ghost use Rattle.settings_diagnostics.specs.KeyRules.{Spells, IsText, IsTextFault, IsNumber, IsNumberFault};
ghost use Rattle.settings_diagnostics.specs.KeyRules.{IsCount, IsCountFault, AreTables, AreTablesFault, Meets, IsFault};

use crate::key::Key;
use server_settings::{duid_of, prefix_of, role_of};
use std::fmt;
use std::fmt::Write;
use std::net::SocketAddr;
use toml::Value;

/// The kinds of texts.
#[derive(Clone, Copy, Debug, PartialEq, Eq)]
pub enum TextFormat {
    /// `primary` or `secondary`.
    RoleName,
    /// A DUID in lower-case hexadecimal digits.
    Identifier,
    /// An address and a port.
    Address,
    /// A prefix as people write prefixes.
    Range,
}

/// A wish on the value at a key.
#[derive(Clone, Copy, Debug, PartialEq, Eq)]
pub enum Expectation {
    /// A text that spells this.
    Text(TextFormat),
    /// A whole number from the least to the most.
    Number { least: u64, most: u64 },
    /// A list of so many entries, from the least to the most.
    Tables { least: usize, most: usize },
}

/// Whether a key has to be there.
#[derive(Clone, Copy, Debug, PartialEq, Eq)]
pub enum Presence {
    Required,
    Optional,
}

/// A key, whether it has to be there, and the wish on its value.
#[derive(Clone, Copy, Debug, PartialEq, Eq)]
pub struct KeyRule {
    pub key: Key,
    pub need: Presence,
    pub wish: Expectation,
}

/// The fault of the value at a key.
#[derive(Clone, Copy, Debug, PartialEq, Eq)]
pub enum ValueFault {
    /// There is none.
    Missing,
    /// It is of another kind.
    Kind,
    /// It is a text that spells nothing of the kind.
    Text,
    /// It is this number, which is out of its limits.
    Outside(i64),
    /// It has so many entries, which are too few or too many.
    Count(usize),
}

/// Returns whether a word spells what is wanted.
fn spells(word: &str, wording: &TextFormat) -> bool
    ensures { IsTrue result ↔ Spells wording.now word.now }
{
    match wording {
        TextFormat::RoleName => role_of(word).is_some(),
        TextFormat::Identifier => duid_of(word).is_some(),
        TextFormat::Address => word.parse::<SocketAddr>().is_ok(),
        TextFormat::Range => prefix_of(word).is_some(),
    }
}

fn text_fault(value: &Value, wording: &TextFormat) -> Option<ValueFault>
    ensures { MatchOption result (IsText wording.now (view value.now)) (IsTextFault wording.now (view value.now)) }
{
    match value.as_str() {
        None => Some(ValueFault::Kind),
        Some(word) if spells(word, wording) => None,
        Some(_) => Some(ValueFault::Text),
    }
}

fn number_fault(value: &Value, least: u64, most: u64) -> Option<ValueFault>
    ensures { MatchOption result (IsNumber least most (view value.now)) (IsNumberFault least most (view value.now)) }
{
    let Some(found) = value.as_integer() else {
        return Some(ValueFault::Kind);
    };
    match u64::try_from(found) {
        Ok(number) if least <= number && number <= most => None,
        _ => Some(ValueFault::Outside(found)),
    }
}

fn count_fault(entries: &[Value], least: usize, most: usize) -> Option<ValueFault>
    ensures { MatchOption result (IsCount least most (length entries.now))
        (IsCountFault least most (length entries.now)) }
{
    let count = entries.len();
    if least <= count && count <= most {
        None
    } else {
        Some(ValueFault::Count(count))
    }
}

fn tables_fault(value: &Value, least: usize, most: usize) -> Option<ValueFault>
    ensures { MatchOption result (AreTables least most (view value.now)) (AreTablesFault least most (view value.now)) }
{
    match value.as_array() {
        Some(entries) => count_fault(entries, least, most),
        None => Some(ValueFault::Kind),
    }
}

/// Returns the fault of a value, by the wish that it has to meet.
pub(crate) fn fault_of(value: &Value, wish: &Expectation) -> Option<ValueFault>
    ensures { MatchOption result (Meets wish.now (view value.now)) (IsFault wish.now (view value.now)) }
{
    match wish {
        Expectation::Text(wording) => text_fault(value, wording),
        Expectation::Number { least, most } => number_fault(value, *least, *most),
        Expectation::Tables { least, most } => tables_fault(value, *least, *most),
    }
}

impl fmt::Display for TextFormat {
    fn fmt<W: Write>(&self, f: &mut fmt::Formatter<W>) -> fmt::Result {
        f.write_str(match self {
            TextFormat::RoleName => "\"primary\" or \"secondary\"",
            TextFormat::Identifier => "3 to 130 octets in lower-case hexadecimal digits",
            TextFormat::Address => "an address and a port, as \"[2001:db8::1]:547\"",
            TextFormat::Range => "a prefix, as \"2001:db8::/48\"",
        })
    }
}

impl fmt::Display for Expectation {
    fn fmt<W: Write>(&self, f: &mut fmt::Formatter<W>) -> fmt::Result {
        match self {
            Expectation::Text(wording) => write!(f, "{wording}"),
            Expectation::Number { least, most } => write!(f, "{least} to {most}"),
            Expectation::Tables { least, most } => write!(f, "{least} to {most} tables"),
        }
    }
}
