//! Settings as people write them: `settings TEXT`, `more TEXT`, `change OLD => NEW`, `octets DIGITS`.
//!
//! In TEXT, OLD and NEW `\n`, `\r` and `\u{feff}` stand for those characters. `settings` begins a text, `more` goes on
//! with it, `change` asks about the text with the first OLD in it changed, and leaves it as it is.

use crate::fault::Fault;
use crate::replies::add_opening_refusal;
use crate::words::Words;
use binding_rules::Role;
use line_words::{add_duid, add_number, add_word};
use server_book::{Settings, read_settings};
use std::alloc::{AllocError, Global};

/// A text with the characters that its escapes stand for.
fn unescaped(alloc: Global, text: &str) -> Result<String, AllocError> {
    let lines = text.replace(alloc, "\\n", "\n")?;
    let returns = lines.as_str().replace(alloc, "\\r", "\r")?;
    returns.as_str().replace(alloc, "\\u{feff}", "\u{feff}")
}

fn role_name(role: Role) -> &'static [u8] {
    match role {
        Role::Primary => b"primary",
        Role::Secondary => b"secondary",
    }
}

/// That settings are fit: role, identifier, skew, lead time, lifetime, transit, and how many pools.
fn add_fit(out: &mut Vec<u8>, settings: &Settings) -> Result<(), AllocError> {
    add_word(out, b"fit")?;
    add_word(out, role_name(settings.role()))?;
    add_duid(out, settings.duid())?;
    add_number(out, settings.skew().milliseconds())?;
    add_number(out, u64::from(settings.mclt()))?;
    add_number(out, u64::from(settings.life()))?;
    add_number(out, settings.transit().milliseconds())?;
    add_number(out, settings.pools().len() as u64)
}

/// Appends what octets are as settings.
fn add_read(alloc: Global, out: &mut Vec<u8>, octets: &[u8]) -> Result<(), Fault> {
    match &read_settings(alloc, octets) {
        Ok(settings) => Ok(add_fit(out, settings)?),
        Err(error) => Ok(add_opening_refusal(out, error)?),
    }
}

/// `settings TEXT`.
pub fn add_settings(
    alloc: Global,
    settings: &mut String,
    words: &Words<'_>,
    out: &mut Vec<u8>,
) -> Result<(), Fault> {
    *settings = unescaped(alloc, words.rest())?;
    add_read(alloc, out, settings.as_bytes())
}

/// `more TEXT`.
pub fn add_more(
    alloc: Global,
    settings: &mut String,
    words: &Words<'_>,
    out: &mut Vec<u8>,
) -> Result<(), Fault> {
    let more = unescaped(alloc, words.rest())?;
    settings.push_str(more.as_str())?;
    add_read(alloc, out, settings.as_bytes())
}

/// `change OLD => NEW`.
pub fn add_changed(
    alloc: Global,
    settings: &str,
    words: &Words<'_>,
    out: &mut Vec<u8>,
) -> Result<(), Fault> {
    let Some((old, new)) = words.rest().split_once(" =>") else {
        return Err(Fault::Words);
    };
    let old = unescaped(alloc, old)?;
    let new = unescaped(alloc, new.strip_prefix(' ').unwrap_or(new))?;
    if !settings.contains(old.as_str()) {
        return Err(Fault::Words);
    }
    let changed = settings.replacen(alloc, old.as_str(), new.as_str(), 1)?;
    add_read(alloc, out, changed.as_bytes())
}

/// `octets DIGITS`: the octets of these hexadecimal digits as settings.
pub fn add_octets(alloc: Global, words: &mut Words<'_>, out: &mut Vec<u8>) -> Result<(), Fault> {
    let octets = words.octets(alloc)?;
    add_read(alloc, out, &octets)
}
