//! Prefixes and identifiers.

use crate::texts::add_answer;
use client_id::{ClientIdError, Duid, Iaid};
use line_words::{add_iaid, add_prefix, add_word};
use prefix_range::{Prefix, PrefixError, read_canonical, unit, write_text};
use probe_lines::Arguments;
use std::alloc::{AllocError, Global};
use std::fmt::Debug;

/// The name of an error.
pub fn add_error<E: Debug>(alloc: Global, out: &mut Vec<u8>, error: &E) -> Result<(), AllocError> {
    let name = format!(in alloc; "{error:?}")?;
    add_word(out, name.as_bytes())
}

/// An address: the number of these octets.
fn address(octets: &[u8]) -> u128 {
    let mut address = 0u128;
    for octet in octets {
        address = (address << 8) | u128::from(*octet);
    }
    address
}

fn add_made(
    alloc: Global,
    out: &mut Vec<u8>,
    made: &Result<Prefix, PrefixError>,
) -> Result<(), AllocError> {
    match made {
        Err(error) => add_error(alloc, out, error),
        Ok(prefix) => match write_text(alloc, *prefix) {
            Ok(text) => add_word(out, &text),
            Err(error) => add_error(alloc, out, &error),
        },
    }
}

/// `prefix ADDRESS LENGTH`: the address in octets.
pub fn prefix(
    alloc: Global,
    arguments: &mut Arguments<'_>,
    out: &mut Vec<u8>,
) -> Result<(), AllocError> {
    let address = address(&arguments.octets(alloc)?);
    let length = arguments.number_of_8_bits();
    add_made(alloc, out, &Prefix::new(address, length))
}

/// `canonical TEXT`.
pub fn canonical(
    alloc: Global,
    arguments: &mut Arguments<'_>,
    out: &mut Vec<u8>,
) -> Result<(), AllocError> {
    add_made(alloc, out, &read_canonical(arguments.text()))
}

/// `unit POOL LENGTH INDEX`, the index in octets: the unit, and its last address.
pub fn unit_of(
    alloc: Global,
    arguments: &mut Arguments<'_>,
    out: &mut Vec<u8>,
) -> Result<(), AllocError> {
    let pool = arguments.prefix();
    let length = arguments.number_of_8_bits();
    let index = address(&arguments.octets(alloc)?);
    let Some(unit) = unit(&pool, length, index) else {
        return add_word(out, b"none");
    };
    add_prefix(out, &unit)?;
    out.push(b' ')?;
    text_fields::push_octets(out, &unit.last().to_be_bytes())
}

/// `compare PREFIX PREFIX`: whether the first contains the second, the second the first, and whether they overlap.
pub fn compare(arguments: &mut Arguments<'_>, out: &mut Vec<u8>) -> Result<(), AllocError> {
    let one = arguments.prefix();
    let other = arguments.prefix();
    add_answer(out, one.contains(&other))?;
    add_answer(out, other.contains(&one))?;
    add_answer(out, one.overlaps(&other))?;
    add_answer(out, other.overlaps(&one))
}

fn add_duid(
    alloc: Global,
    out: &mut Vec<u8>,
    made: &Result<Duid, ClientIdError>,
) -> Result<(), AllocError> {
    match made {
        Err(error) => add_error(alloc, out, error),
        Ok(duid) => match duid.to_hex(alloc) {
            Ok(text) => add_word(out, text.as_bytes()),
            Err(error) => add_error(alloc, out, &error),
        },
    }
}

/// `duid OCTETS`.
pub fn duid(
    alloc: Global,
    arguments: &mut Arguments<'_>,
    out: &mut Vec<u8>,
) -> Result<(), AllocError> {
    let octets = arguments.octets(alloc)?;
    add_duid(alloc, out, &Duid::from_bytes(&octets))
}

/// `duid-text TEXT`.
pub fn duid_text(
    alloc: Global,
    arguments: &mut Arguments<'_>,
    out: &mut Vec<u8>,
) -> Result<(), AllocError> {
    add_duid(alloc, out, &Duid::from_hex(arguments.text()))
}

/// `iaid-text TEXT`.
pub fn iaid_text(
    alloc: Global,
    arguments: &mut Arguments<'_>,
    out: &mut Vec<u8>,
) -> Result<(), AllocError> {
    match Iaid::from_hex(arguments.text()) {
        Ok(iaid) => add_iaid(out, iaid),
        Err(error) => add_error(alloc, out, &error),
    }
}
