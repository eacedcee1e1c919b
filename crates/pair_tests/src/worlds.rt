//! Worlds, and who has what in them.

use binding_rules::Role;
use client_id::{Duid, Iaid};
use lead_time::Reading;
use pair_world::{World, are_alike};
use prefix_range::{Prefix, read_text};
use server_book::{LeaseRequest, read_settings};
use std::alloc::Global;
use std::process::Abort;
use std::test::Fail;

/// A pool of 256 units.
pub const PRIMARY: &[u8] =
    b"role = \"primary\"\nduid = \"00030001020000000009\"\nskew_ms = 2000\nmclt = 3600\nlife = 3600\n[[pool]]\n\
    prefix = \"2001:db8::/48\"\nunit = 56\n";

pub const SECONDARY: &[u8] =
    b"role = \"secondary\"\nduid = \"00030001020000000008\"\nskew_ms = 2000\nmclt = 3600\nlife = 3600\n[[pool]]\n\
    prefix = \"2001:db8::/48\"\nunit = 56\n";

/// A pool of one unit.
pub const ONE_PRIMARY: &[u8] =
    b"role = \"primary\"\nduid = \"00030001020000000009\"\nskew_ms = 2000\nmclt = 3600\nlife = 3600\n[[pool]]\n\
    prefix = \"2001:db8::/56\"\nunit = 56\n";

pub const ONE_SECONDARY: &[u8] =
    b"role = \"secondary\"\nduid = \"00030001020000000008\"\nskew_ms = 2000\nmclt = 3600\nlife = 3600\n[[pool]]\n\
    prefix = \"2001:db8::/56\"\nunit = 56\n";

/// A pool of four units.
pub const FOUR_PRIMARY: &[u8] =
    b"role = \"primary\"\nduid = \"00030001020000000009\"\nskew_ms = 2000\nmclt = 3600\nlife = 3600\n[[pool]]\n\
    prefix = \"2001:db8::/54\"\nunit = 56\n";

pub const FOUR_SECONDARY: &[u8] =
    b"role = \"secondary\"\nduid = \"00030001020000000008\"\nskew_ms = 2000\nmclt = 3600\nlife = 3600\n[[pool]]\n\
    prefix = \"2001:db8::/54\"\nunit = 56\n";

pub const FIRST: &[u8] = b"2001:db8::/56";

pub const LAST: &[u8] = b"2001:db8:0:ff00::/56";

pub const K1: &[u8] = b"00030001020000000001";

pub const K2: &[u8] = b"00030001020000000002";

pub const K3: &[u8] = b"00030001020000000003";

pub fn at(milliseconds: u64) -> Result<Reading, Fail> {
    Ok(Reading::new(milliseconds)?)
}

pub fn prefix(text: &[u8]) -> Result<Prefix, Fail> {
    Ok(read_text(text)?)
}

pub fn client(text: &[u8]) -> Result<Duid, Fail> {
    Ok(Duid::from_hex(text)?)
}

/// The world of two servers of these settings, opened at 10000.
pub fn opened(alloc: Global, first: &[u8], second: &[u8]) -> Result<World, Fail> {
    let first = read_settings(alloc, first)?;
    let second = read_settings(alloc, second)?;
    if !are_alike(&first, &second) {
        return Err(Fail::from("the settings differ"));
    }
    Ok(World::new(alloc, at(10_000)?, &first, &second)?)
}

/// Returns what a client asks under its identity association 1.
pub fn asked(text: &[u8]) -> Result<LeaseRequest, Fail> {
    Ok(LeaseRequest {
        client: client(text)?,
        iaid: Iaid(1),
        hint: None,
    })
}

/// The same, of a prefix.
pub fn asked_of(text: &[u8], prefix: Prefix) -> Result<LeaseRequest, Fail> {
    Ok(LeaseRequest {
        client: client(text)?,
        iaid: Iaid(1),
        hint: Some(prefix),
    })
}

/// Returns whether one client alone has an address of the prefix.
fn is_alone(world: &World, alloc: Global, prefix: &Prefix, text: &[u8]) -> Result<bool, Fail> {
    let holders = world.holders(alloc, prefix)?;
    Ok(holders.len() == 1 && holders.first() == Some(&client(text)?))
}

/// Returns whether at most one client has an address of the prefix: asked again where a growth was refused.
pub fn is_safe(world: &World, alloc: Global, prefix: &Prefix) -> Result<bool, Fail> {
    match world.holders(alloc, prefix) {
        Ok(holders) => Ok(holders.len() <= 1),
        Err(_) => Ok(world.holders(alloc, prefix)?.len() <= 1),
    }
}

/// The unit's counters in the primary's book: its own changes, and the partner's as far as it took them.
fn counters(world: &World, unit: Prefix) -> Option<(u64, u64)> {
    let (primary, _) = world.books();
    match primary.unit(unit) {
        Some(unit) => Some((unit.mine.number(), unit.seen.number())),
        None => None,
    }
}

/// That one client alone has an address of the prefix.
pub fn alone(
    rt: &impl Abort,
    world: &World,
    alloc: Global,
    unit: &[u8],
    client: &[u8],
) -> Result<(), Fail> {
    let is_so = is_alone(world, alloc, &prefix(unit)?, client)?;
    assert!(rt; is_so);
    Ok(())
}

/// That the unit has these counters in the primary's book.
pub fn counted(
    rt: &impl Abort,
    world: &World,
    unit: &[u8],
    mine: u64,
    seen: u64,
) -> Result<(), Fail> {
    let found = counters(world, prefix(unit)?);
    assert_eq!(rt; found, Some((mine, seen)));
    Ok(())
}
