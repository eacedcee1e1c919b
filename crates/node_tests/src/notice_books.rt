//! A server's settings and its book, and octets as digits.

use binding_rules::Role;
use lead_time::Reading;
use server_book::{Book, Order, Settings, read_settings};
use std::alloc::Global;
use std::test::Fail;
use text_fields::{is_hex, octets_of};

const PRIMARY: &[u8] = b"role = \"primary\"\n";

const SECONDARY: &[u8] = b"role = \"secondary\"\n";

/// What both servers agree on: a pool of 256 units.
const SHARED: &[u8] =
    b"duid = \"00030001020000000009\"\nskew_ms = 2000\nmclt = 3600\nlife = 3600\n[[pool]]\n\
    prefix = \"2001:db8::/48\"\nunit = 56\n";

/// So many lines leave room for the close line alone: 2^20 - 1.
pub const FULL: usize = 1_048_575;

/// When all but the book's opening happens, in milliseconds.
pub const NOW: u64 = 10_000;

/// The settings of a server of the pair.
pub fn settings_of(alloc: Global, role: Role) -> Result<Settings, Fail> {
    let mut text = Vec::new(alloc);
    text.extend_from_slice(match role {
        Role::Primary => PRIMARY,
        Role::Secondary => SECONDARY,
    })?;
    text.extend_from_slice(SHARED)?;
    Ok(read_settings(alloc, &text)?)
}

/// Its book, opened at 9000: it has two lines.
pub fn opened(alloc: Global, settings: &Settings) -> Result<Book, Fail> {
    Ok(Book::open(alloc, Reading::new(9000)?, settings)?)
}

/// Fills a book with contacts up to so many lines.
pub fn fill(book: &mut Book, now: Reading, lines: usize) -> Result<(), Fail> {
    for _ in book.journal().len()..lines {
        if book.apply(now, &Order::SendContact).is_err() {
            return Err(Fail::from("not sent"));
        }
    }
    Ok(())
}

/// The octets that digits spell.
pub fn octets(alloc: Global, text: &[u8]) -> Result<Vec<u8>, Fail> {
    if !is_hex(text) {
        return Err(Fail::from("no digits"));
    }
    let mut octets = vec![in alloc; 0u8; text.len() / 2]?;
    octets_of(text, &mut octets).ok_or("no digits")?;
    Ok(octets)
}

// Frames of the link, whose messages have the serial that their name says.

/// CONNECT of a primary that took nothing.
pub const CONNECT: &[u8] = b"0000001608000000000000000000000000010000000000000000";

/// CONNECTREPLY of a secondary that took nothing.
pub const CONNECT_REPLY: &[u8] = b"0000001609000000000000000000000000020000000000000000";

/// A lease of the first unit.
pub const UPDATE_1: &[u8] =
    b"0000004601000000000000000000000001013820010db80000000000000000000000000000000000000001000000000000000000000000\
    006e0410000000010a00030001020000000001";

/// The same lease as the same change.
pub const UPDATE_2: &[u8] =
    b"0000004601000000000000000000000002013820010db80000000000000000000000000000000000000001000000000000000000000000\
    006e0410000000010a00030001020000000001";

/// A lease of 2001:db9::/56, which no pool has.
pub const OF_NO_UNIT_1: &[u8] =
    b"0000004601000000000000000000000001013820010db90000000000000000000000000000000000000001000000000000000000000000\
    006e0410000000010a00030001020000000001";

/// The first change of the first unit is rejected.
pub const REJECT_1: &[u8] =
    b"0000003702000000000000000000000001023820010db80000000000000000000000000000000000000001000000000000000000000000\
    00000000";

/// It is accepted.
pub const ACCEPT_1: &[u8] =
    b"0000003702000000000000000000000001013820010db80000000000000000000000000000000000000001000000000000000100000000\
    00000001";
