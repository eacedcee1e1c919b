//! What the desk makes of the journals of a pair.

use crate::pair_servers::Server;
use crate::pairs::Pair;
use attribution::Verdict;
use auditor::{PlainSource, audit_bytes};
use binding_rules::Role;
use causal_order::Certificate;
use client_id::Duid;
use evidence_search::{FindError, find_certificate};
use journal_text::{read, write, written_is_closed};
use lead_time::{Reading, Skew, Transit};
use prefix_range::read_text;
use server_book::Order;
use std::alloc::Global;
use std::process::Abort;
use std::test::Fail;

/// The skew of the pair's settings.
const SKEW: u64 = 2000;

/// Who holds the unit.
const CLIENT: &[u8] = b"00030001020000000001";

/// From when to when the client surely held the first unit, by a lease of one side and then by one of the other, and a
/// moment up to which it didn't.
#[derive(Clone, Copy)]
pub(crate) struct Held {
    pub first: Role,
    pub from: u64,
    pub to: u64,
    pub past: u64,
}

/// The text of a server's book, closed at a moment.
fn closed(alloc: Global, server: &mut Server, now: Reading) -> Result<Vec<u8>, Fail> {
    if !server.order(now, &Order::Close) {
        return Err(Fail::from("not closed"));
    }
    let book = &server.own.book;
    Ok(write(alloc, book.role(), book.head(), book.journal())?)
}

/// Returns what a search of two journals finds for the client from one moment up to another.
fn found(
    alloc: Global,
    primary: &[u8],
    secondary: &[u8],
    from: u64,
    to: u64,
) -> Result<Result<Certificate, FindError>, Fail> {
    written_is_closed();
    let primary = read(alloc, primary)?;
    let secondary = read(alloc, secondary)?;
    let source = PlainSource::new(&primary, &secondary);
    Ok(find_certificate(
        alloc,
        &source,
        Duid::from_hex(CLIENT)?,
        read_text(b"2001:db8::/56")?,
        Reading::new(from)?,
        Reading::new(to)?,
        Skew::new(SKEW)?,
        Transit::ZERO,
    ))
}

/// That a certificate is of a lease of each side, in this order.
fn check_sides(rt: &impl Abort, certificate: &Certificate, first: Role) {
    let mut sides = certificate
        .pieces
        .as_slice()
        .iter()
        .map(|piece| piece.grant.side);
    assert!(rt; sides.next() == Some(first));
    assert!(rt; sides.next() == Some(first.partner()));
    assert!(rt; sides.next() == None);
}

/// That the journals of a pair, closed at a moment, show who held the unit, and no longer than that.
pub(crate) fn check_shown(
    rt: &impl Abort,
    alloc: Global,
    pair: &mut Pair,
    now: Reading,
    held: &Held,
) -> Result<(), Fail> {
    let a = closed(alloc, &mut pair.primary, now)?;
    let b = closed(alloc, &mut pair.secondary, now)?;
    let Ok(certificate) = found(alloc, &a, &b, held.from, held.to)? else {
        return Err(Fail::from("not found"));
    };
    check_sides(rt, &certificate, held.first);
    let claim = certificate::write(alloc, &certificate)?;
    let verdict = audit_bytes(alloc, &a, &b, &claim, Skew::new(SKEW)?, Transit::ZERO)?;
    assert!(rt; verdict == Verdict::Accepted);
    assert!(rt; found(alloc, &a, &b, held.from, held.past)?.is_err());
    Ok(())
}
