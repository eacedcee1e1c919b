//! A server that goes on alone, and the way back: the table of the requests, row by row.

use crate::rows::{A, Act, B, ExpectedReply, Row, tell};
use crate::story::MOVED;
use crate::worlds::{FIRST, K1, K2, K3, ONE_PRIMARY, ONE_SECONDARY, alone, counted, opened};
use book_rules::Rule;
use journal_lines::Event as LineEvent;
use pair_world::{World, WorldError};
use server_book::BookError;
use std::alloc::Global;
use std::process::Abort;
use std::test::Fail;

/// The secondary grants the one unit, and stops; the primary goes on alone.
const ALONE: [Row; 5] = [
    (B, Act::Request(K1), ExpectedReply::Granted),
    (
        A,
        Act::Down,
        ExpectedReply::Refused(WorldError::PartnerRuns),
    ),
    (B, Act::Stop, ExpectedReply::Done),
    (A, Act::Down, ExpectedReply::Done),
    (A, Act::Pass(3_603_999), ExpectedReply::Done),
];

/// The primary seizes the unit a millisecond early.
const EARLY: [Row; 2] = [
    (
        A,
        Act::Seize,
        ExpectedReply::Unbooked(BookError::Rule {
            line: 7,
            rule: Rule::Seize,
        }),
    ),
    (A, Act::Pass(1), ExpectedReply::Done),
];

/// The primary takes the unit over, and grants it.
const SEIZED: [Row; 2] = [
    (A, Act::Seize, ExpectedReply::Done),
    (A, Act::Request(K2), ExpectedReply::Granted),
];

/// The partner begins again, waits, and hears of the new term. It tells of the unit in vain.
const HEARD: [Row; 7] = [
    (B, Act::Restart, ExpectedReply::Done),
    (
        B,
        Act::Renew(K1),
        ExpectedReply::Unbooked(BookError::NotServing),
    ),
    (A, Act::Normal, ExpectedReply::Done),
    (A, Act::SendContact, ExpectedReply::Sent),
    (B, Act::Deliver(2), ExpectedReply::Accept),
    (B, Act::SendUpdate, ExpectedReply::Sent),
    (A, Act::Deliver(2), ExpectedReply::Reject),
];

/// The mark goes by the partner's reply.
const UNMARKED: [Row; 4] = [
    (A, Act::SendUpdate, ExpectedReply::Sent),
    (B, Act::Deliver(3), ExpectedReply::Accept),
    (B, Act::SendReply, ExpectedReply::Sent),
    (A, Act::Deliver(3), ExpectedReply::Accept),
];

/// Only now is the partner answered, and serves again.
const ANSWERED: [Row; 5] = [
    (B, Act::SendContact, ExpectedReply::Sent),
    (A, Act::Deliver(4), ExpectedReply::Accept),
    (A, Act::SendContact, ExpectedReply::Sent),
    (B, Act::Deliver(4), ExpectedReply::Accept),
    (
        B,
        Act::Request(K3),
        ExpectedReply::Unbooked(BookError::NoPrefix),
    ),
];

/// The term of what the secondary sent last.
fn last_term(world: &World) -> Option<u32> {
    let (_, secondary) = world.books();
    let line = secondary.journal().last()?;
    match &line.event {
        LineEvent::Send(message) => Some(message.term),
        _ => None,
    }
}

/// The world in which the primary took the unit over and granted it.
fn taken_over(rt: &impl Abort, alloc: Global) -> Result<World, Fail> {
    let mut world = opened(alloc, ONE_PRIMARY, ONE_SECONDARY)?;
    tell(rt, &mut world, 10_000, FIRST, &MOVED)?;
    tell(rt, &mut world, 10_000, FIRST, &ALONE)?;
    tell(rt, &mut world, 3_613_999, FIRST, &EARLY)?;
    tell(rt, &mut world, 3_614_000, FIRST, &SEIZED)?;
    Ok(world)
}

#[test]
fn the_next_client_has_it_alone(rt: HostRuntime) -> Result<(), Fail> {
    let world = taken_over(&rt, rt.alloc())?;
    alone(&rt, &world, rt.alloc(), FIRST, K2)
}

/// That the partner hears of the new term: what it sends then says so.
fn hears(rt: &impl Abort, world: &mut World) -> Result<(), Fail> {
    tell(rt, world, 3_614_000, FIRST, &HEARD)?;
    assert_eq!(rt; last_term(world), Some(1));
    Ok(())
}

#[test]
fn the_mark_goes_before_the_partner_serves(rt: HostRuntime) -> Result<(), Fail> {
    let mut world = taken_over(&rt, rt.alloc())?;
    hears(&rt, &mut world)?;
    tell(&rt, &mut world, 3_614_000, FIRST, &UNMARKED)?;
    counted(&rt, &world, FIRST, 4, 3)?;
    tell(&rt, &mut world, 3_614_000, FIRST, &ANSWERED)?;
    alone(&rt, &world, rt.alloc(), FIRST, K2)
}
