//! One lease that the partner is told of, and what is refused.

use crate::rows::{A, Act, B, ExpectedReply, Row, tell};
use crate::worlds::{FIRST, K1, PRIMARY, SECONDARY, alone, at, opened};
use binding_rules::{Body, Counter, PartnerMessage};
use journal_lines::Event as LineEvent;
use lead_time::Reading;
use pair_world::{Event, World, WorldError};
use server_book::{BookError, Order};
use std::test::Fail;

/// A lease that the partner is told of, twice.
const TOLD: [Row; 4] = [
    (A, Act::Request(K1), ExpectedReply::Granted),
    (A, Act::SendUpdate, ExpectedReply::Sent),
    (B, Act::Deliver(1), ExpectedReply::Accept),
    (B, Act::Deliver(1), ExpectedReply::Drop),
];

#[test]
fn a_message_counts_once(rt: HostRuntime) -> Result<(), Fail> {
    let mut world = opened(rt.alloc(), PRIMARY, SECONDARY)?;
    tell(&rt, &mut world, 10_000, FIRST, &TOLD)?;
    alone(&rt, &world, rt.alloc(), FIRST, K1)
}

/// A server that is stopped, and begins again.
const STOPPED: [Row; 8] = [
    (A, Act::SendContact, ExpectedReply::Sent),
    (B, Act::Restart, ExpectedReply::Refused(WorldError::Running)),
    (B, Act::Stop, ExpectedReply::Done),
    (
        B,
        Act::Deliver(1),
        ExpectedReply::Refused(WorldError::Stopped),
    ),
    (B, Act::Stop, ExpectedReply::Refused(WorldError::Stopped)),
    (B, Act::Restart, ExpectedReply::Done),
    (
        B,
        Act::Renew(K1),
        ExpectedReply::Unbooked(BookError::NotServing),
    ),
    (B, Act::Restart, ExpectedReply::Refused(WorldError::Running)),
];

#[test]
fn a_stopped_server_does_nothing(rt: HostRuntime) -> Result<(), Fail> {
    let mut world = opened(rt.alloc(), PRIMARY, SECONDARY)?;
    tell(&rt, &mut world, 10_000, FIRST, &STOPPED)
}

/// A message is sent and comes.
const CONTACT: [Row; 2] = [
    (A, Act::SendContact, ExpectedReply::Sent),
    (B, Act::Deliver(1), ExpectedReply::Accept),
];

/// A clock is past an end of the skew; time would pass beyond its limit.
const OFF: [Row; 3] = [
    (
        A,
        Act::SendContact,
        ExpectedReply::Refused(WorldError::ClockOff),
    ),
    (
        B,
        Act::Deliver(1),
        ExpectedReply::Refused(WorldError::ClockOff),
    ),
    (
        B,
        Act::Restart,
        ExpectedReply::Refused(WorldError::ClockOff),
    ),
];

#[test]
fn clocks_are_looked_at(rt: HostRuntime) -> Result<(), Fail> {
    let mut world = opened(rt.alloc(), PRIMARY, SECONDARY)?;
    tell(&rt, &mut world, 12_001, FIRST, &OFF)?;
    tell(&rt, &mut world, 7_999, FIRST, &OFF)?;
    tell(&rt, &mut world, 8_000, FIRST, &CONTACT)
}

#[test]
fn clocks_may_be_off_by_the_skew(rt: HostRuntime) -> Result<(), Fail> {
    let mut world = opened(rt.alloc(), PRIMARY, SECONDARY)?;
    tell(&rt, &mut world, 12_000, FIRST, &CONTACT)?;
    let long = world.step(&Event::Pass(281_474_976_710_656));
    assert_eq!(&rt; long, Err(WorldError::ClockOff));
    Ok(())
}

/// What was never sent, and a partner that runs.
const UNSENT: [Row; 4] = [
    (A, Act::SendContact, ExpectedReply::Sent),
    (
        B,
        Act::Deliver(9),
        ExpectedReply::Refused(WorldError::NoMessage),
    ),
    (
        B,
        Act::Deliver(0),
        ExpectedReply::Refused(WorldError::NoMessage),
    ),
    (
        B,
        Act::Down,
        ExpectedReply::Refused(WorldError::PartnerRuns),
    ),
];

#[test]
fn messages_are_looked_at(rt: HostRuntime) -> Result<(), Fail> {
    let mut world = opened(rt.alloc(), PRIMARY, SECONDARY)?;
    tell(&rt, &mut world, 10_000, FIRST, &UNSENT)
}

#[test]
fn only_what_was_sent_is_taken(rt: HostRuntime) -> Result<(), Fail> {
    let mut world = opened(rt.alloc(), PRIMARY, SECONDARY)?;
    let event = Event::Serve {
        side: B,
        clock: at(10_000)?,
        order: Order::Take(PartnerMessage {
            term: 0,
            serial: Counter::ZERO,
            body: Body::Contact {
                ask: Counter::ZERO,
                answer: Counter::ZERO,
            },
        }),
    };
    assert_eq!(&rt; world.step(&event), Err(WorldError::NoMessage));
    Ok(())
}

/// A message is sent and comes, one comes that was never sent, and its server would stop.
fn broken_off(clock: Reading) -> [Event; 4] {
    [
        Event::Serve {
            side: A,
            clock,
            order: Order::SendContact,
        },
        Event::Deliver {
            side: B,
            sent: 1,
            clock,
        },
        Event::Deliver {
            side: B,
            sent: 2,
            clock,
        },
        Event::Stop(B),
    ]
}

/// Returns whether the last that the secondary wrote is a message that it took.
fn has_taken(world: &World) -> bool {
    let (_, secondary) = world.books();
    match secondary.journal().last() {
        Some(line) => matches!(&line.event, LineEvent::Take(_)),
        None => false,
    }
}

#[test]
fn a_run_ends_at_the_first_refusal(rt: HostRuntime) -> Result<(), Fail> {
    let mut world = opened(rt.alloc(), PRIMARY, SECONDARY)?;
    let events = broken_off(at(10_000)?);
    assert_eq!(&rt; world.run(&events), Err(WorldError::NoMessage));
    // the secondary took the one message, and runs on
    assert!(&rt; has_taken(&world));
    assert_eq!(&rt; world.run(&[Event::Stop(B)]), Ok(()));
    Ok(())
}
