//! The story of the last unit: moved, granted, given back and told of; and with a stop put in anywhere.

use crate::rows::{A, Act, B, ExpectedReply, Row, event_of, tell};
use crate::worlds::{K1, LAST, PRIMARY, SECONDARY, alone, at, counted, is_safe, opened, prefix};
use binding_rules::{Role, UnitStatus};
use pair_world::{Event, World, WorldError};
use prefix_range::Prefix;
use std::alloc::Global;
use std::process::Abort;
use std::test::Fail;

/// The unit goes to the secondary, which answers.
pub const MOVED: [Row; 5] = [
    (A, Act::Backup, ExpectedReply::Done),
    (A, Act::SendUpdate, ExpectedReply::Sent),
    (B, Act::Deliver(1), ExpectedReply::Accept),
    (B, Act::SendReply, ExpectedReply::Sent),
    (A, Act::Deliver(1), ExpectedReply::Accept),
];

/// The secondary grants it, and tells.
const DELEGATED: [Row; 5] = [
    (B, Act::Request(K1), ExpectedReply::Granted),
    (B, Act::SendUpdate, ExpectedReply::Sent),
    (A, Act::Deliver(2), ExpectedReply::Accept),
    (A, Act::SendReply, ExpectedReply::Sent),
    (B, Act::Deliver(2), ExpectedReply::Accept),
];

/// The client gives it back, and the move comes again.
const GIVEN_BACK: [Row; 6] = [
    (B, Act::Release(K1), ExpectedReply::Released),
    (B, Act::SendUpdate, ExpectedReply::Sent),
    (A, Act::Deliver(3), ExpectedReply::Accept),
    (A, Act::SendReply, ExpectedReply::Sent),
    (B, Act::Deliver(3), ExpectedReply::Accept),
    (B, Act::Deliver(1), ExpectedReply::Drop),
];

/// Returns whether the unit is the primary's to give, in the secondary's book.
fn is_free(world: &World, unit: Prefix) -> bool {
    let (_, secondary) = world.books();
    match secondary.unit(unit) {
        Some(unit) => matches!(&unit.status, UnitStatus::Free),
        None => false,
    }
}

/// That the unit goes to the secondary, and to its client.
fn goes(rt: &impl Abort, world: &mut World) -> Result<(), Fail> {
    tell(rt, world, 10_000, LAST, &MOVED)?;
    counted(rt, world, LAST, 1, 1)?;
    tell(rt, world, 10_000, LAST, &DELEGATED)?;
    counted(rt, world, LAST, 2, 2)
}

/// That nobody has the unit, which is the primary's to give.
fn is_back(rt: &impl Abort, world: &World, alloc: Global) -> Result<(), Fail> {
    let last = prefix(LAST)?;
    let holders = world.holders(alloc, &last)?.len();
    assert_eq!(rt; holders, 0);
    assert!(rt; is_free(world, last));
    Ok(())
}

#[test]
fn the_last_unit_comes_back(rt: HostRuntime) -> Result<(), Fail> {
    let mut world = opened(rt.alloc(), PRIMARY, SECONDARY)?;
    goes(&rt, &mut world)?;
    alone(&rt, &world, rt.alloc(), LAST, K1)?;
    tell(&rt, &mut world, 10_000, LAST, &GIVEN_BACK)?;
    counted(&rt, &world, LAST, 3, 3)?;
    is_back(&rt, &world, rt.alloc())
}

/// How many events the story has.
const EVENTS: usize = 16;

/// The story's event at a place.
fn event_at(place: usize, unit: Prefix) -> Result<Event, Fail> {
    let clock = at(10_000)?;
    if place < 5 {
        return event_of(&MOVED[place], clock, unit);
    }
    if place < 10 {
        return event_of(&DELEGATED[place - 5], clock, unit);
    }
    match GIVEN_BACK.get(place - 10) {
        Some(row) => event_of(row, clock, unit),
        None => Err(Fail::from("the story is over")),
    }
}

/// Returns whether an event is done, or refused as one is that a stop makes too late; and no two clients have the unit.
fn goes_on(world: &mut World, alloc: Global, unit: &Prefix, event: &Event) -> Result<bool, Fail> {
    match world.step(event) {
        Ok(_) => {}
        Err(WorldError::Stopped) => {}
        Err(WorldError::NoMessage) => {}
        Err(WorldError::Book(_)) => {}
        Err(_) => return Ok(false),
    }
    is_safe(world, alloc, unit)
}

/// A stop of a server behind the event at one place, and its restart behind the one at another.
#[derive(Clone, Copy)]
struct Stop {
    side: Role,
    from: usize,
    to: usize,
}

/// Returns whether all goes on by the story's event at a place.
fn tells(world: &mut World, alloc: Global, unit: Prefix, place: usize) -> Result<bool, Fail> {
    match event_at(place, unit) {
        Ok(event) => goes_on(world, alloc, &unit, &event),
        Err(fail) => Err(fail),
    }
}

/// Returns whether all goes on as a server stops.
fn ends(world: &mut World, alloc: Global, unit: Prefix, side: Role) -> Result<bool, Fail> {
    let event = Event::Stop(side);
    goes_on(world, alloc, &unit, &event)
}

/// Returns whether all goes on as a server begins again.
fn begins(world: &mut World, alloc: Global, unit: Prefix, side: Role) -> Result<bool, Fail> {
    let clock = at(10_000)?;
    let event = Event::Restart { side, clock };
    goes_on(world, alloc, &unit, &event)
}

/// Returns whether the whole story goes on with this stop put in.
fn survives(alloc: Global, unit: Prefix, stop: Stop) -> Result<bool, Fail> {
    let mut world = opened(alloc, PRIMARY, SECONDARY)?;
    for place in 0..EVENTS {
        if !tells(&mut world, alloc, unit, place)? {
            return Ok(false);
        }
        if place == stop.from && !ends(&mut world, alloc, unit, stop.side)? {
            return Ok(false);
        }
        if place == stop.to && !begins(&mut world, alloc, unit, stop.side)? {
            return Ok(false);
        }
    }
    Ok(true)
}

/// The first stop of this server that the story doesn't survive.
fn first_deadly(alloc: Global, side: Role) -> Result<Option<(usize, usize)>, Fail> {
    let unit = prefix(LAST)?;
    for from in 0..EVENTS {
        for to in from..EVENTS {
            if !survives(alloc, unit, Stop { side, from, to })? {
                return Ok(Some((from, to)));
            }
        }
    }
    Ok(None)
}

#[test]
fn the_primary_may_stop_anywhere(rt: HostRuntime) -> Result<(), Fail> {
    assert_eq!(&rt; first_deadly(rt.alloc(), Role::Primary)?, None);
    Ok(())
}

#[test]
fn the_secondary_may_stop_anywhere(rt: HostRuntime) -> Result<(), Fail> {
    assert_eq!(&rt; first_deadly(rt.alloc(), Role::Secondary)?, None);
    Ok(())
}
