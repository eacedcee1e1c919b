//! Walks of worlds by chance: what is wrong behind a step, and what the auditor says of the journals.

use crate::chance::Chance;
use crate::dice::Dice;
use crate::worlds::{FOUR_PRIMARY, FOUR_SECONDARY, is_safe, opened, prefix};
use auditor::{Checked, check_pair};
use binding_rules::Role;
use journal_lines::{Journal, LineList};
use lead_time::Reading;
use pair_world::{Event, World, WorldError};
use prefix_range::unit;
use server_book::{Book, Order, Reply};
use std::alloc::Global;
use std::test::Fail;

/// What was done on a walk.
#[derive(Clone, Copy, Debug, PartialEq, Eq)]
pub struct Tally {
    pub done: u64,
    pub granted: u64,
    pub restarted: u64,
    pub seized: u64,
}

impl Tally {
    pub const NONE: Tally = Tally {
        done: 0,
        granted: 0,
        restarted: 0,
        seized: 0,
    };
}

/// Counts what an event was answered.
fn count(tally: &mut Tally, event: &Event, reply: &Reply) {
    tally.done = tally.done.saturating_add(1);
    match (event, reply) {
        (_, Reply::Granted { .. }) => tally.granted = tally.granted.saturating_add(1),
        (Event::Restart { .. }, _) => tally.restarted = tally.restarted.saturating_add(1),
        (
            Event::Serve {
                order: Order::Seize(_),
                ..
            },
            _,
        ) => tally.seized = tally.seized.saturating_add(1),
        _ => {}
    }
}

/// Notes what the generator has to know of an event that was done.
fn note(chance: &mut Chance, event: &Event, reply: &Reply) {
    match (event, reply) {
        (Event::Pass(milliseconds), _) => {
            chance.moment = chance.moment.saturating_add(*milliseconds);
        }
        (
            Event::Serve {
                side: Role::Primary,
                ..
            },
            Reply::Sent { .. },
        ) => chance.sent_a = chance.sent_a.saturating_add(1),
        (
            Event::Serve {
                side: Role::Secondary,
                ..
            },
            Reply::Sent { .. },
        ) => chance.sent_b = chance.sent_b.saturating_add(1),
        _ => {}
    }
}

/// Returns whether no unit of the pool is held by two clients.
fn is_all_safe(world: &World, alloc: Global, chance: &Chance) -> Result<bool, Fail> {
    for index in 0..4u8 {
        let Some(unit) = unit(&chance.pool, 56, u128::from(index)) else {
            return Ok(false);
        };
        if !is_safe(world, alloc, &unit)? {
            return Ok(false);
        }
    }
    Ok(true)
}

/// Returns what a world makes of an event: asked again where a growth was refused, which leaves the world as it was.
fn answer(world: &mut World, event: &Event) -> Result<Reply, WorldError> {
    match world.step(event) {
        Err(WorldError::Memory) => world.step(event),
        answer => answer,
    }
}

/// Lets an event happen, and looks at who has what where it was done.
fn happens(
    world: &mut World,
    alloc: Global,
    chance: &mut Chance,
    tally: &mut Tally,
    event: &Event,
) -> Result<bool, Fail> {
    match answer(world, event) {
        Ok(reply) => {
            note(chance, event, &reply);
            count(tally, event, &reply);
            is_all_safe(world, alloc, chance)
        }
        Err(_) => Ok(true),
    }
}

/// Lets the next event happen.
fn walk_on(
    world: &mut World,
    alloc: Global,
    chance: &mut Chance,
    tally: &mut Tally,
) -> Result<bool, Fail> {
    match chance.event() {
        Ok(event) => happens(world, alloc, chance, tally, &event),
        Err(fail) => Err(fail),
    }
}

/// A book's journal, closed.
fn closed(alloc: Global, book: &Book, role: Role, now: Reading) -> Result<Journal, Fail> {
    let mut copy = book.copy()?;
    copy.apply(now, &Order::Close)?;
    let mut lines = Vec::new(alloc);
    lines.extend_from_slice(copy.journal())?;
    Ok(Journal {
        role,
        head: copy.head(),
        lines: LineList::new(lines),
    })
}

/// Returns whether both journals keep the rules, and could both be true.
fn is_legal(world: &World, alloc: Global, moment: u64) -> Result<bool, Fail> {
    let now = Reading::new(moment)?;
    let (primary, secondary) = world.books();
    let a = closed(alloc, primary, Role::Primary, now)?;
    let b = closed(alloc, secondary, Role::Secondary, now)?;
    Ok(matches!(&check_pair(alloc, &a, &b)?, Checked::Legal(_)))
}

/// Walks so many events from a seed. True where no two clients ever had a unit, and the journals are legal.
pub fn walk(alloc: Global, seed: u64, events: u64, tally: &mut Tally) -> Result<bool, Fail> {
    let mut world = opened(alloc, FOUR_PRIMARY, FOUR_SECONDARY)?;
    let mut chance = Chance {
        dice: Dice::new(seed),
        pool: prefix(b"2001:db8::/54")?,
        moment: 10_000,
        sent_a: 0,
        sent_b: 0,
    };
    for _ in 0..events {
        if !walk_on(&mut world, alloc, &mut chance, tally)? {
            return Ok(false);
        }
    }
    is_legal(&world, alloc, chance.moment)
}

/// The first seed of so many whose walk goes wrong.
pub fn first_wrong_seed(
    alloc: Global,
    seeds: u64,
    events: u64,
    tally: &mut Tally,
) -> Result<Option<u64>, Fail> {
    for seed in 0..seeds {
        if !walk(alloc, seed, events, tally)? {
            return Ok(Some(seed));
        }
    }
    Ok(None)
}
