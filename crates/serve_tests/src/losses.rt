//! A disk that fails at each call of a run of two servers, and at each call of a roll at each place of it.

use crate::disk::Loss;
use crate::judging::judge;
use crate::pair::{Event, Failing, Pair, Plan};
use binding_rules::Role;
use std::alloc::Global;
use std::test::Fail;

/// What happens. The leases last an hour: in the end some have ended, and go to others.
const STORY: [Event; 14] = [
    Event::Ask(Role::Primary, 1),
    Event::Ask(Role::Secondary, 2),
    Event::Ask(Role::Primary, 3),
    Event::Roll(Role::Primary),
    Event::Ask(Role::Primary, 1),
    Event::Ask(Role::Secondary, 2),
    Event::Roll(Role::Secondary),
    Event::Ask(Role::Secondary, 3),
    Event::Stop(Role::Primary),
    Event::Ask(Role::Primary, 4),
    Event::Pass(10_000),
    Event::Stop(Role::Secondary),
    Event::Ask(Role::Secondary, 5),
    Event::Ask(Role::Primary, 6),
];

/// How many requests there are in it.
const ASKED: usize = 9;

/// Two volumes of each server.
const VOLUMES: usize = 4;

/// More calls than the story takes of a disk.
const MOST_CALLS: usize = 200;

/// No fewer calls are made to a disk: six to begin its first volume, two for the line of each request, whoever hears
/// it, eight to roll once, and five to start again.
const LEAST_CALLS: usize = 6 + 2 * ASKED + 8 + 5;

/// How many calls a roll takes: two to put the last lines of a volume, and six to begin the next one.
const CALLS_OF_A_ROLL: usize = 8;

/// Lets what is left of the story happen, and judges the disks after a last loss: no answer is missing and no volume,
/// but for one by a failure. Says whether any disk failed.
fn live_on(alloc: Global, pair: &mut Pair, rest: &[Event], volumes: usize) -> Result<bool, Fail> {
    pair.live(rest)?;
    pair.end()?;
    let judged = judge(alloc, &pair.primary, &pair.secondary)?;
    let told = pair
        .primary
        .told
        .len()
        .saturating_add(pair.secondary.told.len());
    let losses = pair.losses as usize;
    if told > ASKED || told.saturating_add(losses) < ASKED {
        return Err(Fail::from("other answers than to what was asked"));
    }
    if judged > volumes || judged.saturating_add(losses) < volumes {
        return Err(Fail::from("other volumes than were begun"));
    }
    Ok(losses > 0)
}

/// Lets the story happen over disks of which so many calls are answered, and says whether any failed.
fn fail_at(alloc: Global, failing: Failing, calls: usize, loss: Loss) -> Result<bool, Fail> {
    let plan = Plan {
        failing,
        calls,
        calls_again: calls.wrapping_mul(7) % 23,
        loss: loss.other(calls as u64),
    };
    let mut pair = Pair::new(alloc, plan)?;
    live_on(alloc, &mut pair, &STORY, VOLUMES)
}

/// Lets the story happen with a failure at each call in turn, until none fails any more. Returns how many calls there
/// are.
fn fail_at_each(alloc: Global, failing: Failing) -> Result<usize, Fail> {
    for calls in 0..MOST_CALLS {
        if !fail_at(alloc, failing, calls, Loss::Process)? {
            return Ok(calls);
        }
        fail_at(alloc, failing, calls, Loss::Power(0))?;
    }
    Err(Fail::from("it fails all the time"))
}

/// Lets the story happen up to a place, rolls both servers' volumes over a disk of which so many calls are answered,
/// and lets it go on. Says whether the disk failed.
fn roll_within(alloc: Global, pair: &mut Pair, place: usize, calls: usize) -> Result<bool, Fail> {
    let (before, behind) = STORY.split_at(place.min(STORY.len()));
    pair.live(before)?;
    pair.roll(calls)?;
    live_on(alloc, pair, behind, VOLUMES.saturating_add(2))
}

/// The same with a pair of its own.
fn roll_at(alloc: Global, place: usize, calls: usize) -> Result<bool, Fail> {
    let plan = Plan {
        failing: if place % 2 == 0 {
            Failing::Primary
        } else {
            Failing::Secondary
        },
        calls: usize::MAX,
        calls_again: usize::MAX,
        loss: Loss::Power(place as u64),
    };
    let mut pair = Pair::new(alloc, plan)?;
    roll_within(alloc, &mut pair, place, calls)
}

#[test]
fn the_primarys_disk_fails(rt: HostRuntime) -> Result<(), Fail> {
    let calls = fail_at_each(rt.alloc(), Failing::Primary)?;
    assert!(rt; calls >= LEAST_CALLS);
    Ok(())
}

#[test]
fn the_secondarys_disk_fails(rt: HostRuntime) -> Result<(), Fail> {
    let calls = fail_at_each(rt.alloc(), Failing::Secondary)?;
    assert!(rt; calls >= LEAST_CALLS);
    Ok(())
}

#[test]
fn both_lose_power(rt: HostRuntime) -> Result<(), Fail> {
    let calls = fail_at_each(rt.alloc(), Failing::Both)?;
    assert!(rt; calls >= LEAST_CALLS);
    Ok(())
}

#[test]
fn a_roll_fails_at_each_place(rt: HostRuntime) -> Result<(), Fail> {
    for place in 0..STORY.len() {
        for calls in 0..CALLS_OF_A_ROLL {
            assert!(rt; roll_at(rt.alloc(), place, calls)?);
        }
        roll_at(rt.alloc(), place, usize::MAX)?;
    }
    Ok(())
}
