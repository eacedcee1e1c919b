//! What a running server owes by now.

use lead_time::Reading;
use prefix_range::Prefix;
use server_timers::{DueActions, Growth, OperatorRequest, RollBlocked, RollState, Room, Timers};
use std::alloc::{AllocError, Global};
use std::process::Abort;
use std::test::Fail;

/// An hour, in milliseconds.
const HOUR: u64 = 3_600_000;

/// Where settings say nothing (a heartbeat of 60 s, 200,000 lines, 24 hours), for a volume that was opened at 0 with
/// three head lines: how many lines it has, when its last one was written, what the clock reads, and what is owed.
const TIMES: [(usize, u64, u64, &str); 13] = [
    (3, 0, 59_999, "nothing"),
    (3, 0, 60_000, "a contact"),
    (4, 30_000, 60_000, "nothing"),
    (4, 30_000, 90_000, "a contact"),
    // A clock that fell behind the last line.
    (4, 90_000, 60_000, "nothing"),
    (200_002, 12 * HOUR, 12 * HOUR, "nothing"),
    (200_003, 12 * HOUR, 12 * HOUR, "a roll"),
    (4, 24 * HOUR - 1, 24 * HOUR - 1, "nothing"),
    (4, 24 * HOUR - 1, 24 * HOUR, "a roll"),
    (4, 23 * HOUR, 24 * HOUR, "a contact, a roll"),
    // 1,048,575 lines are full. Half of them in the first hour leave an hour; a line less, a little more.
    (524_289, HOUR, HOUR, "a roll, full within an hour"),
    (524_288, HOUR, HOUR, "a roll"),
    (1_048_575, HOUR, HOUR, "a roll, full"),
];

/// What is owed where a roll is due, and something may forbid it.
const BARS: [(bool, bool, &str); 4] = [
    (false, false, "a roll"),
    (true, false, "a roll, but the partner is taken for down"),
    (false, true, "a roll, but a seized unit isn't acknowledged"),
    (true, true, "a roll, but the partner is taken for down"),
];

fn roll_said(roll: RollState) -> &'static str {
    match roll {
        RollState::NotDue => "",
        RollState::Due => ", a roll",
        RollState::Blocked(RollBlocked::PartnerDown) =>
            ", a roll, but the partner is taken for down",
        RollState::Blocked(RollBlocked::UnitMarked) =>
            ", a roll, but a seized unit isn't acknowledged",
    }
}

fn room_said(room: Room) -> &'static str {
    match room {
        Room::Enough => "",
        Room::FullWithinHour => ", full within an hour",
        Room::Full => ", full",
    }
}

/// What is owed, in words.
fn said(alloc: Global, owed: &DueActions) -> Result<String, AllocError> {
    let contact = if owed.contact { ", a contact" } else { "" };
    let words = format!(in alloc;
        "{}{}{}",
        contact,
        roll_said(owed.roll),
        room_said(owed.room)
    )?;
    match words.as_str().strip_prefix(", ") {
        Some(words) => format!(in alloc; "{words}"),
        None => format!(in alloc; "nothing"),
    }
}

#[test]
fn owes_by_lines_and_times(rt: HostRuntime) -> Result<(), Fail> {
    for (lines, written, now, words) in TIMES {
        let growth = Growth {
            lines,
            head_lines: 3,
            opened: Reading::new(0)?,
            spoken: Reading::new(written)?,
        };
        let owed = Timers::DEFAULT.due_actions(
            &growth,
            Reading::new(now)?,
            None,
            OperatorRequest::Nothing,
        );
        assert_eq!(rt; said(rt.alloc(), &owed)?.as_str(), words);
    }
    Ok(())
}

#[test]
fn rolls_where_the_rules_let(rt: HostRuntime) -> Result<(), Fail> {
    let begun = Reading::new(1000)?;
    let growth = Growth {
        lines: 3,
        head_lines: 3,
        opened: begun,
        spoken: begun,
    };
    for (is_down, is_marked, words) in BARS {
        let down = if is_down { Some(begun) } else { None };
        let mark = if is_marked {
            Some(Prefix::new(0, 56)?)
        } else {
            None
        };
        let owed = Timers::DEFAULT.due_actions(
            &growth,
            begun,
            RollBlocked::of(down, mark),
            OperatorRequest::Roll,
        );
        assert_eq!(rt; said(rt.alloc(), &owed)?.as_str(), words);
    }
    Ok(())
}
