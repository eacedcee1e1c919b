//! The binding table row by row: what a server makes of each update of each unit.

ghost use Rattle.std.specs.Prelude.{◌≤◌, ◌<◌, ◌^◌};

use crate::unit_words::due;
use binding_rules::{
    Acknowledgement, BindReply, Binding, Counter, Outcome, Role, Status, Unit, UnitStatus, Update,
    take_update,
};
use client_id::{Duid, Iaid};
use lead_time::{End, Reading};
use prefix_range::Prefix;
use probe_lines::Arguments;
use std::alloc::AllocError;

/// The updates, each a column.
const UPDATES: [Status; 6] = [
    Status::Active,
    Status::Expired,
    Status::Released,
    Status::Backup,
    Status::Free,
    Status::Seized,
];

/// What a receiver knows and is told, beside what its unit is.
#[derive(Clone, Copy)]
struct Setting {
    role: Role,
    due: Option<Status>,
    now: Reading,
    /// Of the receiver's changes, those that the update has seen.
    seen: Counter,
    waiting: bool,
    marked: bool,
}

fn count(number: u64) -> Counter {
    Counter::new(number).unwrap_or(Counter::ZERO)
}

fn end(milliseconds: u64) -> End {
    End::new(milliseconds).unwrap_or(End::ZERO)
}

/// `ROLE DUE OWNEND SEEN WAITING MARK`: whether the own end is `running` or `over`, whether the update has `seen` the
/// receiver's last change or not (`unseen`), whether it waits for the partner (`waits` or `-`), `marked` or `plain`.
fn setting_in(arguments: &mut Arguments<'_>) -> Option<Setting> {
    let role = arguments.role();
    let due = due(arguments);
    let now = if arguments.is(b"over", b"running") {
        20_000
    } else {
        19_999
    };
    let seen = if arguments.is(b"seen", b"unseen") {
        4
    } else {
        3
    };
    let waiting = arguments.is(b"waits", b"-");
    let marked = arguments.is(b"marked", b"plain");
    let Ok(now) = Reading::new(now) else {
        return None;
    };
    Some(Setting {
        role,
        due,
        now,
        seen: count(seen),
        waiting,
        marked,
    })
}

/// The receiver's unit: four changes of its own, two of the partner's seen.
fn unit_of(setting: &Setting, status: UnitStatus) -> Unit {
    Unit {
        status,
        mine: count(4),
        seen: count(2),
        own_end: end(20_000),
        out_end: end(30_000),
        acked: end(25_000),
        told: end(15_000),
        due: setting.due,
        pending: None,
        marked: setting.marked,
    }
}

/// The partner's third change.
fn update_of(setting: &Setting, prefix: Prefix, status: Status, binding: &Binding) -> Update {
    let names_a_client = status.has_client();
    Update {
        status,
        prefix,
        mine: count(3),
        seen: setting.seen,
        end: end(if status == Status::Active { 40_000 } else { 0 }),
        iaid: if names_a_client {
            binding.iaid
        } else {
            Iaid(0)
        },
        client: if names_a_client {
            Some(binding.client)
        } else {
            None
        },
    }
}

/// The unit with the answer that it is to send, at these counters.
fn answering(
    unit: Unit,
    prefix: Prefix,
    acknowledgement: Acknowledgement,
    mine: u64,
    seen: u64,
) -> Unit {
    Unit {
        mine: count(mine),
        seen: count(seen),
        pending: Some(BindReply {
            acknowledgement,
            prefix,
            of: count(3),
            mine: count(mine),
            seen: count(seen),
        }),
        ..unit
    }
}

/// Returns what an accepted update made of the unit, by one letter; `?` for anything else.
fn accepted(before: &Unit, after: &Unit, prefix: Prefix, binding: &Binding) -> u8 {
    let active = Unit {
        status: UnitStatus::Active(*binding),
        told: end(40_000),
        due: before.due.filter(|due| *due == Status::Active),
        ..*before
    };
    let moved = Unit {
        status: UnitStatus::FreeBackup,
        ..*before
    };
    let given_up = Unit {
        status: UnitStatus::FreeBackup,
        ..Unit::fresh()
    };
    for (letter, unit) in [
        (b'A', active),
        (b'B', moved),
        (b'F', Unit::fresh()),
        (b'S', given_up),
    ] {
        if *after == answering(unit, prefix, Acknowledgement::Accept, 5, 3) {
            return letter;
        }
    }
    b'?'
}

/// Returns what the server makes of an update, by one letter.
fn letter(setting: &Setting, before: &Unit, update: &Update, binding: &Binding) -> u8 {
    if before.mine.number() >= Counter::MAX {
        return b'?';
    }
    let (outcome, after) = take_update(setting.role, before, setting.now, setting.waiting, update);
    match outcome {
        Outcome::Accept => accepted(before, &after, update.prefix, binding),
        Outcome::Reject
            if after == answering(*before, update.prefix, Acknowledgement::Reject, 4, 2) => b'-',
        _ => b'?',
    }
}

/// Returns what a unit may be, each a row, with this client or another.
fn statuses(binding: &Binding, other: &Binding) -> [UnitStatus; 8] {
    [
        UnitStatus::Active(*binding),
        UnitStatus::Active(*other),
        UnitStatus::Expired(*binding),
        UnitStatus::Expired(*other),
        UnitStatus::Released(*binding),
        UnitStatus::Released(*other),
        UnitStatus::Free,
        UnitStatus::FreeBackup,
    ]
}

/// A client's association 1, by the last octet of its DUID.
fn binding(last: u8) -> Option<Binding> {
    let client = Duid::from_bytes(&[0, 3, 0, 1, 2, 0, 0, 0, 0, last]).ok()?;
    Some(Binding {
        client,
        iaid: Iaid(1),
    })
}

/// `table ROLE DUE OWNEND SEEN WAITING MARK`: a word for each unit, which is active for the update's client, for
/// another one, expired of either, released of either, free or the secondary's; in it a letter for each update, which
/// says active, expired, released, backup, free or seized.
///
/// `-`: rejected, and nothing changes. `A`: active for the update's client. `B`: the secondary's, with the ends that it
/// had. `F`: free, with nothing left. `S`: the secondary's, with nothing left.
pub fn rows(arguments: &mut Arguments<'_>, out: &mut Vec<u8>) -> Result<(), AllocError> {
    let setting = setting_in(arguments);
    let (Some(setting), Some(client), Some(other)) = (setting, binding(1), binding(2)) else {
        return Ok(());
    };
    let Ok(prefix) = Prefix::new(0x2001_0db8 << 96, 56) else {
        return Ok(());
    };
    for status in &statuses(&client, &other) {
        out.push(b' ')?;
        for told in &UPDATES {
            let update = update_of(&setting, prefix, *told, &client);
            out.push(letter(&setting, &unit_of(&setting, *status), &update, &client))?;
        }
    }
    Ok(())
}
