//! What a server makes of its partner's messages, and what it may give.

ghost use Rattle.std.specs.Prelude.{◌≤◌, ◌<◌, ◌^◌};

use crate::texts::add_answer;
use crate::unit_words;
use crate::unit_words::{add_role, add_unit};
use binding_rules::{Counter, Outcome, grantable, renewable, take_reply, take_update};
use line_words::add_word;
use probe_lines::Arguments;
use std::alloc::AllocError;

/// `update ROLE NOW WAITING UNIT UPDATE`, WAITING being `waits` or `-`: what the server answers, and its unit then.
pub fn update(arguments: &mut Arguments<'_>, out: &mut Vec<u8>) -> Result<(), AllocError> {
    let role = arguments.role();
    let now = arguments.reading();
    let waiting = arguments.is(b"waits", b"-");
    let unit = unit_words::unit(arguments);
    let update = unit_words::update(arguments);
    if unit.mine.number() >= Counter::MAX {
        return add_word(out, b"no counter above");
    }
    let (outcome, after) = take_update(role, &unit, now, waiting, &update);
    add_word(
        out,
        match outcome {
            Outcome::Accept => b"accepts",
            Outcome::Reject => b"rejects",
            Outcome::Drop => b"drops",
        },
    )?;
    add_unit(out, &after)
}

/// `reply UNIT REPLY`: the unit then, or that the reply is dropped.
pub fn reply(arguments: &mut Arguments<'_>, out: &mut Vec<u8>) -> Result<(), AllocError> {
    let unit = unit_words::unit(arguments);
    let Some(reply) = unit_words::reply(arguments) else {
        arguments.note(false);
        return Ok(());
    };
    if unit.mine.number() >= Counter::MAX {
        return add_word(out, b"no counter above");
    }
    match take_reply(&unit, &reply) {
        Some(after) => add_unit(out, &after),
        None => add_word(out, b"dropped"),
    }
}

/// `partner ROLE`.
pub fn other_server(arguments: &mut Arguments<'_>, out: &mut Vec<u8>) -> Result<(), AllocError> {
    add_role(out, arguments.role().partner())
}

/// `grantable ROLE UNIT`.
pub fn may_grant(arguments: &mut Arguments<'_>, out: &mut Vec<u8>) -> Result<(), AllocError> {
    let role = arguments.role();
    let unit = unit_words::unit(arguments);
    add_answer(out, grantable(role, &unit))
}

/// `renewable DUID IAID UNIT`.
pub fn may_renew(arguments: &mut Arguments<'_>, out: &mut Vec<u8>) -> Result<(), AllocError> {
    let client = arguments.duid();
    let iaid = arguments.iaid();
    let unit = unit_words::unit(arguments);
    match client {
        Some(client) => add_answer(out, renewable(&unit, &client, iaid)),
        None => Ok(()),
    }
}
