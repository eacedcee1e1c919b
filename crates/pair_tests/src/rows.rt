//! Events in tables, with the answers that they must get.

use crate::worlds::{asked, asked_of, at, prefix};
use binding_rules::{Outcome, Role, ServerState};
use lead_time::Reading;
use pair_world::{Event, World, WorldError};
use prefix_range::Prefix;
use server_book::{BookError, Order, Reply};
use std::process::Abort;
use std::test::Fail;

/// What happens: mostly at a server, and to the unit of the table.
#[derive(Clone, Copy)]
pub enum Act {
    /// What a client asks under its identity association 1.
    Request(&'static [u8]),
    Renew(&'static [u8]),
    Release(&'static [u8]),
    Backup,
    Seize,
    SendUpdate,
    SendReply,
    SendContact,
    Normal,
    Down,
    /// The partner's message of this number comes.
    Deliver(u64),
    Stop,
    Restart,
    /// So many milliseconds pass, whatever the server.
    Pass(u64),
}

/// What must be answered.
#[derive(Clone, Copy)]
pub enum ExpectedReply {
    Done,
    /// A message is to go to the partner, whatever it says.
    Sent,
    /// The client has the unit for an hour.
    Granted,
    Released,
    Accept,
    Reject,
    Drop,
    /// The world refuses.
    Refused(WorldError),
    /// The book refuses.
    Unbooked(BookError),
}

/// A server, what happens at it, and what must be answered.
pub type Row = (Role, Act, ExpectedReply);

pub const A: Role = Role::Primary;

pub const B: Role = Role::Secondary;

fn order_for(act: &Act, unit: Prefix) -> Result<Order, Fail> {
    Ok(match act {
        Act::Request(client) => Order::Request(asked(client)?),
        Act::Renew(client) => Order::Renew(asked(client)?),
        Act::Release(client) => Order::Release(asked_of(client, unit)?),
        Act::Backup => Order::Backup(unit),
        Act::Seize => Order::Seize(unit),
        Act::SendUpdate => Order::SendUpdate(unit),
        Act::SendReply => Order::SendReply(unit),
        Act::Normal => Order::State(ServerState::Normal),
        Act::Down => Order::State(ServerState::Down),
        _ => Order::SendContact,
    })
}

/// A row's event, by a clock, where it speaks of a unit.
pub fn event_of(row: &Row, clock: Reading, unit: Prefix) -> Result<Event, Fail> {
    let (side, act, _) = row;
    let side = *side;
    Ok(match act {
        Act::Deliver(sent) => Event::Deliver {
            side,
            sent: *sent,
            clock,
        },
        Act::Stop => Event::Stop(side),
        Act::Restart => Event::Restart { side, clock },
        Act::Pass(milliseconds) => Event::Pass(*milliseconds),
        _ => Event::Serve {
            side,
            clock,
            order: order_for(act, unit)?,
        },
    })
}

/// Returns whether a reply is the one that must be given.
fn is_reply(reply: &Reply, wanted: &ExpectedReply, unit: &Prefix) -> bool {
    match reply {
        Reply::Granted { prefix, valid } => {
            matches!(wanted, ExpectedReply::Granted) && prefix == unit && *valid == 3600
        }
        Reply::Released => matches!(wanted, ExpectedReply::Released),
        Reply::Sent { .. } => matches!(wanted, ExpectedReply::Sent),
        Reply::Taken(Outcome::Accept) => matches!(wanted, ExpectedReply::Accept),
        Reply::Taken(Outcome::Reject) => matches!(wanted, ExpectedReply::Reject),
        Reply::Taken(Outcome::Drop) => matches!(wanted, ExpectedReply::Drop),
        Reply::Done => matches!(wanted, ExpectedReply::Done),
    }
}

/// Returns whether a refusal is the one that must be given.
fn is_refusal(error: &WorldError, wanted: &ExpectedReply) -> bool {
    match wanted {
        ExpectedReply::Refused(other) => error == other,
        ExpectedReply::Unbooked(other) => *error == WorldError::Book(*other),
        _ => false,
    }
}

/// Returns whether an event is answered as it must be.
fn is_answered(world: &mut World, event: &Event, wanted: &ExpectedReply, unit: &Prefix) -> bool {
    match world.step(event) {
        Ok(reply) => is_reply(&reply, wanted, unit),
        Err(error) => is_refusal(&error, wanted),
    }
}

/// Returns whether a row's event is answered as it must be, by this clock.
fn is_right(world: &mut World, clock: Reading, unit: Prefix, row: &Row) -> Result<bool, Fail> {
    let (_, _, wanted) = row;
    match event_of(row, clock, unit) {
        Ok(event) => Ok(is_answered(world, &event, wanted, &unit)),
        Err(fail) => Err(fail),
    }
}

/// The place of the first row whose event isn't answered as it must be, each clock at this reading.
pub fn first_wrong(
    world: &mut World,
    clock: Reading,
    unit: Prefix,
    rows: &[Row],
) -> Result<Option<usize>, Fail> {
    for place in 0..rows.len() {
        if !is_right(world, clock, unit, &rows[place])? {
            return Ok(Some(place));
        }
    }
    Ok(None)
}

/// That each row's event is answered as it must be, each clock at so many milliseconds.
pub fn tell(
    rt: &impl Abort,
    world: &mut World,
    clock: u64,
    unit: &[u8],
    rows: &[Row],
) -> Result<(), Fail> {
    let wrong = first_wrong(world, at(clock)?, prefix(unit)?, rows)?;
    assert_eq!(rt; wrong, None);
    Ok(())
}
