//! Rules of what a server sends to its partner, 12 to 15.

ghost use Rattle.std.specs.Prelude.{◌≡◌, ◌↔◌, IsTrue, true};
ghost use Rattle.book_rules.specs.State.{state};
ghost use Rattle.book_state.specs.Book.{IsCalm};
ghost use Rattle.book_rules.specs.MessageRules.{client_of, iaid_of, end_of, due_update, seized_update, TellsUnit};
ghost use Rattle.book_rules.specs.MessageRules.{TellsChange, TellsReply, TellsNumbers, IsContactAnswer};
ghost use Rattle.book_rules.specs.MessageRules.{KeepsSerial, KeepsUpdate, KeepsReply, KeepsContact};

use crate::table::Table;
use binding_rules::{Body, Counter, Status, Unit, UnitStatus, Update};
use client_id::{Duid, Iaid};
use journal_lines::Event;
use lead_time::End;
use prefix_range::Prefix;

/// Whose a unit is, or was.
fn client_of(status: &UnitStatus) -> Option<Duid>
    ensures { result ≡ client_of status.now }
{
    match status {
        UnitStatus::Active(binding) => Some(binding.client),
        UnitStatus::Expired(binding) => Some(binding.client),
        UnitStatus::Released(binding) => Some(binding.client),
        _ => None,
    }
}

/// The identity association of a unit, or 0.
fn iaid_of(status: &UnitStatus) -> Iaid
    ensures { result ≡ iaid_of status.now }
{
    match status {
        UnitStatus::Active(binding) => binding.iaid,
        UnitStatus::Expired(binding) => binding.iaid,
        UnitStatus::Released(binding) => binding.iaid,
        _ => Iaid(0),
    }
}

/// The end that the partner is told of a change.
fn end_of(unit: &Unit, status: Status) -> End
    ensures { result ≡ end_of unit.now status }
{
    match status {
        Status::Active => unit.out_end,
        _ => End::ZERO,
    }
}

/// The update that tells of a change that is due.
pub fn due_update(prefix: &Prefix, unit: &Unit, status: Status) -> Update
    ensures { result ≡ due_update prefix.now unit.now status }
{
    Update {
        status,
        prefix: *prefix,
        mine: unit.mine,
        seen: unit.seen,
        end: end_of(unit, status),
        iaid: iaid_of(&unit.status),
        client: client_of(&unit.status),
    }
}

/// The update that tells that a unit was seized.
pub fn seized_update(prefix: &Prefix, unit: &Unit) -> Update
    ensures { result ≡ seized_update prefix.now unit.now }
{
    Update {
        status: Status::Seized,
        prefix: *prefix,
        mine: unit.mine,
        seen: unit.seen,
        end: End::ZERO,
        iaid: Iaid(0),
        client: None,
    }
}

/// Returns whether an update tells of the unit's due change, or that it was seized.
fn is_told(unit: &Unit, update: &Update) -> bool
    ensures { IsTrue result ↔ TellsUnit unit.now update.now }
{
    if unit.marked {
        return *update == seized_update(&update.prefix, unit);
    }
    unit.due == Some(update.status) && *update == due_update(&update.prefix, unit, update.status)
}

impl Table {
    /// 12: messages are numbered on, in the book's term.
    pub(crate) fn keeps_serial(&self, event: &Event) -> bool
        ensures { IsTrue result ↔ KeepsSerial (state self.now) event.now }
    {
        match event {
            Event::Send(message) => {
                message.serial.number() == self.numbers.serial.number() + 1
                    && message.term == self.numbers.term
            }
            _ => true,
        }
    }

    fn tells_change(&self, body: &Body) -> bool
        ensures { IsTrue result ↔ TellsChange (state self.now) body.now }
    {
        match body {
            Body::Update(update) => is_told(self.units.unit(&update.prefix), update),
            _ => true,
        }
    }

    /// 13: an update tells of the unit's due change, as the unit is.
    pub(crate) fn keeps_update(&self, event: &Event) -> bool
        ensures { IsTrue result ↔ KeepsUpdate (state self.now) event.now }
    {
        match event {
            Event::Send(message) => self.tells_change(&message.body),
            _ => true,
        }
    }

    fn tells_reply(&self, body: &Body) -> bool
        ensures { IsTrue result ↔ TellsReply (state self.now) body.now }
    {
        match body {
            Body::Reply(reply) => self.units.unit(&reply.prefix).pending == Some(*reply),
            _ => true,
        }
    }

    /// 14: a reply is the unit's pending one.
    pub(crate) fn keeps_reply(&self, event: &Event) -> bool
        ensures { IsTrue result ↔ KeepsReply (state self.now) event.now }
    {
        match event {
            Event::Send(message) => self.tells_reply(&message.body),
            _ => true,
        }
    }

    /// Returns whether the partner isn't taken for down and has acknowledged each unit that was seized from it.
    pub fn is_calm(&self) -> bool
        ensures { IsTrue result ↔ IsCalm (state self.now) }
    {
        self.numbers.down.is_none() && self.units.is_unmarked()
    }

    /// Returns whether a number is the answer to what the partner asked.
    fn is_contact_answer(&self, answer: Counter) -> bool
        ensures { IsTrue result ↔ IsContactAnswer (state self.now) answer }
    {
        if self.is_calm() {
            answer == self.numbers.asked
        } else {
            answer.number() == 0
        }
    }

    fn tells_numbers(&self, body: &Body) -> bool
        ensures { IsTrue result ↔ TellsNumbers (state self.now) body.now }
    {
        match body {
            Body::Contact { ask, answer } => {
                let asks = if self.numbers.waiting {
                    self.numbers.restart
                } else {
                    Counter::ZERO
                };
                *ask == asks && self.is_contact_answer(*answer)
            }
            _ => true,
        }
    }

    /// 15: a contact asks and answers the book's numbers.
    pub(crate) fn keeps_contact(&self, event: &Event) -> bool
        ensures { IsTrue result ↔ KeepsContact (state self.now) event.now }
    {
        match event {
            Event::Send(message) => self.tells_numbers(&message.body),
            _ => true,
        }
    }
}
