//! What a server makes of a message that it takes.

ghost use Rattle.std.specs.Prelude.{◌≡◌};
ghost use Rattle.book_rules.specs.Outcomes.{body_outcome, is_contact, outcome};
ghost use Rattle.book_rules.specs.State.{state};

use crate::table::Table;
use binding_rules::{BindReply, Body, Outcome, PartnerMessage, Update, take_reply, take_update};
use lead_time::Reading;

fn is_contact(body: &Body) -> bool
    ensures { result ≡ is_contact body.now }
{
    match body {
        Body::Contact { .. } => true,
        _ => false,
    }
}

impl Table {
    fn update_outcome(&self, now: Reading, update: &Update) -> Outcome
        ensures { result ≡ body_outcome (state self.now) now (Body.Update update.now) }
    {
        if !self.units.has(&update.prefix) {
            return Outcome::Drop;
        }
        let unit = self.unit_or_fresh(&update.prefix);
        let (outcome, _) = take_update(self.numbers.role, &unit, now, self.numbers.waiting, update);
        outcome
    }

    fn reply_outcome(&self, reply: &BindReply) -> Outcome
        ensures { result ≡ body_outcome (state self.now) 0 (Body.Reply reply.now) }
    {
        if !self.units.has(&reply.prefix) {
            return Outcome::Drop;
        }
        match take_reply(&self.unit_or_fresh(&reply.prefix), reply) {
            Some(_) => Outcome::Accept,
            None => Outcome::Drop,
        }
    }

    fn body_outcome(&self, now: Reading, body: &Body) -> Outcome
        ensures { result ≡ body_outcome (state self.now) now body.now }
    {
        match body {
            Body::Update(update) => self.update_outcome(now, update),
            Body::Reply(reply) => self.reply_outcome(reply),
            Body::Contact { .. } => Outcome::Accept,
        }
    }

    /// Returns what the server makes of a message of its partner's that it takes at a reading.
    pub fn outcome(&self, now: Reading, message: &PartnerMessage) -> Outcome
        ensures { result ≡ outcome (state self.now) now message.now }
    {
        if message.term == self.numbers.term {
            return self.body_outcome(now, &message.body);
        }
        let is_higher = self.numbers.term < message.term;
        if self.numbers.waiting && (is_higher && is_contact(&message.body)) {
            Outcome::Accept
        } else {
            Outcome::Drop
        }
    }
}
