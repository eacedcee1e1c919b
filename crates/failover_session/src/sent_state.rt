//! What a link's end knows by its pass's receipts.

ghost use Rattle.std.specs.Prelude.{◌≡◌};
ghost use Rattle.failover_session.specs.Receipts.{last_taken, last_sent};

use crate::raising::{LastRaise, Raises};
use binding_rules::{BindReply, Body, Counter, Outcome, PartnerMessage, Status, Update};
use journal_lines::{Event, KeptUnit};
use locked_book::Receipt;
use order_book::Reply;
use prefix_range::Prefix;
use std::alloc::{AllocError, Global};
use std::collections::BTreeMap;

/// The serial of the message that was taken last: 0 where none was. It looks at the receipts behind that one alone.
pub(crate) fn last_taken(receipts: &[Receipt]) -> Counter
    ensures { result ≡ last_taken receipts.now }
{
    for index in (0..receipts.len()).rev() {
        if let Event::Take(message) = &receipts[index].line.event {
            return message.serial;
        }
    }
    Counter::ZERO
}

/// The serial of the message that was sent last: 0 where none was. It looks at the receipts behind that one alone, or
/// behind the base line of the volume, which tells it.
pub(crate) fn last_sent(receipts: &[Receipt]) -> Counter
    ensures { result ≡ last_sent receipts.now }
{
    for index in (0..receipts.len()).rev() {
        match &receipts[index].line.event {
            Event::Send(message) => return message.serial,
            Event::Base(numbers) => return numbers.serial,
            _ => {}
        }
    }
    Counter::ZERO
}

/// The last update of a unit that was sent.
#[derive(Clone, Copy)]
struct SentUpdate {
    status: Status,
    /// Which change of the unit it told.
    mine: Counter,
    /// The serial under which that change was told first.
    serial: Counter,
    /// The term in which it was told last.
    term: u32,
}

/// The memory of what the receipts tell, each of which is looked at once.
#[derive(Drop)]
pub(crate) struct SentState {
    /// How many of the receipts were looked at.
    seen: usize,
    /// How many there were when the connection began.
    begun: usize,
    /// The term of the book's messages, as far as the receipts tell.
    pub term: u32,
    /// The serial of the message that was sent last: 0 where none was.
    pub sent: Counter,
    /// A serial that the partner has taken: the greatest of an update that it replied to, of the changes of the open
    /// volume. 0 where there is none. Of an older change it may have replied to an earlier telling, which the receipts
    /// have no more.
    pub answered: Counter,
    /// The number of a unit's last change when the open volume began, by the address at which it begins.
    changes_before: BTreeMap<u128, Counter>,
    /// By the address at which a unit begins.
    updates: BTreeMap<u128, SentUpdate>,
    raises: Raises,
}

impl SentState {
    /// Returns what no receipt tells.
    pub(crate) fn nothing(alloc: Global) -> SentState {
        SentState {
            seen: 0,
            begun: 0,
            term: 0,
            sent: Counter::ZERO,
            answered: Counter::ZERO,
            changes_before: BTreeMap::new(alloc),
            updates: BTreeMap::new(alloc),
            raises: Raises::none(alloc),
        }
    }

    /// An update that was sent. Where its change was told before, the first serial stays.
    fn note_update(&mut self, message: &PartnerMessage, update: &Update) -> Result<(), AllocError> {
        let address = update.prefix.first();
        let mut serial = message.serial;
        if let Some(before) = self.updates.get(&address) {
            if before.status == update.status && before.mine == update.mine {
                serial = before.serial;
            }
        }
        let telling = SentUpdate {
            status: update.status,
            mine: update.mine,
            serial,
            term: message.term,
        };
        self.updates.insert(address, telling)?;
        Ok(())
    }

    /// A head line of a volume that says how a unit stood when it began.
    fn note_kept(&mut self, kept: &KeptUnit) -> Result<(), AllocError> {
        self.changes_before.insert(kept.prefix.first(), kept.mine)?;
        Ok(())
    }

    /// Returns whether the open volume made a change of a unit.
    fn is_of_this_volume(&self, address: u128, change: Counter) -> bool {
        match self.changes_before.get(&address) {
            Some(before) => change > *before,
            None => true,
        }
    }

    /// A reply that was taken.
    fn note_reply(&mut self, reply: &BindReply) {
        let address = reply.prefix.first();
        if !self.is_of_this_volume(address, reply.of) {
            return;
        }
        if let Some(telling) = self.updates.get(&address) {
            if telling.mine == reply.of && telling.serial > self.answered {
                self.answered = telling.serial;
            }
        }
    }

    /// How many updates are under way behind a reply, where so many were before it. One that the partner dropped, or
    /// answered together with a later one, gets none: so they are at most as many as the messages that were sent behind
    /// the update that is answered, since the partner took all up to that.
    pub(crate) fn under_way_behind(&self, reply: &BindReply, before: usize) -> usize {
        let left = before.saturating_sub(1);
        match self.updates.get(&reply.prefix.first()) {
            Some(telling) if telling.mine == reply.of => {
                let behind = self.sent.number().saturating_sub(telling.serial.number());
                left.min(behind as usize)
            }
            _ => left,
        }
    }

    fn note_sent(&mut self, message: &PartnerMessage) -> Result<(), AllocError> {
        self.sent = message.serial;
        self.term = message.term;
        match &message.body {
            Body::Update(update) => self.note_update(message, update),
            Body::Reply(_) | Body::Contact { .. } => Ok(()),
        }
    }

    /// A message that was taken. One that wasn't dropped has the book's term.
    fn note_taken(&mut self, message: &PartnerMessage, reply: &Reply) {
        if matches!(reply, Reply::Taken(Outcome::Accept | Outcome::Reject)) {
            self.term = message.term;
        }
        if let Body::Reply(reply) = &message.body {
            self.note_reply(reply);
        }
    }

    /// Looks at the receipts that came since the last time. An error where a growth was
    /// refused.
    pub(crate) fn catch_up(&mut self, receipts: &[Receipt]) -> Result<(), AllocError> {
        for index in self.seen..receipts.len() {
            self.raises.note(index, &receipts[index])?;
            match &receipts[index].line.event {
                Event::Send(message) => self.note_sent(message)?,
                Event::Take(message) => self.note_taken(message, &receipts[index].reply),
                Event::Base(_) => self.answered = Counter::ZERO,
                Event::Unit(kept) => self.note_kept(kept)?,
                _ => {}
            }
        }
        self.seen = receipts.len();
        Ok(())
    }

    /// Looks at the receipts with which a connection begins.
    pub(crate) fn begin(&mut self, receipts: &[Receipt]) -> Result<(), AllocError> {
        self.catch_up(receipts)?;
        self.begun = receipts.len();
        Ok(())
    }

    /// What raised a unit's number of changes last.
    pub(crate) fn last_raise(&self, prefix: &Prefix) -> LastRaise {
        self.raises.last_raise(prefix, self.begun)
    }

    /// Returns whether the last update of a unit told this status and change in the book's term: what was told in a
    /// term before may have been passed over.
    pub(crate) fn was_sent(&self, prefix: &Prefix, status: Status, mine: Counter) -> bool {
        match self.updates.get(&prefix.first()) {
            Some(telling) => {
                telling.status == status && telling.mine == mine && telling.term == self.term
            }
            None => false,
        }
    }
}
