//! What raised a unit's number of changes last.

ghost use Rattle.std.specs.Prelude.{◌≡◌, ℕ, OnOk};
ghost use Rattle.std.specs.BTreeMap.{get};
ghost use Rattle.std.specs.Ordering.{nat_cmp};
ghost use Rattle.journal_lines.specs.declared.event.Event.TheVariants.{Take};
ghost use Rattle.failover_session.specs.Crossing.{own_change, raised_by, raise_at, taken_by};

use binding_rules::{Body, Outcome, PartnerMessage};
use journal_lines::Event;
use locked_book::Receipt;
use order_book::Reply;
use prefix_range::Prefix;
use std::alloc::{AllocError, Global};
use std::collections::BTreeMap;

/// What raised a unit's number of changes (`mine`) last, as far as the receipts tell.
#[derive(Clone, Copy, Debug, PartialEq, Eq)]
pub(crate) enum LastRaise {
    /// A line of the server's own, as a grant; or it is what a volume begins with.
    Own,
    /// An update of the partner's that was accepted before this connection began.
    TakenBefore,
    /// An update of the partner's that was accepted over this connection.
    TakenHere,
}

/// Returns the unit whose number of changes a line raises or tells that takes no message.
fn own_change(event: &Event) -> Option<Prefix>
    ensures { result ≡ own_change event.now }
{
    match event {
        Event::Unit(kept) => Some(kept.prefix),
        Event::Grant(lease) => Some(lease.prefix),
        Event::Release { prefix, .. }
        | Event::Expire(prefix)
        | Event::Backup(prefix)
        | Event::Reclaim(prefix)
        | Event::Seize(prefix) => Some(*prefix),
        _ => None,
    }
}

/// The units whose number of changes an update of the partner's raised last.
#[derive(Drop)]
pub(crate) struct Raises {
    /// By the address at which a unit begins: the place of the receipt that took the update, from 0.
    taken: BTreeMap<u128, usize>,
}

impl Raises {
    /// No receipt tells anything yet.
    pub(crate) fn none(alloc: Global) -> Raises {
        Raises {
            taken: BTreeMap::new(alloc),
        }
    }

    /// Notes a message that a receipt at a place took.
    fn note_taken(
        &mut self,
        place: usize,
        message: &PartnerMessage,
        reply: &Reply,
    ) -> Result<(), AllocError>
        ensures { OnOk result ((address : ℕ) → get nat_cmp self.new.taken address
            ≡ taken_by place (Take message.now) reply.now address (get nat_cmp self.old.taken address)) }
    {
        if let (Body::Update(update), Reply::Taken(Outcome::Accept)) = (&message.body, reply) {
            self.taken.insert(update.prefix.first(), place)?;
        }
        Ok(())
    }

    /// Notes what a receipt at a place tells. An error where a growth was refused.
    pub(crate) fn note(&mut self, place: usize, receipt: &Receipt) -> Result<(), AllocError>
        ensures { OnOk result ((address : ℕ) → get nat_cmp self.new.taken address
            ≡ raised_by place receipt.now address (get nat_cmp self.old.taken address)) }
    {
        if let Some(prefix) = own_change(&receipt.line.event) {
            self.taken.remove(&prefix.first());
            return Ok(());
        }
        match &receipt.line.event {
            Event::Take(message) => self.note_taken(place, message, &receipt.reply),
            _ => Ok(()),
        }
    }

    /// What raised a unit's number of changes last, over a connection that began with so many receipts.
    pub(crate) fn last_raise(&self, prefix: &Prefix, begun: usize) -> LastRaise
        ensures { result ≡ raise_at begun (get nat_cmp self.now.taken prefix.now.address) }
    {
        match self.taken.get(&prefix.first()) {
            None => LastRaise::Own,
            Some(place) if *place < begun => LastRaise::TakenBefore,
            Some(_) => LastRaise::TakenHere,
        }
    }
}
