//! One end of the link, and what it orders.

ghost use Rattle.std.specs.Prelude.{◌≡◌, ◌+◌, ◌++◌, ◌∷◌, [], IfOk, OnOk, OnErr};
ghost use Rattle.journal_lines.specs.declared.event.Event.TheVariants.{Take};
ghost use Rattle.locked_book.specs.declared.receipt.Receipt.{Receipt as ReceiptValue};
ghost use Rattle.failover_session.specs.Receipts.{IsOther, IsLasting, last_taken};
ghost use Rattle.failover_session.specs.Sessions.{SendsLines, Takes};
ghost use Rattle.failover_session.specs.declared.policy.SessionPolicy.TheVariants.{Serve};

use crate::book::PairBook;
use crate::error::SessionError;
use crate::policy::SessionPolicy;
use crate::session_state::SessionState;
use binding_rules::{Outcome, PartnerMessage, Role};
use lead_time::Reading;
use locked_book::{Look, PendingWork, ServeError};
use order_book::{BookError, Order, Reply};
use prefix_range::Prefix;
use server_settings::Settings;
use std::alloc::Global;
use std::time::Instant;

/// One end of the link in one turn: its server's book and settings, and what the clock shows.
#[derive(Drop)]
pub(crate) struct LinkEndpoint<'a, B: PairBook> {
    pub alloc: Global,
    pub book: &'a B,
    pub role: Role,
    pub policy: SessionPolicy,
    pub settings: &'a Settings,
    pub reading: Reading,
    /// What the monotonic clock shows, where that is known.
    pub at: Option<Instant>,
}

/// The fate of an order that a later turn may give again.
#[derive(Clone, Copy)]
pub(crate) enum OrderOutcome {
    Done,
    /// The book's rules refuse it now.
    Refused,
    /// The journal is full, or a growth was refused.
    NoRoom,
}

/// Of an order's refusals a stranger's alone ends the talk.
fn fate_of(refusal: ServeError) -> Result<OrderOutcome, SessionError> {
    match refusal {
        ServeError::Stranger { .. } => Err(SessionError::Serve(refusal)),
        ServeError::Memory | ServeError::Book(BookError::Memory | BookError::Full) => {
            Ok(OrderOutcome::NoRoom)
        }
        ServeError::Book(_) => Ok(OrderOutcome::Refused),
    }
}

impl<'a, B: PairBook> LinkEndpoint<'a, B> {
    /// Orders anything but that a message is taken. What its line sends is handed out.
    #[tactic(auto, using(crate::proofs::Saying::one_order))]
    pub(crate) fn order(
        &self,
        pass: &mut B::Pass,
        duties: &mut SessionState,
        order: &Order,
    ) -> Result<OrderOutcome, SessionError>
        requires other { IsOther order.now }
        // A daemon's session ends no lease.
        requires lasting { self.now.policy ≡ Serve → IsLasting order.now }
        ensures { SendsLines (B.Pass.receipts pass.old) (B.Pass.receipts pass.new) duties.old.out.items duties.new.out.items }
    {
        duties.out.reserve(1)?;
        match self.book.serve(pass, self.reading, order) {
            Ok(receipt) => {
                duties.send(&receipt);
                Ok(OrderOutcome::Done)
            }
            Err(refusal) => fate_of(refusal),
        }
    }

    /// Orders that the partner's message is taken, and says whether it was accepted. It is the one order whose every
    /// refusal ends the talk: were a later message taken in its place, the partner would never send this one again.
    #[tactic(auto, using(crate::proofs::Saying::one_taken))]
    pub(crate) fn take_in(
        &self,
        pass: &mut B::Pass,
        message: &PartnerMessage,
    ) -> Result<bool, SessionError>
        requires { message.now.serial ≡ last_taken (B.Pass.receipts pass.old) + 1 }
        ensures taken { OnOk result ((r : ReceiptValue) × (r.line.event ≡ Take message.now)
            × (B.Pass.receipts pass.new ≡ B.Pass.receipts pass.old ++ r ∷ [])) }
        ensures refused { OnErr result (B.Pass.receipts pass.new ≡ B.Pass.receipts pass.old) }
    {
        match self.book.serve(pass, self.reading, &Order::Take(*message)) {
            Ok(receipt) => Ok(matches!(receipt.reply, Reply::Taken(Outcome::Accept))),
            Err(refusal) => Err(SessionError::Serve(refusal)),
        }
    }

    /// Returns what there is to do; of what is to be sent, for units that begin at an address or above.
    pub(crate) fn work(&self, pass: &mut B::Pass, from: u128) -> Result<PendingWork, SessionError>
        ensures { B.Pass.receipts pass.new ≡ B.Pass.receipts pass.old }
    {
        match self.book.work_from(pass, self.reading, from) {
            Ok(work) => Ok(work),
            Err(refusal) => Err(SessionError::Serve(refusal)),
        }
    }

    /// Returns what the book has of a unit.
    pub(crate) fn look(&self, pass: &mut B::Pass, prefix: &Prefix) -> Result<Look, SessionError>
        ensures { B.Pass.receipts pass.new ≡ B.Pass.receipts pass.old }
    {
        match self.book.look(pass, *prefix) {
            Ok(look) => Ok(look),
            Err(refusal) => Err(SessionError::Serve(refusal)),
        }
    }
}
