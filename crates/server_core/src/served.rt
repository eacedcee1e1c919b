//! Orders to a served book, by its clients and by its partner.

ghost use Rattle.std.specs.Prelude.{◌≡◌, ◌++◌, ◌∷◌, [], None, IfOk, OnErr, List};
ghost use Rattle.client_service.specs.Lines.{receipts_of};
ghost use Rattle.failover_session.specs.Receipts.{IsNamedBy};
ghost use Rattle.locked_book.specs.declared.receipt.Receipt.{Receipt as ReceiptValue};
ghost use Rattle.locked_book.specs.Serving.{IsPassServed, HasItsReceipt, last_receipt};
ghost use Rattle.order_book.specs.Replayed.{IsLegal};
ghost use Rattle.server_core.specs.Served.{receipts_in};

use crate::book::ReceiptBook;
use client_service::{BookService, ReusableLease, ReuseTerms, find_reusable_lease};
use failover_session::{PairBook, Receipts};
use lead_time::Reading;
use locked_book::{Look, PendingWork, Receipt, ServeError, look_at, work_at};
use order_book::{BookError, Order};
use prefix_range::Prefix;

/// Gives orders to a served book, which is its own pass.
#[derive(Clone, Copy, Debug)]
pub struct ReceiptBookAccess;

/// Does what is ordered.
fn serve(book: &mut ReceiptBook, now: Reading, order: &Order) -> Result<Receipt, ServeError>
    ensures added { IfOk result (λ r. receipts_in book.new ≡ receipts_in book.old ++ r ∷ []) }
    ensures served { IsPassServed book.old.journal None now order.now result }
    ensures named { IfOk result (λ r. IsNamedBy order.now r.line) }
    ensures refused { OnErr result (receipts_in book.new ≡ receipts_in book.old) }
{
    match book.apply(now, order) {
        Ok(receipt) => Ok(receipt),
        Err(BookError::Memory) => Err(ServeError::Memory),
        Err(error) => Err(ServeError::Book(error)),
    }
}

/// Refuses a book that hasn't the line of its last receipt: one without a line, behind receipts of older volumes.
#[tactic(auto, using(crate::proofs::Shown::last_is_own))]
fn show(book: &ReceiptBook) -> Result<(), ServeError>
    ensures shown { HasItsReceipt book.now.journal.lines (last_receipt (receipts_in book.now)) result }
    ensures legal { IsLegal book.now.journal }
{
    if !book.book().journal().is_empty() {
        return Ok(());
    }
    match book.receipts().last() {
        Some(receipt) => Err(ServeError::Stranger {
            number: receipt.number,
            found: None,
        }),
        None => Ok(()),
    }
}

impl BookService for ReceiptBookAccess {
    type Pass = ReceiptBook;

    ghost receipts = { λ b. receipts_in b };

    ghost may_have = { λ receipts j. (older : List ReceiptValue) × (receipts ≡ older ++ receipts_of j) };

    fn serve(
        &self,
        pass: &mut ReceiptBook,
        now: Reading,
        order: &Order,
    ) -> Result<Receipt, ServeError> {
        match show(pass) {
            Ok(()) => serve(pass, now, order),
            Err(refusal) => Err(refusal),
        }
    }

    fn offer(
        &self,
        pass: &mut ReceiptBook,
        now: Reading,
        order: &Order,
    ) -> Result<(Prefix, u32), ServeError> {
        if let Err(refusal) = show(pass) {
            return Err(refusal);
        }
        match pass.book().offer(now, order) {
            Ok(offer) => Ok(offer),
            Err(error) => Err(ServeError::Book(error)),
        }
    }

    fn first_to_seize(
        &self,
        pass: &mut ReceiptBook,
        now: Reading,
    ) -> Result<Option<Prefix>, ServeError> {
        match show(pass) {
            Ok(()) => Ok(pass.book().first_to_seize(now)),
            Err(refusal) => Err(refusal),
        }
    }

    fn reusable_lease(
        &self,
        pass: &ReceiptBook,
        terms: &ReuseTerms,
        now: Reading,
        order: &Order,
    ) -> Result<Option<ReusableLease>, ServeError> {
        if let Err(refusal) = show(pass) {
            return Err(refusal);
        }
        match find_reusable_lease(pass.book(), terms, now, order) {
            Ok(found) => Ok(found),
            Err(error) => Err(ServeError::Book(error)),
        }
    }
}

impl Receipts for ReceiptBook {
    ghost receipts = { λ b. receipts_in b };

    ghost shown = { λ b. None };

    fn receipts(&self) -> &[Receipt] {
        self.receipts()
    }
}

impl PairBook for ReceiptBookAccess {
    type Pass = ReceiptBook;

    fn serve(
        &self,
        pass: &mut ReceiptBook,
        now: Reading,
        order: &Order,
    ) -> Result<Receipt, ServeError> {
        let _legal = pass.book().journal();
        serve(pass, now, order)
    }

    fn work_from(
        &self,
        pass: &mut ReceiptBook,
        now: Reading,
        from: u128,
    ) -> Result<PendingWork, ServeError> {
        work_at(pass.book(), None, now, from)
    }

    fn look(&self, pass: &mut ReceiptBook, prefix: Prefix) -> Result<Look, ServeError> {
        look_at(pass.book(), None, prefix)
    }
}
