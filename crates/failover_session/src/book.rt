//! The book that a talk is about.

ghost use Rattle.std.specs.Prelude.{◌≡◌, ◌++◌, ◌∷◌, [], List, Option, IfOk, OnErr};
ghost use Rattle.journal_lines.specs.declared.line.Journal.{Journal};
ghost use Rattle.locked_book.specs.Serving.{IsPassServed, IsWorkFound, IsLooked};
ghost use Rattle.locked_book.specs.declared.receipt.Receipt.{Receipt as ReceiptValue};
ghost use Rattle.order_book.specs.Replayed.{IsLegal};
ghost use Rattle.failover_session.specs.Receipts.{IsNamedBy};

use lead_time::Reading;
use locked_book::{Look, PendingWork, Receipt, ServeError};
use order_book::Order;
use prefix_range::Prefix;

/// What one who gives orders to a book holds: the receipts of its orders.
pub trait Receipts {
    /// The receipts, in their order.
    ghost receipts: { Self → List ReceiptValue };

    /// The receipt by which its holder shows that it is no stranger to the book.
    ghost shown: { Self → Option ReceiptValue };

    fn receipts(&self) -> &[Receipt]
        ensures { result.now ≡ receipts self.now };
}

/// A book that orders are given to, each by a pass that keeps its receipt. What it answers is the answer at a journal
/// that breaks no rule and has the line of the receipt that the pass shows.
pub trait PairBook {
    type Pass: Receipts;

    /// Does what is ordered: adds one line to the book, and its receipt to the pass. Of a refusal nothing is changed:
    /// the pass is a stranger to the book, the book's own, or `Memory`.
    fn serve(
        &self,
        pass: &mut Self::Pass,
        now: Reading,
        order: &Order,
    ) -> Result<Receipt, ServeError>
        ensures added { IfOk result
            (λ r. Self.Pass.receipts pass.new ≡ Self.Pass.receipts pass.old ++ r ∷ []) }
        ensures served { (j : Journal) × IsLegal j
            × IsPassServed j (Self.Pass.shown pass.old) now order.now result }
        ensures named { IfOk result (λ r. IsNamedBy order.now r.line) }
        ensures refused { OnErr result (Self.Pass.receipts pass.new ≡ Self.Pass.receipts pass.old) };

    /// Returns what there is to do at a reading; of what is to be sent, for units that begin at an address or above.
    fn work_from(
        &self,
        pass: &mut Self::Pass,
        now: Reading,
        from: u128,
    ) -> Result<PendingWork, ServeError>
        ensures found { (j : Journal) × IsLegal j × IsWorkFound j (Self.Pass.shown pass.old) now from result }
        ensures same { Self.Pass.receipts pass.new ≡ Self.Pass.receipts pass.old };

    /// Returns what the book has of a unit.
    fn look(&self, pass: &mut Self::Pass, prefix: Prefix) -> Result<Look, ServeError>
        ensures looked { (j : Journal) × IsLegal j × IsLooked j (Self.Pass.shown pass.old) prefix result }
        ensures same { Self.Pass.receipts pass.new ≡ Self.Pass.receipts pass.old };
}
