//! A book as those need it who answer clients.

ghost use Rattle.std.specs.Prelude.{◌≡◌, ◌∷◌, ◌++◌, [], List, IfOk, OnErr};
ghost use Rattle.journal_lines.specs.declared.line.Journal.{Journal};
ghost use Rattle.order_book.specs.Answer.{IsRequest};
ghost use Rattle.locked_book.specs.declared.receipt.Receipt.{Receipt as ReceiptValue};
ghost use Rattle.client_service.specs.Serving.{IsOrderServed, IsOfferMade, IsSeizableFound, IsRecalled};

use crate::reusable_lease::ReusableLease;
use crate::terms::ReuseTerms;
use lead_time::Reading;
use locked_book::{Receipt, ServeError};
use order_book::Order;
use prefix_range::Prefix;

/// A server's book, that takes orders by a pass: [`ExclusiveService`](crate::ExclusiveService) is a book that nobody
/// else serves, and [`SharedService`](crate::SharedService) one behind a lock.
pub trait BookService {
    /// What orders are given by. It knows the receipts of those that were accepted.
    type Pass;

    /// The receipts of a pass, in order.
    ghost receipts: { Self.Pass → List ReceiptValue };

    /// Which journals the book may have where a pass has these receipts: others may have added lines.
    ghost may_have: { List ReceiptValue → Journal → Type 0 };

    /// Serves one order: its line goes to the book, and its receipt to the pass. Of a refusal the pass is unchanged.
    fn serve(
        &self,
        pass: &mut Self::Pass,
        now: Reading,
        order: &Order,
    ) -> Result<Receipt, ServeError>
        ensures served { IsOrderServed may_have now (receipts pass.old) order.now result }
        ensures accepted { IfOk result (λ r. receipts pass.new ≡ receipts pass.old ++ r ∷ []) }
        ensures refused { OnErr result (receipts pass.new ≡ receipts pass.old) };

    /// Returns what the client of a Request would be given now: a prefix for so many seconds. It writes no line.
    fn offer(
        &self,
        pass: &mut Self::Pass,
        now: Reading,
        order: &Order,
    ) -> Result<(Prefix, u32), ServeError>
        requires { IsRequest order.now }
        ensures offered { IsOfferMade may_have now (receipts pass.old) order.now result }
        ensures same { receipts pass.new ≡ receipts pass.old };

    /// The lowest unit of a partner that is down which may be taken over now. It writes no line.
    fn first_to_seize(
        &self,
        pass: &mut Self::Pass,
        now: Reading,
    ) -> Result<Option<Prefix>, ServeError>
        ensures found { IsSeizableFound may_have now (receipts pass.old) result }
        ensures same { receipts pass.new ≡ receipts pass.old };

    /// Returns what an order's client has by a line of the journal that may be told again, or the order's first
    /// refusal; none where nothing is told again. It writes no line.
    fn reusable_lease(
        &self,
        pass: &Self::Pass,
        terms: &ReuseTerms,
        now: Reading,
        order: &Order,
    ) -> Result<Option<ReusableLease>, ServeError>
        ensures recalled { IsRecalled may_have terms.now now (receipts pass.now) order.now result };
}
