//! A book behind a lock.

use crate::reusable_lease::ReusableLease;
use crate::service::BookService;
use crate::terms::ReuseTerms;
use lead_time::Reading;
use locked_book::{BookName, Pass, Receipt, ServeError, SharedBook};
use order_book::Order;
use prefix_range::Prefix;
use std::sync::Wait;

/// Serves a book behind a lock, by passes to it. Between two orders others may add lines: what is known of the journal
/// is that it has the line of the pass's last receipt.
#[derive(Drop)]
pub struct SharedService<'a, N: BookName, R: Wait> {
    pub rt: &'a R,
    pub book: &'a SharedBook<N>,
}

impl<N: BookName, R: Wait> BookService for SharedService<'_, N, R> {
    type Pass = Pass<N>;

    ghost receipts = { λ p. p.receipts };

    ghost may_have = { λ receipts j. Unit };

    fn serve(
        &self,
        pass: &mut Pass<N>,
        now: Reading,
        order: &Order,
    ) -> Result<Receipt, ServeError> {
        self.book.serve(self.rt, pass, now, order)
    }

    fn offer(
        &self,
        pass: &mut Pass<N>,
        now: Reading,
        order: &Order,
    ) -> Result<(Prefix, u32), ServeError> {
        self.book.offer(self.rt, pass, now, order)
    }

    fn first_to_seize(
        &self,
        pass: &mut Pass<N>,
        now: Reading,
    ) -> Result<Option<Prefix>, ServeError> {
        match self.book.work(self.rt, pass, now) {
            Ok(work) => Ok(work.seizable),
            Err(refusal) => Err(refusal),
        }
    }

    /// Nothing is told again of a book that many share.
    fn reusable_lease(
        &self,
        _pass: &Pass<N>,
        _terms: &ReuseTerms,
        _now: Reading,
        _order: &Order,
    ) -> Result<Option<ReusableLease>, ServeError> {
        Ok(None)
    }
}
