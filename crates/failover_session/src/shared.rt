//! A book under a lock, as a talk gives orders to it.

ghost use Rattle.locked_book.specs.Serving.{PassState, last_receipt};

use crate::book::{PairBook, Receipts};
use lead_time::Reading;
use locked_book::{BookName, Look, Pass, PendingWork, Receipt, ServeError, SharedBook};
use order_book::Order;
use prefix_range::Prefix;
use std::sync::Wait;

/// A shared book, for one who may wait for its lock.
#[derive(Drop)]
pub struct LockedBook<'a, N: BookName, R: Wait> {
    pub rt: &'a R,
    pub shared: &'a SharedBook<N>,
}

impl<N: BookName> Receipts for Pass<N> {
    ghost receipts = { λ p. p.receipts };

    ghost shown = { λ p. last_receipt p.receipts };

    fn receipts(&self) -> &[Receipt] {
        self.receipts()
    }
}

impl<'a, N: BookName, R: Wait> PairBook for LockedBook<'a, N, R> {
    type Pass = Pass<N>;

    #[tactic(auto, using(crate::proofs::Served::served_is_named))]
    fn serve(
        &self,
        pass: &mut Pass<N>,
        now: Reading,
        order: &Order,
    ) -> Result<Receipt, ServeError> {
        self.shared.serve(self.rt, pass, now, order)
    }

    fn work_from(
        &self,
        pass: &mut Pass<N>,
        now: Reading,
        from: u128,
    ) -> Result<PendingWork, ServeError> {
        self.shared.work_from(self.rt, pass, now, from)
    }

    fn look(&self, pass: &mut Pass<N>, prefix: Prefix) -> Result<Look, ServeError> {
        self.shared.look(self.rt, pass, prefix)
    }
}
