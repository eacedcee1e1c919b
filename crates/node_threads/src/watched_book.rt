//! A book that is watched while the link's talk gives orders to it.

ghost use Rattle.std.specs.Prelude.{◌≡◌};
ghost use Rattle.node_threads.specs.Noticing.{notice_by, dropped_by};

use crate::notices::{Notice, Notices, tell_any};
use binding_rules::{Body, Outcome, PartnerMessage};
use failover_session::PairBook;
use lead_time::Reading;
use locked_book::{Look, PendingWork, Receipt, ServeError};
use order_book::{BookError, Order, Reply};
use prefix_range::Prefix;

/// A book that does what it is ordered, and tells what a talk's orders show of the journal and of the partner.
#[derive(Drop)]
pub struct WatchedBook<'a, B: PairBook, V: Notices> {
    /// The book that does it.
    pub book: &'a B,
    /// Where it is told.
    pub notices: &'a V,
}

/// What is known by an order and what came of it. A talk reclaims a unit only where the partner refused its move.
fn notice_by(order: &Order, done: &Result<Receipt, ServeError>) -> Option<Notice>
    ensures { result ≡ notice_by order.now done.now }
{
    match (order, done) {
        (_, Err(ServeError::Book(BookError::Full))) => Some(Notice::JournalFull),
        (Order::Reclaim(_), _) => Some(Notice::SettingsDiffer),
        _ => None,
    }
}

/// The prefix of an update that was taken and dropped.
fn dropped_by(order: &Order, done: &Result<Receipt, ServeError>) -> Option<Prefix>
    ensures { result ≡ dropped_by order.now done.now }
{
    match (order, done) {
        (
            Order::Take(
                PartnerMessage {
                    body: Body::Update(update),
                    ..
                },
            ),
            Ok(
                Receipt {
                    reply: Reply::Taken(Outcome::Drop),
                    ..
                },
            ),
        ) => Some(update.prefix),
        _ => None,
    }
}

impl<B: PairBook, V: Notices> PairBook for WatchedBook<'_, B, V> {
    type Pass = B::Pass;

    fn serve(
        &self,
        pass: &mut B::Pass,
        now: Reading,
        order: &Order,
    ) -> Result<Receipt, ServeError> {
        let done = self.book.serve(pass, now, order);
        let notice = match dropped_by(order, &done) {
            Some(prefix) => match self.book.look(pass, prefix) {
                Ok(Look { unit: None, .. }) => Some(Notice::SettingsDiffer),
                Ok(_) | Err(_) => None,
            },
            None => notice_by(order, &done),
        };
        tell_any(self.notices, notice);
        done
    }

    fn work_from(
        &self,
        pass: &mut B::Pass,
        now: Reading,
        from: u128,
    ) -> Result<PendingWork, ServeError> {
        self.book.work_from(pass, now, from)
    }

    fn look(&self, pass: &mut B::Pass, prefix: Prefix) -> Result<Look, ServeError> {
        self.book.look(pass, prefix)
    }
}
