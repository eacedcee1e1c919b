//! The lock round the book.

ghost use Rattle.std.specs.Prelude.{◌≡◌, ◌≢◌, ◌+◌, ◌<◌, ◌≤◌, [], ◌∷◌, ◌++◌, length, replicate, ◌⊎◌};
ghost use Rattle.std.specs.Prelude.{IfOk, IfErr, IfSome, OnErr, MatchResult};
ghost use Rattle.journal_lines.specs.declared.line.Journal.{Journal};
ghost use Rattle.order_book.specs.Answer.{IsRequest};
ghost use Rattle.order_book.specs.Replayed.{IsLegal};
ghost use Rattle.locked_book.specs.Serving.{last_receipt, IsPassServed, IsLooked, IsPassOffered, IsWorkFound};
ghost use Rattle.locked_book.specs.Closing.{receipt_count, IsOpeningAndReceipts, new_pass};
ghost use Rattle.locked_book.specs.declared.error.CloseFault.TheVariants.{MissingPass, ReceiptMismatch};
ghost use Rattle.locked_book.specs.declared.error.LockFault.TheVariants.{Passes};

use crate::error::{CloseFault, LockFault, ServeError};
use crate::keeping::{Kept, Pass};
use crate::looking::{look_at, offer_of, work_at};
use crate::name::BookName;
use crate::receipt::{Look, PendingWork, Receipt};
use journal_lines::Line;
use lead_time::Reading;
use order_book::{Book, Order};
use prefix_range::Prefix;
use std::alloc::Global;
use std::marker::Model;
use std::sync::ledger::Blank;
use std::sync::{Mutex, Wait};

/// The most passes of a shared book.
const MOST_PASSES: usize = 64;

/// A book behind a lock, beside a copy of its opening lines. Contracts see it as these lines.
#[derive(Drop)]
pub struct SharedBook<N: BookName> {
    opening: Vec<Line>,
    kept: Mutex<Kept<N>>,
}

impl<N: BookName> Model for SharedBook<N> {
    ghost use Rattle.std.specs.Prelude.{◌≡◌, List, length};
    ghost use Rattle.journal_lines.specs.declared.line.Line.{Line as LineValue};

    ghost Value = { List LineValue };

    ghost view = { λ s. s.opening.items };

    ghost invariant = { λ s. length s.opening.items ≡ N.opened };
}

/// Why no book is shared, with the book.
#[derive(Drop)]
pub struct LockError {
    pub why: LockFault,
    pub book: Book,
}

/// Why a book isn't closed, with the book and its passes.
#[derive(Drop)]
pub struct CloseError<N: BookName> {
    pub why: CloseFault,
    pub shared: SharedBook<N>,
    pub passes: Vec<Pass<N>>,
}

impl<N: BookName> SharedBook<N> {
    /// Shares a book among 1 to 64 passes. It stands in a function over `N`, which its caller calls with `Brand`: `N`
    /// names the passes, and the lines that the book has.
    ///
    /// The refusals, each of which hands the book back: `Passes`, `Memory`.
    pub fn open(
        alloc: Global,
        blank: Blank,
        book: Book,
        passes: usize,
    ) -> Result<(SharedBook<N>, Vec<Pass<N>>), LockError>
        requires name { blank.name ≡ N.name }
        requires passes { (blank.parts ≡ N.parts) × (N.parts ≡ passes) × (N.passes ≡ passes) }
        requires lines { N.opened ≡ length book.lines }
        ensures opened { IfOk result (λ r. (r.0 ≡ book.lines) × (r.1.items ≡ replicate passes new_pass)) }
        ensures within { IfOk result (λ r. (1 ≤ passes) × (passes ≤ 64)) }
        ensures outside { IfErr result (λ e. e.why ≡ Passes → (passes ≡ 0) ⊎ (64 < passes)) }
        ensures memory { IfErr result (λ e. e.why ≢ Passes → (1 ≤ passes) × (passes ≤ 64)) }
        ensures back { IfErr result (λ e. e.book ≡ book) }
    {
        if passes == 0 || passes > MOST_PASSES {
            return Err(LockError {
                why: LockFault::Passes,
                book,
            });
        }
        let Ok(opening) = book.journal().to_vec(alloc) else {
            return Err(LockError {
                why: LockFault::Memory,
                book,
            });
        };
        let (kept, made) = Kept::open(alloc, blank, book, passes)?;
        let shared = SharedBook {
            opening,
            kept: Mutex::new(kept),
        };
        Ok((shared, made))
    }

    /// Serves one order under the lock. Of a refusal neither book nor pass is changed: `Stranger`, `Memory` (no room
    /// for the receipt), `Book` with the book's own.
    pub fn serve<R: Wait>(
        &self,
        rt: &R,
        pass: &mut Pass<N>,
        now: Reading,
        order: &Order,
    ) -> Result<Receipt, ServeError>
        ensures served { (j : Journal) × IsLegal j
            × IsPassServed j (last_receipt pass.old.receipts) now order.now result }
        ensures accepted { IfOk result (λ r. (pass.new.receipts ≡ pass.old.receipts ++ r ∷ [])
            × (pass.new.share ≡ pass.old.share + 1)) }
        ensures above { IfOk result (λ r. IfSome (last_receipt pass.old.receipts) (λ last. last.number < r.number)) }
        ensures refused { OnErr result (pass.new ≡ pass.old) }
    {
        self.kept.lock(rt).enter(pass, now, order)
    }

    /// Returns what the book has now: how many lines, this unit, whether it waits, and whether its partner is down. It
    /// writes no line and takes no memory. The one refusal is `Stranger`.
    pub fn look<R: Wait>(
        &self,
        rt: &R,
        pass: &mut Pass<N>,
        prefix: Prefix,
    ) -> Result<Look, ServeError>
        ensures looked { (j : Journal) × IsLegal j × IsLooked j (last_receipt pass.old.receipts) prefix result }
        ensures same { pass.new ≡ pass.old }
    {
        let last = pass.last();
        let kept = self.kept.lock(rt);
        look_at(kept.book(), last, prefix)
    }

    /// Returns what there is to do in the book at a reading, with one look. It writes no line and takes no memory. The
    /// one refusal is `Stranger`.
    pub fn work<R: Wait>(
        &self,
        rt: &R,
        pass: &mut Pass<N>,
        now: Reading,
    ) -> Result<PendingWork, ServeError>
        ensures found { (j : Journal) × IsLegal j × IsWorkFound j (last_receipt pass.old.receipts) now 0 result }
        ensures same { pass.new ≡ pass.old }
    {
        self.work_from(rt, pass, now, 0)
    }

    /// The same, but that the pending reply, the due change and the mark are those of the lowest unit which begins at
    /// an address or above: so each of them is found in turn, also while a lower one stays.
    pub fn work_from<R: Wait>(
        &self,
        rt: &R,
        pass: &mut Pass<N>,
        now: Reading,
        from: u128,
    ) -> Result<PendingWork, ServeError>
        ensures found { (j : Journal) × IsLegal j × IsWorkFound j (last_receipt pass.old.receipts) now from result }
        ensures same { pass.new ≡ pass.old }
    {
        let last = pass.last();
        let kept = self.kept.lock(rt);
        work_at(kept.book(), last, now, from)
    }

    /// Returns what the client of a Request would be given now: a prefix for so many seconds. It writes no line and
    /// takes no memory. The refusals: `Stranger`, `Book`.
    pub fn offer<R: Wait>(
        &self,
        rt: &R,
        pass: &mut Pass<N>,
        now: Reading,
        order: &Order,
    ) -> Result<(Prefix, u32), ServeError>
        requires { IsRequest order.now }
        ensures offered { (j : Journal) × IsLegal j
            × IsPassOffered j (last_receipt pass.old.receipts) now order.now result }
        ensures same { pass.new ≡ pass.old }
    {
        let last = pass.last();
        let kept = self.kept.lock(rt);
        offer_of(kept.book(), last, now, order)
    }

    /// The book, where the journal is the opening and one line for each receipt of all passes. It waits for nobody and
    /// takes no memory. The refusals, each of which hands book and passes back: `MissingPass`, `ReceiptMismatch`.
    pub fn close(self, passes: Vec<Pass<N>>) -> Result<Book, CloseError<N>>
        requires { N.passes ≡ N.parts }
        ensures closed { (j : Journal) × IsLegal j
            × (length passes.items ≡ N.passes → length self + receipt_count passes.items ≡ length j.lines)
            × MatchResult result
            (λ book. (book ≡ j) × (length passes.items ≡ N.passes) × IsOpeningAndReceipts self passes.items j)
            (λ e. (e.why ≡ MissingPass → length passes.items ≢ N.passes)
            × (e.why ≡ ReceiptMismatch → (length passes.items ≡ N.passes) × ¬ IsOpeningAndReceipts self passes.items j)) }
        ensures back { IfErr result (λ e. (e.shared ≡ self) × (e.passes.items ≡ passes.items)) }
    {
        let SharedBook { opening, kept } = self;
        match kept.into_inner().close(&opening, passes) {
            Ok(book) => Ok(book),
            Err((why, kept, passes)) => Err(CloseError {
                why,
                shared: SharedBook {
                    opening,
                    kept: Mutex::new(kept),
                },
                passes,
            }),
        }
    }
}
