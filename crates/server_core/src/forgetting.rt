//! Which receipts of older volumes are still needed.

ghost use Rattle.std.specs.Prelude.{◌≡◌, ◌≤◌, ◌++◌, IfOk, OnOk, OnErr, length, take, drop, vec_len, vec_capacity};
ghost use Rattle.failover_session.specs.Receipts.{taken_by, last_taken};
ghost use Rattle.server_core.specs.Forgetting.{sent_by, applied_by, last_sent, last_applied, is_applied, is_needed_by};
ghost use Rattle.server_core.specs.Forgetting.{needed, first_sent};

use binding_rules::{Counter, Outcome};
use journal_lines::Event;
use locked_book::Receipt;
use order_book::Reply;
use std::alloc::AllocError;

/// The last messages of receipts, by their serials: 0 where there is none.
#[derive(Clone, Copy)]
struct LastMessages {
    /// The last one that was sent.
    sent: Counter,
    /// The last one that was taken.
    taken: Counter,
    /// The last one that was taken and not dropped: it had the book's term.
    applied: Counter,
}

/// Returns whether a message that was taken wasn't dropped.
fn is_applied(reply: &Reply) -> bool
    ensures { result ≡ is_applied reply.now }
{
    matches!(reply, Reply::Taken(Outcome::Accept | Outcome::Reject))
}

impl LastMessages {
    fn note(&mut self, receipt: &Receipt)
        ensures sent { self.new.sent ≡ sent_by self.old.sent receipt.now.line.event }
        ensures taken { self.new.taken ≡ taken_by self.old.taken receipt.now.line.event }
        ensures heeded { self.new.applied ≡ applied_by self.old.applied receipt.now }
    {
        match &receipt.line.event {
            Event::Send(message) => self.sent = message.serial,
            Event::Take(message) => {
                self.taken = message.serial;
                if is_applied(&receipt.reply) {
                    self.applied = message.serial;
                }
            }
            _ => {}
        }
    }

    /// Those of these receipts.
    fn of(receipts: &[Receipt]) -> LastMessages
        ensures sent { result.sent ≡ last_sent receipts.now }
        ensures taken { result.taken ≡ last_taken receipts.now }
        ensures heeded { result.applied ≡ last_applied receipts.now }
    {
        let mut last = LastMessages {
            sent: Counter::ZERO,
            taken: Counter::ZERO,
            applied: Counter::ZERO,
        };
        for receipt in receipts {
            last.note(receipt);
        }
        last
    }

    /// Returns whether a receipt is needed where the partner has taken all messages up to a serial.
    fn needs(&self, taken: Counter, receipt: &Receipt) -> bool
        ensures { result ≡ is_needed_by taken self.now.sent self.now.taken self.now.applied receipt.now.line.event }
    {
        match &receipt.line.event {
            Event::Send(message) => message.serial > taken || message.serial == self.sent,
            Event::Take(message) => {
                message.serial == self.taken || message.serial == self.applied
            }
            _ => false,
        }
    }
}

/// Keeps those receipts of older volumes that are needed where the partner has taken all messages up to a serial.
pub(crate) fn keep_needed(older: &mut Vec<Receipt>, taken: Counter)
    ensures kept { older.new.items ≡ needed taken older.old.items }
    ensures capacity { vec_capacity older.new ≡ vec_capacity older.old }
    ensures fewer { vec_len older.new ≤ vec_len older.old }
{
    let last = LastMessages::of(older);
    older.retain(|receipt| last.needs(taken, receipt));
}

/// Keeps of the first receipts, so many, those that are needed where the partner has taken all messages up to a serial,
/// and all behind them. Returns how many are kept of the first ones. Where a growth was refused nothing has changed.
pub(crate) fn forget(
    receipts: &mut Vec<Receipt>,
    older: usize,
    taken: Counter,
) -> Result<usize, AllocError>
    requires { older ≤ length receipts.old.items }
    ensures kept { OnOk result (receipts.new.items
        ≡ needed taken (take older receipts.old.items) ++ drop older receipts.old.items) }
    ensures count { IfOk result (λ n. n ≡ length (needed taken (take older receipts.old.items))) }
    ensures refused { OnErr result (receipts.new.items ≡ receipts.old.items) }
{
    let mut behind = receipts.split_off(older)?;
    keep_needed(receipts, taken);
    let count = receipts.len();
    let _in_place = receipts.append(&mut behind);
    Ok(count)
}

/// The serial of the first message that receipts send.
pub(crate) fn first_sent(receipts: &[Receipt]) -> Option<Counter>
    ensures { result ≡ first_sent receipts.now }
{
    for receipt in receipts {
        if let Event::Send(message) = &receipt.line.event {
            return Some(message.serial);
        }
    }
    None
}
