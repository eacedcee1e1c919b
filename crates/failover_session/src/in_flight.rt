//! Tellings that are under way.

ghost use Rattle.std.specs.Prelude.{◌≡◌, ◌↔◌, ◌≤◌, ◌-◌, ◌++◌, ◌∷◌, [], IsTrue, OnOk, length, drop};
ghost use Rattle.failover_session.specs.Waiting.{is_late, waited_for};

use std::alloc::{AllocError, Global};
use std::time::{Duration, Instant};

/// How many updates may be under way, at most: with so many unanswered an end reads on, so that neither end writes
/// while the other doesn't read.
const MOST: usize = 256;

/// How many milliseconds an update is waited for that gets no reply, as one that the partner dropped.
const LONGEST_WAIT: u64 = 1000;

/// The updates that were sent of which no reply came yet, in the order in which they were sent: when each was, where
/// that is known.
#[derive(Drop)]
pub(crate) struct InFlight {
    sent: Vec<Option<Instant>>,
}

/// Returns whether what was sent then isn't waited for any more.
fn is_late(sent: &Option<Instant>, now: Instant) -> bool
    ensures { result ≡ is_late now sent.now }
{
    match sent {
        Some(sent) => now.duration_since(*sent) >= Duration::from_millis(LONGEST_WAIT),
        None => false,
    }
}

impl InFlight {
    /// None yet.
    pub(crate) fn none(alloc: Global) -> InFlight
        ensures { result.sent.items ≡ [] }
    {
        InFlight {
            sent: Vec::new(alloc),
        }
    }

    /// How many they are.
    pub(crate) fn count(&self) -> usize
        ensures { result ≡ length self.now.sent.items }
    {
        self.sent.as_slice().len()
    }

    /// Returns whether no more may be sent.
    pub(crate) fn is_full(&self) -> bool
        ensures { IsTrue result ↔ (256 ≤ length self.now.sent.items) }
    {
        self.count() >= MOST
    }

    /// One more was sent now. An error where a growth was refused.
    pub(crate) fn add(&mut self, now: Option<Instant>) -> Result<(), AllocError>
        ensures { OnOk result (self.new.sent.items ≡ self.old.sent.items ++ now ∷ []) }
    {
        self.sent.extend_from_slice(&[now])?;
        Ok(())
    }

    /// So many are waited for, the last ones; all where they aren't more.
    pub(crate) fn keep_last(&mut self, count: usize)
        ensures { self.new.sent.items ≡ drop (length self.old.sent.items - count) self.old.sent.items }
    {
        let answered = self.count().saturating_sub(count);
        self.sent.drain(..answered);
    }

    /// Those that were sent a second ago or earlier aren't waited for any more; all stay where it isn't known when it
    /// is.
    pub(crate) fn let_go(&mut self, now: Option<Instant>)
        ensures { self.new.sent.items ≡ waited_for now self.old.sent.items }
    {
        if let Some(now) = now {
            self.sent.retain(|sent| !is_late(sent, now));
        }
    }

    /// None is waited for any more.
    pub(crate) fn let_all_go(&mut self)
        ensures { self.new.sent.items ≡ [] }
    {
        self.sent.clear();
    }
}
