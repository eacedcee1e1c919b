//! A gate that holds a worker.

use attribution::Verdict;
use parallel_check::Gate;
use std::sync::atomic::{AtomicBool, Ordering};
use std::thread;

const TURNS: usize = 1_000_000;

/// Holds index 0 until the audit of another index is over, or for so many turns. The verdicts should be accepted and
/// refused in turn; whether one isn't is noted.
#[derive(Drop)]
pub struct Holding {
    until: usize,
    is_over: AtomicBool,
    saw_it: AtomicBool,
    is_other: AtomicBool,
}

impl Holding {
    pub fn new(until: usize) -> Holding {
        Holding {
            until,
            is_over: AtomicBool::new(false),
            saw_it: AtomicBool::new(false),
            is_other: AtomicBool::new(false),
        }
    }

    /// Returns whether the worker that was held went on since the other audit was over, and each verdict was right.
    pub fn saw_it(&self) -> bool {
        self.saw_it.load(Ordering::SeqCst) && !self.is_other.load(Ordering::SeqCst)
    }
}

impl Gate for Holding {
    fn before(&self, index: usize) {
        if index != 0 {
            return;
        }
        for _ in 0..TURNS {
            if self.is_over.load(Ordering::SeqCst) {
                self.saw_it.store(true, Ordering::SeqCst);
                return;
            }
            thread::yield_now();
        }
    }

    fn after(&self, index: usize, verdict: &Verdict) {
        if (*verdict == Verdict::Accepted) != (index % 2 == 0) {
            self.is_other.store(true, Ordering::SeqCst);
        }
        if index == self.until {
            self.is_over.store(true, Ordering::SeqCst);
        }
    }
}
