//! How many datagrams are left to receive, and whether the workers have ended.

ghost use Rattle.std.specs.Prelude.{◌≡◌, ◌≤◌};

use std::sync::{Mutex, Wait};

/// The most turns that there may be.
pub(crate) const MOST_TURNS: u32 = 1_000_000;

#[derive(Drop)]
struct TurnsLeft {
    turns: u32,
    has_ended: bool,
}

impl TurnsLeft {
    fn take(&mut self) -> bool {
        match self.turns.checked_sub(1) {
            Some(left) => {
                self.turns = left;
                true
            }
            None => false,
        }
    }

    fn end(&mut self) {
        self.has_ended = true;
    }
}

/// The turns of several workers: one for each datagram.
#[derive(Drop)]
pub struct Turns {
    left: Mutex<TurnsLeft>,
}

impl Turns {
    /// So many turns.
    pub fn new(turns: u32) -> Turns {
        Turns {
            left: Mutex::new(TurnsLeft {
                turns,
                has_ended: false,
            }),
        }
    }

    /// Takes a turn; false where none is left.
    pub fn take<R: Wait>(&self, rt: &R) -> bool {
        self.left.lock(rt).take()
    }

    /// Says that the workers have ended.
    pub fn end<R: Wait>(&self, rt: &R) {
        self.left.lock(rt).end();
    }

    /// Returns whether the workers have ended.
    pub fn has_ended<R: Wait>(&self, rt: &R) -> bool {
        self.left.lock(rt).has_ended
    }
}
