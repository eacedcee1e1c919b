//! Which book.

ghost use Rattle.std.specs.Prelude.{ℕ};

use std::marker::Brand;
use std::sync::ledger::Ledger;

/// Names one shared book: how many passes it has, and with how many lines it was opened. Each pass has one part of the
/// ledger.
pub trait BookName: Ledger {
    ghost passes: { ℕ };

    ghost opened: { ℕ };
}

impl BookName for Brand {
    ghost passes = { 0 };

    ghost opened = { 0 };
}
