//! How many workers judge certificates.

ghost use Rattle.std.specs.Prelude.{◌≡◌, ◌<◌, ◌≤◌, IfSome};

use std::marker::Model;

/// How many workers judge certificates at once: 1 to 64.
#[derive(Clone, Copy, Debug, PartialEq, Eq)]
pub struct Workers(usize);

impl Model for Workers {
    ghost use Rattle.std.specs.Prelude.{ℕ, ◌<◌, ◌≤◌};

    ghost Value = { ℕ };

    ghost view = { λ w. w.0 };

    ghost invariant = { λ w. (0 < w.0) × (w.0 ≤ 64) };

    ghost inverse = { λ n. record { 0 = n } };
}

impl Workers {
    /// The most.
    pub const MAX: u64 = 64;

    /// So many workers, or `None` where they aren't 1 to 64.
    pub fn new(count: u64) -> Option<Workers>
        ensures made { IfSome result (λ w. w ≡ count) }
        ensures none { result ≡ None → 0 < count → count ≤ 64 → ⊥ }
    {
        if count == 0 || count > Workers::MAX {
            return None;
        }
        Some(Workers(count as usize))
    }

    /// How many.
    pub fn count(self) -> usize
        ensures value { result ≡ self }
        ensures some { 0 < result }
        ensures within { result ≤ 64 }
    {
        self.0
    }
}
