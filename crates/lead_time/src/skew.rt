//! How far a clock may be from true time.

ghost use Rattle.std.specs.Prelude.{◌≡◌, ◌<◌, ◌≤◌, ◌↔◌, IfOk, IsErrOf};

use crate::error::LeadTimeError;
use std::marker::Model;

/// The most by which a reading and true time differ, in milliseconds: at most a day.
#[derive(Clone, Copy, Debug, PartialEq, Eq, PartialOrd, Ord)]
pub struct Skew(u64);

impl Model for Skew {
    ghost use Rattle.std.specs.Prelude.{ℕ, ◌≤◌};

    ghost Value = { ℕ };

    ghost view = { λ e. e.0 };

    ghost invariant = { λ e. e.0 ≤ 86400000 };

    ghost inverse = { λ n. record { 0 = n } };
}

impl Skew {
    /// The greatest skew, in milliseconds.
    pub const MAX: u64 = 86_400_000;

    /// The skew of this many milliseconds, or `SkewTooLarge` where they are over 86,400,000.
    pub fn new(milliseconds: u64) -> Result<Skew, LeadTimeError>
        ensures made { IfOk result (λ e. e ≡ milliseconds) }
        ensures too_large { IsErrOf result LeadTimeError.SkewTooLarge ↔ (86400000 < milliseconds) }
        ensures fits { milliseconds ≤ 86400000 → result ≡ Ok milliseconds }
    {
        if milliseconds > Skew::MAX {
            return Err(LeadTimeError::SkewTooLarge);
        }
        Ok(Skew(milliseconds))
    }

    /// The milliseconds.
    pub fn milliseconds(self) -> u64
        ensures value { result ≡ self }
        ensures within { result ≤ 86400000 }
    {
        self.0
    }
}
