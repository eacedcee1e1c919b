//! How long an answer may be under way.

ghost use Rattle.std.specs.Prelude.{◌≡◌, ◌<◌, ◌≤◌, ◌↔◌, IfOk, IsErrOf};

use crate::error::LeadTimeError;
use std::marker::Model;

/// The most by which an answer may reach its client after its grant was written, in milliseconds: at most an hour.
#[derive(Clone, Copy, Debug, PartialEq, Eq, PartialOrd, Ord)]
pub struct Transit(u64);

impl Model for Transit {
    ghost use Rattle.std.specs.Prelude.{ℕ, ◌≤◌};

    ghost Value = { ℕ };

    ghost view = { λ d. d.0 };

    ghost invariant = { λ d. d.0 ≤ 3600000 };

    ghost inverse = { λ n. record { 0 = n } };
}

impl Transit {
    /// The greatest transit, in milliseconds.
    pub const MAX: u64 = 3_600_000;

    /// An answer reaches its client as soon as its grant is written.
    pub const ZERO: Transit = Transit(0);

    /// The transit of this many milliseconds, or `TransitTooLarge` where they are over 3,600,000.
    pub fn new(milliseconds: u64) -> Result<Transit, LeadTimeError>
        ensures made { IfOk result (λ d. d ≡ milliseconds) }
        ensures too_large { IsErrOf result LeadTimeError.TransitTooLarge ↔ (3600000 < milliseconds) }
        ensures fits { milliseconds ≤ 3600000 → result ≡ Ok milliseconds }
    {
        if milliseconds > Transit::MAX {
            return Err(LeadTimeError::TransitTooLarge);
        }
        Ok(Transit(milliseconds))
    }

    /// The milliseconds.
    pub fn milliseconds(self) -> u64
        ensures value { result ≡ self }
        ensures within { result ≤ 3600000 }
    {
        self.0
    }
}
