//! Readings of a clock.

ghost use Rattle.std.specs.Prelude.{◌≡◌, ◌^◌, ◌<◌, ◌≤◌, ◌↔◌, IfOk, IsErrOf};

use crate::error::LeadTimeError;
use std::marker::Model;

/// What a server's clock showed, in whole milliseconds since 1970 UTC: at most 2^48.
#[derive(Clone, Copy, Debug, PartialEq, Eq, PartialOrd, Ord)]
pub struct Reading(u64);

impl Model for Reading {
    ghost use Rattle.std.specs.Prelude.{ℕ, ◌^◌, ◌≤◌};

    ghost Value = { ℕ };

    ghost view = { λ r. r.0 };

    ghost invariant = { λ r. r.0 ≤ 2 ^ 48 };

    ghost inverse = { λ n. record { 0 = n } };
}

impl Reading {
    /// The greatest reading, in milliseconds.
    pub const MAX: u64 = 281_474_976_710_656;

    /// The reading of this many milliseconds, or `ReadingTooLarge` where they are over 2^48.
    pub fn new(milliseconds: u64) -> Result<Reading, LeadTimeError>
        ensures made { IfOk result (λ r. r ≡ milliseconds) }
        ensures too_large { IsErrOf result LeadTimeError.ReadingTooLarge ↔ (2 ^ 48 < milliseconds) }
        ensures fits { milliseconds ≤ 2 ^ 48 → result ≡ Ok milliseconds }
    {
        if milliseconds > Reading::MAX {
            return Err(LeadTimeError::ReadingTooLarge);
        }
        Ok(Reading(milliseconds))
    }

    /// The milliseconds since 1970 UTC.
    pub fn milliseconds(self) -> u64
        ensures value { result ≡ self }
        ensures within { result ≤ 2 ^ 48 }
    {
        self.0
    }
}
