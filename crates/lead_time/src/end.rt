//! Ends of leases, as servers tell them.

ghost use Rattle.std.specs.Prelude.{◌≡◌, ◌^◌, ◌<◌, ◌≤◌, ◌↔◌, IfOk, IsErrOf};

use crate::error::LeadTimeError;
use std::marker::Model;

/// When a lease ends by a server's clock, in whole milliseconds since 1970 UTC: at most 2^49.
#[derive(Clone, Copy, Debug, PartialEq, Eq, PartialOrd, Ord)]
pub struct End(u64);

impl Model for End {
    ghost use Rattle.std.specs.Prelude.{ℕ, ◌^◌, ◌≤◌};

    ghost Value = { ℕ };

    ghost view = { λ e. e.0 };

    ghost invariant = { λ e. e.0 ≤ 2 ^ 49 };

    ghost inverse = { λ n. record { 0 = n } };
}

impl End {
    /// The latest end, in milliseconds.
    pub const MAX: u64 = 562_949_953_421_312;

    /// No end yet.
    pub const ZERO: End = End(0);

    /// The end after this many milliseconds, or `EndTooLarge` where they are over 2^49.
    pub fn new(milliseconds: u64) -> Result<End, LeadTimeError>
        ensures made { IfOk result (λ e. e ≡ milliseconds) }
        ensures too_large { IsErrOf result LeadTimeError.EndTooLarge ↔ (2 ^ 49 < milliseconds) }
        ensures fits { milliseconds ≤ 2 ^ 49 → result ≡ Ok milliseconds }
    {
        if milliseconds > End::MAX {
            return Err(LeadTimeError::EndTooLarge);
        }
        Ok(End(milliseconds))
    }

    /// The end at a sum that is within the limit.
    pub(crate) fn from_sum(milliseconds: u64) -> End
        requires { milliseconds ≤ 2 ^ 49 }
        ensures { result ≡ milliseconds }
    {
        End(milliseconds)
    }

    /// The milliseconds since 1970 UTC.
    pub fn milliseconds(self) -> u64
        ensures value { result ≡ self }
        ensures within { result ≤ 2 ^ 49 }
    {
        self.0
    }
}
