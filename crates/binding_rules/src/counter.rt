//! Counters.

ghost use Rattle.std.specs.Prelude.{◌≡◌, ◌+◌, ◌^◌, ◌<◌, ◌≤◌, ◌↔◌, IsSome, IfSome};

use std::marker::Model;

/// How often something happened at a server, as the changes of a unit, the messages sent, the restarts: at
/// most 2^49.
#[derive(Clone, Copy, Debug, PartialEq, Eq, PartialOrd, Ord)]
pub struct Counter(u64);

impl Model for Counter {
    ghost use Rattle.std.specs.Prelude.{ℕ, ◌^◌, ◌≤◌};

    ghost Value = { ℕ };

    ghost view = { λ c. c.0 };

    ghost invariant = { λ c. c.0 ≤ 2 ^ 49 };

    ghost inverse = { λ n. record { 0 = n } };
}

impl Counter {
    /// The greatest count.
    pub const MAX: u64 = 562_949_953_421_312;

    /// Nothing happened yet.
    pub const ZERO: Counter = Counter(0);

    /// The counter at this number, or `None` where it is over 2^49.
    pub fn new(number: u64) -> Option<Counter>
        ensures made { IfSome result (λ c. c ≡ number) }
        ensures fits { IsSome result ↔ (number ≤ 2 ^ 49) }
    {
        if number <= Counter::MAX {
            Some(Counter(number))
        } else {
            None
        }
    }

    /// The number.
    pub fn number(self) -> u64
        ensures value { result ≡ self }
        ensures within { result ≤ 2 ^ 49 }
    {
        self.0
    }
    /// The counter after one more, where it is under 2^49.
    pub fn next(self) -> Counter
        requires { self < 2 ^ 49 }
        ensures { result ≡ self + 1 }
    {
        Counter(self.0 + 1)
    }
}
