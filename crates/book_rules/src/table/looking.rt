//! What a table tells of its book.

ghost use Rattle.std.specs.Prelude.{◌≡◌, ◌+◌, ◌^◌, ◌<◌, ◌≤◌, MatchOption, true, false};
ghost use Rattle.book_state.specs.Book.{is_unit};
ghost use Rattle.book_state.specs.Places.{ArePools};
ghost use Rattle.book_rules.specs.State.{state};

use crate::table::Table;
use binding_rules::{Counter, Role, Unit};
use book_state::Pool;
use lead_time::{Reading, Skew, Transit};
use prefix_range::Prefix;

impl Table {
    /// Whose book it is.
    pub fn role(&self) -> Role
        ensures { result ≡ (state self.now).role }
    {
        self.numbers.role
    }

    /// The volume's number, from 1.
    pub fn volume(&self) -> u32
        ensures { result ≡ (state self.now).volume }
    {
        self.numbers.volume
    }

    /// The most by which the server's clock may be wrong.
    pub fn skew(&self) -> Skew
        ensures { result ≡ (state self.now).skew }
    {
        self.numbers.skew
    }

    /// The maximum client lead time, in seconds.
    pub fn mclt(&self) -> u32
        ensures { result ≡ (state self.now).mclt }
    {
        self.numbers.mclt
    }

    /// The desired lifetime, in seconds.
    pub fn life(&self) -> u32
        ensures { result ≡ (state self.now).life }
    {
        self.numbers.life
    }

    /// The most by which an answer may be under way.
    pub fn transit(&self) -> Transit
        ensures { result ≡ (state self.now).transit }
    {
        self.numbers.transit
    }

    /// Returns how many lines led here.
    pub fn count(&self) -> u32
        ensures count { result ≡ (state self.now).count }
        ensures few { result ≤ 2 ^ 20 }
    {
        self.numbers.count
    }

    /// The reading of the last line.
    pub fn reading(&self) -> Reading
        ensures { result ≡ (state self.now).reading }
    {
        self.numbers.reading
    }

    /// Returns whether the last line was a close line.
    pub fn is_closed(&self) -> bool
        ensures { result ≡ (state self.now).closed }
    {
        self.numbers.closed
    }

    /// The term of the server's messages.
    pub fn term(&self) -> u32
        ensures { result ≡ (state self.now).term }
    {
        self.numbers.term
    }

    /// The serial of the last message sent.
    pub fn serial(&self) -> Counter
        ensures serial { result ≡ (state self.now).serial }
        ensures fits { result < 2 ^ 49 }
    {
        self.numbers.serial
    }

    /// The number of the last restart.
    pub fn restart(&self) -> Counter
        ensures restart { result ≡ (state self.now).restart }
        ensures fits { result < 2 ^ 49 }
    {
        self.numbers.restart
    }

    /// Returns whether the server waits for its partner's answer to the last restart.
    pub fn is_waiting(&self) -> bool
        ensures { result ≡ (state self.now).waiting }
    {
        self.numbers.waiting
    }

    /// The number that the partner asked last.
    pub fn asked(&self) -> Counter
        ensures { result ≡ (state self.now).asked }
    {
        self.numbers.asked
    }

    /// The reading since which the partner is taken for down.
    pub fn down(&self) -> Option<Reading>
        ensures { result ≡ (state self.now).down }
    {
        self.numbers.down
    }

    /// The pools, in the order of their lines.
    pub fn pools(&self) -> &[Pool]
        ensures pools { result.now ≡ (state self.now).pools }
        ensures whole { ArePools result.now }
    {
        self.units.pools()
    }

    /// The unit of a prefix; `None` where the prefix is none of a pool's units.
    pub fn unit(&self, prefix: &Prefix) -> Option<Unit>
        ensures { MatchOption result (is_unit (state self.now).pools prefix.now ≡ false)
            (λ u. (is_unit (state self.now).pools prefix.now ≡ true) × (u ≡ (state self.now).units prefix.now)) }
    {
        if self.units.has(prefix) {
            Some(*self.units.unit(prefix))
        } else {
            None
        }
    }

    /// The unit of a prefix, or a fresh one where the prefix is none.
    pub fn unit_or_fresh(&self, prefix: &Prefix) -> Unit
        ensures unit { result ≡ (state self.now).units prefix.now }
        ensures counted { result.mine ≤ 2 ^ 48 + self.now.numbers.count }
        ensures fits { result.mine < 2 ^ 49 }
    {
        *self.units.unit(prefix)
    }
}
