//! Which units of a book wait for something to be done.

ghost use Rattle.std.specs.Prelude.{IsTrue};
ghost use Rattle.prefix_range.specs.Prefix.{Prefix as PrefixValue};
ghost use Rattle.unit_index.specs.Units.{IsLeastOf, IsUsable};
ghost use Rattle.unit_index.specs.Queries.{IsToExpire, IsFirstExpiry, IsToSeize, HasReply, HasChange, HasMark};
ghost use Rattle.order_book.specs.Replayed.{state_of};

use crate::book::Book;
use lead_time::{End, Reading, is_past};
use prefix_range::Prefix;
use unit_index::{UnitQuery, first_end, lowest, lowest_from};

impl Book {
    /// Returns whether a lease has ended, as far as that can be told with no look at a unit.
    fn has_ended_lease(&self, now: Reading) -> bool
        ensures { (p : PrefixValue) → IsToExpire (state_of self.now) now p → IsTrue result }
    {
        match first_end(self.register()) {
            Some(first) => is_past(now, first),
            None => false,
        }
    }

    /// The lowest unit that an Expire ends at a reading: its lease has ended, by this server's clock and by what the
    /// partner told.
    pub fn first_to_expire(&self, now: Reading) -> Option<Prefix>
        ensures { IsLeastOf (IsToExpire (state_of self.now) now) result }
    {
        if !self.has_ended_lease(now) {
            return None;
        }
        lowest(self.register(), &UnitQuery::Expirable(now))
    }

    /// The first reading at which an Expire ends a unit, in milliseconds; none while no unit is delegated. It looks at
    /// no unit.
    pub fn first_expiry(&self) -> Option<End>
        ensures { IsFirstExpiry (state_of self.now) result }
    {
        first_end(self.register())
    }

    /// The lowest unit that a Seize takes over at a reading; none while the partner isn't taken for down.
    pub fn first_to_seize(&self, now: Reading) -> Option<Prefix>
        ensures { IsLeastOf (IsToSeize (state_of self.now) now) result }
    {
        // While the partner isn't taken for down, no unit is looked at.
        self.down()?;
        lowest(self.register(), &UnitQuery::Seizable(now))
    }

    /// The lowest unit that the server may give to any client.
    pub fn first_usable(&self) -> Option<Prefix>
        ensures { IsLeastOf (IsUsable (state_of self.now)) result }
    {
        lowest(self.register(), &UnitQuery::Usable)
    }

    /// The lowest unit with a pending reply that begins at an address or above.
    pub fn next_reply(&self, from: u128) -> Option<Prefix>
        ensures { IsLeastOf (HasReply (state_of self.now) from) result }
    {
        lowest_from(self.register(), &UnitQuery::Pending, from)
    }

    /// The lowest unit with a change that is due to be told that begins at an address or above.
    pub fn next_change(&self, from: u128) -> Option<Prefix>
        ensures { IsLeastOf (HasChange (state_of self.now) from) result }
    {
        lowest_from(self.register(), &UnitQuery::Due, from)
    }

    /// The lowest unit that begins at an address or above, was seized, and isn't acknowledged yet.
    pub fn next_mark(&self, from: u128) -> Option<Prefix>
        ensures { IsLeastOf (HasMark (state_of self.now) from) result }
    {
        lowest_from(self.register(), &UnitQuery::Marked, from)
    }
}
