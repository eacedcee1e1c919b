//! The last grant line of each unit.

ghost use Rattle.std.specs.Prelude.{◌≡◌, IsTrue, OnOk, Some, None, if◌then◌else◌, IsSome};
ghost use Rattle.std.specs.BTreeMap.{get};
ghost use Rattle.prefix_range.specs.Prefix.{Prefix as PrefixValue};
ghost use Rattle.book_state.specs.Effects.{same_prefix};
ghost use Rattle.book_rules.specs.State.{state};
ghost use Rattle.order_book.specs.LatestGrants.{ends_lease, latest_by};
ghost use Rattle.order_book.specs.LatestPlaces.{key_of, key_cmp, place_in, HasRoom};

use binding_rules::UnitStatus;
use book_rules::Table;
use journal_lines::Event;
use prefix_range::Prefix;
use std::alloc::{AllocError, Global};
use std::collections::BTreeMap;
use unit_index::subject_of;

fn key_of(prefix: &Prefix) -> (u128, u8)
    ensures { result ≡ key_of prefix.now }
{
    (prefix.first(), prefix.len())
}

/// Returns whether a line about a unit, which it leaves in this state, ends what a client had by a grant before.
fn ends_lease(event: &Event, status: &UnitStatus) -> bool
    ensures { result ≡ ends_lease event.now status.now }
{
    match (event, status) {
        (Event::Unit(_), _) => true,
        (_, UnitStatus::Active(_)) => false,
        _ => true,
    }
}

/// The places of last grant lines among a volume's lines, from 0, by unit.
#[derive(Drop)]
pub(crate) struct LatestGrants {
    /// By the address and length of a unit; there may be room for a unit that has none.
    pub(crate) places: BTreeMap<(u128, u8), Option<usize>>,
}

impl LatestGrants {
    /// No line yet.
    pub(crate) fn new(alloc: Global) -> LatestGrants
        ensures { (q : PrefixValue) → place_in result.places q ≡ None }
    {
        LatestGrants {
            places: BTreeMap::new(alloc),
        }
    }

    /// The place of a unit's last grant line, from 0.
    pub(crate) fn place(&self, prefix: &Prefix) -> Option<usize>
        ensures { result ≡ place_in self.now.places prefix.now }
    {
        match self.places.get(&key_of(prefix)) {
            Some(place) => *place,
            None => None,
        }
    }

    /// Makes room for a unit. Where the memory is refused nothing has changed.
    fn reserve_unit(&mut self, prefix: &Prefix) -> Result<(), AllocError>
        ensures same { (q : PrefixValue) → place_in self.new.places q ≡ place_in self.old.places q }
        ensures room { OnOk result (IsSome (get key_cmp self.new.places (key_of prefix.now))) }
    {
        let key = key_of(prefix);
        if !self.places.contains_key(&key) {
            self.places.insert(key, None)?;
        }
        Ok(())
    }

    /// Makes room for what a line of this event brings. Where the memory is refused nothing has changed.
    pub(crate) fn reserve(&mut self, event: &Event) -> Result<(), AllocError>
        ensures same { (q : PrefixValue) → place_in self.new.places q ≡ place_in self.old.places q }
        ensures room { OnOk result (HasRoom self.new.places event.now) }
    {
        match event {
            Event::Grant(lease) => self.reserve_unit(&lease.prefix),
            _ => Ok(()),
        }
    }

    /// A unit is granted by the line at a place.
    fn set(&mut self, prefix: &Prefix, place: usize)
        requires { IsSome (get key_cmp self.old.places (key_of prefix.now)) }
        ensures { (q : PrefixValue) → place_in self.new.places q
            ≡ (if same_prefix prefix.now q then Some place else place_in self.old.places q) }
    {
        match self.places.insert(key_of(prefix), Some(place)) {
            Ok(_) => {}
            Err(_) => unreachable!(),
        }
    }

    /// What a client had of a unit has ended.
    fn end(&mut self, prefix: &Prefix)
        ensures { (q : PrefixValue) → place_in self.new.places q
            ≡ (if same_prefix prefix.now q then None else place_in self.old.places q) }
    {
        self.places.remove(&key_of(prefix));
    }

    /// Notes the line at a place, for which there is room; the table is as that line leaves it.
    pub(crate) fn note(&mut self, table: &Table, place: usize, event: &Event)
        requires { HasRoom self.old.places event.now }
        ensures { (q : PrefixValue) → place_in self.new.places q
            ≡ latest_by (state table.now) place event.now q (place_in self.old.places q) }
    {
        match event {
            Event::Grant(lease) => self.set(&lease.prefix, place),
            _ => {
                if let Some(prefix) = subject_of(event) {
                    if ends_lease(event, &table.unit_or_fresh(&prefix).status) {
                        self.end(&prefix);
                    }
                }
            }
        }
    }
}
