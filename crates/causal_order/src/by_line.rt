//! Lists whose entries each name a line, and are found by it.

ghost use Rattle.std.specs.Prelude.{◌≡◌, ◌↔◌, ℕ, ◌+◌, ◌<◌, ◌≤◌, [], ◌∷◌, ◌++◌, length, IfErr, OnOk};
ghost use Rattle.std.specs.Prelude.{Contains as Has, slice_index_or};
ghost use Rattle.std.specs.List.{insert};
ghost use Rattle.std.specs.List.Sorted.{IsNonDecreasingBy};
ghost use Rattle.causal_order.specs.declared.reference.Ref.{Ref as RefValue};
ghost use Rattle.causal_order.specs.Naming.{NamesAt};
ghost use Rattle.causal_order.specs.WrittenOrder.{place_of, place_at, IsOrder};

use crate::reference::Ref;
use binding_rules::Role;
use std::alloc::{AllocError, Global};
use std::marker::Model;

/// An entry of a certificate, which names one line.
pub trait NamesLine {
    /// The line that it names.
    ghost named: { Self → RefValue };

    /// The line that it names.
    fn line(&self) -> Ref
        ensures { result ≡ named self.now };
}

/// Entries in the order in which they are written. Those that name a line are found by a search. Contracts see the
/// list.
#[derive(Debug, Drop)]
pub struct ByLine<T: NamesLine> {
    entries: Vec<T>,
    /// The indexes of the entries, in the order of the lines that they name.
    order: Vec<u32>,
}

impl<T: NamesLine> Model for ByLine<T> {
    ghost use Rattle.std.specs.Prelude.{List};
    ghost use Rattle.causal_order.specs.WrittenOrder.{IsOrder};

    ghost Value = { List T };

    ghost view = { λ l. l.entries.items };

    ghost invariant = { λ l. IsOrder T.named l.entries.items l.order.items };
}

/// The place of a line among all: the primary's before the secondary's, and then by number.
fn place_of(line: Ref) -> u64
    ensures { result ≡ place_of line }
{
    let place = 1 + u64::from(line.number);
    match line.side {
        Role::Primary => place,
        Role::Secondary => place + (1 << 32),
    }
}

/// The place of the line that the entry at this index names, or 0 where there is none.
fn place_at<T: NamesLine>(entries: &[T], index: u32) -> u64
    ensures { result ≡ place_at T.named entries.now index }
{
    match entries.get(index as usize) {
        Some(entry) => place_of(entry.line()),
        None => 0,
    }
}

/// Returns how many of the indexes are those of entries whose lines come before this place.
fn count_before<T: NamesLine>(entries: &[T], order: &[u32], place: u64) -> usize
    requires { IsNonDecreasingBy (place_at T.named entries.now) order.now }
    ensures within { result ≤ length order.now }
    ensures before { (i : ℕ) (d : _) → i < result
        → place_at T.named entries.now (slice_index_or order.now i d) < place }
    ensures rest { (i : ℕ) (d : _) → result ≤ i → i < length order.now
        → place ≤ place_at T.named entries.now (slice_index_or order.now i d) }
{
    order.partition_point(|index| place_at(entries, *index) < place)
}

/// The indexes of the entries that name the line.
#[tactic(auto, using(crate::proofs::Orders::in_order))]
fn naming_in<'a, T: NamesLine>(entries: &[T], order: &'a [u32], line: Ref) -> &'a [u32]
    requires { IsOrder T.named entries.now order.now }
    ensures { (k : ℕ) → Has result.now k ↔ NamesAt T.named entries.now line k }
{
    let place = place_of(line);
    let first = count_before(entries, order, place);
    let behind = count_before(entries, order, place + 1);
    &order[first..behind]
}

/// Where the index of one more entry stands in the order: behind those whose lines don't come after its own.
fn behind_all<T: NamesLine>(entries: &[T], order: &[u32], entry: &T) -> usize
    requires { IsOrder T.named entries.now order.now }
    ensures within { result ≤ length order.now }
    ensures order { IsOrder T.named (entries.now ++ entry.now ∷ []) (insert order.now result (length entries.now)) }
{
    count_before(entries, order, place_of(entry.line()) + 1)
}

impl<T: NamesLine> ByLine<T> {
    /// No entries.
    pub fn new(alloc: Global) -> ByLine<T>
        ensures { result ≡ [] }
    {
        ByLine {
            entries: Vec::new(alloc),
            order: Vec::new(alloc),
        }
    }

    /// The entries, lent.
    pub fn as_slice(&self) -> &[T]
        ensures { result.now ≡ self.now }
    {
        &self.entries
    }

    /// The indexes of the entries that name the line.
    pub fn naming(&self, line: Ref) -> &[u32]
        ensures { (k : ℕ) → Has result.now k ↔ NamesAt T.named self.now line k }
    {
        naming_in(&self.entries, &self.order, line)
    }
}

impl<T: NamesLine + Drop> ByLine<T> {
    /// Appends an entry. Where the growth is refused, or 2^32 entries stand, the list is as it was.
    pub fn push(&mut self, entry: T) -> Result<(), AllocError>
        ensures pushed { OnOk result (self.new ≡ self.old ++ entry ∷ []) }
        ensures refused { IfErr result (λ _. self.new ≡ self.old) }
    {
        let Ok(index) = u32::try_from(self.entries.len()) else {
            return Err(AllocError);
        };
        let behind = behind_all(&self.entries, &self.order, &entry);
        self.order.reserve(1)?;
        self.entries.push(entry)?;
        self.order.insert(behind, index)?;
        Ok(())
    }
}
