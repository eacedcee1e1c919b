//! The kinds of a pool's units, so that one of a kind is found in few steps.

ghost use Rattle.std.specs.Prelude.{ℕ, ◌≡◌, ◌≢◌, ◌+◌, ◌*◌, ◌^◌, ◌<◌, ◌≤◌, ◌==◌};
ghost use Rattle.std.specs.Prelude.{length, IfSome, IfNone, IfOk, if◌then◌else◌};
ghost use Rattle.unit_index.specs.KindTreeForms.{at, IsJoined};
ghost use Rattle.unit_index.specs.KindTrees.{leaf, IsFree, IsSpan, IsLeastEnd};

use crate::kind_tree::KindTree;
use crate::searching::UnitQuery;
use crate::unit_kinds::UnitKinds;
use lead_time::End;
use std::alloc::{AllocError, Global};

/// Returns how many units have this many levels of kinds above them.
fn places(levels: u8) -> usize
    requires { levels ≤ 16 }
    ensures { result ≡ 2 ^ levels }
{
    1usize << levels
}

/// Joins anew all that stands above a kinds that changed.
fn raise(nodes: &mut [UnitKinds], count: usize, from: usize)
    requires whole { length nodes.old ≡ 2 * count }
    requires few { count ≤ 65536 }
    requires below { from < count }
    requires others { (i : ℕ) → 1 ≤ i → i < count → i ≢ from → IsJoined nodes.old i }
    ensures whole { length nodes.new ≡ length nodes.old }
    ensures joined { (i : ℕ) → 1 ≤ i → i < count → IsJoined nodes.new i }
    ensures leaves { (k : ℕ) → count ≤ k → at nodes.new k ≡ at nodes.old k }
{
    let mut node = from;
    while node > 0 {
        let both = nodes[2 * node].joined(&nodes[2 * node + 1]);
        nodes[node] = both;
        node /= 2;
    }
}

impl KindTree {
    /// The kinds of 2^levels units that nothing is known of yet.
    pub(crate) fn new(alloc: Global, levels: u8) -> Result<KindTree, AllocError>
        requires { levels ≤ 16 }
        ensures levels { IfOk result (λ c. c.levels ≡ levels) }
    {
        let mut nodes = Vec::new(alloc);
        nodes.resize(2 * places(levels), UnitKinds::nothing())?;
        Ok(KindTree { levels, nodes })
    }

    /// Notes the kinds of the unit at a place.
    pub(crate) fn put(&mut self, place: usize, kinds: UnitKinds)
        requires { place < 2 ^ self.old.levels }
        ensures levels { self.new.levels ≡ self.old.levels }
        ensures leaves { (k : ℕ) → leaf self.new k ≡ (if k == place then kinds else leaf self.old k) }
    {
        let count = places(self.levels);
        self.nodes[count + place] = kinds;
        raise(&mut self.nodes, count, (count + place) / 2);
    }

    /// The first place from a place on, of the units below a node, where a unit may be wanted.
    fn first_in(
        &self,
        wanted: &UnitQuery,
        from: usize,
        node: usize,
        start: usize,
        levels: u8,
    ) -> Option<usize>
        requires { IsSpan self.now.levels levels node start }
        ensures found { IfSome result (λ i. (start ≤ i) × (i < start + 2 ^ levels) × (from ≤ i)
            × IsFree wanted.now self.now from start i) }
        ensures none { IfNone result (IsFree wanted.now self.now from start (start + 2 ^ levels)) }
    {
        if start + places(levels) <= from {
            return None;
        }
        if !self.nodes[node].may_be(wanted) {
            return None;
        }
        if levels == 0 {
            return Some(start);
        }
        let below = levels - 1;
        let middle = start + places(below);
        match self.first_in(wanted, from, 2 * node, start, below) {
            Some(place) => Some(place),
            None => self.first_in(wanted, from, 2 * node + 1, middle, below),
        }
    }

    /// The first place from a place on where a unit may be wanted.
    pub(crate) fn next(&self, wanted: &UnitQuery, from: usize) -> Option<usize>
        ensures found { IfSome result (λ i. (from ≤ i) × (i < 2 ^ self.now.levels)
            × IsFree wanted.now self.now from 0 i) }
        ensures none { IfNone result (IsFree wanted.now self.now from 0 (2 ^ self.now.levels)) }
    {
        self.first_in(wanted, from, 1, 0, self.levels)
    }

    /// From when on one of the units may be expired.
    pub(crate) fn ends(&self) -> Option<End>
        ensures { IsLeastEnd self.now result }
    {
        self.nodes[1].ends
    }
}
