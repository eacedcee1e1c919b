//! A chart of the kinds of a pool's units.

ghost use Rattle.unit_index.specs.KindTreeForms.{IsKindTree};

mod nodes;

use crate::unit_kinds::UnitKinds;

/// The kinds of 2^levels units: those of them all, then those of each half, and so on to those of the units.
#[derive(Drop)]
pub(crate) struct KindTree {
    pub(crate) levels: u8,
    pub(crate) nodes: Vec<UnitKinds>,
    ghost whole: { IsKindTree levels nodes.items },
}
