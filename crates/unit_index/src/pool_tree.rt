//! A pool with a chart of its units.

ghost use Rattle.unit_index.specs.KindTreeForms.{IsKindTreeOf};

pub(crate) mod building;

use crate::kind_tree::KindTree;
use book_rules::Pool;

/// A pool, and the kinds of its units.
#[derive(Drop)]
pub(crate) struct PoolTree {
    pub(crate) pool: Pool,
    pub(crate) chart: KindTree,
    ghost whole: { IsKindTreeOf pool chart.levels },
}
