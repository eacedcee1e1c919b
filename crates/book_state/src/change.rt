//! A change of one unit.

use binding_rules::Unit;
use prefix_range::Prefix;

/// A unit, and what it becomes.
#[derive(Clone, Copy, Debug)]
pub struct Change {
    pub prefix: Prefix,
    pub unit: Unit,
}
