//! References to lines.

use binding_rules::Role;

/// The line of a side's journal with this number, counted from 1: `A3` is the primary's third line.
#[derive(Clone, Copy, Debug, PartialEq, Eq)]
pub struct Ref {
    pub side: Role,
    pub number: u32,
}
