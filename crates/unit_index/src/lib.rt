//! An index over the units of a book: the lowest unit in a given state, and the units of a client. A segment tree over
//! each pool and an ordered set of leases answer in logarithmic time; `enter` updates both for one journal line. It
//! never decides which unit to use: callers ask, by a `UnitQuery`.
//!
//! A [`UnitIndex`] is a book's table with what finds its units. `lowest` and `lowest_from` answer the lowest unit that
//! is [`UnitQuery`]: over the units of each pool stands a tree of kinds, each of which says what one of the units below
//! it may be, so that one is found in few steps. `lowest_bound` answers the lowest unit that a client has under an
//! identity association, out of a set in that order, and `first_end` when the first lease ends. `enter` follows a line
//! of the journal: a line changes at most one unit, and the kinds over it.
//!
//! What is found is defined over the book alone (specs/Units, Queries, Searching); the trees are for bodies only.
//!
//! ```text
//! let register = UnitIndex::of(alloc, table)?;
//! let unit = lowest(&register, &UnitQuery::Usable); // the lowest that the server may give
//! ```
#![tactic(auto)]

mod ending;
mod kind_tree;
mod leasing;
mod pool_tree;
mod searching;
mod subject;
mod unit_index;
mod unit_kinds;

pub use ending::first_end;
pub use searching::{UnitQuery, lowest, lowest_from};
pub use subject::subject_of;
pub use unit_index::UnitIndex;
