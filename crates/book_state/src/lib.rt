//! The state of a server's book as plain definitions, and the effect of each journal line on it. `next` computes the
//! numbers after a line, and a `Change` is the one unit that a line changes. It doesn't check whether the line is
//! allowed: `book_rules` does.
//!
//! A state has numbers ([`StateNumbers`]), pools ([`Pool`]) and a unit for each prefix that these delegate ([`Units`],
//! found by pool and offset). `next` gives the numbers behind a line; a [`Change`] is the one unit that a line changes;
//! [`Place`] is how far the head lines of a volume have come. Which lines may follow is said by the rules, in
//! `book_rules`.
//!
//! The definitions stand in specs/ and cite no code: the book (`Book`), what each line makes of it (`Effects`), and the
//! order of a volume's head lines (`HeadOrder`). `Changes` has a line's effect in two parts, on the numbers and on one
//! unit, and `Places` where the units stand.
//!
//! ```text
//! let unit = changed(&was, expired(&was.status), Status::Expired);
//! units.change(&Some(Change { prefix, unit })); // and then numbers.next(&line)
//! ```
#![tactic(auto)]

mod book_numbers;
mod change;
mod head_order;
mod next_numbers;
mod place;
mod pool;
mod unit_changes;
mod units;

pub use book_numbers::{GREATEST_START, StateNumbers, YEAR};
pub use change::Change;
pub use place::Place;
pub use pool::{MOST_POOLS, MOST_UNITS, Pool};
pub use unit_changes::{changed, expired, seized, unit_of};
pub use units::Units;
