//! What single lines of two journals show of who held a prefix.
//!
//! A search asks a [`Query`]: whether a client held a whole prefix from one moment up to another. [`pieces`] goes from
//! grant to grant of the holder's, by the one that carries on longest, and [`foreign_entries`] gives the reason why
//! each other client's delegation stays out of the interval. Both look at single lines and at pairs of them: two lines
//! are ordered by their journal, or by clocks that are further apart than both skews. Where they find nothing, no
//! certificate that is made of such lines is accepted (specs/Plain), which `evidence_search` proves.
//!
//! [`ReleaseCache`] keeps the releases that were asked for last, so that each delegation's are collected once. What a
//! search through messages needs of single lines is exported too. specs/Search and specs/Collected are for bodies only.
//!
//! ```text
//! let foreign = foreign_entries(alloc, source, query)?;
//! let pieces = pieces(alloc, source, query)?;
//! ```
#![tactic(auto)]

mod asking;
mod collected;
mod error;
mod foreign;
mod ordering;
mod plain_pieces;
mod query;
mod reach;
mod recent;
mod releases;
mod sweep;
mod walking;

pub use asking::{lease_at, reading_at};
pub use collected::DatedRelease;
pub use error::FindError;
pub use foreign::{begins_late, foreign_entries, has_ended, others_at};
pub use ordering::{are_apart, is_plainly_before, plain_order};
pub use plain_pieces::pieces;
pub use query::{HolderQuery, Query};
pub use reach::{
    Candidate, CarriedSpan, begin_of, is_holders, lease_limit, less_skew, reach_at, reaches,
};
pub use recent::ReleaseCache;
pub use releases::{first_read, first_returning};
pub use sweep::{SweepState, farthest, pass, sort};
