//! Which volumes some files have, one line each, and which are missing between them.
//!
//! [`listed_in`] says what the octets of a file are: a volume, with its lines counted and the SHA-256 of all its octets.
//! [`listing_of`] says it of each of some files, which are read whole, one at a time. [`missing_of`] gives the numbers of
//! a side that no file has, between the least and the greatest that one has. specs/Listing says what is listed.
//!
//! ```text
//! let listing = listing_of(alloc, &files)?;
//! push_volume(&mut out, volume)?; // A 12 2026-11-22T20:00:00.000Z 2026-11-22T23:00:00.000Z 5 closed 312 9f86..
//! ```
#![tactic(auto)]

mod listed;
mod listing;
mod missing;
mod writing;

pub use listed::{ListedVolume, listed_in};
pub use listing::{FileVolume, VolumeListing, listing_of};
pub use missing::{MissingVolumes, missing_of};
pub use writing::{push_missing, push_volume};
