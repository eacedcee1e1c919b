//! Who may have had a prefix round a moment: for a search that names nobody, why it doesn't.
//!
//! [`candidate_leases`] finds each delegation of an address of a prefix that may have been a client's within a day of a
//! moment, by the reading of the line that tells of it, and says of each what both journals show of the moment
//! ([`AtMoment`]): also whether volumes that aren't here may have given it back. [`no_holder_reason`] says why nobody
//! is named: the first reason of a list that holds ([`NoHolderReason`]). Only the lines' own readings are looked at:
//! chains of messages may show more, and a search looks for those. specs/Conditions, Near and Why say what is shown and
//! what is said.
//!
//! Two laws (specs/Laws): a lease that is said to have been its client's is a valid delegation in every run of the pair
//! that leaves the journals ([`shown_is_valid`]), and where nobody is said to have had the prefix, nobody held an
//! address of it ([`nobody_is_true`]).
#![tactic(auto)]

mod at_moment;
mod candidates;
mod edges;
mod laws;
mod pools;
mod sums;
mod volume_ends;
mod why;

pub use at_moment::{AtMoment, state_at};
pub use candidates::{CandidateLease, candidate_leases};
pub use laws::{nobody_is_true, shown_is_valid};
pub use sums::{begun_by, ends_by, lasts_from, may_begin};
pub use volume_ends::{VolumeEnd, VolumeEnds};
pub use why::{NoHolderReason, no_holder_reason};
