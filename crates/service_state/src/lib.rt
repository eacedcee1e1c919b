//! Whether a running server may serve, and what it says of itself: what decides, without a device.
//!
//! A [`ServiceState`] says whether a server may serve beside what its book and its clock say: a survivor that goes on
//! without `restart` holds off (`service_of`), and one whose journal is short serves nobody any more. What a status tells
//! of a book, of its volume and of the partner is read off here (`standing_of`, `growth_of`, `units_of`), and so is when
//! the partner was told anything last ([`last_spoken`]). A [`RequestRefusal`] says why a person's request isn't done.
//!
//! ```text
//! let service = service_of(&book, is_alone, now).next(&seen, later);
//! if service.is_open() { hear(datagram) }
//! ```
#![tactic(auto)]

mod refusal;
mod reporting;
mod service;
mod speaking;

pub use refusal::RequestRefusal;
pub use reporting::{
    first_volume, going_on, growth_of, head_lines_of, journal_of, notices_of, shows_other_settings,
    standing_of, units_of, volume_of,
};
pub use service::{PartnerView, ServiceState, ShutReason, service_of};
pub use speaking::last_spoken;
