//! Moments in the local time of a zone.
//!
//! A [`ZoneFile`] is what a zone's file says (TZif, RFC 9636), from its octets; [`push_local`] writes a moment as a
//! clock of that zone shows it, with its offset (RFC 3339, section 5.6). specs/Local says what is written.
//!
//! ```text
//! let zone = ZoneFile::read(alloc, &octets)?;
//! push_local(&mut out, alloc, &zone, moment)?; // 2026-10-25T02:30:00.000+01:00
//! ```
#![tactic(auto)]

mod error;
mod local;
mod shown;
mod zone;

pub use error::ZoneError;
pub use local::push_local;
pub use shown::ShownMoments;
pub use zone::ZoneFile;
