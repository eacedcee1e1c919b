//! Moments as people write them (RFC 3339).
//!
//! [`read_time`] finds the moment that a text spells, at any offset and with up to three decimals of a second;
//! [`push_time`] writes one in UTC, which is read as that moment again (law [`times_are_read_again`]). specs/Calendar
//! says
//! the calendar, specs/Time the texts.
//!
//! ```text
//! let at = read_time(b"2026-11-23T22:37:00.5+01:00"); // Some(1795469820500)
//! push_time(&mut out, at)?; // 2026-11-23T21:37:00.500Z
//! ```
#![tactic(auto)]

mod calendar;
mod clock;
mod form;
mod laws;
mod moment;
mod reading;
mod writing;

pub use laws::times_are_read_again;
pub use reading::read_time;
pub use writing::push_time;
