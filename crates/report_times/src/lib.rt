//! Moments as reports of abuse spell them.
//!
//! [`read_report_time`] finds the moment that a text spells: a date with a time and an offset (RFC 3339, ISO 8601), a
//! mail's date (RFC 5322), or a number of seconds or milliseconds since 1970. A text that may be two moments is
//! refused, with what it may be. A date with a time and no offset is one on the clocks of the zone that is named
//! ([`ZoneFile`](zone_times::ZoneFile)): an hour that these show twice, or never, is refused. specs/ReportTimes says
//! what spells what.
//!
//! ```text
//! let at = read_report_time(alloc, None, b"2026-11-23 22:37:00.5+01")?;
//! let at = read_report_time(alloc, None, b"Mon, 23 Nov 2026 22:37:00 +0100")?;
//! let at = read_report_time(alloc, None, b"1795469820.5")?;
//! let at = read_report_time(alloc, Some(&zone), b"2026-11-23 22:37:00")?;
//! ```
#![tactic(auto)]

mod date_time;
mod error;
mod local_time;
mod mail_date;
mod moments;
mod parts;
mod spelling;
mod unix_time;

pub use error::ReportTimeError;
pub use local_time::read_report_time;
