//! Whether somebody set a server's clock.
//!
//! The time of day less the monotonic clock changes only when somebody sets the time of day: slewing moves both. A
//! [`ClockWatch`] sees both clocks at each turn of a server, says whether the time of day was set, and what it would
//! show by the monotonic clock. A [`ClockRecord`] is what both showed, kept beside a server's volumes, so that a start
//! under the same boot of the system can tell the same: a [`ClockStore`] keeps it. A skew under 100 ms counts as 100 ms
//! here. A [`StartClock`] says whether a server's clock lets it begin, before it writes a line. It reads no clock, and
//! nothing follows of itself.
//!
//! ```text
//! let mut watch = ClockWatch::new(&clocks.now()?);
//! watch.see(&clocks.now()?, skew);
//! if watch.is_set() { .. } // until the difference is gone, or watch.accept(&now)
//! ```
#![tactic(auto)]

mod boot_id;
mod laws;
mod record;
mod record_text;
mod start;
mod store;
mod watch;

pub use boot_id::{BOOT_LENGTH, BootId};
pub use laws::what_is_set_is_seen;
pub use record::{ClockRecord, RecordVerdict};
pub use start::{PartnerLink, PartnerSight, StartClock};
pub use store::ClockStore;
pub use watch::{ClockWatch, LEAST_SKEW};
