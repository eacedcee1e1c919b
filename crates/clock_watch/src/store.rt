//! Where a record is kept.

use crate::record::ClockRecord;
use lead_time::Reading;

/// The record of a server's directory, and what the system says now.
pub trait ClockStore: Drop {
    /// The record that was kept last; `None` where there is none, or it can't be read.
    fn recorded(&self) -> Option<ClockRecord>;

    /// The record of now, where the time of day reads `wall`; `None` where the system doesn't say which boot it is or
    /// how long it has run.
    fn present(&self, wall: Reading) -> Option<ClockRecord>;

    /// Keeps a record in place of the last. Where it can't be kept the server goes on without it: nothing is said.
    fn keep(&mut self, record: &ClockRecord);
}
