//! Where a datagram came from, and when.

use server_clocks::Moment;

/// Who sent a datagram, and what the clocks read when it was heard: before anything was done for it.
#[derive(Drop)]
pub struct Arrival<P> {
    pub peer: P,
    /// Its orders are done at this moment's reading, and its answer waits from this moment's instant on.
    pub heard: Moment,
}
