//! Readings of a clock.

use crate::error::NetFault;
use lead_time::Reading;
use std::time::{Clock as Handle, SystemTime};

/// A clock that tells the time.
pub trait Clock {
    /// Returns what the clock shows now, in milliseconds.
    fn now(&self) -> Result<Reading, NetFault>;
}

/// The system's clock, by a handle of the runtime: milliseconds since 1970 (UTC).
#[derive(Drop)]
pub struct SystemClock<'a, R: Handle> {
    handle: &'a R,
}

impl<'a, R: Handle> SystemClock<'a, R> {
    pub fn new(handle: &'a R) -> SystemClock<'a, R> {
        SystemClock { handle }
    }
}

impl<'a, R: Handle> Clock for SystemClock<'a, R> {
    fn now(&self) -> Result<Reading, NetFault> {
        let Ok(now) = SystemTime::now(self.handle) else {
            return Err(NetFault);
        };
        let Ok(since) = now.duration_since(SystemTime::UNIX_EPOCH) else {
            return Err(NetFault);
        };
        let Ok(milliseconds) = u64::try_from(since.as_millis()) else {
            return Err(NetFault);
        };
        match Reading::new(milliseconds) {
            Ok(reading) => Ok(reading),
            Err(_) => Err(NetFault),
        }
    }
}
