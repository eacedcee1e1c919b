//! How many calls are answered before the power is lost.

use disk_model::DeviceError;
use std::alloc::{AllocError, Global};
use std::sync::Arc;
use std::sync::atomic::{AtomicUsize, Ordering};

/// A count of calls that are still answered, of all devices that share it.
#[derive(Drop)]
pub(crate) struct CallsLeft(Arc<AtomicUsize, Global>);

impl CallsLeft {
    pub(crate) fn new(alloc: Global, count: usize) -> Result<CallsLeft, AllocError> {
        Ok(CallsLeft(Arc::new(alloc, AtomicUsize::new(count))?))
    }

    /// Returns the same count, for one more device.
    pub(crate) fn share(&self) -> Result<CallsLeft, AllocError> {
        Ok(CallsLeft(Arc::try_clone(&self.0)?))
    }

    /// Counts a call, and fails it where no more are answered.
    pub(crate) fn answer(&self) -> Result<(), DeviceError> {
        let left = self
            .0
            .load(Ordering::SeqCst)
            .checked_sub(1)
            .ok_or(DeviceError::Failed)?;
        self.0.store(left, Ordering::SeqCst);
        Ok(())
    }
}
