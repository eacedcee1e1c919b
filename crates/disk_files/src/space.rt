//! A disk that is full is told from other faults.

ghost use Rattle.std.specs.Prelude.{◌≡◌, ◌↔◌, IsTrue};
ghost use Rattle.std.specs.IoError.{error_kind};
ghost use Rattle.disk_files.specs.Space.{IsNoSpace, device_error};

use disk_model::DeviceError;
use std::io::{self, ErrorKind};

/// Returns whether the system refused a call since the disk is full (ENOSPC), or its user's quota used up (EDQUOT).
pub(crate) fn is_no_space(error: &io::Error) -> bool
    ensures { IsTrue result ↔ IsNoSpace (error_kind error.now) }
{
    matches!(
        error.kind(),
        ErrorKind::StorageFull | ErrorKind::QuotaExceeded
    )
}

/// What a device tells of an error of the system.
pub(crate) fn device_error(error: &io::Error) -> DeviceError
    ensures { result ≡ device_error (error_kind error.now) }
{
    match error.kind() {
        ErrorKind::StorageFull | ErrorKind::QuotaExceeded => DeviceError::NoSpace,
        _ => DeviceError::Failed,
    }
}

/// What a person may do about an error of the system, behind its words: nothing is said where that isn't known.
pub fn advice_of(error: &io::Error) -> &'static str {
    if is_no_space(error) {
        ": make room on the disk, or in its user's quota, and start the server again"
    } else {
        ""
    }
}
