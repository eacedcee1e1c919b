//! Why the desk gives no answer.

ghost use Rattle.std.specs.Prelude.{◌≡◌};
ghost use Rattle.attribution_desk.specs.declared.error.DeskError.TheVariants.{Memory};

use auditor::AuditError;
use line_index::IndexError;
use parallel_check::CheckError;
use std::alloc::AllocError;
use thiserror::Error;

/// Why a command was not carried out.
#[derive(Clone, Copy, Debug, PartialEq, Eq, Error)]
pub enum DeskError {
    /// The input failed, or did not end in time.
    #[error("fault Read")]
    Read,
    /// The output failed.
    #[error("fault Write")]
    Write,
    /// A growth was refused.
    #[error("fault Memory")]
    Memory,
}

impl From<AllocError> for DeskError {
    ghost from_gives = { λ _ e. e ≡ Memory };

    fn from(_e: AllocError) -> DeskError {
        DeskError::Memory
    }
}

impl From<AuditError> for DeskError {
    ghost from_gives = { λ _ e. e ≡ Memory };

    fn from(_e: AuditError) -> DeskError {
        DeskError::Memory
    }
}

impl From<CheckError> for DeskError {
    ghost from_gives = { λ _ e. e ≡ Memory };

    // The desk hands over 1 to 64 workers.
    fn from(_e: CheckError) -> DeskError {
        DeskError::Memory
    }
}

impl From<IndexError> for DeskError {
    ghost from_gives = { λ _ e. e ≡ Memory };

    fn from(_e: IndexError) -> DeskError {
        DeskError::Memory
    }
}
