//! Why there is no answer.

use attribution_desk::{DeskError, UsageError};
use std::alloc::Global;
use thiserror::Error;

/// Why there is no answer.
#[derive(Debug, Drop, Error)]
pub(crate) enum DeskFault {
    #[error("{0}")]
    Usage(UsageError),
    /// The words order nothing, and this is why.
    #[error("fault Usage\n{0}")]
    Words(String),
    #[error("{0}")]
    Desk(DeskError),
    /// What this path names can't be read.
    #[error("fault Path {0}")]
    Path(String),
    /// The system has no zone file of this name.
    #[error("fault Zone {0}: name a time zone as Europe/Paris, of those under /usr/share/zoneinfo")]
    Zone(String),
    /// These two files begin with different bounds.
    #[error("fault Heads {0} {1}: their first lines say another skew or transit: give --skew-ms and --transit-ms")]
    Differ(String, String),
    /// No file says bounds.
    #[error("fault Heads: no journal's first lines say a skew: give --skew-ms and --transit-ms")]
    Silent,
}

impl DeskFault {
    /// A growth was refused.
    pub(crate) fn memory() -> DeskFault {
        DeskFault::Desk(DeskError::Memory)
    }

    /// The system has no zone of this name.
    pub(crate) fn zone(alloc: Global, name: &str) -> DeskFault {
        match format!(in alloc; "{name}") {
            Ok(name) => DeskFault::Zone(name),
            Err(_) => DeskFault::memory(),
        }
    }

    /// These two files begin with different bounds.
    pub(crate) fn differ(alloc: Global, first: &str, second: &str) -> DeskFault {
        match (format!(in alloc; "{first}"), format!(in alloc; "{second}")) {
            (Ok(first), Ok(second)) => DeskFault::Differ(first, second),
            _ => DeskFault::memory(),
        }
    }

    /// What this path names can't be read.
    pub(crate) fn at(alloc: Global, path: &str) -> DeskFault {
        match format!(in alloc; "{path}") {
            Ok(path) => DeskFault::Path(path),
            Err(_) => DeskFault::memory(),
        }
    }
}
