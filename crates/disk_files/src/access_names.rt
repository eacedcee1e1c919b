//! The names of the files of access records.

use binding_rules::Role;
use std::alloc::{AllocError, Global};

/// Returns the name of the file beside a side's volume: `A-0000001.access` for the primary's first.
pub(crate) fn name_of(alloc: Global, side: Role, volume: u32) -> Result<String, AllocError> {
    let front = match side {
        Role::Primary => "A",
        Role::Secondary => "B",
    };
    format!(in alloc; "{front}-{volume:07}.access")
}
