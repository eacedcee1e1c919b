//! The names of a side's files.

use binding_rules::Role;
use std::alloc::{AllocError, Global};

/// How the names of a side's files begin.
fn front_of(role: Role) -> &'static str {
    match role {
        Role::Primary => "A-",
        Role::Secondary => "B-",
    }
}

/// How the names of all files of volumes end.
const BEHIND: &str = ".journal";

/// Returns whether a name is of the form in which the files of a side's volumes are named.
pub(crate) fn is_named(role: Role, name: &str) -> bool {
    name.starts_with(front_of(role)) && name.ends_with(BEHIND)
}

/// Returns the name of the file of a side's volume: `A-0000001.journal` for the primary's first.
pub(crate) fn name_of(alloc: Global, role: Role, number: usize) -> Result<String, AllocError> {
    format!(in alloc; "{}{number:07}{BEHIND}", front_of(role))
}
