//! Lists of units, with one less.

ghost use Rattle.std.specs.Prelude.{◌≡◌, IfOk};
ghost use Rattle.client_limits.specs.Holders.{without};

use prefix_range::Prefix;
use std::alloc::{AllocError, Global};

/// The units but for the one that begins at an address.
pub(crate) fn without(
    alloc: Global,
    units: &[Prefix],
    address: u128,
) -> Result<Vec<Prefix>, AllocError>
    ensures { IfOk result (λ rest. rest.items ≡ without address units.now) }
{
    let mut rest = Vec::new(alloc);
    for unit in units {
        if unit.first() != address {
            rest.extend_from_slice(&[*unit])?;
        }
    }
    Ok(rest)
}
