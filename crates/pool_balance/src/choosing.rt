//! Which units move to the secondary.

ghost use Rattle.std.specs.Prelude.{◌≡◌, ◌+◌, ◌/◌, ◌≤◌, length, take, count_by, IfOk};
ghost use Rattle.std.specs.List.Sorted.{IsPermutation};
ghost use Rattle.pool_balance.specs.Balance.{half_of, is_free, is_backup, free_of, lacking, IsDescending, IsChoice};

use crate::error::BalanceError;
use binding_rules::Status;
use prefix_range::Prefix;
use std::alloc::{AllocError, Global};

/// Returns how many of the units that are free at either server the secondary should have: half, rounded down.
pub fn target(free: usize, backup: usize) -> usize
    ensures { result ≡ half_of free backup }
{
    ((free as u128 + backup as u128) / 2) as usize
}

fn free_units(alloc: Global, units: &[(Prefix, Status)]) -> Result<Vec<Prefix>, AllocError>
    ensures { IfOk result (λ free. free.items ≡ free_of units.now) }
{
    units
        .iter()
        .filter(|unit| unit.1 == Status::Free)
        .map(|unit| unit.0)
        .collect(alloc)
}

fn backup_units(units: &[(Prefix, Status)]) -> usize
    ensures { result ≡ count_by is_backup units.now }
{
    units.iter().filter(|unit| unit.1 == Status::Backup).count()
}

fn sort_highest_first(units: &mut [Prefix])
    ensures same { IsPermutation units.old units.new }
    ensures descending { IsDescending units.new }
{
    units.sort_unstable_by(|one, other| other.first().cmp(&one.first()));
}

/// The units to move to the secondary: the highest free ones, highest first, as many as it lacks to have its
/// target; none where it lacks none. `Memory` where a growth was refused.
pub fn choose(alloc: Global, units: &[(Prefix, Status)]) -> Result<Vec<Prefix>, BalanceError>
    ensures choice { IfOk result (λ chosen. IsChoice units.now chosen.items) }
    ensures many { IfOk result (λ chosen. length chosen.items ≡ lacking units.now) }
{
    let Ok(mut units_to_give) = free_units(alloc, units) else {
        return Err(BalanceError::Memory);
    };
    let backup = backup_units(units);
    let lacking = target(units_to_give.len(), backup).saturating_sub(backup);
    sort_highest_first(&mut units_to_give);
    units_to_give.truncate(lacking);
    Ok(units_to_give)
}
