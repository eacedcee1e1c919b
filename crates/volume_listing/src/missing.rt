//! Which volumes of a side no file has.

ghost use Rattle.std.specs.Prelude.{◌<◌, IfSome};

use crate::listing::FileVolume;
use binding_rules::Role;
use std::alloc::{AllocError, Global};

/// Consecutive volumes of a side that no file has, though files have volumes before and after them.
#[derive(Clone, Copy, Debug, PartialEq, Eq)]
pub struct MissingVolumes {
    pub side: Role,
    pub first: u32,
    pub last: u32,
}

/// The lesser of a number and one that is known, if one is.
fn least_of(known: Option<u32>, number: u32) -> u32 {
    match known {
        Some(known) => known.min(number),
        None => number,
    }
}

/// The least number of a side's volumes that is greater than this one, if there is one.
fn next_above(volumes: &[FileVolume], side: Role, number: u32) -> Option<u32>
    ensures { IfSome result (λ next. number < next) }
{
    let mut next: Option<u32> = None;
    for it in volumes {
        if it.volume.outline.side == side && number < it.volume.outline.number {
            next = Some(least_of(next, it.volume.outline.number));
        }
    }
    match next {
        Some(next) if number < next => Some(next),
        _ => None,
    }
}

/// Returns whether one of the first volumes, so many, has the side and the number of another.
fn stands_before(volumes: &[FileVolume], count: usize, other: &FileVolume) -> bool {
    volumes.iter().take(count).any(|it| {
        it.volume.outline.side == other.volume.outline.side
            && it.volume.outline.number == other.volume.outline.number
    })
}

/// The volumes that are missing behind one of these.
fn missing_behind(volumes: &[FileVolume], volume: &FileVolume) -> Option<MissingVolumes> {
    let side = volume.volume.outline.side;
    let number = volume.volume.outline.number;
    let next = next_above(volumes, side, number)?;
    if next - number < 2 {
        return None;
    }
    Some(MissingVolumes {
        side,
        first: number + 1,
        last: next - 1,
    })
}

/// The volumes that no file has, though files have such of their side before and after them. `AllocError` where a growth
/// was refused.
pub fn missing_of(
    alloc: Global,
    volumes: &[FileVolume],
) -> Result<Vec<MissingVolumes>, AllocError> {
    let mut missing = Vec::new(alloc);
    for at in 0..volumes.len() {
        if !stands_before(volumes, at, &volumes[at])
            && let Some(behind) = missing_behind(volumes, &volumes[at])
        {
            missing.extend_from_slice(&[behind])?;
        }
    }
    Ok(missing)
}
