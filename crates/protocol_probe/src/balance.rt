//! How many units the secondary gets, and which.

use crate::unit_words::status;
use binding_rules::Status;
use line_words::{add_number, add_prefix, add_word};
use pool_balance::{choose, target};
use prefix_range::{Prefix, unit};
use probe_lines::Arguments;
use std::alloc::{AllocError, Global};

/// `target FREE BACKUP`.
pub fn share(arguments: &mut Arguments<'_>, out: &mut Vec<u8>) -> Result<(), AllocError> {
    let free = arguments.number(u64::MAX) as usize;
    let backup = arguments.number(u64::MAX) as usize;
    add_number(out, target(free, backup) as u64)
}

/// Units of a pool, by the first and the last index of those that have a status.
fn units(
    alloc: Global,
    arguments: &mut Arguments<'_>,
) -> Result<Vec<(Prefix, Status)>, AllocError> {
    let pool = arguments.prefix();
    let length = arguments.number_of_8_bits();
    let mut units = Vec::new(alloc);
    for _ in 0..u16::MAX {
        if arguments.is_done() {
            break;
        }
        let first = arguments.number(u64::MAX);
        let last = arguments.number(u64::MAX);
        let status = status(arguments);
        for index in first..=last {
            match unit(&pool, length, u128::from(index)) {
                Some(prefix) => units.extend_from_slice(&[(prefix, status)])?,
                None => arguments.note(false),
            }
        }
    }
    Ok(units)
}

/// `choose POOL LENGTH (FIRST LAST STATUS)..`: the units that are moved.
pub fn moved(
    alloc: Global,
    arguments: &mut Arguments<'_>,
    out: &mut Vec<u8>,
) -> Result<(), AllocError> {
    let units = units(alloc, arguments)?;
    let Ok(chosen) = choose(alloc, &units) else {
        return Err(AllocError);
    };
    if chosen.is_empty() {
        add_word(out, b"none")?;
    }
    for prefix in &chosen {
        add_prefix(out, prefix)?;
    }
    Ok(())
}
