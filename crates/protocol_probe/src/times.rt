//! Lead times, and what bounds readings.

use crate::prefixes::add_error;
use crate::texts::add_answer;
use lead_time::{
    End, LeadTimeError, Reading, Skew, Transit, allowed_valid, earliest, is_past, latest, own_end,
    takeover, told_end,
};
use line_words::{add_number, add_word};
use probe_lines::Arguments;
use std::alloc::{AllocError, Global};

fn add_bounded(
    alloc: Global,
    out: &mut Vec<u8>,
    number: Result<u64, LeadTimeError>,
) -> Result<(), AllocError> {
    match number {
        Ok(number) => add_number(out, number),
        Err(error) => add_error(alloc, out, &error),
    }
}

/// `limits NUMBER`: as a reading, a skew, a time under way and an end.
pub fn limits(
    alloc: Global,
    arguments: &mut Arguments<'_>,
    out: &mut Vec<u8>,
) -> Result<(), AllocError> {
    let number = arguments.number(u64::MAX);
    add_bounded(
        alloc,
        out,
        Reading::new(number).map(|reading| reading.milliseconds()),
    )?;
    add_bounded(
        alloc,
        out,
        Skew::new(number).map(|skew| skew.milliseconds()),
    )?;
    add_bounded(
        alloc,
        out,
        Transit::new(number).map(|transit| transit.milliseconds()),
    )?;
    add_bounded(alloc, out, End::new(number).map(|end| end.milliseconds()))
}

/// `bounds READING SKEW`: the earliest and the latest moment of a reading.
pub fn bounds(
    alloc: Global,
    arguments: &mut Arguments<'_>,
    out: &mut Vec<u8>,
) -> Result<(), AllocError> {
    let reading = arguments.reading();
    let skew = arguments.skew();
    for moment in [earliest(reading, skew), latest(reading, skew)] {
        let text = format!(in alloc; "{moment}")?;
        add_word(out, text.as_bytes())?;
    }
    Ok(())
}

/// `told-end NOW DESIRED`.
pub fn told(arguments: &mut Arguments<'_>, out: &mut Vec<u8>) -> Result<(), AllocError> {
    let now = arguments.reading();
    let desired = arguments.number_of_32_bits();
    add_number(out, told_end(now, desired).milliseconds())
}

/// `own-end GRANTED VALID SKEW TRANSIT`.
pub fn own(arguments: &mut Arguments<'_>, out: &mut Vec<u8>) -> Result<(), AllocError> {
    let granted = arguments.reading();
    let valid = arguments.number_of_32_bits();
    let skew = arguments.skew();
    let transit = arguments.transit();
    add_number(out, own_end(granted, valid, skew, transit).milliseconds())
}

/// `ended NOW END`.
pub fn is_over(arguments: &mut Arguments<'_>, out: &mut Vec<u8>) -> Result<(), AllocError> {
    let now = arguments.reading();
    let end = arguments.end();
    add_answer(out, is_past(now, end))
}

/// `allowed DESIRED MCLT ACKED NOW`.
pub fn allowed(arguments: &mut Arguments<'_>, out: &mut Vec<u8>) -> Result<(), AllocError> {
    let desired = arguments.number_of_32_bits();
    let mclt = arguments.number_of_32_bits();
    let acked = arguments.end();
    let now = arguments.reading();
    add_number(out, u64::from(allowed_valid(desired, mclt, acked, now)))
}

/// `takeover TOLD DOWN MCLT SKEW TRANSIT`.
pub fn taken_over(arguments: &mut Arguments<'_>, out: &mut Vec<u8>) -> Result<(), AllocError> {
    let told = arguments.end();
    let down = arguments.reading();
    let mclt = arguments.number_of_32_bits();
    let skew = arguments.skew();
    let transit = arguments.transit();
    add_number(out, takeover(told, down, mclt, skew, transit))
}
