//! The moment that a text spells, by itself or on the clocks of a zone.

ghost use Rattle.std.specs.Prelude.{◌≡◌, ◌≢◌, ◌≤◌, ℕ, IfOk, IfErr, option_map};
ghost use Rattle.report_times.specs.DateTimes.{IsLocalTime};
ghost use Rattle.report_times.specs.ReportTimes.{IsLocalMoment, IsReportTimeIn, IsReportTimeBy, IsWhyNotIn, IsWhyNotBy};
ghost use Rattle.report_times.specs.ReportTimes.{IsNoReportTime, IsWhyNot};
ghost use Rattle.report_times.specs.declared.error.ReportTimeError.TheVariants.{Memory};

use crate::date_time::local_time;
use crate::error::ReportTimeError;
use crate::spelling::told_time;
use lead_time::Reading;
use std::alloc::Global;
use zone_times::{ShownMoments, ZoneFile};

/// The moment of a time that clocks of the zone show.
fn shown_moment(zone: &ZoneFile, text: &[u8], shown: Reading) -> Result<Reading, ReportTimeError>
    requires { IsLocalTime text.now shown }
    ensures given { IfOk result (IsLocalMoment zone.now.table text.now) }
    ensures none { IfErr result
        (λ error. (m : ℕ) → m ≤ 281474976710656 → IsLocalMoment zone.now.table text.now m → ⊥) }
    ensures why { IfErr result (IsWhyNotIn zone.now.table text.now) }
{
    match zone.moments_showing(shown) {
        ShownMoments::Once(moment) => Ok(moment),
        ShownMoments::Twice(earlier, later) => Err(ReportTimeError::Twice(earlier, later)),
        ShownMoments::Never => Err(ReportTimeError::Never),
        ShownMoments::Outside => Err(ReportTimeError::NoTime),
    }
}

/// The moment of a text without an offset that clocks of the zone show; the error where it is no such text.
fn local_moment(
    alloc: Global,
    zone: &ZoneFile,
    text: &[u8],
    error: ReportTimeError,
) -> Result<Reading, ReportTimeError>
    requires { IsWhyNotIn zone.now.table text.now error }
    ensures given { IfOk result (IsLocalMoment zone.now.table text.now) }
    ensures none { IfErr result (λ e. e ≢ Memory
        → (m : ℕ) → m ≤ 281474976710656 → IsLocalMoment zone.now.table text.now m → ⊥) }
    ensures why { IfErr result (IsWhyNotIn zone.now.table text.now) }
{
    match local_time(alloc, text) {
        Ok(Some(shown)) => shown_moment(zone, text, shown),
        Ok(None) => Err(error),
        Err(_) => Err(ReportTimeError::Memory),
    }
}

/// The moment of a text that spells none by itself, for this reason.
fn otherwise(
    alloc: Global,
    zone: &ZoneFile,
    text: &[u8],
    error: ReportTimeError,
) -> Result<Reading, ReportTimeError>
    requires why { IsWhyNot text.now error }
    requires none { error ≢ Memory → IsNoReportTime text.now }
    ensures given { IfOk result (IsReportTimeIn zone.now.table text.now) }
    ensures none { IfErr result (λ e. e ≢ Memory
        → (m : ℕ) → m ≤ 281474976710656 → IsReportTimeIn zone.now.table text.now m → ⊥) }
    ensures why { IfErr result (IsWhyNotIn zone.now.table text.now) }
{
    if error == ReportTimeError::Memory {
        return Err(ReportTimeError::Memory);
    }
    local_moment(alloc, zone, text, error)
}

/// The moment that a text spells, where clocks of the zone are meant if it has no offset.
fn zoned_time(alloc: Global, zone: &ZoneFile, text: &[u8]) -> Result<Reading, ReportTimeError>
    ensures given { IfOk result (IsReportTimeIn zone.now.table text.now) }
    ensures none { IfErr result (λ e. e ≢ Memory
        → (m : ℕ) → m ≤ 281474976710656 → IsReportTimeIn zone.now.table text.now m → ⊥) }
    ensures why { IfErr result (IsWhyNotIn zone.now.table text.now) }
{
    match told_time(alloc, text) {
        Ok(moment) => Ok(moment),
        Err(error) => otherwise(alloc, zone, text, error),
    }
}

/// The moment that a text spells, to the millisecond: a date with a time and an offset, a mail's date, or a number of
/// seconds or milliseconds since 1970; where a zone is named also a date with a time that its clocks show once. What was
/// left out of decimals lies within that millisecond. Each refusal says why; `Memory` where a growth was refused.
pub fn read_report_time(
    alloc: Global,
    zone: Option<&ZoneFile>,
    text: &[u8],
) -> Result<Reading, ReportTimeError>
    ensures given { IfOk result (IsReportTimeBy (option_map (λ z. z.now.table) zone.entry) text.now) }
    ensures none { IfErr result (λ e. e ≢ Memory → (m : ℕ) → m ≤ 281474976710656
        → IsReportTimeBy (option_map (λ z. z.now.table) zone.entry) text.now m → ⊥) }
    ensures why { IfErr result (IsWhyNotBy (option_map (λ z. z.now.table) zone.entry) text.now) }
{
    match zone {
        Some(zone) => zoned_time(alloc, zone, text),
        None => told_time(alloc, text),
    }
}
