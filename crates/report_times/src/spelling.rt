//! The moment that a text spells.

ghost use Rattle.std.specs.Prelude.{◌≡◌, ◌≢◌, ◌≤◌, ℕ, None, IfOk, IfErr, IfSome};
ghost use Rattle.report_times.specs.MailDates.{IsMailDate};
ghost use Rattle.report_times.specs.ReportTimes.{IsCountedOrDated, IsReportTime, IsNoReportTime, IsWhyNot};
ghost use Rattle.report_times.specs.declared.error.ReportTimeError.TheVariants.{Memory};

use crate::date_time::{date_time, local_time};
use crate::error::ReportTimeError;
use crate::mail_date::{MailDate, mail_date};
use crate::unix_time::{either, unix_time};
use lead_time::Reading;
use std::alloc::Global;

/// Why a text is no moment that is none.
fn why_not(alloc: Global, text: &[u8]) -> ReportTimeError
    ensures { IsWhyNot text.now result }
{
    if let Some(number) = either(text) {
        return ReportTimeError::SecondsOrMilliseconds(number);
    }
    if let MailDate::NamedZone = mail_date(text) {
        return ReportTimeError::ZoneName;
    }
    match local_time(alloc, text) {
        Ok(Some(_)) => ReportTimeError::NoOffset,
        Ok(None) => ReportTimeError::NoTime,
        Err(_) => ReportTimeError::Memory,
    }
}

/// The moment of a mail's date.
fn dated(text: &[u8]) -> Option<Reading>
    ensures given { IfSome result (IsMailDate text.now) }
    ensures none { result ≡ None → (m : ℕ) → m ≤ 281474976710656 → IsMailDate text.now m → ⊥ }
{
    match mail_date(text) {
        MailDate::Moment(moment) => Some(moment),
        MailDate::NamedZone => None,
        MailDate::NotOne => None,
    }
}

/// The moment of a text that is a number or a mail's date.
fn counted_or_dated(text: &[u8]) -> Option<Reading>
    ensures given { IfSome result (IsCountedOrDated text.now) }
    ensures none { result ≡ None → (m : ℕ) → m ≤ 281474976710656 → IsCountedOrDated text.now m → ⊥ }
{
    match unix_time(text) {
        Some(moment) => Some(moment),
        None => dated(text),
    }
}

/// The moment that a text spells by itself. Each refusal says why; `Memory` where a growth was refused.
pub(crate) fn told_time(alloc: Global, text: &[u8]) -> Result<Reading, ReportTimeError>
    ensures given { IfOk result (IsReportTime text.now) }
    ensures none { IfErr result (λ error. error ≢ Memory → IsNoReportTime text.now) }
    ensures why { IfErr result (IsWhyNot text.now) }
{
    if let Some(moment) = counted_or_dated(text) {
        return Ok(moment);
    }
    match date_time(alloc, text) {
        Ok(Some(moment)) => Ok(moment),
        Ok(None) => Err(why_not(alloc, text)),
        Err(_) => Err(ReportTimeError::Memory),
    }
}
