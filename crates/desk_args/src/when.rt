//! The moments that are asked of.

ghost use Rattle.std.specs.Prelude.{◌≡◌, ◌≢◌, ℕ, codes, IfOk, IfErr, IfSome, IsErrOf, Some, None};
ghost use Rattle.std.specs.Option.{option_map};
ghost use Rattle.clap.specs.Words.{first_of, rows_of, found_of};
ghost use Rattle.report_times.specs.declared.error.ReportTimeError.TheVariants.{Memory};
ghost use Rattle.desk_args.specs.Given.{IsMoment, IsWhen, IsEnd, numbers_by, time_text};
ghost use Rattle.desk_args.specs.declared.when.BareNumbers.TheVariants.{AnyMilliseconds, SureMilliseconds};

use crate::command::number_in;
use crate::error::UsageError;
use crate::texts::{text_given, time_text};
use clap::ArgMatches;
use lead_time::Reading;
use report_times::{ReportTimeError, read_report_time};
use std::alloc::Global;
use zone_times::ZoneFile;

/// Which numbers without a unit are milliseconds.
#[derive(Clone, Copy, Debug, PartialEq, Eq)]
pub enum BareNumbers {
    /// Each.
    AnyMilliseconds,
    /// One that can be nothing else.
    SureMilliseconds,
}

/// The moment of so many milliseconds.
fn moment_in(text: &str) -> Option<Reading>
    ensures given { IfSome result (IsMoment (Some text.now)) }
    ensures none { result ≡ None → (m : ℕ) → IsMoment (Some text.now) m → ⊥ }
{
    Reading::new(number_in(text, Reading::MAX)?).ok()
}

/// The moment of so many milliseconds, if they are given.
fn counted(text: Option<&str>) -> Option<Reading>
    ensures given { IfSome result (IsMoment (option_map (λ s. s.now) text.entry)) }
    ensures none { result ≡ None → (m : ℕ) → IsMoment (option_map (λ s. s.now) text.entry) m → ⊥ }
{
    match text {
        Some(text) => moment_in(text),
        None => None,
    }
}

/// The moment of a text as reports spell it.
fn reported(alloc: Global, zone: Option<&ZoneFile>, text: &str) -> Result<Reading, ReportTimeError>
    ensures given { IfOk result (IsWhen (option_map (λ z. z.now.table) zone.entry) SureMilliseconds (Some text.now)) }
    ensures none { IfErr result (λ e. e ≢ Memory → (m : ℕ)
        → IsWhen (option_map (λ z. z.now.table) zone.entry) SureMilliseconds (Some text.now) m → ⊥) }
{
    match read_report_time(alloc, zone, text.as_bytes()) {
        Ok(moment) => Ok(moment),
        Err(error) => Err(error),
    }
}

/// The moment of a text as reports spell it, or in milliseconds.
fn reported_or_counted(
    alloc: Global,
    zone: Option<&ZoneFile>,
    text: &str,
) -> Result<Reading, ReportTimeError>
    ensures given { IfOk result (IsWhen (option_map (λ z. z.now.table) zone.entry) AnyMilliseconds (Some text.now)) }
    ensures none { IfErr result (λ e. e ≢ Memory → (m : ℕ)
        → IsWhen (option_map (λ z. z.now.table) zone.entry) AnyMilliseconds (Some text.now) m → ⊥) }
{
    if let Some(moment) = moment_in(text) {
        return Ok(moment);
    }
    match reported(alloc, zone, text) {
        Ok(moment) => Ok(moment),
        Err(error) => Err(error),
    }
}

/// The moment of a text.
pub(crate) fn when_in(
    alloc: Global,
    zone: Option<&ZoneFile>,
    numbers: BareNumbers,
    text: &str,
) -> Result<Reading, ReportTimeError>
    ensures given { IfOk result (IsWhen (option_map (λ z. z.now.table) zone.entry) numbers (Some text.now)) }
    ensures none { IfErr result (λ e. e ≢ Memory → (m : ℕ)
        → IsWhen (option_map (λ z. z.now.table) zone.entry) numbers (Some text.now) m → ⊥) }
{
    match numbers {
        BareNumbers::SureMilliseconds => reported(alloc, zone, text),
        BareNumbers::AnyMilliseconds => reported_or_counted(alloc, zone, text),
    }
}

/// A text that is no moment is no word of `who`.
fn usage_of(error: ReportTimeError) -> UsageError
    ensures { result ≡ UsageError.Usage → error ≢ Memory }
{
    match error {
        ReportTimeError::Memory => UsageError::Memory,
        ReportTimeError::SecondsOrMilliseconds(_) => UsageError::Usage,
        ReportTimeError::ZoneName => UsageError::Usage,
        ReportTimeError::NoOffset => UsageError::Usage,
        ReportTimeError::Twice(_, _) => UsageError::Usage,
        ReportTimeError::Never => UsageError::Usage,
        ReportTimeError::NoTime => UsageError::Usage,
    }
}

/// Which numbers are milliseconds by a path of journals: where none is given each, over files those that can be nothing
/// else.
fn numbers_by(journals: Option<&str>) -> BareNumbers
    ensures { result ≡ numbers_by (option_map (λ s. s.now) journals.entry) }
{
    match journals {
        None => BareNumbers::AnyMilliseconds,
        Some(_) => BareNumbers::SureMilliseconds,
    }
}

/// Which numbers are milliseconds for `who`.
pub(crate) fn numbers_given(options: &ArgMatches) -> BareNumbers
    ensures { result ≡ numbers_by (first_of (codes "journals") (rows_of (found_of options.now))) }
{
    numbers_by(text_given(options, "journals"))
}

/// The moment of a text, if one is given.
fn when_of(
    alloc: Global,
    zone: Option<&ZoneFile>,
    numbers: BareNumbers,
    text: Option<&str>,
) -> Result<Reading, UsageError>
    ensures given { IfOk result
        (IsWhen (option_map (λ z. z.now.table) zone.entry) numbers (option_map (λ s. s.now) text.entry)) }
    ensures none { IsErrOf result UsageError.Usage → (m : ℕ)
        → IsWhen (option_map (λ z. z.now.table) zone.entry) numbers (option_map (λ s. s.now) text.entry) m → ⊥ }
{
    let Some(text) = text else {
        return Err(UsageError::Usage);
    };
    match when_in(alloc, zone, numbers, text) {
        Ok(moment) => Ok(moment),
        Err(error) => Err(usage_of(error)),
    }
}

/// The moment that `who` is asked of.
pub(crate) fn when_given(
    alloc: Global,
    options: &ArgMatches,
    zone: Option<&ZoneFile>,
) -> Result<Reading, UsageError>
    ensures given { IfOk result (IsWhen (option_map (λ z. z.now.table) zone.entry)
        (numbers_by (first_of (codes "journals") (rows_of (found_of options.now))))
        (time_text (rows_of (found_of options.now)))) }
    ensures none { IsErrOf result UsageError.Usage → (m : ℕ)
        → IsWhen (option_map (λ z. z.now.table) zone.entry)
        (numbers_by (first_of (codes "journals") (rows_of (found_of options.now))))
        (time_text (rows_of (found_of options.now))) m → ⊥ }
{
    when_of(alloc, zone, numbers_given(options), time_text(options))
}

/// An end of the interval of `find`.
fn end_of(
    alloc: Global,
    zone: Option<&ZoneFile>,
    journals: Option<&str>,
    text: Option<&str>,
) -> Result<Reading, UsageError>
    ensures given { IfOk result (IsEnd (option_map (λ z. z.now.table) zone.entry) (option_map (λ s. s.now) journals.entry)
        (option_map (λ s. s.now) text.entry)) }
    ensures none { IsErrOf result UsageError.Usage → (m : ℕ) → IsEnd (option_map (λ z. z.now.table) zone.entry)
        (option_map (λ s. s.now) journals.entry) (option_map (λ s. s.now) text.entry) m → ⊥ }
{
    match journals {
        None => counted(text).ok_or(UsageError::Usage),
        Some(_) => when_of(alloc, zone, BareNumbers::AnyMilliseconds, text),
    }
}

/// An end of the interval of `find`, by its option.
pub(crate) fn end_given(
    alloc: Global,
    options: &ArgMatches,
    zone: Option<&ZoneFile>,
    name: &str,
) -> Result<Reading, UsageError>
    ensures given { IfOk result (IsEnd (option_map (λ z. z.now.table) zone.entry)
        (first_of (codes "journals") (rows_of (found_of options.now)))
        (first_of name.now (rows_of (found_of options.now)))) }
    ensures none { IsErrOf result UsageError.Usage → (m : ℕ) → IsEnd (option_map (λ z. z.now.table) zone.entry)
        (first_of (codes "journals") (rows_of (found_of options.now)))
        (first_of name.now (rows_of (found_of options.now))) m → ⊥ }
{
    end_of(
        alloc,
        zone,
        text_given(options, "journals"),
        text_given(options, name),
    )
}
