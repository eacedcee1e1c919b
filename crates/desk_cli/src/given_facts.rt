//! `--case`, `--asked-by` and `--made`: what a page says of its case.

use crate::fault::DeskFault;
use attribution_desk::DeskRequest;
use desk_args::{ReportFacts, ReportForm, ReportOptions};
use report_times::{ReportTimeError, read_report_time};
use std::alloc::Global;
use zone_times::ZoneFile;

/// The most characters of a case, and of a name.
const MOST_CHARACTERS: usize = 200;

/// A sentence of why these words order nothing.
fn said(alloc: Global, sentence: &str) -> DeskFault {
    match String::from_str(alloc, sentence) {
        Ok(sentence) => DeskFault::Words(sentence),
        Err(_) => DeskFault::memory(),
    }
}

/// How the report of a request is told; `None` where it is no report.
fn telling_of<'a>(request: &DeskRequest<'a>) -> Option<ReportOptions<'a>> {
    match request {
        DeskRequest::Explain { telling, .. } => Some(*telling),
        DeskRequest::ExplainHolder(_, _, telling) => Some(*telling),
        _ => None,
    }
}

/// A text is short enough for a page.
fn expect_short(alloc: Global, option: &str, text: Option<&str>) -> Result<(), DeskFault> {
    match text {
        Some(text) if text.chars().count() > MOST_CHARACTERS => {
            match format!(in alloc; "error: {option} has more than {MOST_CHARACTERS} characters") {
                Ok(sentence) => Err(DeskFault::Words(sentence)),
                Err(_) => Err(DeskFault::memory()),
            }
        }
        _ => Ok(()),
    }
}

/// A text is a time, on the clocks of a zone where one is named.
fn expect_time(
    alloc: Global,
    zone: Option<&ZoneFile>,
    text: Option<&str>,
) -> Result<(), DeskFault> {
    let Some(text) = text else {
        return Ok(());
    };
    match read_report_time(alloc, zone, text.as_bytes()) {
        Ok(_) => Ok(()),
        Err(ReportTimeError::Memory) => Err(DeskFault::memory()),
        Err(_) => Err(said(
            alloc,
            "error: --made wants a time with its offset, as 2026-11-22T22:17:03+01:00",
        )),
    }
}

/// Returns whether a page says anything of its case.
fn are_given(facts: &ReportFacts) -> bool {
    facts.case.is_some() || facts.asked_by.is_some() || facts.made.is_some()
}

/// What a page says of its case goes with a page, and is as wanted: `Words` where it isn't.
pub(crate) fn expect_facts(
    alloc: Global,
    request: &DeskRequest,
    zone: Option<&ZoneFile>,
) -> Result<(), DeskFault> {
    let Some(telling) = telling_of(request) else {
        return Ok(());
    };
    let facts = telling.facts;
    if are_given(&facts) && telling.form != ReportForm::Page {
        return Err(said(
            alloc,
            "error: --case, --asked-by and --made are said on a page: ask with --html",
        ));
    }
    expect_short(alloc, "--case", facts.case)?;
    expect_short(alloc, "--asked-by", facts.asked_by)?;
    expect_time(alloc, zone, facts.made)
}
