//! The whole object.

ghost use Rattle.std.specs.Prelude.{IfOk, string_bytes};
ghost use Rattle.pair_judgement.specs.Judgements.{judgement_text};
ghost use Rattle.serde_json.specs.View.{view};
ghost use Rattle.report_data.specs.Fields.{IsText};
ghost use Rattle.report_data.specs.Rulings.{IsQuestion, IsReportData, IsShownData, IsRulingLine, IsVerdictLine};

use crate::failures::failure_of;
use crate::foreign::foreign_of;
use crate::object::Object;
use crate::pieces::pieces_of;
use crate::values::{client_of, line_of, prefix_of, text_of, time_of};
use causal_order::Certificate;
use evidence_report::{CitedLine, Report, SideReport};
use journal_text::push_entry;
use lead_time::Reading;
use pair_judgement::judgement_line;
use report_document::Explanation;
use serde_json::Value;
use std::alloc::{AllocError, Global};

fn question_of(alloc: Global, certificate: &Certificate) -> Result<Value, AllocError>
    ensures { IfOk result (λ v. IsQuestion certificate.now (view v)) }
{
    Object::new(alloc)
        .with_made("holder", client_of(alloc, &certificate.holder))
        .with_made("prefix", prefix_of(alloc, &certificate.prefix))
        .with_made("from", time_of(alloc, certificate.from.milliseconds()))
        .with_made("to", time_of(alloc, certificate.to.milliseconds()))
        .into_value()
}

/// A reading, or null.
fn reading_of(alloc: Global, reading: Option<Reading>) -> Result<Value, AllocError> {
    match reading {
        Some(reading) => time_of(alloc, reading.milliseconds()),
        None => Ok(Value::Null),
    }
}

fn side_of(alloc: Global, side: &SideReport) -> Result<Value, AllocError> {
    Object::new(alloc)
        .with("volume", side.volume)
        .with_made("opened", reading_of(alloc, side.opened))
        .with_made("closed", time_of(alloc, side.closed.milliseconds()))
        .into_value()
}

/// What a line says behind its number, without the space before it.
fn entry_of(alloc: Global, cited: &CitedLine) -> Result<Value, AllocError> {
    let mut text = Vec::new(alloc);
    push_entry(&mut text, &cited.line)?;
    match text.as_slice().split_first() {
        Some((_, entry)) => text_of(alloc, entry),
        None => Ok(Value::Null),
    }
}

fn cited_of(alloc: Global, cited: &CitedLine) -> Result<Value, AllocError> {
    Object::new(alloc)
        .with_made("line", line_of(alloc, cited.at))
        .with_made("reading", time_of(alloc, cited.line.reading.milliseconds()))
        .with_made("text", entry_of(alloc, cited))
        .into_value()
}

fn lines_of(alloc: Global, cited: &[CitedLine]) -> Result<Value, AllocError> {
    let mut values = Vec::new(alloc);
    for line in cited {
        values.push(cited_of(alloc, line)?)?;
    }
    Ok(Value::Array(values))
}

fn report_of(alloc: Global, report: &Report<'_>) -> Result<Value, AllocError>
    ensures { IfOk result (λ v. IsReportData report.now (view v)) }
{
    Object::new(alloc)
        .with_made("question", question_of(alloc, report.certificate))
        .with("skew_ms", report.skew.milliseconds())
        .with("transit_ms", report.transit.milliseconds())
        .with_made("journal_a", side_of(alloc, &report.primary))
        .with_made("journal_b", side_of(alloc, &report.secondary))
        .with_made("pieces", pieces_of(alloc, &report.pieces))
        .with_made("foreign", foreign_of(alloc, &report.foreign))
        .with_made("lines", lines_of(alloc, &report.cited))
        .into_value()
}

/// What a certificate shows, or null.
fn shown_of(alloc: Global, report: &Option<Report<'_>>) -> Result<Value, AllocError>
    ensures { IfOk result (λ v. IsShownData report.now (view v)) }
{
    match report {
        Some(report) => report_of(alloc, report),
        None => Ok(Value::Null),
    }
}

/// A ruling's line, without its line feed.
fn verdict_of(alloc: Global, explanation: &Explanation<'_>) -> Result<Value, AllocError>
    ensures { IfOk result (λ v. IsText (judgement_text explanation.now.ruling) (view v)) }
{
    let line = judgement_line(alloc, &explanation.ruling)?;
    match line.as_slice().split_last() {
        Some((_, verdict)) => text_of(alloc, verdict),
        None => Ok(Value::Null),
    }
}

/// Writes the ruling and all that it rests on as JSON: one object, and a line feed. The certificate's text goes in as
/// it is, and so does what names the volumes that were asked. `AllocError` where a growth was refused.
pub fn data_of(
    alloc: Global,
    explanation: &Explanation<'_>,
    certificate: &[u8],
    volumes: Value,
) -> Result<String, AllocError>
    ensures { IfOk result
        (λ text. IsRulingLine explanation.now certificate.now (view volumes) (string_bytes text)) }
{
    Object::answer(alloc)
        .with_made("verdict", verdict_of(alloc, explanation))
        .with_made("failure", failure_of(alloc, &explanation.failure))
        .with_made("report", shown_of(alloc, &explanation.report))
        .with_made("certificate", text_of(alloc, certificate))
        .with_made("volumes", Ok(volumes))
        .into_line()
}

/// Writes a verdict on a certificate's text before any journal is looked at, as JSON: as [`data_of`] does, with nothing
/// that it rests on. `AllocError` where a growth was refused.
pub fn verdict_data(alloc: Global, verdict: &[u8], certificate: &[u8]) -> Result<String, AllocError>
    ensures { IfOk result (λ text. IsVerdictLine verdict.now certificate.now (string_bytes text)) }
{
    Object::answer(alloc)
        .with_made("verdict", text_of(alloc, verdict))
        .with("failure", ())
        .with("report", ())
        .with_made("certificate", text_of(alloc, certificate))
        .with("volumes", ())
        .into_line()
}
