//! A report on a ruling, written.

ghost use Rattle.std.specs.Prelude.{◌≡◌, IfOk};
ghost use Rattle.std.specs.Result.{ForOk};
ghost use Rattle.journal_text.specs.Closed.{IsClosed};
ghost use Rattle.desk_reports.specs.Pages.{moment_of};
ghost use Rattle.desk_reports.specs.Reports.{IsPictureText, IsSpelledReport, IsPlainReport, IsPageReport, IsPageBy, IsDataReport, pieces_of, cited_of};
ghost use Rattle.desk_reports.specs.Reports.{IsUnreadReport, IsReportText};
ghost use Rattle.desk_reports.specs.Told.{IsReadOf, IsExplanationTold};

use crate::explaining::explain_read;
use crate::pages::{ReportSubject, page_told};
use crate::style::{ReportSource, ReportStyle};
use crate::unanswered::sentences_page;
use answer_data::volumes_value;
use archive_desk::{CommandOutput, TimingBounds};
use attribution_desk::{DeskError, warnings_on};
use causal_order::Certificate;
use certificate::CertificateError;
use desk_args::ReportForm;
use evidence_report::{CitedLine, PieceReport, Report};
use lead_time::Reading;
use pair_judgement::status_of;
use report_data::data_of;
use report_document::{Explanation, document_of};
use report_render::{RenderedText, picture_of, spelled, svg_of, text_of};
use std::alloc::{AllocError, Global};
use std::thread::Threads;
use zone_times::ZoneFile;

/// The picture of what a certificate shows, with the moment that was asked of, or none where nothing of it was looked
/// at.
fn picture_told(
    alloc: Global,
    explanation: &Explanation,
    asked: Option<Reading>,
) -> Result<Vec<u8>, AllocError>
    ensures { IfOk result (λ text. IsPictureText explanation.now.report asked text.items) }
{
    match &explanation.report {
        Some(report) => svg_of(alloc, &picture_of(alloc, report, asked)?),
        None => Ok(Vec::new(alloc)),
    }
}

/// The document of a ruling, spelled.
fn spelled_report(
    alloc: Global,
    explanation: &Explanation,
    zone: Option<&ZoneFile>,
) -> Result<RenderedText, AllocError>
    ensures { IfOk result (IsSpelledReport explanation.now zone.entry) }
{
    let document = document_of(alloc, explanation)?;
    spelled(alloc, &document, zone)
}

/// A report on a ruling as sentences.
fn sentences_told(
    alloc: Global,
    explanation: &Explanation,
    zone: Option<&ZoneFile>,
) -> Result<Vec<u8>, AllocError>
    ensures { IfOk result (λ text. IsPlainReport explanation.now zone.entry text.items) }
{
    let spelling = spelled_report(alloc, explanation, zone)?;
    text_of(alloc, &spelling)
}

/// The pieces whose grants go into a page's table; none where nothing of a certificate was looked at.
fn pieces_of<'e, 'p>(report: &'e Option<Report<'p>>) -> &'e [PieceReport<'p>]
    ensures { result.now ≡ pieces_of report.now }
{
    match report {
        Some(report) => &report.pieces,
        None => &[],
    }
}

/// The lines that a page names; none where nothing of a certificate was looked at.
fn cited_of<'e>(report: &'e Option<Report<'_>>) -> &'e [CitedLine]
    ensures { result.now ≡ cited_of report.now }
{
    match report {
        Some(report) => &report.cited,
        None => &[],
    }
}

/// A report on a ruling as one page.
fn page_written<'a>(
    alloc: Global,
    explanation: &Explanation,
    source: &'a ReportSource<'a>,
    subject: &'a ReportSubject<'a>,
    bounds: &TimingBounds,
    style: &'a ReportStyle<'a>,
) -> Result<Vec<u8>, DeskError>
    ensures { IfOk result (λ text. IsPageReport explanation.now source.now subject.now bounds.now style.now text.items) }
{
    let spelling = spelled_report(alloc, explanation, style.zone)?;
    let picture = picture_told(alloc, explanation, subject.asked_at())?;
    let pieces = pieces_of(&explanation.report);
    let cited = cited_of(&explanation.report);
    page_told(
        alloc, &spelling, &picture, pieces, cited, source, subject, bounds, style,
    )
}

/// A report on a ruling as one page: of its sentences alone where a text is no journal.
fn page_by<'a>(
    alloc: Global,
    explanation: &Explanation,
    source: &'a ReportSource<'a>,
    subject: &'a ReportSubject<'a>,
    bounds: &TimingBounds,
    style: &'a ReportStyle<'a>,
) -> Result<Vec<u8>, DeskError>
    ensures { IfOk result (λ text. IsPageBy source.now.pair.now.primary source.now.pair.now.secondary explanation.now
        source.now subject.now bounds.now style.now text.items) }
{
    match (&source.pair.primary, &source.pair.secondary) {
        (Ok(_), Ok(_)) => page_written(alloc, explanation, source, subject, bounds, style),
        (Err(_), _) => unread_page(alloc, explanation, style.zone),
        (Ok(_), Err(_)) => unread_page(alloc, explanation, style.zone),
    }
}

/// A page of a report's sentences alone.
fn unread_page(
    alloc: Global,
    explanation: &Explanation,
    zone: Option<&ZoneFile>,
) -> Result<Vec<u8>, DeskError>
    ensures { IfOk result (λ text. IsUnreadReport explanation.now zone.entry text.items) }
{
    let sentences = sentences_told(alloc, explanation, zone)?;
    let text = sentences_page(alloc, &sentences)?;
    Ok(text)
}

/// A report on a ruling as one object.
fn object_told(
    alloc: Global,
    explanation: &Explanation,
    source: &ReportSource,
    subject: &ReportSubject,
) -> Result<Vec<u8>, AllocError>
    ensures { IfOk result (λ text. IsDataReport explanation.now source.now subject.now text.items) }
{
    let volumes = volumes_value(alloc, source.volumes.as_ref())?;
    let text = data_of(alloc, explanation, subject.certificate_text(), volumes)?;
    Ok(text.into_bytes())
}

/// A report on a ruling, in the form that is asked for. `Memory` where a growth was refused.
pub fn written<'a>(
    alloc: Global,
    explanation: &Explanation,
    source: &'a ReportSource<'a>,
    subject: &'a ReportSubject<'a>,
    bounds: &TimingBounds,
    style: &'a ReportStyle<'a>,
) -> Result<Vec<u8>, DeskError>
    ensures { IfOk result (λ text. IsReportText explanation.now source.now subject.now bounds.now style.now text.items) }
{
    match style.form {
        ReportForm::Plain => Ok(sentences_told(alloc, explanation, style.zone)?),
        ReportForm::Page => page_by(alloc, explanation, source, subject, bounds, style),
        ReportForm::Json => Ok(object_told(alloc, explanation, source, subject)?),
    }
}

/// What the text of a certificate is read to.
fn claim_in(alloc: Global, text: &[u8]) -> Result<Certificate, CertificateError>
    ensures { IsReadOf text.now result }
{
    certificate::read(alloc, text)
}

/// The report on a certificate's text over two texts as journals, with clocks and answers within these bounds; status 0
/// where the certificate is accepted. `Memory` where a growth was refused.
pub fn explain_told<'a>(
    rt: &(impl Threads + Sync),
    alloc: Global,
    source: &'a ReportSource<'a>,
    certificate: &'a [u8],
    bounds: &TimingBounds,
    style: &'a ReportStyle<'a>,
) -> Result<CommandOutput, DeskError>
    requires primary_closed { ForOk source.now.pair.now.primary (λ journal. IsClosed journal.lines) }
    requires secondary_closed { ForOk source.now.pair.now.secondary (λ journal. IsClosed journal.lines) }
    ensures { IfOk result (IsExplanationTold source.now certificate.now bounds.now style.now) }
{
    let TimingBounds { skew, transit } = *bounds;
    let pair = source.pair;
    let claim = claim_in(alloc, certificate);
    let explanation = explain_read(
        rt,
        alloc,
        &pair.primary,
        &pair.secondary,
        &claim,
        skew,
        transit,
    )?;
    let subject = ReportSubject::of_text(certificate, &claim, &explanation.ruling);
    let text = written(alloc, &explanation, source, &subject, bounds, style)?;
    let notes = warnings_on(alloc, &pair.primary, &pair.secondary, skew, transit)?;
    Ok(CommandOutput {
        text,
        status: status_of(&explanation.ruling),
        notes,
    })
}
