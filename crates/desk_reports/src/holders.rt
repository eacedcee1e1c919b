//! Who held a prefix, and why; or why nobody is named.

ghost use Rattle.std.specs.Prelude.{◌≡◌, IfOk, map};
ghost use Rattle.certificate.specs.Spelling.{certificate_text};
ghost use Rattle.journal_lines.specs.declared.line.Journal.{Journal as JournalValue};
ghost use Rattle.std.specs.Result.{ForOk};
ghost use Rattle.journal_text.specs.Closed.{IsClosed};
ghost use Rattle.attribution_desk.specs.Case.{IsCaseOf};
ghost use Rattle.report_document.specs.Telling.{told_of};
ghost use Rattle.desk_reports.specs.Explaining.{IsExplained};
ghost use Rattle.desk_reports.specs.NoHolders.{no_holder_told};
ghost use Rattle.desk_reports.specs.Told.{bounds_of, IsWhySpelled, IsWhySentences, IsWhyPage, IsWhyPageBy, IsWhyUnread};
ghost use Rattle.desk_reports.specs.Told.{IsWhyObject, IsWhyIn, IsWhyTold};
ghost use Rattle.desk_reports.specs.Told.{IsHeldTold, IsReplyOver, IsReplyOf, IsHolderOver, IsHolderTold, IsUnreadTold};

use crate::explaining::{explain_case, explain_journals};
use crate::pages::{ReportSubject, page_told};
use crate::style::{ReportSource, ReportStyle};
use crate::telling::written;
use crate::unanswered::sentences_page;
use answer_data::why_data;
use archive_desk::{CommandOutput, TimingBounds};
use attribution::Verdict;
use attribution_desk::{DeskError, IndexedPair};
use binding_rules::Role;
use candidate_leases::VolumeEnds;
use causal_order::Certificate;
use desk_args::{ReportForm, SettingsCheck};
use holder_answers::{HolderAnswer, holder_answer_in};
use journal_lines::{Journal, JournalFault};
use pair_judgement::Judgement;
use plain_search::HolderQuery;
use report_document::{Block, Explanation, refusal_blocks, why_blocks};
use report_render::{RenderedText, passages_of, text_of};
use std::alloc::{AllocError, Global};
use std::thread::Threads;

/// The bounds that a question is asked with.
fn bounds_of(query: &HolderQuery) -> TimingBounds
    ensures { result ≡ bounds_of query.now }
{
    TimingBounds {
        skew: query.skew,
        transit: query.transit,
    }
}

/// What is told of why nobody is named.
fn told_reasons(
    alloc: Global,
    query: &HolderQuery,
    answer: &HolderAnswer,
) -> Result<Vec<Block>, AllocError>
    ensures { IfOk result (λ blocks. map told_of blocks.items ≡ no_holder_told query.now answer.now) }
{
    match answer {
        HolderAnswer::Held(_) => Ok(Vec::new(alloc)),
        HolderAnswer::Refused(ruling) => refusal_blocks(alloc, query, ruling),
        HolderAnswer::NotNamed(none) => why_blocks(alloc, query, &none.why, &none.leases),
        HolderAnswer::TooLong(none) => why_blocks(alloc, query, &none.why, &none.leases),
    }
}

/// What the reasons come to in words.
fn spelled_reasons(
    alloc: Global,
    query: &HolderQuery,
    answer: &HolderAnswer,
    style: &ReportStyle,
) -> Result<RenderedText, DeskError>
    ensures { IfOk result (IsWhySpelled query.now answer.now style.now) }
{
    let line = answer.text(alloc)?;
    let blocks = told_reasons(alloc, query, answer)?;
    let passages = passages_of(alloc, &blocks, style.zone)?;
    Ok(RenderedText { line, passages })
}

/// Why nobody is named, as sentences.
fn why_sentences(
    alloc: Global,
    query: &HolderQuery,
    answer: &HolderAnswer,
    style: &ReportStyle,
) -> Result<Vec<u8>, DeskError>
    ensures { IfOk result (λ text. IsWhySentences query.now answer.now style.now text.items) }
{
    let spelling = spelled_reasons(alloc, query, answer, style)?;
    let text = text_of(alloc, &spelling)?;
    Ok(text)
}

/// The same as one page.
fn why_page<'a>(
    alloc: Global,
    source: &'a ReportSource<'a>,
    query: &'a HolderQuery,
    answer: &HolderAnswer,
    style: &'a ReportStyle<'a>,
) -> Result<Vec<u8>, DeskError>
    ensures { IfOk result (λ text. IsWhyPage source.now query.now answer.now style.now text.items) }
{
    let spelling = spelled_reasons(alloc, query, answer, style)?;
    let subject = ReportSubject::nobody(query);
    page_told(
        alloc,
        &spelling,
        b"",
        &[],
        &[],
        source,
        &subject,
        &bounds_of(query),
        style,
    )
}

/// The same as one page: of its sentences alone where a text is no journal.
fn why_page_by<'a>(
    alloc: Global,
    source: &'a ReportSource<'a>,
    query: &'a HolderQuery,
    answer: &HolderAnswer,
    style: &'a ReportStyle<'a>,
) -> Result<Vec<u8>, DeskError>
    ensures { IfOk result (λ text. IsWhyPageBy source.now.pair.now.primary source.now.pair.now.secondary source.now
        query.now answer.now style.now text.items) }
{
    match (&source.pair.primary, &source.pair.secondary) {
        (Ok(_), Ok(_)) => why_page(alloc, source, query, answer, style),
        (Err(_), _) => unread_page(alloc, query, answer, style),
        (Ok(_), Err(_)) => unread_page(alloc, query, answer, style),
    }
}

/// A page of the sentences alone.
fn unread_page(
    alloc: Global,
    query: &HolderQuery,
    answer: &HolderAnswer,
    style: &ReportStyle,
) -> Result<Vec<u8>, DeskError>
    ensures { IfOk result (λ text. IsWhyUnread query.now answer.now style.now text.items) }
{
    let sentences = why_sentences(alloc, query, answer, style)?;
    let text = sentences_page(alloc, &sentences)?;
    Ok(text)
}

/// The same as one object.
fn why_object(
    alloc: Global,
    source: &ReportSource,
    query: &HolderQuery,
    answer: &HolderAnswer,
) -> Result<Vec<u8>, DeskError>
    ensures { IfOk result (λ text. IsWhyObject source.now query.now answer.now text.items) }
{
    let line = answer.text(alloc)?;
    let data = why_data(alloc, query, &line, answer, source.volumes.as_ref())?;
    Ok(data)
}

/// A report on an answer that names nobody, in the form that is asked for.
fn why_written<'a>(
    alloc: Global,
    source: &'a ReportSource<'a>,
    query: &'a HolderQuery,
    answer: &HolderAnswer,
    style: &'a ReportStyle<'a>,
) -> Result<Vec<u8>, DeskError>
    ensures { IfOk result (λ text. IsWhyIn style.now.form source.now query.now answer.now style.now text.items) }
{
    match style.form {
        ReportForm::Plain => why_sentences(alloc, query, answer, style),
        ReportForm::Page => why_page_by(alloc, source, query, answer, style),
        ReportForm::Json => why_object(alloc, source, query, answer),
    }
}

/// A report on an answer that names nobody.
fn why_told<'a>(
    alloc: Global,
    source: &'a ReportSource<'a>,
    query: &'a HolderQuery,
    answer: &HolderAnswer,
    style: &'a ReportStyle<'a>,
) -> Result<CommandOutput, DeskError>
    ensures { IfOk result (IsWhyTold source.now query.now answer.now style.now) }
{
    let text = why_written(alloc, source, query, answer, style)?;
    let mut notes = Vec::new(alloc);
    notes.extend_from_slice(answer.note())?;
    Ok(CommandOutput {
        text,
        status: answer.status(),
        notes,
    })
}

/// The text of a certificate.
fn written_certificate(alloc: Global, certificate: &Certificate) -> Result<Vec<u8>, DeskError>
    ensures { IfOk result (λ text. text.items ≡ certificate_text certificate.now) }
{
    match certificate::write(alloc, certificate) {
        Ok(text) => Ok(text),
        Err(_) => Err(DeskError::Memory),
    }
}

/// A report on the certificate that names a holder, as it was explained over both journals.
fn held_told<'a>(
    alloc: Global,
    source: &'a ReportSource<'a>,
    query: &'a HolderQuery,
    certificate: &'a Certificate,
    explanation: &Explanation,
    style: &'a ReportStyle<'a>,
) -> Result<CommandOutput, DeskError>
    ensures { (a b : JournalValue) → IsExplained a b query.now.skew query.now.transit certificate.now explanation.now
        → IfOk result (IsHeldTold a b source.now query.now certificate.now style.now) }
{
    let certified = written_certificate(alloc, certificate)?;
    let subject = ReportSubject::held(query, certificate, &certified);
    let text = written(
        alloc,
        explanation,
        source,
        &subject,
        &bounds_of(query),
        style,
    )?;
    Ok(CommandOutput {
        text,
        status: 0,
        notes: Vec::new(alloc),
    })
}

/// A report on an answer that was found over a case of two journals.
fn case_told<'a>(
    alloc: Global,
    source: &'a ReportSource<'a>,
    case: &IndexedPair,
    primary: &Journal,
    secondary: &Journal,
    query: &'a HolderQuery,
    answer: &'a HolderAnswer,
    style: &'a ReportStyle<'a>,
) -> Result<CommandOutput, DeskError>
    requires { IsCaseOf primary.now secondary.now query.now.skew case.now }
    ensures { IfOk result
        (IsReplyOver primary.now secondary.now source.now query.now answer.now style.now) }
{
    let HolderAnswer::Held(certificate) = answer else {
        return why_told(alloc, source, query, answer, style);
    };
    let (skew, transit) = (query.skew, query.transit);
    let explanation = explain_case(alloc, case, primary, secondary, certificate, skew, transit)?;
    held_told(alloc, source, query, certificate, &explanation, style)
}

/// The answer over two journals, whose lines are indexed once, and a report on it.
fn told_over<'a>(
    rt: &(impl Threads + Sync),
    alloc: Global,
    source: &'a ReportSource<'a>,
    primary: &Journal,
    secondary: &Journal,
    query: &'a HolderQuery,
    settings: SettingsCheck,
    style: &'a ReportStyle<'a>,
) -> Result<CommandOutput, DeskError>
    requires primary_closed { IsClosed primary.now.lines }
    requires secondary_closed { IsClosed secondary.now.lines }
    ensures { IfOk result (IsHolderOver primary.now secondary.now source.now query.now settings style.now) }
{
    let case = IndexedPair::of(rt, alloc, primary, secondary, query.skew)?;
    let ends = VolumeEnds::CLOSED;
    let answer = holder_answer_in(alloc, &case, primary, secondary, query, settings, ends)?;
    case_told(
        alloc, source, &case, primary, secondary, query, &answer, style,
    )
}

/// An answer of which a side's text is no journal.
fn unread_told<'a>(
    alloc: Global,
    source: &'a ReportSource<'a>,
    query: &'a HolderQuery,
    side: Role,
    fault: JournalFault,
    style: &'a ReportStyle<'a>,
) -> Result<CommandOutput, DeskError>
    ensures { IfOk result (IsUnreadTold side fault source.now query.now style.now) }
{
    let refused = HolderAnswer::Refused(Judgement::Verdict(Verdict::Journal(side, fault)));
    why_told(alloc, source, query, &refused, style)
}

/// What a search for a holder answers over two texts as closed journals, and a report on it: what the certificate shows,
/// or why nobody is named. `Memory` where a growth was refused.
pub fn holder_told<'a>(
    rt: &(impl Threads + Sync),
    alloc: Global,
    source: &'a ReportSource<'a>,
    query: &'a HolderQuery,
    settings: SettingsCheck,
    style: &'a ReportStyle<'a>,
) -> Result<CommandOutput, DeskError>
    requires primary_closed { ForOk source.now.pair.now.primary (λ journal. IsClosed journal.lines) }
    requires secondary_closed { ForOk source.now.pair.now.secondary (λ journal. IsClosed journal.lines) }
    ensures { IfOk result (IsHolderTold source.now.pair.now.primary source.now.pair.now.secondary source.now query.now
        settings style.now) }
{
    match (&source.pair.primary, &source.pair.secondary) {
        (Ok(primary), Ok(secondary)) => told_over(
            rt, alloc, source, primary, secondary, query, settings, style,
        ),
        (Err(fault), _) => unread_told(alloc, source, query, Role::Primary, *fault, style),
        (Ok(_), Err(fault)) => unread_told(alloc, source, query, Role::Secondary, *fault, style),
    }
}

/// A report on an answer that was found over two closed journals.
fn found_told<'a>(
    rt: &(impl Threads + Sync),
    alloc: Global,
    source: &'a ReportSource<'a>,
    primary: &Journal,
    secondary: &Journal,
    query: &'a HolderQuery,
    answer: &'a HolderAnswer,
    style: &'a ReportStyle<'a>,
) -> Result<CommandOutput, DeskError>
    requires primary_closed { IsClosed primary.now.lines }
    requires secondary_closed { IsClosed secondary.now.lines }
    ensures { IfOk result
        (IsReplyOver primary.now secondary.now source.now query.now answer.now style.now) }
{
    let HolderAnswer::Held(certificate) = answer else {
        return why_told(alloc, source, query, answer, style);
    };
    let (skew, transit) = (query.skew, query.transit);
    let explanation = explain_journals(rt, alloc, primary, secondary, certificate, skew, transit)?;
    held_told(alloc, source, query, certificate, &explanation, style)
}

/// A report on an answer that was found over two texts as closed journals: what its certificate shows, or why nobody is
/// named. `Memory` where a growth was refused.
pub fn reply_told<'a>(
    rt: &(impl Threads + Sync),
    alloc: Global,
    source: &'a ReportSource<'a>,
    query: &'a HolderQuery,
    answer: &'a HolderAnswer,
    style: &'a ReportStyle<'a>,
) -> Result<CommandOutput, DeskError>
    requires primary_closed { ForOk source.now.pair.now.primary (λ journal. IsClosed journal.lines) }
    requires secondary_closed { ForOk source.now.pair.now.secondary (λ journal. IsClosed journal.lines) }
    ensures { IfOk result (IsReplyOf source.now.pair.now.primary source.now.pair.now.secondary source.now query.now
        answer.now style.now) }
{
    match (&source.pair.primary, &source.pair.secondary) {
        (Ok(primary), Ok(secondary)) => found_told(
            rt, alloc, source, primary, secondary, query, answer, style,
        ),
        (Err(fault), _) => unread_told(alloc, source, query, Role::Primary, *fault, style),
        (Ok(_), Err(fault)) => unread_told(alloc, source, query, Role::Secondary, *fault, style),
    }
}
