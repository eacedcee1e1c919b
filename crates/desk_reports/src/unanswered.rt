//! What is told where a question isn't asked of two journals: a line alone, in the form that is asked for.

ghost use Rattle.std.specs.Prelude.{◌≡◌, ◌++◌, [], IfOk, OnOk, string_bytes};
ghost use Rattle.std.specs.List.{flat_map};
ghost use Rattle.std.specs.Option.{option_map};
ghost use Rattle.desk_reports.specs.Unanswered.{cut_end, unended, page_head, heading, paragraph_octet, paragraphs, line_page};
ghost use Rattle.desk_reports.specs.Unanswered.{first_line, behind_line, sentences_page, IsFaultLine, IsRulingIn};
ghost use Rattle.desk_reports.specs.Unanswered.{IsAnswerIn, lack_line, IsLineIn, IsRefusedTold, IsLackOf, IsFaultIn};
ghost use Rattle.desk_reports.specs.Unanswered.{IsFaultTold, IsFailureTold};

use answer_data::line_data;
use archive_desk::{CommandOutput, FilesFailure, TimingBounds, gap_line, push_gap_name};
use binding_rules::Role;
use desk_args::ReportForm;
use journal_archive::CoverageGap;
use plain_search::HolderQuery;
use report_data::{Object, text_of, verdict_data};
use report_render::push_escaped;
use std::alloc::{AllocError, Global};
use std::path::PathBuf;
use text_fields::Cuts;

/// What a report is asked for.
#[derive(Clone, Copy)]
pub enum ReportQuestion<'a> {
    /// The certificate of this text.
    Certificate(&'a [u8]),
    /// Who held a prefix at a moment.
    Holder(&'a HolderQuery),
}

/// What stands before the line feed that a text ends with; `None` where it ends otherwise.
fn cut_end(text: &[u8]) -> Option<&[u8]>
    ensures { option_map (λ cut. cut.now) result ≡ cut_end text.now }
{
    text.strip_suffix(b"\n")
}

/// A line without its line feed.
fn unended(line: &[u8]) -> &[u8]
    ensures { result.now ≡ unended line.now }
{
    match cut_end(line) {
        Some(cut) => cut,
        None => line,
    }
}

/// The line of a fault as one JSON object, and a line feed.
fn fault_object(alloc: Global, line: &[u8]) -> Result<String, AllocError>
    ensures { IfOk result (λ text. IsFaultLine line.now (string_bytes text)) }
{
    Object::answer(alloc)
        .with_made("fault", text_of(alloc, unended(line)))
        .with("status", 2u8)
        .into_line()
}

/// Writes a fault, the line that standard error gets, as one JSON object. `AllocError` where a growth was refused.
pub fn fault_data(alloc: Global, line: &[u8]) -> Result<Vec<u8>, AllocError>
    ensures { IfOk result (λ text. IsFaultLine line.now text.items) }
{
    let text = fault_object(alloc, line)?;
    Ok(text.into_bytes())
}

/// What stands before the line of a page.
#[tactic(auto, unfolding(crate::specs::Unanswered::page_head))]
fn page_head() -> &'static [u8]
    ensures { result.now ≡ page_head }
{
    b"<!DOCTYPE html>\n<html lang=\"en\">\n<head>\n<meta charset=\"utf-8\"/>\n\
        <title>Report on a delegated prefix</title>\n</head>\n<body>\n<h1>"
}

/// Appends an octet of a paragraph, escaped; of a line feed that the next paragraph begins.
fn push_paragraph_octet(out: &mut Vec<u8>, octet: u8) -> Result<(), AllocError>
    ensures { OnOk result (out.new.items ≡ out.old.items ++ paragraph_octet octet) }
{
    if octet == b'\n' {
        out.extend_from_slice(b"</p>\n<p>")?;
        return Ok(());
    }
    push_escaped(out, &[octet])
}

/// Appends the octets of paragraphs.
fn push_paragraph_octets(out: &mut Vec<u8>, text: &[u8]) -> Result<(), AllocError>
    ensures { OnOk result (out.new.items ≡ out.old.items ++ flat_map paragraph_octet text.now) }
{
    for octet in text {
        push_paragraph_octet(out, *octet)?;
    }
    Ok(())
}

/// Appends each line of a text as a paragraph; nothing of a text that doesn't end with a line feed.
fn push_paragraphs(out: &mut Vec<u8>, text: &[u8]) -> Result<(), AllocError>
    ensures { OnOk result (out.new.items ≡ out.old.items ++ paragraphs text.now) }
{
    let Some(cut) = cut_end(text) else {
        return Ok(());
    };
    out.extend_from_slice(b"<p>")?;
    push_paragraph_octets(out, cut)?;
    out.extend_from_slice(b"</p>\n")?;
    Ok(())
}

/// Appends a page up to its heading, which is a line.
fn push_heading(out: &mut Vec<u8>, line: &[u8]) -> Result<(), AllocError>
    ensures { OnOk result (out.new.items ≡ out.old.items ++ heading line.now) }
{
    out.extend_from_slice(page_head())?;
    push_escaped(out, unended(line))?;
    out.extend_from_slice(b"</h1>\n")?;
    Ok(())
}

/// Writes a line, which rests on no journals, as one page, with the lines that standard error gets beside it.
/// `AllocError` where a growth was refused.
pub fn line_page(alloc: Global, line: &[u8], notes: &[u8]) -> Result<Vec<u8>, AllocError>
    ensures { IfOk result (λ text. text.items ≡ line_page line.now notes.now) }
{
    let mut out = Vec::new(alloc);
    push_heading(&mut out, line)?;
    push_paragraphs(&mut out, notes)?;
    out.extend_from_slice(b"</body>\n</html>\n")?;
    Ok(out)
}

/// The first line of a text, without its line feed.
fn first_line(text: &[u8]) -> &[u8]
    ensures { result.now ≡ first_line text.now }
{
    match Cuts::new(text, b'\n').next_cut() {
        Some(cut) => cut,
        None => b"",
    }
}

/// What stands behind the first line of a text.
fn behind_line(text: &[u8]) -> &[u8]
    ensures { result.now ≡ behind_line text.now }
{
    match text.get(first_line(text).len()..) {
        Some([_, others @ ..]) => others,
        Some([]) | None => b"",
    }
}

/// Writes a report's sentences, which rest on no journals, as one page: its first line, and each other one as a
/// paragraph. `AllocError` where a growth was refused.
pub fn sentences_page(alloc: Global, sentences: &[u8]) -> Result<Vec<u8>, AllocError>
    ensures { IfOk result (λ text. text.items ≡ sentences_page sentences.now) }
{
    line_page(alloc, first_line(sentences), behind_line(sentences))
}

/// Writes a line that rules on a certificate's text, in the form that is asked for.
fn ruling_told(
    alloc: Global,
    certificate: &[u8],
    line: Vec<u8>,
    notes: &[u8],
    form: ReportForm,
) -> Result<Vec<u8>, AllocError>
    ensures { IfOk result (λ text. IsRulingIn form certificate.now line.items notes.now text.items) }
{
    match form {
        ReportForm::Plain => Ok(line),
        ReportForm::Page => line_page(alloc, &line, notes),
        ReportForm::Json => {
            let object = verdict_data(alloc, unended(&line), certificate)?;
            Ok(object.into_bytes())
        }
    }
}

/// Writes a line that answers who held a prefix, in the form that is asked for.
fn answer_told(
    alloc: Global,
    query: &HolderQuery,
    line: Vec<u8>,
    notes: &[u8],
    form: ReportForm,
) -> Result<Vec<u8>, AllocError>
    ensures { IfOk result (λ text. IsAnswerIn form query.now line.items notes.now text.items) }
{
    match form {
        ReportForm::Plain => Ok(line),
        ReportForm::Page => line_page(alloc, &line, notes),
        ReportForm::Json => line_data(alloc, query, &line, None),
    }
}

/// Writes a line that answers a question, in the form that is asked for.
fn line_told(
    alloc: Global,
    question: ReportQuestion,
    line: Vec<u8>,
    notes: &[u8],
    form: ReportForm,
) -> Result<Vec<u8>, AllocError>
    ensures { IfOk result (λ text. IsLineIn form question.entry line.items notes.now text.items) }
{
    match question {
        ReportQuestion::Certificate(text) => ruling_told(alloc, text, line, notes, form),
        ReportQuestion::Holder(query) => answer_told(alloc, query, line, notes, form),
    }
}

/// What is told by a line that refuses: the status is 1. `AllocError` where a growth was refused.
pub fn refused_told(
    alloc: Global,
    question: ReportQuestion,
    line: Vec<u8>,
    notes: Vec<u8>,
    form: ReportForm,
) -> Result<CommandOutput, AllocError>
    ensures { IfOk result (IsRefusedTold form question.entry line.items notes.items) }
{
    let text = line_told(alloc, question, line, &notes, form)?;
    Ok(CommandOutput {
        text,
        status: 1,
        notes,
    })
}

/// The line that says which side lacks a moment, and the lack's name.
fn lack_line(alloc: Global, side: Role, lack: &CoverageGap) -> Result<Vec<u8>, AllocError>
    ensures { IfOk result (λ line. line.items ≡ lack_line side lack.now) }
{
    let mut line = Vec::new(alloc);
    push_gap_name(&mut line, side, lack)?;
    line.push(b'\n')?;
    Ok(line)
}

/// What is told where no volume of a side shows the moment. `AllocError` where a growth was refused.
pub fn lacking_told(
    alloc: Global,
    question: ReportQuestion,
    names: &[PathBuf],
    side: Role,
    lack: &CoverageGap,
    bounds: &TimingBounds,
    form: ReportForm,
) -> Result<CommandOutput, AllocError>
    ensures { IfOk result (IsLackOf form question.entry side lack.now) }
{
    let line = lack_line(alloc, side, lack)?;
    let notes = gap_line(alloc, names, side, lack, bounds)?;
    refused_told(alloc, question, line, notes, form)
}

/// Writes the line of a fault, in the form that is asked for; nothing as sentences.
fn fault_written(alloc: Global, line: &[u8], form: ReportForm) -> Result<Vec<u8>, AllocError>
    ensures { IfOk result (λ text. IsFaultIn form line.now text.items) }
{
    match form {
        ReportForm::Plain => Ok(Vec::new(alloc)),
        ReportForm::Page => line_page(alloc, line, b""),
        ReportForm::Json => fault_data(alloc, line),
    }
}

/// What is told by the line of a fault: it goes to standard error, and the status is 2.
fn fault_told(alloc: Global, line: Vec<u8>, form: ReportForm) -> Result<CommandOutput, AllocError>
    ensures { IfOk result (IsFaultTold form line.items) }
{
    let text = fault_written(alloc, &line, form)?;
    Ok(CommandOutput {
        text,
        status: 2,
        notes: line,
    })
}

/// What is told where files answer nothing. `AllocError` where a growth was refused.
pub fn failed_told(
    alloc: Global,
    question: ReportQuestion,
    failure: FilesFailure,
    form: ReportForm,
) -> Result<CommandOutput, AllocError>
    ensures { IfOk result (IsFailureTold form question.entry failure) }
{
    match failure {
        FilesFailure::Refused(line) => {
            refused_told(alloc, question, line, Vec::new(alloc), form)
        }
        FilesFailure::Fault(line) => fault_told(alloc, line, form),
    }
}
