//! The facts of a page: what was asked, and for which case, by whom and when.

ghost use Rattle.std.specs.Prelude.{◌≡◌, ◌++◌, OnOk, IfOk};
ghost use Rattle.report_render.specs.Spelling.{IsMomentText};
ghost use Rattle.report_render.specs.Facts.{row_html, given_html, question_html, facts_html, IsAskedText};

use crate::escaping::push_escaped;
use crate::template::{PagePart, push_part};
use crate::words::push_whole;
use lead_time::Reading;
use prefix_range::{Prefix, push_prefix};
use std::alloc::{AllocError, Global};
use zone_times::ZoneFile;

/// Who held a prefix at a moment.
#[derive(Clone, Copy, Debug)]
pub struct PageQuestion {
    pub prefix: Prefix,
    pub at: Reading,
}

/// What a page says of the question, beside the answer. The texts are a person's, and go in escaped.
#[derive(Clone, Copy, Debug)]
pub struct PageFacts<'a> {
    /// What was asked, where it was a moment and no certificate.
    pub question: Option<PageQuestion>,
    /// The case that the page is for.
    pub case: Option<&'a str>,
    /// Who asked.
    pub asked_by: Option<&'a str>,
    /// When the page was made. Without it the page has no date, and is the same octets whenever it is made.
    pub made: Option<&'a str>,
}

/// The moment that was asked about: in UTC, its milliseconds, and in a zone's local time where one is given.
#[tactic(auto, using(crate::proofs::MoreFacts::asked_moment))]
fn moment_asked(alloc: Global, zone: Option<&ZoneFile>, at: Reading) -> Result<Vec<u8>, AllocError>
    ensures { IfOk result (λ text. IsMomentText zone.entry at text.items) }
{
    let mut text = Vec::new(alloc);
    push_whole(&mut text, alloc, zone, at)?;
    Ok(text)
}

/// That of a question, or nothing where there is none. `AllocError` where a growth was refused.
pub(crate) fn asked_of(
    alloc: Global,
    zone: Option<&ZoneFile>,
    question: Option<PageQuestion>,
) -> Result<Vec<u8>, AllocError>
    ensures { IfOk result (λ text. IsAskedText zone.entry question text.items) }
{
    match question {
        Some(question) => moment_asked(alloc, zone, question.at),
        None => Ok(Vec::new(alloc)),
    }
}

/// Appends a fact: its name, and its text escaped.
#[tactic(auto, unfolding(crate::specs::Facts::row_html))]
fn push_row(out: &mut Vec<u8>, name: PagePart, text: &[u8]) -> Result<(), AllocError>
    ensures { OnOk result (out.new.items ≡ out.old.items ++ row_html name text.now) }
{
    push_part(out, name)?;
    push_escaped(out, text)?;
    push_part(out, PagePart::RowEnd)
}

/// Appends a fact that may be left out.
fn push_given(out: &mut Vec<u8>, name: PagePart, text: Option<&str>) -> Result<(), AllocError>
    ensures { OnOk result (out.new.items ≡ out.old.items ++ given_html name text.entry) }
{
    match text {
        Some(text) => push_row(out, name, text.as_bytes()),
        None => Ok(()),
    }
}

/// Appends what was asked, with its moment's text.
fn push_question(
    out: &mut Vec<u8>,
    question: Option<PageQuestion>,
    asked: &[u8],
) -> Result<(), AllocError>
    ensures { OnOk result (out.new.items ≡ out.old.items ++ question_html question asked.now) }
{
    match question {
        Some(question) => {
            push_part(out, PagePart::PrefixRow)?;
            push_prefix(out, &question.prefix)?;
            push_part(out, PagePart::RowEnd)?;
            push_row(out, PagePart::MomentRow, asked)
        }
        None => Ok(()),
    }
}

/// Appends the facts, with the text of the moment that was asked about. `AllocError` where a growth was refused.
#[tactic(auto, unfolding(crate::specs::Facts::facts_html))]
pub(crate) fn push_facts(
    out: &mut Vec<u8>,
    facts: &PageFacts<'_>,
    asked: &[u8],
) -> Result<(), AllocError>
    ensures { OnOk result (out.new.items ≡ out.old.items ++ facts_html facts.now asked.now) }
{
    push_part(out, PagePart::FactsBegin)?;
    push_question(out, facts.question, asked)?;
    push_given(out, PagePart::CaseRow, facts.case)?;
    push_given(out, PagePart::AskedByRow, facts.asked_by)?;
    push_given(out, PagePart::MadeRow, facts.made)?;
    push_part(out, PagePart::FactsEnd)
}
