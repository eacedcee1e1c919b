//! Answers of `who` that must hold for more than one moment.

ghost use Rattle.std.specs.Prelude.{◌≡◌, ◌↔◌, ◌<◌, ◌≤◌, ◌+◌, ◌-◌, ◌*◌, IsTrue};

use archive_desk::{ArchiveAnswer, CommandOutput, HolderReply};
use causal_order::Certificate;
use desk_args::MomentSpan;
use holder_answers::HolderAnswer;
use lead_time::Reading;
use plain_search::HolderQuery;
use std::alloc::{AllocError, Global};
use text_fields::push_octets;
use time_text::push_time;

/// The first and the last moment for which an answer must hold, in milliseconds of true time.
#[derive(Clone, Copy, Debug, PartialEq, Eq)]
struct WholeSpan {
    first: u64,
    last: u64,
}

/// The moments round one: as many seconds before it as after it, or a minute behind it.
fn span_round(at: Reading, span: MomentSpan) -> WholeSpan {
    let at = at.milliseconds();
    match span {
        MomentSpan::Alone => WholeSpan {
            first: at,
            last: at,
        },
        MomentSpan::Within(seconds) => {
            let wide = seconds.saturating_mul(1000);
            WholeSpan {
                first: at.saturating_sub(wide),
                last: at.saturating_add(wide),
            }
        }
        MomentSpan::Minute => WholeSpan {
            first: at,
            last: at.saturating_add(60_000),
        },
    }
}

/// Returns whether a certificate's interval has all of these moments.
fn has_all(certificate: &Certificate, span: WholeSpan) -> bool
    ensures { IsTrue result ↔ ((certificate.now.from ≤ span.first) × (span.last < certificate.now.to)) }
{
    certificate.from.milliseconds() <= span.first && span.last < certificate.to.milliseconds()
}

/// Appends a moment, or its milliseconds where no reading may have it.
fn push_moment(out: &mut Vec<u8>, milliseconds: u64) -> Result<(), AllocError> {
    match Reading::new(milliseconds) {
        Ok(moment) => push_time(out, moment),
        Err(_) => out.extend_from_slice(b"the end of time"),
    }
}

/// A line that says what was asked of, and what is shown.
fn shortfall_line(
    alloc: Global,
    certificate: &Certificate,
    span: WholeSpan,
) -> Result<Vec<u8>, AllocError> {
    let mut line = Vec::new(alloc);
    line.extend_from_slice(b"warning Span: asked of all from ")?;
    push_moment(&mut line, span.first)?;
    line.extend_from_slice(b" to ")?;
    push_moment(&mut line, span.last)?;
    line.extend_from_slice(b"; ")?;
    push_octets(&mut line, certificate.holder.as_bytes())?;
    line.extend_from_slice(b" is shown to have held it from ")?;
    push_time(&mut line, certificate.from)?;
    line.extend_from_slice(b" up to ")?;
    push_time(&mut line, certificate.to)?;
    line.extend_from_slice(b" alone\n")?;
    Ok(line)
}

/// What standard error says where the client that is named isn't shown to have held the prefix for all of the moments.
pub(crate) fn shortfall(
    alloc: Global,
    query: &HolderQuery,
    span: MomentSpan,
    answer: &HolderAnswer,
) -> Result<Option<Vec<u8>>, AllocError> {
    let HolderAnswer::Held(certificate) = answer else {
        return Ok(None);
    };
    let asked = span_round(query.at, span);
    if has_all(certificate, asked) {
        return Ok(None);
    }
    Ok(Some(shortfall_line(alloc, certificate, asked)?))
}

/// The same of an answer over files.
pub(crate) fn shortfall_of(
    alloc: Global,
    span: MomentSpan,
    answer: &ArchiveAnswer,
) -> Result<Option<Vec<u8>>, AllocError> {
    match answer {
        ArchiveAnswer::Who(who) => match &who.reply {
            HolderReply::Answered { answer, .. } => shortfall(alloc, &who.query, span, answer),
            HolderReply::Lacking(_, _) => Ok(None),
        },
        _ => Ok(None),
    }
}

/// `none`, with the notes of the answer and the line that says why.
pub(crate) fn none_told(
    alloc: Global,
    notes: &[u8],
    line: &[u8],
) -> Result<CommandOutput, AllocError> {
    let mut text = Vec::new(alloc);
    text.extend_from_slice(b"none\n")?;
    let mut said = Vec::new(alloc);
    said.extend_from_slice(notes)?;
    said.extend_from_slice(line)?;
    Ok(CommandOutput {
        text,
        status: 1,
        notes: said,
    })
}
