//! Answers over two texts as JSON, each of the value that was answered.

ghost use Rattle.std.specs.Prelude.{[], IfOk, codes};
ghost use Rattle.pair_judgement.specs.Judgements.{status_of as ruling_status};
ghost use Rattle.attribution_desk.specs.Searching.{status_of, note_of};
ghost use Rattle.holder_answers.specs.HolderAnswers.{search_of};
ghost use Rattle.answer_data.specs.Parts.{nothing, with_line, with_ruling, with_found, with_answer};
ghost use Rattle.answer_data.specs.Answers.{IsAnswerLine};
ghost use Rattle.answer_data.specs.Texts.{without_feed};

use crate::parts::AnswerParts;
use attribution_desk::{DeskError, SearchAnswer};
use holder_answers::HolderAnswer;
use pair_judgement::Judgement;
use std::alloc::{AllocError, Global};

/// Writes who held a prefix as one JSON object, and a line feed. `Memory` where a growth was refused.
pub fn holder_data(alloc: Global, answer: &HolderAnswer) -> Result<Vec<u8>, DeskError>
    ensures { IfOk result (λ text. IsAnswerLine (codes "who") (status_of (search_of answer.now))
        (with_answer answer.now nothing) (note_of (search_of answer.now)) text.items) }
{
    let mut parts = AnswerParts::new(alloc);
    parts.add_answer(alloc, answer)?;
    let text = parts.into_line(alloc, "who", answer.status(), answer.note())?;
    Ok(text)
}

/// Writes what was found of the evidence of an interval as one JSON object, with the lines of standard error. `Memory`
/// where a growth was refused.
pub fn found_data(alloc: Global, answer: &SearchAnswer, notes: &[u8]) -> Result<Vec<u8>, DeskError>
    ensures { IfOk result (λ text. IsAnswerLine (codes "find") (status_of answer.now)
        (with_found answer.now nothing) notes.now text.items) }
{
    let mut parts = AnswerParts::new(alloc);
    parts.add_found(alloc, answer)?;
    let text = parts.into_line(alloc, "find", answer.status(), notes)?;
    Ok(text)
}

/// Writes a ruling on a certificate as one JSON object, with the lines of standard error. `AllocError` where a growth
/// was refused.
pub fn ruling_data(alloc: Global, ruling: &Judgement, notes: &[u8]) -> Result<Vec<u8>, AllocError>
    ensures { IfOk result (λ text. IsAnswerLine (codes "audit") (ruling_status ruling.now)
        (with_ruling ruling.now nothing) notes.now text.items) }
{
    let mut parts = AnswerParts::new(alloc);
    parts.add_ruling(alloc, ruling)?;
    parts.into_line(alloc, "audit", pair_judgement::status_of(ruling), notes)
}

/// Writes a line that refuses files as one JSON object on a command. `AllocError` where a growth was refused.
pub fn refused_data(
    alloc: Global,
    command: &'static str,
    line: &[u8],
) -> Result<Vec<u8>, AllocError>
    ensures { IfOk result
        (λ text. IsAnswerLine command.now 1 (with_line (without_feed line.now) nothing) [] text.items) }
{
    let mut parts = AnswerParts::new(alloc);
    parts.add_line(alloc, line)?;
    parts.into_line(alloc, command, 1, b"")
}
