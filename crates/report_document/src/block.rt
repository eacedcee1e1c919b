//! The blocks of a report.

ghost use Rattle.std.specs.Prelude.{◌≡◌, ◌∷◌, ◌++◌, [], OnOk};
ghost use Rattle.report_document.specs.Telling.{values_of, values_in, item, AddsBlocks};

use crate::word::ReportWord;
use pair_judgement::Judgement;
use std::alloc::AllocError;
use std::slice;

/// What a block is to its reader.
#[derive(Clone, Copy, Debug, PartialEq, Eq)]
pub enum BlockKind {
    Heading,
    Paragraph,
    /// One of several sentences about one thing.
    Item,
    /// A line of a journal, in full.
    Cited,
}

/// A heading, a sentence or a line.
#[derive(Debug, Drop)]
pub struct Block {
    pub kind: BlockKind,
    pub words: Vec<ReportWord>,
}

/// A report: its first line is the ruling's.
#[derive(Debug, Drop)]
pub struct Document {
    pub ruling: Judgement,
    pub blocks: Vec<Block>,
}

/// A part of a sentence: prose, and the value that it leads to.
pub type SentencePart = (&'static str, ReportWord);

/// Appends the words of these parts.
#[tactic(auto, using(crate::proofs::Blocks::values_more))]
fn push_parts(words: &mut Vec<ReportWord>, parts: &[SentencePart]) -> Result<(), AllocError>
    ensures { OnOk result (values_of words.new.items ≡ values_of words.old.items ++ values_in parts.now) }
{
    for part in parts {
        let value = &part.1;
        words.extend_from_slice(&[ReportWord::Prose(part.0)])?;
        words.extend_from_slice(slice::from_ref(value))?;
    }
    Ok(())
}

/// Appends a block of these words.
#[tactic(auto, using(crate::proofs::Blocks::told_more))]
pub(crate) fn push_words(
    out: &mut Vec<Block>,
    kind: BlockKind,
    words: Vec<ReportWord>,
) -> Result<(), AllocError>
    ensures { OnOk result
        (AddsBlocks (record { kind = kind; values = values_of words.items } ∷ []) out.old.items out.new.items) }
{
    out.push(Block { kind, words })?;
    Ok(())
}

/// Appends a block of these parts, and more parts, and the prose that ends it, if any.
fn push_both(
    out: &mut Vec<Block>,
    kind: BlockKind,
    parts: &[SentencePart],
    more: &[SentencePart],
    end: &'static str,
) -> Result<(), AllocError>
    ensures { OnOk result (AddsBlocks (record { kind = kind; values = values_in parts.now ++ values_in more.now } ∷ [])
        out.old.items out.new.items) }
{
    let mut words = Vec::new(*out.allocator());
    push_parts(&mut words, parts)?;
    push_parts(&mut words, more)?;
    if !end.is_empty() {
        words.extend_from_slice(&[ReportWord::Prose(end)])?;
    }
    push_words(out, kind, words)
}

/// Appends a block of these parts, and of the prose that ends it, if any.
pub fn push_block(
    out: &mut Vec<Block>,
    kind: BlockKind,
    parts: &[SentencePart],
    end: &'static str,
) -> Result<(), AllocError>
    ensures { OnOk result
        (AddsBlocks (record { kind = kind; values = values_in parts.now } ∷ []) out.old.items out.new.items) }
{
    push_both(out, kind, parts, &[], end)
}

/// Appends an item that ends in a sum.
pub fn push_sum(
    out: &mut Vec<Block>,
    parts: &[SentencePart],
    sum: &[SentencePart],
    end: &'static str,
) -> Result<(), AllocError>
    ensures { OnOk result
        (AddsBlocks (item (values_in parts.now ++ values_in sum.now) ∷ []) out.old.items out.new.items) }
{
    push_both(out, BlockKind::Item, parts, sum, end)
}
