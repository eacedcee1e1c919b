//! A document, spelled.

ghost use Rattle.std.specs.Prelude.{◌≡◌, IfOk};
ghost use Rattle.report_render.specs.Spelling.{IsPassage, ArePassages, IsSpelling};

use crate::words::push_words;
use pair_judgement::judgement_line;
use report_document::{Block, BlockKind, Document};
use std::alloc::{AllocError, Global};
use zone_times::ZoneFile;

/// A block of a report as octets.
#[derive(Debug, Drop)]
pub struct TextBlock {
    pub kind: BlockKind,
    pub text: Vec<u8>,
}

/// A document as octets.
#[derive(Debug, Drop)]
pub struct RenderedText {
    /// The ruling's line, with its line feed.
    pub line: Vec<u8>,
    pub passages: Vec<TextBlock>,
}

fn passage_of(
    alloc: Global,
    block: &Block,
    zone: Option<&ZoneFile>,
) -> Result<TextBlock, AllocError>
    ensures { IfOk result (IsPassage zone.entry block.now) }
{
    let mut text = Vec::new(alloc);
    push_words(&mut text, alloc, zone, &block.words)?;
    Ok(TextBlock {
        kind: block.kind,
        text,
    })
}

/// Spells blocks, each as a passage; moments are told in the local time of a zone too, where one is given. `AllocError`
/// where a growth was refused.
#[tactic(auto, using(crate::proofs::MorePassages::passages_step))]
pub fn passages_of(
    alloc: Global,
    blocks: &[Block],
    zone: Option<&ZoneFile>,
) -> Result<Vec<TextBlock>, AllocError>
    ensures { IfOk result (λ passages. ArePassages zone.entry blocks.now passages.items) }
{
    let mut passages = Vec::new(alloc);
    for block in blocks {
        passages.push(passage_of(alloc, block, zone)?)?;
    }
    Ok(passages)
}

/// Spells a document; moments are told in the local time of a zone too, where one is given. `AllocError` where a growth
/// was refused.
pub fn spelled(
    alloc: Global,
    document: &Document,
    zone: Option<&ZoneFile>,
) -> Result<RenderedText, AllocError>
    ensures { IfOk result (IsSpelling zone.entry document.now) }
{
    Ok(RenderedText {
        line: judgement_line(alloc, &document.ruling)?,
        passages: passages_of(alloc, &document.blocks, zone)?,
    })
}
