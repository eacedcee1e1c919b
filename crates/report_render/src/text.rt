//! The text of a report.

ghost use Rattle.std.specs.Prelude.{◌≡◌, ◌++◌, OnOk, IfOk};
ghost use Rattle.report_render.specs.Text.{front_of, passage_text, report_text};

use crate::text_block::{RenderedText, TextBlock};
use report_document::BlockKind;
use std::alloc::{AllocError, Global};

/// What stands before a passage of this kind.
fn front_of(kind: BlockKind) -> &'static [u8]
    ensures { result.now ≡ front_of kind }
{
    match kind {
        BlockKind::Heading => b"\n",
        BlockKind::Paragraph => b"",
        BlockKind::Item => b"- ",
        BlockKind::Cited => b"    ",
    }
}

fn push_passage(out: &mut Vec<u8>, passage: &TextBlock) -> Result<(), AllocError>
    ensures { OnOk result (out.new.items ≡ out.old.items ++ passage_text passage.now) }
{
    out.extend_from_slice(front_of(passage.kind))?;
    out.extend_from_slice(&passage.text)?;
    out.push(b'\n')?;
    Ok(())
}

/// The text of a report: the ruling's line, and a line for each passage, an empty one before each heading.
/// `AllocError` where a growth was refused.
pub fn text_of(alloc: Global, spelling: &RenderedText) -> Result<Vec<u8>, AllocError>
    ensures { IfOk result (λ text. text.items ≡ report_text spelling.now) }
{
    let mut out = Vec::new(alloc);
    out.extend_from_slice(&spelling.line)?;
    for passage in &spelling.passages {
        push_passage(&mut out, passage)?;
    }
    Ok(out)
}
