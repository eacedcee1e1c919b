//! The lines of a page in their volumes, in one table.

ghost use Rattle.std.specs.Prelude.{◌≡◌, ◌++◌, OnOk, IfOk};
ghost use Rattle.std.specs.List.{flat_map};
ghost use Rattle.report_render.specs.VolumeLines.{volume_row_html, line_html, IsTableOver, AreNamedOver, AreVolumeLines};

use crate::template::{PagePart, push_part};
use attribution::push_place;
use causal_order::Ref;
use evidence_report::CitedLine;
use line_origins::{LineOrigin, SpanOrigins};
use std::alloc::{AllocError, Global};
use text_fields::push_number;

/// Appends a row: a line as it is named, its volume, and its number there.
#[tactic(auto, unfolding(crate::specs::VolumeLines::volume_row_html))]
fn push_row(out: &mut Vec<u8>, at: Ref, origin: LineOrigin) -> Result<(), AllocError>
    ensures { OnOk result (out.new.items ≡ out.old.items ++ volume_row_html at origin) }
{
    push_part(out, PagePart::GrantRow)?;
    push_place(out, at.side, at.number)?;
    push_part(out, PagePart::FirstCell)?;
    push_number(out, u64::from(origin.volume))?;
    push_part(out, PagePart::NextCell)?;
    push_number(out, origin.line)?;
    push_part(out, PagePart::CellEnd)?;
    push_part(out, PagePart::GrantRowEnd)
}

/// Appends that of a line that a volume has: a close line may stand in none.
fn push_line(out: &mut Vec<u8>, origins: &SpanOrigins, cited: &CitedLine) -> Result<(), AllocError>
    ensures { OnOk result (out.new.items ≡ out.old.items ++ line_html origins.now cited.now) }
{
    if cited.line.event.is_close() {
        return Ok(());
    }
    match origins.origin_of(cited.at.side, cited.at.number) {
        Some(origin) => push_row(out, cited.at, origin),
        None => Ok(()),
    }
}

/// Appends those of all these lines, in their order.
fn push_lines(
    out: &mut Vec<u8>,
    origins: &SpanOrigins,
    cited: &[CitedLine],
) -> Result<(), AllocError>
    ensures { OnOk result (out.new.items ≡ out.old.items ++ flat_map (line_html origins.now) cited.now) }
{
    for line in cited {
        push_line(out, origins, line)?;
    }
    Ok(())
}

/// The table of these lines, where a side has several volumes; else nothing.
#[tactic(auto, unfolding(crate::specs::VolumeLines::volume_table_html))]
fn table_over(
    alloc: Global,
    origins: &SpanOrigins,
    cited: &[CitedLine],
) -> Result<Vec<u8>, AllocError>
    ensures { IfOk result (λ text. IsTableOver origins.now cited.now text.items) }
{
    let mut out = Vec::new(alloc);
    if !origins.has_several() {
        return Ok(out);
    }
    push_part(&mut out, PagePart::VolumeLinesBegin)?;
    push_lines(&mut out, origins, cited)?;
    push_part(&mut out, PagePart::GrantsEnd)?;
    Ok(out)
}

/// That of lines of which at least one is named; else nothing.
fn named_over(
    alloc: Global,
    origins: &SpanOrigins,
    cited: &[CitedLine],
) -> Result<Vec<u8>, AllocError>
    ensures { IfOk result (λ text. AreNamedOver origins.now cited.now text.items) }
{
    if cited.is_empty() {
        return Ok(Vec::new(alloc));
    }
    table_over(alloc, origins, cited)
}

/// That, where the journals are volumes. `AllocError` where a growth was refused.
pub(crate) fn volume_lines_of(
    alloc: Global,
    origins: Option<&SpanOrigins>,
    cited: &[CitedLine],
) -> Result<Vec<u8>, AllocError>
    ensures { IfOk result (λ text. AreVolumeLines origins.entry cited.now text.items) }
{
    match origins {
        Some(origins) => named_over(alloc, origins, cited),
        None => Ok(Vec::new(alloc)),
    }
}
