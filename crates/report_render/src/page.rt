//! The page of a report.

ghost use Rattle.std.specs.Prelude.{◌≡◌, ◌++◌, OnOk, IfOk};
ghost use Rattle.std.specs.List.{flat_map};
ghost use Rattle.report_render.specs.Page.{opening_of, closing_of, passage_html, heading_html, figure_html};
ghost use Rattle.report_render.specs.Page.{access_html, opening_html, page_html, IsPage};

use crate::escaping::push_escaped;
use crate::facts::{PageFacts, asked_of, push_facts};
use crate::grants::grants_of;
use crate::origin::{Provenance, push_origin};
use crate::template::{PagePart, push_part};
use crate::text_block::{RenderedText, TextBlock};
use crate::title::{PageTitle, title_of};
use crate::volume_lines::volume_lines_of;
use evidence_report::{CitedLine, PieceReport};
use line_origins::SpanOrigins;
use report_document::BlockKind;
use std::alloc::{AllocError, Global};
use zone_times::ZoneFile;

/// All that a page is made of.
#[derive(Clone, Copy, Debug)]
pub struct Page<'a, 'p> {
    /// How its title says the answer.
    pub title: PageTitle,
    pub facts: PageFacts<'a>,
    /// The ruling's line, and the report's passages.
    pub spelling: &'a RenderedText,
    /// An SVG element, which goes in as it is; empty where nothing is drawn.
    pub picture: &'a [u8],
    /// What is shown of a certificate's pieces, whose grants go into a table; empty where nothing of a certificate was
    /// looked at.
    pub pieces: &'a [PieceReport<'p>],
    /// The lines that the certificate names; empty where nothing of one was looked at.
    pub cited: &'a [CitedLine],
    /// Which volumes have the lines, where the journals are volumes.
    pub origins: Option<&'a SpanOrigins>,
    /// The lines of access records; empty where there are none.
    pub access: &'a [u8],
    pub origin: Provenance<'a>,
}

/// What a passage of this kind begins with.
fn opening_of(kind: BlockKind) -> &'static [u8]
    ensures { result.now ≡ opening_of kind }
{
    match kind {
        BlockKind::Heading => b"<h2>",
        BlockKind::Paragraph => b"<p>",
        BlockKind::Item => b"<p class=\"item\">",
        BlockKind::Cited => b"<pre>",
    }
}

/// What it ends with.
fn closing_of(kind: BlockKind) -> &'static [u8]
    ensures { result.now ≡ closing_of kind }
{
    match kind {
        BlockKind::Heading => b"</h2>\n",
        BlockKind::Paragraph | BlockKind::Item => b"</p>\n",
        BlockKind::Cited => b"</pre>\n",
    }
}

fn push_passage(out: &mut Vec<u8>, passage: &TextBlock) -> Result<(), AllocError>
    ensures { OnOk result (out.new.items ≡ out.old.items ++ passage_html passage.now) }
{
    out.extend_from_slice(opening_of(passage.kind))?;
    push_escaped(out, &passage.text)?;
    out.extend_from_slice(closing_of(passage.kind))
}

/// Appends the passages, one behind the other.
fn push_passages(out: &mut Vec<u8>, passages: &[TextBlock]) -> Result<(), AllocError>
    ensures { OnOk result (out.new.items ≡ out.old.items ++ flat_map passage_html passages.now) }
{
    for passage in passages {
        push_passage(out, passage)?;
    }
    Ok(())
}

/// Appends the title, for the browser's window and for the page, and the ruling's line.
#[tactic(auto, unfolding(crate::specs::Page::heading_html))]
fn push_heading(out: &mut Vec<u8>, title: &[u8], line: &[u8]) -> Result<(), AllocError>
    ensures { OnOk result (out.new.items ≡ out.old.items ++ heading_html title.now line.now) }
{
    push_part(out, PagePart::Head)?;
    push_escaped(out, title)?;
    push_part(out, PagePart::BehindTitle)?;
    push_escaped(out, title)?;
    push_part(out, PagePart::BeforeLine)?;
    push_escaped(out, line)?;
    push_part(out, PagePart::BehindLine)
}

/// Appends the picture, where there is one.
fn push_figure(out: &mut Vec<u8>, picture: &[u8]) -> Result<(), AllocError>
    ensures { OnOk result (out.new.items ≡ out.old.items ++ figure_html picture.now) }
{
    if picture.is_empty() {
        return Ok(());
    }
    push_part(out, PagePart::BeforePicture)?;
    out.extend_from_slice(picture)?;
    push_part(out, PagePart::BehindPicture)
}

/// Appends the access records, where there are any.
fn push_access(out: &mut Vec<u8>, access: &[u8]) -> Result<(), AllocError>
    ensures { OnOk result (out.new.items ≡ out.old.items ++ access_html access.now) }
{
    if access.is_empty() {
        return Ok(());
    }
    push_part(out, PagePart::BeforeAccess)?;
    push_escaped(out, access)?;
    push_part(out, PagePart::AccessEnd)
}

/// Appends what stands before the passages.
#[tactic(auto, unfolding(crate::specs::Page::opening_html))]
fn push_opening(
    out: &mut Vec<u8>,
    page: &Page<'_, '_>,
    title: &[u8],
    asked: &[u8],
    tables: &[u8],
) -> Result<(), AllocError>
    ensures { OnOk result (out.new.items ≡ out.old.items ++ opening_html page.now title.now asked.now tables.now) }
{
    push_heading(out, title, &page.spelling.line)?;
    push_facts(out, &page.facts, asked)?;
    push_figure(out, page.picture)?;
    out.extend_from_slice(tables)
}

/// The page, of the texts of its title and of the moment that was asked about, and its tables.
#[tactic(auto, unfolding(crate::specs::Page::page_html))]
fn page_text(
    alloc: Global,
    page: &Page<'_, '_>,
    title: &[u8],
    asked: &[u8],
    tables: &[u8],
) -> Result<Vec<u8>, AllocError>
    ensures { IfOk result (λ text. text.items ≡ page_html page.now title.now asked.now tables.now) }
{
    let mut out = Vec::new(alloc);
    push_opening(&mut out, page, title, asked, tables)?;
    push_passages(&mut out, &page.spelling.passages)?;
    push_access(&mut out, page.access)?;
    push_origin(&mut out, &page.origin)?;
    push_part(&mut out, PagePart::Tail)?;
    Ok(out)
}

/// The page; its title and the moment that was asked about are told in the local time of a zone, where one is given,
/// and its grants in UTC.
/// `AllocError` where a growth was refused.
#[tactic(auto, using(crate::proofs::MorePages::page_is))]
pub fn page_of(
    alloc: Global,
    page: &Page<'_, '_>,
    zone: Option<&ZoneFile>,
) -> Result<Vec<u8>, AllocError>
    ensures { IfOk result (λ text. IsPage zone.entry page.now text.items) }
{
    let title = title_of(alloc, &page.title, zone)?;
    let asked = asked_of(alloc, zone, page.facts.question)?;
    let mut tables = grants_of(alloc, page.pieces)?;
    let lines = volume_lines_of(alloc, page.origins, page.cited)?;
    tables.extend_from_slice(&lines)?;
    page_text(alloc, page, &title, &asked, &tables)
}
