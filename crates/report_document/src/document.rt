//! The whole report.

ghost use Rattle.std.specs.Prelude.{◌≡◌, ◌<◌, ◌^◌, length, map, OnOk, IfOk};
ghost use Rattle.std.specs.List.{flat_map};
ghost use Rattle.report_document.specs.Telling.{told_of, AddsBlocks};
ghost use Rattle.report_document.specs.Whole.{asked_told, sides_told, pieces_told, cited_told, lines_told};
ghost use Rattle.report_document.specs.Whole.{report_told, explanation_told};
ghost use Rattle.report_document.specs.Foreign.{foreign_told};

use crate::block::{Block, BlockKind, Document, push_block, push_words};
use crate::failures::push_failure;
use crate::foreign::push_foreign;
use crate::pieces::push_piece;
use crate::question::{push_premises, push_question, push_side};
use crate::rulings::push_ruling;
use crate::word::ReportWord;
use binding_rules::Role;
use evidence_report::{CitedLine, Failure, ForeignReport, PieceReport, Report};
use lead_time::{Skew, Transit};
use pair_judgement::Judgement;
use std::alloc::{AllocError, Global};

/// A ruling, and what it rests on.
#[derive(Debug, Drop)]
pub struct Explanation<'a> {
    pub ruling: Judgement,
    /// What the certificate shows, where the ruling came to look at it.
    pub report: Option<Report<'a>>,
    /// The comparison that a refusal by the certificate's conditions rests on.
    pub failure: Option<Failure>,
}

fn push_pieces(
    out: &mut Vec<Block>,
    skew: Skew,
    transit: Transit,
    pieces: &[PieceReport<'_>],
) -> Result<(), AllocError>
    ensures { OnOk result (AddsBlocks (pieces_told skew transit 1 pieces.now) out.old.items out.new.items) }
{
    for index in 0..pieces.len() {
        push_piece(out, skew, transit, index as u64 + 1, &pieces[index])?;
    }
    Ok(())
}

fn push_all_foreign(
    out: &mut Vec<Block>,
    report: &Report<'_>,
    foreign: &[ForeignReport<'_>],
) -> Result<(), AllocError>
    ensures { OnOk result (AddsBlocks (flat_map (foreign_told report.now.skew report.now.transit
        report.now.certificate.now) foreign.now) out.old.items out.new.items) }
{
    for entry in foreign {
        push_foreign(out, report, entry)?;
    }
    Ok(())
}

/// A line, in full.
fn push_cited(out: &mut Vec<Block>, cited: &CitedLine) -> Result<(), AllocError>
    ensures { OnOk result (AddsBlocks (cited_told cited.now) out.old.items out.new.items) }
{
    let mut words = Vec::new(*out.allocator());
    words.extend_from_slice(&[ReportWord::Line(cited.at), ReportWord::Entry(cited.line)])?;
    push_words(out, BlockKind::Cited, words)
}

fn push_lines(out: &mut Vec<Block>, lines: &[CitedLine]) -> Result<(), AllocError>
    ensures { OnOk result (AddsBlocks (flat_map cited_told lines.now) out.old.items out.new.items) }
{
    for cited in lines {
        push_cited(out, cited)?;
    }
    Ok(())
}

/// The lines that are cited, under a heading.
#[tactic(auto, unfolding(crate::specs::Whole::lines_told))]
fn push_cited_lines(out: &mut Vec<Block>, lines: &[CitedLine]) -> Result<(), AllocError>
    ensures { OnOk result (AddsBlocks (lines_told lines.now) out.old.items out.new.items) }
{
    push_block(out, BlockKind::Heading, &[], "The lines cited")?;
    push_lines(out, lines)
}

/// What is asked, and on what premises.
#[tactic(auto, unfolding(crate::specs::Whole::asked_told))]
fn push_asked(out: &mut Vec<Block>, report: &Report<'_>) -> Result<(), AllocError>
    ensures { OnOk result (AddsBlocks (asked_told report.now) out.old.items out.new.items) }
{
    push_question(out, report.certificate)?;
    push_premises(out, report.skew, report.transit)
}

/// What the two journals show of the interval at all.
#[tactic(auto, unfolding(crate::specs::Whole::sides_told))]
fn push_sides(out: &mut Vec<Block>, report: &Report<'_>) -> Result<(), AllocError>
    ensures { OnOk result (AddsBlocks (sides_told report.now) out.old.items out.new.items) }
{
    let certificate = report.certificate;
    let (skew, transit) = (report.skew, report.transit);
    push_side(
        out,
        skew,
        transit,
        certificate,
        Role::Primary,
        &report.primary,
    )?;
    push_side(
        out,
        skew,
        transit,
        certificate,
        Role::Secondary,
        &report.secondary,
    )
}

fn push_report(out: &mut Vec<Block>, report: &Report<'_>) -> Result<(), AllocError>
    ensures { OnOk result (AddsBlocks (report_told report.now) out.old.items out.new.items) }
{
    push_asked(out, report)?;
    push_sides(out, report)?;
    push_pieces(out, report.skew, report.transit, &report.pieces)?;
    push_all_foreign(out, report, &report.foreign)?;
    push_cited_lines(out, &report.cited)
}

/// Tells of a ruling, and of all that a certificate shows. `AllocError` where a growth was refused.
pub fn document_of(alloc: Global, explanation: &Explanation<'_>) -> Result<Document, AllocError>
    ensures ruling { IfOk result (λ document. document.ruling ≡ explanation.now.ruling) }
    ensures told { IfOk result (λ document. map told_of document.blocks.items ≡ explanation_told explanation.now) }
{
    let mut blocks = Vec::new(alloc);
    push_ruling(&mut blocks, &explanation.ruling)?;
    push_failure(&mut blocks, &explanation.failure)?;
    if let Some(report) = &explanation.report {
        push_report(&mut blocks, report)?;
    }
    Ok(Document {
        ruling: explanation.ruling,
        blocks,
    })
}
