//! The messages that chains go by.

ghost use Rattle.std.specs.Prelude.{◌≡◌, IfOk, IfSome, OnOk, Contains as Has};
ghost use Rattle.report_render.specs.Picture.{AreMessages};

use crate::picture::{LineDot, MessageArrow};
use binding_rules::Role;
use causal_order::{Chain, Ref};
use evidence_report::{
    ClearReport, ForeignEvidence, ForeignReport, OrderReport, PieceReport, ReleaseReport, Report,
};
use std::alloc::{AllocError, Global};

/// Where a line stands among all: the primary's before the secondary's, and then by number.
fn rank_of(at: Ref) -> u64 {
    let number = u64::from(at.number);
    match at.side {
        Role::Primary => number,
        Role::Secondary => number + (1 << 32),
    }
}

/// The dot of a line, if there is one. The dots stand in the order of their lines.
fn dot_at(dots: &[LineDot], at: Ref) -> Option<LineDot>
    ensures { IfSome result (λ dot. Has dots.now dot × (dot.at ≡ at)) }
{
    let index = dots.partition_point(|dot| rank_of(dot.at) < rank_of(at));
    let dot = *dots.get(index)?;
    if dot.at == at { Some(dot) } else { None }
}

/// Appends the message between two lines that follow each other in a chain, if it goes by one.
#[tactic(auto, using(crate::proofs::MoreArrows::arrow_more))]
fn push_message(
    arrows: &mut Vec<MessageArrow>,
    dots: &[LineDot],
    before: Ref,
    at: Ref,
) -> Result<(), AllocError>
    requires { AreMessages dots.now arrows.old.items }
    ensures { OnOk result (AreMessages dots.now arrows.new.items) }
{
    if before.side == at.side {
        return Ok(());
    }
    match (dot_at(dots, before), dot_at(dots, at)) {
        (Some(sent), Some(taken)) => arrows.extend_from_slice(&[MessageArrow { sent, taken }]),
        _ => Ok(()),
    }
}

fn push_chain(
    arrows: &mut Vec<MessageArrow>,
    dots: &[LineDot],
    chain: &Chain,
) -> Result<(), AllocError>
    requires { AreMessages dots.now arrows.old.items }
    ensures { OnOk result (AreMessages dots.now arrows.new.items) }
{
    let chain = chain.as_slice();
    for index in 1..chain.len() {
        push_message(arrows, dots, chain[index - 1], chain[index])?;
    }
    Ok(())
}

fn push_order(
    arrows: &mut Vec<MessageArrow>,
    dots: &[LineDot],
    order: &OrderReport<'_>,
) -> Result<(), AllocError>
    requires { AreMessages dots.now arrows.old.items }
    ensures { OnOk result (AreMessages dots.now arrows.new.items) }
{
    match order {
        OrderReport::Chain { chain, .. } => push_chain(arrows, dots, chain),
        OrderReport::Clock { before, after, .. } => {
            push_chain(arrows, dots, before)?;
            push_chain(arrows, dots, after)
        }
    }
}

fn push_cleared(
    arrows: &mut Vec<MessageArrow>,
    dots: &[LineDot],
    cleared: &ClearReport<'_>,
) -> Result<(), AllocError>
    requires { AreMessages dots.now arrows.old.items }
    ensures { OnOk result (AreMessages dots.now arrows.new.items) }
{
    match cleared {
        ClearReport::Before(order) => push_order(arrows, dots, order),
        ClearReport::After(chain, _) => push_chain(arrows, dots, chain),
    }
}

fn push_release(
    arrows: &mut Vec<MessageArrow>,
    dots: &[LineDot],
    release: &ReleaseReport<'_>,
) -> Result<(), AllocError>
    requires { AreMessages dots.now arrows.old.items }
    ensures { OnOk result (AreMessages dots.now arrows.new.items) }
{
    match &release.entry {
        Some((_, cleared)) => push_cleared(arrows, dots, cleared),
        None => Ok(()),
    }
}

fn push_piece(
    arrows: &mut Vec<MessageArrow>,
    dots: &[LineDot],
    piece: &PieceReport<'_>,
) -> Result<(), AllocError>
    requires { AreMessages dots.now arrows.old.items }
    ensures { OnOk result (AreMessages dots.now arrows.new.items) }
{
    push_chain(arrows, dots, &piece.piece.latest)?;
    push_chain(arrows, dots, &piece.piece.earliest)?;
    for release in &piece.releases.told {
        push_release(arrows, dots, release)?;
    }
    Ok(())
}

fn push_foreign(
    arrows: &mut Vec<MessageArrow>,
    dots: &[LineDot],
    foreign: &ForeignReport<'_>,
) -> Result<(), AllocError>
    requires { AreMessages dots.now arrows.old.items }
    ensures { OnOk result (AreMessages dots.now arrows.new.items) }
{
    match &foreign.outside {
        ForeignEvidence::Early(chain, _) | ForeignEvidence::Late(chain, _) => push_chain(
            arrows, dots, chain,
        ),
        ForeignEvidence::Released { order, chain, .. } => {
            push_order(arrows, dots, order)?;
            push_chain(arrows, dots, chain)
        }
    }
}

/// The messages that the chains of a report go by, between these dots.
#[tactic(auto, using(crate::proofs::MoreArrows::no_arrows))]
pub(crate) fn messages_of(
    alloc: Global,
    dots: &[LineDot],
    report: &Report<'_>,
) -> Result<Vec<MessageArrow>, AllocError>
    ensures { IfOk result (λ arrows. AreMessages dots.now arrows.items) }
{
    let mut arrows = Vec::new(alloc);
    for piece in &report.pieces {
        push_piece(&mut arrows, dots, piece)?;
    }
    for foreign in &report.foreign {
        push_foreign(&mut arrows, dots, foreign)?;
    }
    Ok(arrows)
}
