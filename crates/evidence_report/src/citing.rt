//! The lines that a certificate and its releases name.

ghost use Rattle.std.specs.Prelude.{◌≡◌, ◌++◌, IfOk, OnOk};
ghost use Rattle.std.specs.List.{flat_map};
ghost use Rattle.evidence_report.specs.Pieces.{releases_in};
ghost use Rattle.evidence_report.specs.Cited.{order_lines, clear_lines, piece_lines, reason_lines, foreign_lines};
ghost use Rattle.evidence_report.specs.Cited.{cited_by, AreCited, AreFound};

use crate::line_order::in_order;
use crate::piece_report::{PieceReport, ReleaseReport};
use crate::report::CitedLine;
use causal_order::{
    Certificate, Chain, Clear, ClearReason, Foreign, Lines, Piece, Precedes, Reason, Ref,
};
use std::alloc::{AllocError, Global};

fn cite_chain(refs: &mut Vec<Ref>, chain: &Chain) -> Result<(), AllocError>
    ensures { OnOk result (refs.new.items ≡ refs.old.items ++ chain.now) }
{
    refs.extend_from_slice(chain.as_slice())
}

fn cite_order(refs: &mut Vec<Ref>, order: &Precedes) -> Result<(), AllocError>
    ensures { OnOk result (refs.new.items ≡ refs.old.items ++ order_lines order.now) }
{
    match order {
        Precedes::Chain(chain) => cite_chain(refs, chain),
        Precedes::Clock(before, after) => {
            cite_chain(refs, before)?;
            cite_chain(refs, after)
        }
    }
}

fn cite_clear(refs: &mut Vec<Ref>, clear: &Clear) -> Result<(), AllocError>
    ensures { OnOk result (refs.new.items ≡ refs.old.items ++ clear_lines clear.now) }
{
    refs.push(clear.release)?;
    match &clear.why {
        ClearReason::Before(order) => cite_order(refs, order),
        ClearReason::After(chain) => cite_chain(refs, chain),
    }
}

fn cite_clears(refs: &mut Vec<Ref>, entries: &[Clear]) -> Result<(), AllocError>
    ensures { OnOk result (refs.new.items ≡ refs.old.items ++ flat_map clear_lines entries.now) }
{
    for clear in entries {
        cite_clear(refs, clear)?;
    }
    Ok(())
}

fn cite_piece(refs: &mut Vec<Ref>, piece: &Piece) -> Result<(), AllocError>
    ensures { OnOk result (refs.new.items ≡ refs.old.items ++ piece_lines piece.now) }
{
    refs.push(piece.grant)?;
    cite_chain(refs, &piece.latest)?;
    cite_chain(refs, &piece.earliest)?;
    cite_clears(refs, piece.clear.as_slice())
}

fn cite_reason(refs: &mut Vec<Ref>, reason: &Reason) -> Result<(), AllocError>
    ensures { OnOk result (refs.new.items ≡ refs.old.items ++ reason_lines reason.now) }
{
    match reason {
        Reason::Early(chain) => cite_chain(refs, chain),
        Reason::Late(chain) => cite_chain(refs, chain),
        Reason::Released {
            release,
            order,
            latest,
        } => {
            refs.push(*release)?;
            cite_order(refs, order)?;
            cite_chain(refs, latest)
        }
    }
}

fn cite_foreign(refs: &mut Vec<Ref>, entry: &Foreign) -> Result<(), AllocError>
    ensures { OnOk result (refs.new.items ≡ refs.old.items ++ foreign_lines entry.now) }
{
    refs.push(entry.grant)?;
    cite_reason(refs, &entry.reason)
}

fn cite_pieces(refs: &mut Vec<Ref>, pieces: &[Piece]) -> Result<(), AllocError>
    ensures { OnOk result (refs.new.items ≡ refs.old.items ++ flat_map piece_lines pieces.now) }
{
    for piece in pieces {
        cite_piece(refs, piece)?;
    }
    Ok(())
}

fn cite_entries(refs: &mut Vec<Ref>, entries: &[Foreign]) -> Result<(), AllocError>
    ensures { OnOk result (refs.new.items ≡ refs.old.items ++ flat_map foreign_lines entries.now) }
{
    for entry in entries {
        cite_foreign(refs, entry)?;
    }
    Ok(())
}

fn cite_releases(refs: &mut Vec<Ref>, releases: &[ReleaseReport]) -> Result<(), AllocError>
    ensures { OnOk result (refs.new.items ≡ refs.old.items ++ releases_in releases.now) }
{
    for shown in releases {
        refs.push(shown.release.at)?;
    }
    Ok(())
}

fn cite_reports(refs: &mut Vec<Ref>, pieces: &[PieceReport]) -> Result<(), AllocError>
    ensures { OnOk result
        (refs.new.items ≡ refs.old.items ++ flat_map (λ s. releases_in s.releases.told.items) pieces.now) }
{
    for piece in pieces {
        cite_releases(refs, &piece.releases.told)?;
    }
    Ok(())
}

/// The lines that the certificate names, and those that its pieces' reports tell of as releases.
fn lines_cited(
    alloc: Global,
    certificate: &Certificate,
    pieces: &[PieceReport],
) -> Result<Vec<Ref>, AllocError>
    ensures { IfOk result (λ refs. refs.items ≡ cited_by certificate.now pieces.now) }
{
    let mut refs = Vec::new(alloc);
    cite_pieces(&mut refs, certificate.pieces.as_slice())?;
    cite_entries(&mut refs, certificate.foreign.as_slice())?;
    cite_reports(&mut refs, pieces)?;
    Ok(refs)
}

/// Those of the references that name a line, with the line.
fn found<L: Lines>(alloc: Global, lines: &L, refs: &[Ref]) -> Result<Vec<CitedLine>, AllocError>
    ensures { IfOk result (λ cited. AreFound (L.journals lines.now) refs.now cited.items) }
{
    let mut cited = Vec::new(alloc);
    for at in refs {
        if let Some(line) = lines.line(*at) {
            cited.extend_from_slice(&[CitedLine { at: *at, line }])?;
        }
    }
    Ok(cited)
}

/// Each line that the certificate names, or that a piece's report tells of as a release, once, in order.
pub fn cited_lines<L: Lines>(
    alloc: Global,
    lines: &L,
    certificate: &Certificate,
    pieces: &[PieceReport],
) -> Result<Vec<CitedLine>, AllocError>
    ensures { IfOk result (λ cited. AreCited (L.journals lines.now) certificate.now pieces.now cited.items) }
{
    let refs = lines_cited(alloc, certificate, pieces)?;
    let once = in_order(alloc, refs)?;
    let cited = found(alloc, lines, &once)?;
    Ok(cited)
}
