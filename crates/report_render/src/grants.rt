//! The grants that renewed a lease, in one table.

ghost use Rattle.std.specs.Prelude.{◌≡◌, ◌++◌, OnOk, IfOk};
ghost use Rattle.time_text.specs.Time.{IsTimeText};
ghost use Rattle.report_render.specs.Grants.{lifetime_html, lease_html, AreLeaseCells, AreGrantCells, grant_row_html};
ghost use Rattle.report_render.specs.Grants.{IsGrantRow, AreGrantRows, IsGrantTable, AreGrants};

use crate::template::{PagePart, push_part};
use attribution::push_place;
use causal_order::Ref;
use evidence_report::{PieceReport, ReportedGrant};
use journal_lines::Lease;
use lead_time::Reading;
use std::alloc::{AllocError, Global};
use text_fields::push_number;
use time_text::push_time;

/// A moment in UTC, as RFC 3339 writes it.
#[tactic(auto, using(crate::proofs::MoreGrants::utc_time))]
fn utc_of(alloc: Global, moment: Reading) -> Result<Vec<u8>, AllocError>
    ensures { IfOk result (λ text. IsTimeText moment text.items) }
{
    let mut text = Vec::new(alloc);
    push_time(&mut text, moment)?;
    Ok(text)
}

/// Appends a lifetime in seconds: the greatest is for ever.
fn push_lifetime(out: &mut Vec<u8>, valid: u32) -> Result<(), AllocError>
    ensures { OnOk result (out.new.items ≡ out.old.items ++ lifetime_html valid) }
{
    push_number(out, u64::from(valid))?;
    if valid == Lease::INFINITE {
        push_part(out, PagePart::ForEver)
    } else {
        Ok(())
    }
}

/// The cells of a lease, of the text of the moment when it was granted.
#[tactic(auto, unfolding(crate::specs::Grants::lease_html))]
fn lease_text(alloc: Global, time: &[u8], valid: u32) -> Result<Vec<u8>, AllocError>
    ensures { IfOk result (λ text. text.items ≡ lease_html time.now valid) }
{
    let mut out = Vec::new(alloc);
    push_part(&mut out, PagePart::CellBegin)?;
    out.extend_from_slice(time)?;
    push_part(&mut out, PagePart::NextCell)?;
    push_lifetime(&mut out, valid)?;
    push_part(&mut out, PagePart::CellEnd)?;
    Ok(out)
}

/// When a lease was granted, by its server's clock, and for how many seconds.
#[tactic(auto, using(crate::proofs::MoreGrants::lease_cells))]
fn lease_cells(alloc: Global, granted: &ReportedGrant) -> Result<Vec<u8>, AllocError>
    ensures { IfOk result (λ text. AreLeaseCells granted.now text.items) }
{
    let time = utc_of(alloc, granted.reading)?;
    lease_text(alloc, &time, granted.lease.valid)
}

/// That, or that the line grants nothing.
fn grant_cells(alloc: Global, granted: &Option<ReportedGrant>) -> Result<Vec<u8>, AllocError>
    ensures { IfOk result (λ text. AreGrantCells granted.now text.items) }
{
    match granted {
        Some(granted) => lease_cells(alloc, granted),
        None => {
            let mut out = Vec::new(alloc);
            push_part(&mut out, PagePart::NoLease)?;
            Ok(out)
        }
    }
}

/// A row, of the texts of its moments and of what the line grants.
#[tactic(auto, unfolding(crate::specs::Grants::grant_row_html))]
fn row_text(
    alloc: Global,
    number: u64,
    grant: Ref,
    from: &[u8],
    to: &[u8],
    cells: &[u8],
) -> Result<Vec<u8>, AllocError>
    ensures { IfOk result (λ text. text.items ≡ grant_row_html number grant from.now to.now cells.now) }
{
    let mut out = Vec::new(alloc);
    push_part(&mut out, PagePart::GrantRow)?;
    push_number(&mut out, number)?;
    push_part(&mut out, PagePart::FirstCell)?;
    out.extend_from_slice(from)?;
    push_part(&mut out, PagePart::NextCell)?;
    out.extend_from_slice(to)?;
    push_part(&mut out, PagePart::NextCell)?;
    push_place(&mut out, grant.side, grant.number)?;
    push_part(&mut out, PagePart::CellEnd)?;
    out.extend_from_slice(cells)?;
    push_part(&mut out, PagePart::GrantRowEnd)?;
    Ok(out)
}

/// The row of a piece.
#[tactic(auto, using(crate::proofs::MoreGrants::grant_row))]
fn row_of(alloc: Global, number: u64, report: &PieceReport<'_>) -> Result<Vec<u8>, AllocError>
    ensures { IfOk result (λ text. IsGrantRow number report.now text.items) }
{
    let from = utc_of(alloc, report.piece.from)?;
    let to = utc_of(alloc, report.piece.to)?;
    let cells = grant_cells(alloc, &report.granted)?;
    row_text(alloc, number, report.piece.grant, &from, &to, &cells)
}

/// A row for each piece, in their order, counted from 1.
#[tactic(auto, using(crate::proofs::MoreGrants::rows_step))]
fn rows_of(alloc: Global, pieces: &[PieceReport<'_>]) -> Result<Vec<u8>, AllocError>
    ensures { IfOk result (λ text. AreGrantRows 1 pieces.now text.items) }
{
    let mut rows = Vec::new(alloc);
    for index in 0..pieces.len() {
        let row = row_of(alloc, index as u64 + 1, &pieces[index])?;
        rows.extend_from_slice(&row)?;
    }
    Ok(rows)
}

/// The table of all pieces.
#[tactic(auto, using(crate::proofs::MoreGrants::grant_table))]
fn table_of(alloc: Global, pieces: &[PieceReport<'_>]) -> Result<Vec<u8>, AllocError>
    ensures { IfOk result (λ text. IsGrantTable pieces.now text.items) }
{
    let rows = rows_of(alloc, pieces)?;
    let mut out = Vec::new(alloc);
    push_part(&mut out, PagePart::GrantsBegin)?;
    out.extend_from_slice(&rows)?;
    push_part(&mut out, PagePart::GrantsEnd)?;
    Ok(out)
}

/// That, where there is a piece; else nothing. `AllocError` where a growth was refused.
pub(crate) fn grants_of(alloc: Global, pieces: &[PieceReport<'_>]) -> Result<Vec<u8>, AllocError>
    ensures { IfOk result (λ text. AreGrants pieces.now text.items) }
{
    if pieces.is_empty() {
        return Ok(Vec::new(alloc));
    }
    table_of(alloc, pieces)
}
