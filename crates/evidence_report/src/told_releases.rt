//! Which releases of what a piece's grant gave are told of one by one.

ghost use Rattle.std.specs.Prelude.{◌≡◌, ◌↔◌, IfOk, IsTrue, MatchOption, Some, slice_get, Contains as Has};
ghost use Rattle.causal_order.specs.declared.reference.Ref.{Ref as RefValue};
ghost use Rattle.causal_order.specs.LineOrder.{IsLeast};
ghost use Rattle.evidence_report.specs.Lines.{AreRising, AreExactly, IsMissing};
ghost use Rattle.evidence_report.specs.Pieces.{EndsDelegation, IsNamedRelease, IsTold};

use crate::line_order::in_order;
use crate::reported_delegation::gives_back;
use attribution::Delegation;
use causal_order::{Lines, Piece, Ref};
use std::alloc::{AllocError, Global};

/// The releases of the delegation that entries of the piece name, each once, in order.
fn named_releases<L: Lines>(
    alloc: Global,
    lines: &L,
    piece: &Piece,
    delegation: &Delegation,
) -> Result<Vec<Ref>, AllocError>
    ensures { IfOk result (λ refs.
        AreExactly (IsNamedRelease (EndsDelegation (L.journals lines.now) delegation.now) piece.now) refs.items) }
{
    let mut refs = Vec::new(alloc);
    for clear in piece.clear.as_slice() {
        if gives_back(lines, clear.release, delegation) {
            refs.push(clear.release)?;
        }
    }
    let once = in_order(alloc, refs)?;
    Ok(once)
}

/// Returns whether the line stands at this index.
fn stands_at(refs: &[Ref], index: usize, at: Ref) -> bool
    ensures { IsTrue result ↔ (slice_get refs.now index ≡ Some at) }
{
    match refs.get(index) {
        Some(other) => *other == at,
        None => false,
    }
}

/// The first of the lines that isn't among those, which are some of them. Both stand in order.
fn first_missing(refs: &[Ref], those: &[Ref]) -> Option<Ref>
    requires rising { AreRising refs.now }
    requires those_rising { AreRising those.now }
    requires some { (r : RefValue) → Has those.now r → Has refs.now r }
    ensures { MatchOption result ((r : RefValue) → Has refs.now r → Has those.now r)
        (IsLeast (IsMissing refs.now those.now)) }
{
    for index in 0..refs.len() {
        if !stands_at(those, index, refs[index]) {
            return Some(refs[index]);
        }
    }
    None
}

/// Of all releases of the delegation those that are told of one by one: those that entries of the piece name, and the
/// first that none names.
pub fn told_releases<L: Lines>(
    alloc: Global,
    lines: &L,
    piece: &Piece,
    delegation: &Delegation,
    releases: &[Ref],
) -> Result<Vec<Ref>, AllocError>
    requires { AreExactly (EndsDelegation (L.journals lines.now) delegation.now) releases.now }
    ensures { IfOk result (λ told.
        AreExactly (IsTold (EndsDelegation (L.journals lines.now) delegation.now) piece.now) told.items) }
{
    let mut told = named_releases(alloc, lines, piece, delegation)?;
    if let Some(unnamed) = first_missing(releases, &told) {
        told.push(unnamed)?;
    }
    let told = in_order(alloc, told)?;
    Ok(told)
}
