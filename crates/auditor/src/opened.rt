//! Whether anything of earlier volumes, which the journals don't show, may touch what a certificate says.

ghost use Rattle.std.specs.Prelude.{◌≡◌, ◌↔◌, IsTrue, All};
ghost use Rattle.causal_order.specs.Journals.{open_of};
ghost use Rattle.attribution.specs.Acceptance.{HasEarlier, IsAfterOpen, IsGrantedAfterOpen, IsPastPartner, IsPastOpen};
ghost use Rattle.auditor.specs.Opened.{HasLineOf, IsClearOfOpen, IsPastOwn};

use crate::grants::earliest_at;
use crate::source::LineSource;
use binding_rules::Role;
use causal_order::{Certificate, Chain, Lines, Piece, Ref};
use lead_time::{Reading, Skew, Transit, latest};

/// The side's open line.
fn open_of(side: Role) -> Ref
    ensures { result ≡ open_of side }
{
    Ref { side, number: 1 }
}

/// Returns whether the side's server wrote volumes before this one.
fn has_earlier<S: LineSource>(source: &S, side: Role) -> bool
    ensures { IsTrue result ↔ HasEarlier (S.journals source.now) side }
{
    source.volume(side) > 1
}

/// Returns whether by this moment the side's journal was open, and the answers of earlier volumes had reached their
/// clients.
#[tactic(auto, using(crate::proofs::OpenLines::after_open, crate::proofs::OpenLines::never_open))]
fn is_after_open<L: Lines>(
    lines: &L,
    side: Role,
    skew: Skew,
    transit: Transit,
    moment: Reading,
) -> bool
    ensures { IsTrue result ↔ IsAfterOpen (L.journals lines.now) skew transit moment side }
{
    match lines.line(open_of(side)) {
        Some(line) => {
            line.reading.milliseconds() + skew.milliseconds() + transit.milliseconds()
                <= moment.milliseconds()
        }
        None => false,
    }
}

/// Returns whether a reference of the chain is to a line of this side.
fn has_line_of(chain: &Chain, side: Role) -> bool
    ensures { IsTrue result ↔ HasLineOf chain.now side }
{
    chain.as_slice().iter().any(|at| at.side == side)
}

/// Returns whether clocks show that the piece's grant came after the side's open line.
#[tactic(auto, using(crate::proofs::OpenLines::clear_of_open, crate::proofs::OpenLines::no_chain, crate::proofs::OpenLines::no_open_line,))]
fn is_clear_of_open<L: Lines>(lines: &L, piece: &Piece, side: Role, skew: Skew) -> bool
    ensures { IsTrue result ↔ IsClearOfOpen (L.journals lines.now) skew piece.now side }
{
    let Some(line) = lines.line(open_of(side)) else {
        return false;
    };
    match earliest_at(lines, &piece.earliest, piece.grant, skew) {
        Some(earliest) => latest(line.reading, skew) < earliest,
        None => false,
    }
}

/// Returns whether the piece's grant came surely after the side's open line.
fn is_granted_after_open<L: Lines>(lines: &L, piece: &Piece, side: Role, skew: Skew) -> bool
    ensures { IsTrue result ↔ IsGrantedAfterOpen (L.journals lines.now) skew piece.now side }
{
    has_line_of(&piece.earliest, side) || is_clear_of_open(lines, piece, side, skew)
}

/// Returns whether the piece's grant came surely after the earlier volumes of the partner of the server that granted
/// it.
#[tactic(auto, using(crate::proofs::OpenLines::no_earlier_partner, crate::proofs::OpenLines::past_partner))]
fn is_past_partner<S: LineSource>(source: &S, piece: &Piece, skew: Skew) -> bool
    ensures { IsTrue result ↔ IsPastPartner (S.journals source.now) skew piece.now }
{
    let partner = piece.grant.side.partner();
    if !has_earlier(source, partner) {
        return true;
    }
    is_granted_after_open(source, piece, partner, skew)
}

/// Returns whether the interval begins after the side's earlier volumes and what they gave without its being carried.
#[tactic(auto, using(crate::proofs::OpenLines::no_earlier_own, crate::proofs::OpenLines::past_own))]
fn is_past_own<S: LineSource>(
    source: &S,
    certificate: &Certificate,
    side: Role,
    skew: Skew,
    transit: Transit,
) -> bool
    ensures { IsTrue result ↔ IsPastOwn (S.journals source.now) skew transit certificate.now side }
{
    if !has_earlier(source, side) {
        return true;
    }
    is_after_open(source, side, skew, transit, certificate.from)
}

/// Returns whether each piece's grant came surely after the earlier volumes of its server's partner.
#[tactic(auto, using(crate::proofs::Tiling::fails_at))]
fn are_past_partner<S: LineSource>(source: &S, certificate: &Certificate, skew: Skew) -> bool
    ensures { IsTrue result ↔ All (IsPastPartner (S.journals source.now) skew) certificate.now.pieces }
{
    for piece in certificate.pieces.as_slice() {
        if !is_past_partner(source, piece, skew) {
            return false;
        }
    }
    true
}

/// Returns whether nothing of earlier volumes touches the interval but what the journals carry, and no release of
/// theirs gives back what a piece's grant gave.
#[tactic(auto, using(crate::proofs::OpenLines::opened_by_pieces, crate::proofs::OpenLines::not_own))]
pub fn is_past_open<S: LineSource>(
    source: &S,
    certificate: &Certificate,
    skew: Skew,
    transit: Transit,
) -> bool
    ensures { IsTrue result ↔ IsPastOpen (S.journals source.now) skew transit certificate.now }
{
    if !is_past_own(source, certificate, Role::Primary, skew, transit) {
        return false;
    }
    if !is_past_own(source, certificate, Role::Secondary, skew, transit) {
        return false;
    }
    are_past_partner(source, certificate, skew)
}
