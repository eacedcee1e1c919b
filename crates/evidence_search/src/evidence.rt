//! What a search puts together.

ghost use Rattle.std.specs.Prelude.{◌≡◌, IfOk, IsErrOf, ◌<◌, ◌-◌, length};
ghost use Rattle.evidence_search.specs.Claim.{Claims, HasNoPlainEvidence, IsTooLong};
ghost use Rattle.evidence_search.specs.Search.{certificate_with, IsPutTogether};

use crate::foreign::linked_foreign;
use crate::messages::DeliveredMessages;
use crate::pieces::linked_pieces;
use auditor::LineSource;
use causal_order::{Certificate, ForeignList, PieceList};
use plain_search::{FindError, Query, foreign_entries, pieces};
use std::alloc::Global;

/// A certificate of the query with these pieces and entries.
fn certificate_with(query: &Query, pieces: PieceList, foreign: ForeignList) -> Certificate
    ensures { result ≡ certificate_with query.now pieces foreign }
{
    Certificate {
        holder: query.holder,
        prefix: query.prefix,
        from: query.from,
        to: query.to,
        pieces,
        foreign,
    }
}

/// The most lines of a certificate's text.
const MOST_LINES: usize = 65_536;

/// Its lines that are neither a piece's nor an entry's: four before them, and one behind.
const FRAME_LINES: usize = 5;

/// How many lines these entries leave for pieces.
fn room_beside(foreign: &ForeignList) -> usize
    ensures { result ≡ 65531 - length foreign.now }
{
    (MOST_LINES - FRAME_LINES).saturating_sub(foreign.as_slice().len())
}

/// The certificate that the lines make for the query, no longer than a text may be. `NoneFound` where a moment is
/// carried by no grant, or another client's delegation is in the way; `TooLong` where it would be longer.
#[tactic(auto, using(crate::proofs::Complete::none_in_the_way, crate::proofs::Complete::none_over_gap))]
pub fn evidence<S: LineSource>(
    alloc: Global,
    source: &S,
    query: &Query,
) -> Result<Certificate, FindError>
    requires { query.now.from < query.now.to }
    ensures claims { IfOk result (Claims query.now) }
    ensures made { IfOk result (IsPutTogether (S.journals source.now) query.now) }
    ensures none { IsErrOf result FindError.NoneFound → HasNoPlainEvidence (S.journals source.now) query.now }
    ensures long { IsErrOf result FindError.TooLong → IsTooLong (S.journals source.now) query.now }
{
    let foreign = foreign_entries(alloc, source, query)?;
    let room = room_beside(&foreign);
    let pieces = pieces(alloc, source, query, room)?;
    Ok(certificate_with(query, pieces, foreign))
}

/// The certificate that chains over these messages make for the query, no longer than a text may be. `NoneFound` where
/// they make none.
pub fn linked_evidence<S: LineSource>(
    alloc: Global,
    source: &S,
    messages: &DeliveredMessages,
    query: &Query,
) -> Result<Certificate, FindError>
    ensures { IfOk result (Claims query.now) }
{
    let foreign = linked_foreign(alloc, source, messages, query)?;
    let room = room_beside(&foreign);
    let pieces = linked_pieces(alloc, source, messages, query, room)?;
    Ok(certificate_with(query, pieces, foreign))
}
