//! What chains show of when a line was written.

ghost use Rattle.std.specs.Prelude.{◌≡◌, None, IfSome, MatchOption};
ghost use Rattle.causal_order.specs.Bounds.{reading_of};
ghost use Rattle.evidence_search.specs.DeliveredMessages.{send_of, take_of};
ghost use Rattle.evidence_search.specs.Chains.{IsReadAtEnd, IsReadAtBeginning, IsEndBound, IsBeginBound};
ghost use Rattle.evidence_search.specs.Chains.{AreMessages, IsBeforeTakes};

use crate::messages::{DeliveredMessage, DeliveredMessages};
use causal_order::{Chain, Lines, Ref};
use lead_time::Reading;
use plain_search::reading_at;
use std::alloc::{AllocError, Global};

/// The reading at the far end of a chain, and the message that the chain goes over: none where it is the line alone.
#[derive(Clone, Copy, Debug)]
pub struct ChainBound {
    pub reading: Reading,
    pub over: Option<DeliveredMessage>,
}

/// The lines that send and take a message of the server at `from`.
pub fn ends_of(from: Ref, passage: DeliveredMessage) -> (Ref, Ref)
    ensures send { result.0 ≡ send_of from.side passage }
    ensures take { result.1 ≡ take_of from.side passage }
{
    let send = Ref {
        side: from.side,
        number: passage.send,
    };
    let take = Ref {
        side: from.side.partner(),
        number: passage.take,
    };
    (send, take)
}

/// These references in their order, but none twice in a row.
pub fn chain_of(alloc: Global, refs: &[Ref]) -> Result<Chain, AllocError> {
    let mut chain: Vec<Ref> = Vec::new(alloc);
    for at in refs {
        if chain.last() != Some(at) {
            chain.push(*at)?;
        }
    }
    Ok(Chain::new(chain))
}

/// Returns what the first message shows that was sent at the line or behind it.
fn over_next<L: Lines>(lines: &L, messages: &DeliveredMessages, at: Ref) -> Option<ChainBound>
    ensures { IfSome result (IsReadAtEnd (L.journals lines.now) at) }
{
    let passage = messages.sent_behind(at)?;
    let (_, take) = ends_of(at, passage);
    let reading = reading_at(lines, take)?;
    Some(ChainBound {
        reading,
        over: Some(passage),
    })
}

/// The least reading that a chain from the line can end in: its own, or an earlier one of the partner's.
pub fn latest<L: Lines>(lines: &L, messages: &DeliveredMessages, at: Ref) -> Option<ChainBound>
    ensures { MatchOption result (reading_of (L.journals lines.now) at ≡ None)
        (IsEndBound (L.journals lines.now) at) }
{
    let reading = reading_at(lines, at)?;
    match over_next(lines, messages, at) {
        Some(bound) if bound.reading < reading => Some(bound),
        _ => Some(ChainBound {
            reading,
            over: None,
        }),
    }
}

/// Returns what the last message shows that was taken at the line or before it.
pub fn over_message<L: Lines>(
    lines: &L,
    messages: &DeliveredMessages,
    at: Ref,
) -> Option<ChainBound>
    ensures read { IfSome result (IsReadAtBeginning (L.journals lines.now) at) }
    ensures none { result ≡ None → AreMessages (L.journals lines.now) messages.now → IsBeforeTakes messages.now at }
{
    let passage = messages.taken_before(at)?;
    let send = Ref {
        side: at.side.partner(),
        number: passage.send,
    };
    let reading = reading_at(lines, send)?;
    Some(ChainBound {
        reading,
        over: Some(passage),
    })
}

/// The greatest reading that a chain to the line can begin in: its own, or a later one of the partner's.
pub fn earliest<L: Lines>(lines: &L, messages: &DeliveredMessages, at: Ref) -> Option<ChainBound>
    ensures { MatchOption result (reading_of (L.journals lines.now) at ≡ None)
        (IsBeginBound (L.journals lines.now) at) }
{
    let reading = reading_at(lines, at)?;
    match over_message(lines, messages, at) {
        Some(bound) if bound.reading > reading => Some(bound),
        _ => Some(ChainBound {
            reading,
            over: None,
        }),
    }
}

/// The chain from the line that shows the bound.
pub fn latest_chain(alloc: Global, at: Ref, bound: &ChainBound) -> Result<Chain, AllocError> {
    let Some(passage) = bound.over else {
        return chain_of(alloc, &[at]);
    };
    let (send, take) = ends_of(at, passage);
    chain_of(alloc, &[at, send, take])
}

/// The chain to the line that shows the bound.
pub fn earliest_chain(alloc: Global, at: Ref, bound: &ChainBound) -> Result<Chain, AllocError> {
    let Some(passage) = bound.over else {
        return chain_of(alloc, &[at]);
    };
    let send = Ref {
        side: at.side.partner(),
        number: passage.send,
    };
    let take = Ref {
        side: at.side,
        number: passage.take,
    };
    chain_of(alloc, &[send, take, at])
}
