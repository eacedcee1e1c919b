//! The order of two lines, as chains through both journals show it.

ghost use Rattle.std.specs.Prelude.{IfSome};
ghost use Rattle.evidence_search.specs.Chains.{IsLinking};

use crate::bounds::{chain_of, earliest, earliest_chain, ends_of, latest, latest_chain};
use crate::messages::{DeliveredMessage, DeliveredMessages};
use causal_order::{Lines, Precedes, Ref};
use lead_time::Skew;
use plain_search::{are_apart, is_plainly_before, plain_order};
use std::alloc::{AllocError, Global};

/// The message that leads from the first line to the second.
fn linking(messages: &DeliveredMessages, first: Ref, second: Ref) -> Option<DeliveredMessage>
    ensures { IfSome result (IsLinking messages.now first second) }
{
    if first.side == second.side {
        return None;
    }
    let passage = messages.sent_behind(first)?;
    if passage.take > second.number {
        return None;
    }
    Some(passage)
}

/// Returns whether chains from the first line and to the second lie further apart than both skews.
fn are_chains_apart<L: Lines>(
    lines: &L,
    messages: &DeliveredMessages,
    first: Ref,
    second: Ref,
    skew: Skew,
) -> bool {
    let Some(before) = latest(lines, messages, first) else {
        return false;
    };
    let Some(after) = earliest(lines, messages, second) else {
        return false;
    };
    are_apart(before.reading, after.reading, skew)
}

/// Returns whether the first line was shown to be written before the second.
pub fn is_before<L: Lines>(
    lines: &L,
    messages: &DeliveredMessages,
    first: Ref,
    second: Ref,
    skew: Skew,
) -> bool {
    is_plainly_before(lines, first, second, skew)
        || linking(messages, first, second).is_some()
        || are_chains_apart(lines, messages, first, second, skew)
}

/// How it is shown: by the two lines alone where these do.
pub fn order<L: Lines>(
    alloc: Global,
    lines: &L,
    messages: &DeliveredMessages,
    first: Ref,
    second: Ref,
    skew: Skew,
) -> Result<Precedes, AllocError> {
    if is_plainly_before(lines, first, second, skew) {
        return plain_order(alloc, first, second);
    }
    if let Some(passage) = linking(messages, first, second) {
        let (send, take) = ends_of(first, passage);
        let chain = chain_of(alloc, &[first, send, take, second])?;
        return Ok(Precedes::Chain(chain));
    }
    let (Some(before), Some(after)) = (
        latest(lines, messages, first),
        earliest(lines, messages, second),
    ) else {
        return plain_order(alloc, first, second);
    };
    let latest = latest_chain(alloc, first, &before)?;
    let earliest = earliest_chain(alloc, second, &after)?;
    Ok(Precedes::Clock(latest, earliest))
}
