//! Why a line stands before another, and why a release or a grant may be passed over.

ghost use Rattle.std.specs.Prelude.{◌≡◌};
ghost use Rattle.certificate.specs.Lines.{clock_at, order_at, why_at, released_at, reason_at};
ghost use Rattle.certificate.specs.Parsing.{Takes};

use crate::fields::{LineError, chain, keyword, reference};
use causal_order::{ClearReason, Precedes, Reason};
use line_words::Words;
use std::alloc::Global;

/// The keyword of another client's grant that was given back.
const RELEASED: &[u8] = b"released";

/// Two chains that the next words spell, from the first line and to the second.
#[tactic(auto, unfolding(crate::specs::Lines::clock_at))]
fn clock(alloc: Global, words: &mut Words<'_>) -> Result<Precedes, LineError>
    ensures { Takes (λ o. o) result words.new (clock_at words.old) }
{
    let latest = chain(alloc, words)?;
    let earliest = chain(alloc, words)?;
    Ok(Precedes::Clock(latest, earliest))
}

/// Why one line stands before another, by the next words.
#[tactic(auto, unfolding(crate::specs::Lines::order_by))]
fn order(alloc: Global, words: &mut Words<'_>) -> Result<Precedes, LineError>
    ensures { Takes (λ o. o) result words.new (order_at words.old) }
{
    match words.next_word().ok_or(LineError::Form)? {
        b"chain" => Ok(Precedes::Chain(chain(alloc, words)?)),
        b"clock" => clock(alloc, words),
        _ => Err(LineError::Form),
    }
}

/// Why a release does not cut a piece short.
#[tactic(auto, unfolding(crate::specs::Lines::why_by))]
pub fn why(alloc: Global, words: &mut Words<'_>) -> Result<ClearReason, LineError>
    ensures { Takes (λ w. w) result words.new (why_at words.old) }
{
    match words.next_word().ok_or(LineError::Form)? {
        b"before" => Ok(ClearReason::Before(order(alloc, words)?)),
        b"after" => Ok(ClearReason::After(chain(alloc, words)?)),
        _ => Err(LineError::Form),
    }
}

/// The release of another client's grant, by the words behind its keyword.
#[tactic(auto, unfolding(crate::specs::Lines::released_at))]
fn released(alloc: Global, words: &mut Words<'_>) -> Result<Reason, LineError>
    ensures { Takes (λ r. r) result words.new (released_at words.old) }
{
    let release = reference(words).ok_or(LineError::Form)?;
    let order = order(alloc, words)?;
    keyword(words, b"latest").ok_or(LineError::Form)?;
    let latest = chain(alloc, words)?;
    Ok(Reason::Released {
        release,
        order,
        latest,
    })
}

/// Why another client's grant does not touch the interval.
#[tactic(auto, unfolding(crate::specs::Lines::reason_by))]
pub fn reason(alloc: Global, words: &mut Words<'_>) -> Result<Reason, LineError>
    ensures { Takes (λ r. r) result words.new (reason_at words.old) }
{
    let word = words.next_word().ok_or(LineError::Form)?;
    if word == RELEASED {
        return released(alloc, words);
    }
    match word {
        b"early" => Ok(Reason::Early(chain(alloc, words)?)),
        b"late" => Ok(Reason::Late(chain(alloc, words)?)),
        _ => Err(LineError::Form),
    }
}
