//! `--volumes`: over which volumes certificates are judged.

ghost use Rattle.std.specs.Prelude.{◌≤◌, ◌↔◌, IsTrue};

use crate::fault::DeskFault;
use attribution_desk::{Command, DeskRequest, InputSource, Invocation};
use std::alloc::Global;
use text_fields::number_of;
use volume_spans::{SpanPair, VolumeSpan};

/// The greatest number of a volume.
const MOST: u64 = 1_048_576;

/// The number of a volume.
fn number_in(text: &[u8]) -> Option<u32> {
    match number_of(text) {
        Some(number) if 1 <= number && number <= MOST => Some(number as u32),
        _ => None,
    }
}

/// The volumes of a side: `A40-48`, or `A40` where it is one.
fn span_in(text: &[u8], side: &[u8]) -> Option<VolumeSpan> {
    let numbers = text.strip_prefix(side)?;
    let mut parts = numbers.splitn(2, |octet| *octet == b'-');
    let first = number_in(parts.next()?)?;
    let last = match parts.next() {
        Some(last) => number_in(last)?,
        None => first,
    };
    Some(VolumeSpan { first, last })
}

/// The volumes of both sides: `A40-48,B39-47`.
fn spans_in(text: &[u8]) -> Option<SpanPair> {
    let mut parts = text.splitn(2, |octet| *octet == b',');
    let primary = span_in(parts.next()?, b"A")?;
    let secondary = span_in(parts.next()?, b"B")?;
    Some(SpanPair { primary, secondary })
}

/// Returns whether the first volume of each side isn't behind its last.
pub(crate) fn are_in_order(spans: &SpanPair) -> bool
    ensures { IsTrue result ↔ ((spans.now.primary.first ≤ spans.now.primary.last)
        × (spans.now.secondary.first ≤ spans.now.secondary.last)) }
{
    spans.primary.first <= spans.primary.last && spans.secondary.first <= spans.secondary.last
}

/// A text that names no volumes.
fn unfit(alloc: Global, text: &str) -> DeskFault {
    match format!(in alloc;
        "error: --volumes has '{text}', and wants volumes of both sides, as A40-48,B39-47"
    ) {
        Ok(said) => DeskFault::Words(said),
        Err(_) => DeskFault::memory(),
    }
}

/// A question that is asked over no volumes of one's own.
fn misplaced(alloc: Global) -> DeskFault {
    match String::from_str(
        alloc,
        "error: --volumes goes with audit, batch and explain, over --journals",
    ) {
        Ok(said) => DeskFault::Words(said),
        Err(_) => DeskFault::memory(),
    }
}

/// The volumes that an order names. `Words` where its text names none, or it isn't to judge certificates over files.
pub(crate) fn volumes_given(
    alloc: Global,
    order: &Invocation,
) -> Result<Option<SpanPair>, DeskFault> {
    let Some(text) = order.volumes else {
        return Ok(None);
    };
    match (&order.request, &order.source) {
        (_, InputSource::Input) => return Err(misplaced(alloc)),
        (DeskRequest::Answer(Command::Audit { .. } | Command::Batch { .. }, _), _) => {}
        (DeskRequest::Explain { .. }, _) => {}
        _ => return Err(misplaced(alloc)),
    }
    match spans_in(text.as_bytes()) {
        Some(spans) if are_in_order(&spans) => Ok(Some(spans)),
        _ => Err(unfit(alloc, text)),
    }
}
