//! A certificate, tried over the volumes from those that show one moment to those that show a later one.

ghost use Rattle.std.specs.Prelude.{◌≡◌, ◌↔◌, ◌<◌, ◌^◌, IsTrue, IfOk, IfSome};
ghost use Rattle.volume_spans.specs.Reading.{AreWritten};
ghost use Rattle.joined_rulings.specs.Between.{span_at, both_spans, spans_from_to, AreSpansAt, AreSeveral, AreBetween};
ghost use Rattle.joined_rulings.specs.Between.{AreSpansBetween, OpensBehind, IsWithinReach, AreWithinReach};
ghost use Rattle.joined_rulings.specs.Between.{IsAnswerBy, IsTriedOver};

use crate::trial::{SpanAcceptance, trial_over};
use crate::walking::is_barring;
use archive_desk::TimingBounds;
use archive_files::{FilesError, JournalFiles};
use causal_order::Certificate;
use journal_archive::{Archive, Coverage, CoverageGap, FiledVolume};
use lead_time::Reading;
use plain_search::HolderQuery;
use std::alloc::Global;
use std::thread::Threads;
use volume_spans::{GivenSpans, ReadSpans, SpanPair, VolumeSpan, read_spans};

/// The numbers of the volumes from one to another.
fn numbers_of(first: &FiledVolume, last: &FiledVolume) -> VolumeSpan
    ensures first { result.first ≡ first.now.outline.number }
    ensures last { result.last ≡ last.now.outline.number }
{
    VolumeSpan {
        first: first.outline.number,
        last: last.outline.number,
    }
}

/// The numbers of a side's volumes that show a moment to which they stand so: of one, or of the two of a roll.
fn span_at(coverage: &Coverage) -> Option<VolumeSpan>
    ensures { result ≡ span_at coverage.now }
{
    match coverage {
        Coverage::Shown(volume) => Some(numbers_of(volume, volume)),
        Coverage::Lacking(CoverageGap::Roll(before, next)) => Some(numbers_of(before, next)),
        Coverage::Lacking(_) => None,
    }
}

fn both_spans(primary: Option<VolumeSpan>, secondary: Option<VolumeSpan>) -> Option<SpanPair>
    ensures { result ≡ both_spans primary secondary }
{
    match (primary, secondary) {
        (Some(primary), Some(secondary)) => Some(SpanPair { primary, secondary }),
        _ => None,
    }
}

/// The numbers of both sides' volumes that show a moment.
fn spans_at(archive: &Archive, bounds: &TimingBounds, at: Reading) -> Option<SpanPair>
    ensures { AreSpansAt archive.now bounds.now at result }
{
    let moment = at.milliseconds();
    let primary = archive
        .primary
        .standing(moment, bounds.skew, bounds.transit);
    let secondary = archive
        .secondary
        .standing(moment, bounds.skew, bounds.transit);
    both_spans(span_at(&primary), span_at(&secondary))
}

/// The numbers from the first of the one to the last of the other, on both sides.
fn spans_from_to(first: &SpanPair, last: &SpanPair) -> SpanPair
    ensures { result ≡ spans_from_to first.now last.now }
{
    SpanPair {
        primary: VolumeSpan {
            first: first.primary.first,
            last: last.primary.last,
        },
        secondary: VolumeSpan {
            first: first.secondary.first,
            last: last.secondary.last,
        },
    }
}

/// Returns whether these are several volumes of a side, and no side's first is behind its last.
fn are_several(spans: &SpanPair) -> bool
    ensures { IsTrue result ↔ AreSeveral spans.now }
{
    let SpanPair { primary, secondary } = *spans;
    primary.first <= primary.last
        && secondary.first <= secondary.last
        && (primary.first < primary.last || secondary.first < secondary.last)
}

/// The spans from one moment's to another's, where they are several volumes of a side.
fn between(first: Option<SpanPair>, last: Option<SpanPair>) -> Option<SpanPair>
    ensures { AreBetween first last result }
{
    match (first, last) {
        (Some(first), Some(last)) => {
            let spans = spans_from_to(&first, &last);
            if are_several(&spans) {
                Some(spans)
            } else {
                None
            }
        }
        _ => None,
    }
}

/// The volumes from those that show one moment to those that show another, where they are several of a side.
pub(crate) fn spans_between(
    archive: &Archive,
    bounds: &TimingBounds,
    from: Reading,
    until: Reading,
) -> Option<SpanPair>
    ensures between { AreSpansBetween archive.now bounds.now from until result }
    ensures several { IfSome result AreSeveral }
{
    let first = spans_at(archive, bounds, from);
    let last = spans_at(archive, bounds, until);
    between(first, last)
}

/// Returns whether it is the volume behind the one of this number, and was opened so late that a lease may have begun
/// before it which lasts at the moment. Moment and reach are in milliseconds.
fn opens_behind(volume: &FiledVolume, first: u32, at: u64, reach: u64) -> bool
    requires { reach < 2 ^ 63 }
    ensures { IsTrue result ↔ OpensBehind volume.now first at reach }
{
    let outline = &volume.outline;
    first < outline.number
        && outline.number - first == 1
        && at < outline.opened.milliseconds() + reach
}

/// Returns whether a span is one volume, or no further back than a lease that lasts at the moment may have begun.
fn is_within_reach(shelf: &[FiledVolume], span: VolumeSpan, at: u64, reach: u64) -> bool
    requires { reach < 2 ^ 63 }
    ensures { IsTrue result ↔ IsWithinReach shelf.now span at reach }
{
    span.first == span.last
        || shelf
            .iter()
            .any(|volume| opens_behind(volume, span.first, at, reach))
}

/// Returns whether the spans of both sides are.
pub(crate) fn are_within_reach(archive: &Archive, spans: &SpanPair, at: Reading, reach: u64) -> bool
    requires { reach < 2 ^ 63 }
    ensures { IsTrue result ↔ AreWithinReach archive.now spans.now at reach }
{
    let moment = at.milliseconds();
    is_within_reach(archive.primary.volumes(), spans.primary, moment, reach)
        && is_within_reach(archive.secondary.volumes(), spans.secondary, moment, reach)
}

/// The acceptance of a certificate over spans, if they accept it. `Changed` and `Memory` as of `trial_over`.
fn answer_by(
    rt: &(impl Threads + Sync),
    alloc: Global,
    read: &ReadSpans,
    query: &HolderQuery,
    claim: &Certificate,
) -> Result<Option<SpanAcceptance>, FilesError>
    requires primary { AreWritten read.now.primary.volumes.items }
    requires secondary { AreWritten read.now.secondary.volumes.items }
    ensures { IfOk result (IsAnswerBy read.now query.now claim.now) }
{
    let trial = trial_over(rt, alloc, read, query, claim)?;
    Ok(trial.into_accepted())
}

/// Tries a certificate over given spans; none accept it where a volume is missing, or a file stands against reading
/// them. `Changed` where a file isn't what the archive knows of it, `Memory` where a growth was refused.
pub(crate) fn tried_over<F: JournalFiles>(
    rt: &(impl Threads + Sync),
    alloc: Global,
    files: &F,
    archive: &Archive,
    spans: &SpanPair,
    query: &HolderQuery,
    claim: &Certificate,
) -> Result<Option<SpanAcceptance>, FilesError>
    requires { AreSeveral spans.now }
    ensures { IfOk result (IsTriedOver (F.had files.now) archive.now spans.now query.now claim.now) }
{
    let given = match read_spans(alloc, files, archive, spans) {
        Ok(given) => given,
        Err(error) => {
            if is_barring(&error) {
                return Ok(None);
            }
            return Err(error);
        }
    };
    match given {
        GivenSpans::Read(read) => answer_by(rt, alloc, &read, query, claim),
        GivenSpans::Missing(_, _) => Ok(None),
    }
}
