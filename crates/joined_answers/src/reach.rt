//! How far back a lease that may last at a moment may have begun.

ghost use Rattle.std.specs.Prelude.{◌≡◌, ◌↔◌, ◌<◌, ◌^◌, IsTrue, slice_get};
ghost use Rattle.joined_answers.specs.Reach.{no_bounds, bounds_of, bounds_in, longest, longest_in, longest_of, reach};
ghost use Rattle.joined_answers.specs.Reach.{reach_by, opening_of, MayBeginEarlier};

use journal_lines::Event;
use lead_time::{Skew, Transit};
use plain_search::HolderQuery;
use volume_spans::{ReadSpans, ReadVolume, SpanReader};

/// What open lines say of leases, in seconds.
#[derive(Clone, Copy, Debug, PartialEq, Eq)]
pub struct LeaseBounds {
    /// The lifetime that clients are given.
    pub lifetime: u32,
    /// The most by which a lease may end after what the partner has acknowledged (MCLT).
    pub lead_time: u32,
}

/// Nothing is said yet.
const NO_BOUNDS: LeaseBounds = LeaseBounds {
    lifetime: 0,
    lead_time: 0,
};

fn bounds_of(event: &Event) -> LeaseBounds
    ensures { result ≡ bounds_of event.now }
{
    match event {
        Event::Open { mclt, life, .. } => LeaseBounds {
            lifetime: *life,
            lead_time: *mclt,
        },
        _ => NO_BOUNDS,
    }
}

/// What the first line of a volume says.
fn bounds_in(read: &ReadVolume) -> LeaseBounds
    ensures { result ≡ bounds_in read.now }
{
    match read.volume.journal.lines.as_slice().first() {
        Some(line) => bounds_of(&line.event),
        None => NO_BOUNDS,
    }
}

fn longest(first: &LeaseBounds, second: &LeaseBounds) -> LeaseBounds
    ensures { result ≡ longest first.now second.now }
{
    LeaseBounds {
        lifetime: first.lifetime.max(second.lifetime),
        lead_time: first.lead_time.max(second.lead_time),
    }
}

/// The longest of these and of what the volumes say.
#[tactic(auto, using(crate::proofs::Longest::one_more, crate::proofs::Longest::no_more))]
fn longest_in(bounds: LeaseBounds, volumes: &[ReadVolume]) -> LeaseBounds
    ensures { result ≡ longest_in bounds volumes.now }
{
    let mut so_far = bounds;
    let mut rest = volumes;
    while let [read, later @ ..] = rest {
        so_far = longest(&so_far, &bounds_in(read));
        rest = later;
    }
    so_far
}

/// In milliseconds: how long before a moment a lease may have begun that lasts at the moment.
fn reach_by(skew: Skew, transit: Transit, bounds: &LeaseBounds) -> u64
    ensures reach { result ≡ reach_by skew transit bounds.now }
    ensures within { result < 2 ^ 63 }
{
    let seconds = u64::from(bounds.lifetime) + u64::from(bounds.lead_time);
    1000 * seconds + 2 * (2 * skew.milliseconds() + transit.milliseconds())
}

/// In milliseconds: how long before a moment a lease may have begun that lasts at the moment, by the volumes that were
/// read of both sides.
pub fn reach_over(query: &HolderQuery, read: &ReadSpans) -> u64
    ensures reach { result ≡ reach query.now read.now }
    ensures within { result < 2 ^ 63 }
{
    let primary = longest_in(NO_BOUNDS, &read.primary.volumes);
    let bounds = longest_in(primary, &read.secondary.volumes);
    reach_by(query.skew, query.transit, &bounds)
}

/// When the first of some volumes was opened, in milliseconds of its server's clock; 0 of none.
fn opening_of(volumes: &[ReadVolume]) -> u64
    ensures opening { result ≡ opening_of (slice_get volumes.now 0) }
    ensures within { result < 2 ^ 63 }
{
    match volumes.first() {
        Some(read) => read.filed.outline.opened.milliseconds(),
        None => 0,
    }
}

/// Returns whether a lease that may last at the moment may have begun before a span, which has a volume before it.
pub fn may_begin_earlier(at: u64, reach: u64, span: &SpanReader) -> bool
    requires { reach < 2 ^ 63 }
    ensures { IsTrue result ↔ MayBeginEarlier at reach span.now }
{
    span.before.is_some() && at < opening_of(&span.volumes) + reach
}
