//! Whether the clock was set, turn by turn.

ghost use Rattle.std.specs.Prelude.{◌≡◌, ◌≤◌, ◌*◌, ◌^◌, max, min};
ghost use Rattle.clock_watch.specs.Watching.{judged, elapsed, would_show, is_near, is_right, begun_at, seen};

use lead_time::{Reading, Skew};
use server_clocks::Moment;

/// The least skew, in milliseconds, by which a clock is judged.
pub const LEAST_SKEW: u64 = 100;

/// Whether the time of day was set, as a server sees it turn by turn.
#[derive(Clone, Copy)]
pub struct ClockWatch {
    /// The beginning: the clock was right then.
    begun: Moment,
    /// When the clock was right last.
    right: Moment,
    is_set: bool,
}

/// The skew by which a clock is judged, in milliseconds.
pub(crate) fn judged(skew: Skew) -> u64
    ensures value { result ≡ judged skew }
    ensures within { result ≤ 86400000 }
{
    skew.milliseconds().max(LEAST_SKEW)
}

/// How many milliseconds passed by the monotonic clock, 2^48 at most.
fn elapsed(from: &Moment, now: &Moment) -> u64
    ensures value { result ≡ elapsed from.now.instant now.now.instant }
    ensures within { result ≤ 2 ^ 48 }
{
    let passed = now.instant.duration_since(from.instant).as_millis();
    passed.min(u128::from(Reading::MAX)) as u64
}

/// What the time of day would show by the monotonic clock, in milliseconds, if nobody set it since it was right.
fn would_show(right: &Moment, now: &Moment) -> u64
    ensures value { result ≡ would_show right.now now.now.instant }
    ensures within { result ≤ 2 ^ 49 }
{
    right.reading.milliseconds() + elapsed(right, now)
}

/// Returns whether two numbers of milliseconds differ by no more than this.
pub(crate) fn is_near(bound: u64, one: u64, other: u64) -> bool
    ensures { result ≡ is_near bound one other }
{
    one.abs_diff(other) <= bound
}

impl ClockWatch {
    /// The clock is right now: this is the beginning.
    pub fn new(now: &Moment) -> ClockWatch
        ensures { result ≡ begun_at now.now }
    {
        ClockWatch {
            begun: *now,
            right: *now,
            is_set: false,
        }
    }

    /// Returns whether the clock shows what it may: since it was right last nobody set it by more than the skew, nor
    /// since the beginning by more than twice the skew.
    fn is_right(&self, now: &Moment, skew: Skew) -> bool
        ensures { result ≡ is_right self.now now.now skew }
    {
        let skew = judged(skew);
        let shown = now.reading.milliseconds();
        is_near(skew, would_show(&self.right, now), shown)
            && is_near(2 * skew, would_show(&self.begun, now), shown)
    }

    /// Sees both clocks at a turn. The time of day was set where it differs by more than the skew from what it would
    /// show since it was right last, or by more than twice the skew from what it would show since the beginning. It
    /// stays set until that is over, or until [`accept`](ClockWatch::accept).
    pub fn see(&mut self, now: &Moment, skew: Skew)
        ensures { self.new ≡ seen self.old now.now skew }
    {
        let is_right = self.is_right(now, skew);
        if is_right {
            self.right = *now;
        }
        self.is_set = !is_right;
    }

    /// Takes what the clock shows for right, as a partner that agrees or a person says: this is the beginning.
    pub fn accept(&mut self, now: &Moment)
        ensures { self.new ≡ begun_at now.now }
    {
        *self = ClockWatch::new(now);
    }

    /// Returns whether the time of day was set.
    pub fn is_set(&self) -> bool
        ensures { result ≡ self.now.is_set }
    {
        self.is_set
    }

    /// What the time of day would show by the monotonic clock; the greatest reading where it is past that.
    pub fn expected(&self, now: &Moment) -> Reading
        ensures { result ≡ min (would_show self.now.right now.now.instant) (2 ^ 48) }
    {
        let shown = would_show(&self.right, now).min(Reading::MAX);
        Reading::new(shown).unwrap_or(self.right.reading)
    }
}
