//! Grants in the order in which they begin to carry, each looked at once.

ghost use Rattle.std.specs.Prelude.{◌≡◌, ◌<◌, ◌≤◌, length, MatchOption, OnOk};
ghost use Rattle.std.specs.List.Sorted.{IsPermutation};
ghost use Rattle.plain_search.specs.Search.{AreInOrder, IsPassed, AreLater, IsFarther, IsFarthest};
ghost use Rattle.plain_search.specs.Search.{NoneReaches};

use crate::reach::CarriedSpan;
use lead_time::Reading;
use std::alloc::AllocError;

/// How many grants were passed, which begin by a moment, and the place of the one of these that carries farthest.
#[derive(Clone, Copy, Debug)]
pub struct SweepState {
    pub count: usize,
    pub best: usize,
}

impl SweepState {
    /// None of them.
    pub const NONE: SweepState = SweepState { count: 0, best: 0 };
}

/// Puts first what begins first.
pub fn sort(reaches: &mut Vec<CarriedSpan>) -> Result<(), AllocError>
    ensures sorted { OnOk result (AreInOrder reaches.new.items) }
    ensures same { OnOk result (IsPermutation reaches.old.items reaches.new.items) }
{
    reaches.sort_by_key(
        |reach|
            ensures { result ≡ reach.now.begin }
        { reach.begin.milliseconds() },
    )
}

/// The place of the one of two grants that carries farther.
fn farther(reaches: &[CarriedSpan], best: usize, place: usize) -> usize
    requires best { best < length reaches.now }
    requires place { place < length reaches.now }
    ensures { IsFarther reaches.now best place result }
{
    let (first, second) = (reaches[best], reaches[place]);
    if first.end.milliseconds() < second.end.milliseconds() {
        place
    } else {
        best
    }
}

/// Passes the grants that begin by this moment too.
pub fn pass(reaches: &[CarriedSpan], passed: &SweepState, moment: Reading) -> SweepState
    requires sorted { AreInOrder reaches.now }
    requires before { IsPassed reaches.now moment passed.now }
    ensures passed { IsPassed reaches.now moment result }
    ensures later { AreLater reaches.now moment result.count }
{
    let mut count = passed.count;
    let mut best = passed.best;
    while count < reaches.len() {
        let reach = reaches[count];
        if reach.begin.milliseconds() > moment.milliseconds() {
            return SweepState { count, best };
        }
        best = farther(reaches, best, count);
        count += 1;
    }
    SweepState { count, best }
}

/// The grant that carries the moment and reaches farthest from it.
pub fn farthest(
    reaches: &[CarriedSpan],
    passed: &SweepState,
    moment: Reading,
) -> Option<CarriedSpan>
    requires passed { IsPassed reaches.now moment passed.now }
    requires later { AreLater reaches.now moment passed.now.count }
    ensures { MatchOption result (NoneReaches reaches.now moment) (IsFarthest reaches.now moment) }
{
    if passed.count == 0 {
        return None;
    }
    let best = reaches[passed.best];
    if best.end.milliseconds() <= moment.milliseconds() {
        return None;
    }
    Some(best)
}
