//! How far round a query evidence may reach: guesses, which a search is asked about like any other interval.

ghost use Rattle.std.specs.Prelude.{OnOk};
ghost use Rattle.plain_search.specs.Collected.{IsRecent};

use attribution::{Delegation, Lasting};
use auditor::LineSource;
use binding_rules::Role;
use causal_order::Ref;
use journal_lines::Lease;
use lead_time::Reading;
use plain_search::{
    CarriedSpan, Query, ReleaseCache, begins_late, first_returning, others_at, reaches, reading_at,
};
use std::alloc::{AllocError, Global};

/// From when to when, in milliseconds.
#[derive(Clone, Copy, Debug)]
pub struct IntervalGuess {
    pub from: u64,
    pub to: u64,
}

impl IntervalGuess {
    fn not_before(self, from: u64) -> IntervalGuess {
        IntervalGuess {
            from: self.from.max(from),
            to: self.to,
        }
    }

    fn not_behind(self, to: u64) -> IntervalGuess {
        IntervalGuess {
            from: self.from,
            to: self.to.min(to),
        }
    }
}

/// Returns what grants carry end to end round the moment. They stand in the order in which they begin.
fn carried_round(reaches: &[CarriedSpan], moment: Reading) -> IntervalGuess {
    let mut carried = IntervalGuess { from: 0, to: 0 };
    for reach in reaches {
        let begin = reach.begin.milliseconds();
        if begin > carried.to {
            if carried.to > moment.milliseconds() {
                return carried;
            }
            carried.from = begin;
        }
        carried.to = carried.to.max(reach.end.milliseconds());
    }
    carried
}

/// When what was told of at this reading has surely ended.
fn end_of(query: &Query, lasting: Lasting, granted: Reading) -> u64 {
    let late = query.skew.milliseconds() + query.transit.milliseconds();
    match lasting {
        Lasting::For(seconds) => {
            if seconds == Lease::INFINITE {
                return u64::MAX;
            }
            granted.milliseconds() + late + 1000 * u64::from(seconds)
        }
        Lasting::Until(end) => end.milliseconds() + late,
    }
}

/// Returns what another client's delegation leaves of the guess.
fn beside<S: LineSource>(
    alloc: Global,
    source: &S,
    recent: &mut ReleaseCache,
    query: &Query,
    at: Ref,
    delegation: &Delegation,
    guess: IntervalGuess,
) -> Result<IntervalGuess, AllocError>
    requires { IsRecent (S.journals source.now) recent.old }
    ensures { OnOk result (IsRecent (S.journals source.now) recent.new) }
{
    let Some(granted) = reading_at(source, at) else {
        return Ok(guess);
    };
    let skew = query.skew.milliseconds();
    if begins_late(query, delegation.lasting, granted) {
        return Ok(guess.not_behind(granted.milliseconds().saturating_sub(skew)));
    }
    let over = end_of(query, delegation.lasting, granted);
    let release = first_returning(alloc, source, recent, query.skew, at, delegation)?;
    let over = match release {
        Some(release) => over.min(release.reading.milliseconds() + skew),
        None => over,
    };
    Ok(guess.not_before(over))
}

/// Returns what the side's journal leaves of the guess: where it has earlier volumes, and where it was closed.
fn shown_by<S: LineSource>(
    source: &S,
    query: &Query,
    side: Role,
    guess: IntervalGuess,
) -> IntervalGuess {
    let skew = query.skew.milliseconds();
    let closed = source.close_reading(side).milliseconds();
    let guess = guess.not_behind(closed.saturating_sub(skew));
    if source.volume(side) <= 1 {
        return guess;
    }
    match reading_at(source, Ref { side, number: 1 }) {
        Some(opened) => {
            guess.not_before(opened.milliseconds() + skew + query.transit.milliseconds())
        }
        None => guess,
    }
}

/// The widest interval round the query's that single lines seem to show.
pub fn guess_round<S: LineSource>(
    alloc: Global,
    source: &S,
    query: &Query,
    wide: &Query,
) -> Result<IntervalGuess, AllocError> {
    let reaches = reaches(alloc, source, wide)?;
    let mut guess = carried_round(&reaches, query.from);
    guess = shown_by(source, query, Role::Primary, guess);
    guess = shown_by(source, query, Role::Secondary, guess);
    let mut recent = ReleaseCache::new(alloc);
    let mut walk = source.overlaps(&query.prefix);
    while let Some(at) = source.next_overlap(&query.prefix, &mut walk) {
        if let Some(delegation) = others_at(source, query, at) {
            guess = beside(alloc, source, &mut recent, query, at, &delegation, guess)?;
        }
    }
    Ok(guess)
}
