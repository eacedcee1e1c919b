//! What two journals show of a delegation at a moment, by the line that tells of it.

ghost use Rattle.std.specs.Prelude.{◌≡◌, ◌↔◌, ◌<◌, IsTrue, MatchOption, List, Contains as Has};
ghost use Rattle.causal_order.specs.Journals.{Journals};
ghost use Rattle.attribution.specs.declared.delegation.Lasting.{Lasting as LastingValue};
ghost use Rattle.attribution.specs.declared.delegation.Lasting.TheVariants.{For};
ghost use Rattle.evidence_report.specs.declared.mark.LineReading.{LineReading as LineValue};
ghost use Rattle.candidate_leases.specs.declared.at_moment.AtMoment.TheVariants as state;
ghost use Rattle.candidate_leases.specs.Conditions.{asked_of};
ghost use Rattle.candidate_leases.specs.Near.{IsLater, HasEnded, HasEndedBy, IsSurelyAfter, EndsIt, MayEndIt};
ghost use Rattle.candidate_leases.specs.Near.{IsPossible, IsShownByLines, IsShownByVolumes, IsShown, IsSo};
ghost use Rattle.candidate_leases.specs.Near.{SaysPossible};

use crate::edges::{first_past_close, may_precede_partner};
use crate::sums::{begun_by, ends_by, lasts_from};
use attribution::Lasting;
use auditor::LineSource;
use binding_rules::Role;
use evidence_report::LineReading;
use lead_time::{Reading, Skew};
use plain_search::HolderQuery;

/// What two journals show of a delegation at a moment, by the line that tells of it and the releases of it. Moments and
/// readings are milliseconds.
#[derive(Clone, Copy, Debug, PartialEq, Eq)]
pub enum AtMoment {
    /// It was surely granted later.
    NotBegun,
    /// It had surely ended by this moment.
    Ended(u64),
    /// By this release it had surely been given back.
    GivenBack(LineReading),
    /// It may have been its client's: it is carried from earlier volumes, and when it began isn't shown.
    Carried,
    /// It may have been its client's: its answer had surely come by this moment alone, which is later.
    Beginning(u64),
    /// It may have been its client's: it surely lasted up to this moment alone, if nothing gave it back, and the moment
    /// isn't later.
    Ending(u64),
    /// It may have been its client's: by this release it may have been given back.
    MayBeGivenBack(LineReading),
    /// It may have been its client's: an earlier volume of this side, which isn't here, may have given it back. The
    /// side is the partner of the server that granted it; if the line's clock had shown `needed` or later, it would
    /// surely have been granted after the side's earlier volumes.
    EarlierVolumes {
        side: Role,
        needed: u64,
    },
    /// It may have been its client's: a later line or volume of this side, which isn't here, may have given it back by
    /// the moment. It couldn't have if the side's journal were closed at `needed` or later.
    LaterVolumes {
        side: Role,
        needed: u64,
        closed: Reading,
    },
    /// It was its client's, in every run of the pair that leaves these journals: it had begun and not ended, and no
    /// release gave it back, neither in these journals nor in earlier or later volumes.
    Shown,
}

impl AtMoment {
    /// Returns whether it may have been its client's.
    pub fn is_possible(&self) -> bool
        ensures { IsTrue result ↔ SaysPossible self.now }
    {
        !matches!(
            self,
            AtMoment::NotBegun | AtMoment::Ended(_) | AtMoment::GivenBack(_)
        )
    }

    /// Returns whether it is carried, and may have been its client's.
    pub fn is_carried(&self) -> bool
        ensures { IsTrue result ↔ (self.now ≡ state.Carried) }
    {
        matches!(self, AtMoment::Carried)
    }
}

/// Returns whether the one line was surely written after the other.
fn is_behind(line: &LineReading, other: &LineReading, skew: Skew) -> bool
    ensures { IsTrue result ↔ IsSurelyAfter skew line.now other.now }
{
    if line.at.side == other.at.side {
        return other.at.number < line.at.number;
    }
    other.reading.milliseconds() + 2 * skew.milliseconds() < line.reading.milliseconds()
}

fn ends_it(line: &LineReading, release: &LineReading, query: &HolderQuery) -> bool
    ensures { IsTrue result ↔ EndsIt (asked_of query.now) line.now release.now }
{
    is_behind(release, line, query.skew)
        && release.reading.milliseconds() + query.skew.milliseconds() <= query.at.milliseconds()
}

fn may_end_it(line: &LineReading, release: &LineReading, query: &HolderQuery) -> bool
    ensures { IsTrue result ↔ MayEndIt (asked_of query.now) line.now release.now }
{
    !is_behind(line, release, query.skew)
        && release.reading.milliseconds() <= query.at.milliseconds() + query.skew.milliseconds()
}

/// The first release by which it had surely been given back.
fn release_that_ends(
    line: &LineReading,
    releases: &[LineReading],
    query: &HolderQuery,
) -> Option<LineReading>
    ensures { MatchOption result ((r : _) → Has releases.now r → EndsIt (asked_of query.now) line.now r → ⊥)
        (λ r. Has releases.now r × EndsIt (asked_of query.now) line.now r) }
{
    releases
        .iter()
        .find(|release| ends_it(line, release, query))
        .copied()
}

/// The first release by which it may have been given back.
fn release_that_may_end(
    line: &LineReading,
    releases: &[LineReading],
    query: &HolderQuery,
) -> Option<LineReading>
    ensures { MatchOption result ((r : _) → Has releases.now r → MayEndIt (asked_of query.now) line.now r → ⊥)
        (λ r. Has releases.now r × MayEndIt (asked_of query.now) line.now r) }
{
    releases
        .iter()
        .find(|release| may_end_it(line, release, query))
        .copied()
}

/// Returns whether it was surely granted later.
fn is_later(line: &LineReading, lasting: &Lasting, query: &HolderQuery) -> bool
    ensures { IsTrue result ↔ IsLater (asked_of query.now) line.now lasting.now }
{
    match lasting {
        Lasting::For(_) => {
            query.at.milliseconds() + query.skew.milliseconds() < line.reading.milliseconds()
        }
        Lasting::Until(_) => false,
    }
}

/// The moment by which it had surely ended, if that isn't later.
fn ended_by(line: &LineReading, lasting: &Lasting, query: &HolderQuery) -> Option<u64>
    ensures { MatchOption result (HasEnded (asked_of query.now) line.now lasting.now → ⊥)
        (HasEndedBy (asked_of query.now) line.now lasting.now) }
{
    let end = ends_by(line.reading, lasting, query.skew, query.transit)?;
    if query.at.milliseconds() < end {
        return None;
    }
    Some(end)
}

/// What speaks against its being its client's in the line of a lease of so many seconds, and in the releases of it.
fn doubt_by_lines(
    line: &LineReading,
    valid: u32,
    releases: &[LineReading],
    query: &HolderQuery,
) -> Option<AtMoment>
    ensures { MatchOption result (IsShownByLines (asked_of query.now) line.now (For valid) releases.now)
        (λ state. ((js : Journals) → IsSo js (asked_of query.now) line.now (For valid) releases.now state)
        × SaysPossible state) }
{
    let at = query.at.milliseconds();
    let begun = begun_by(line.reading, query.skew, query.transit);
    if at < begun {
        return Some(AtMoment::Beginning(begun));
    }
    if let Some(end) = lasts_from(line.reading, valid, query.skew)
        && end <= at
    {
        return Some(AtMoment::Ending(end));
    }
    let release = release_that_may_end(line, releases, query)?;
    Some(AtMoment::MayBeGivenBack(release))
}

/// What speaks against it in volumes that aren't here.
fn doubt_by_volumes<S: LineSource>(
    source: &S,
    line: &LineReading,
    query: &HolderQuery,
) -> Option<AtMoment>
    ensures { MatchOption result (IsShownByVolumes (S.journals source.now) (asked_of query.now) line.now)
        (λ state. SaysPossible state × ((lasting : LastingValue) (releases : List LineValue)
        → IsSo (S.journals source.now) (asked_of query.now) line.now lasting releases state)) }
{
    if let Some(needed) = may_precede_partner(source, line, query) {
        let side = line.at.side.partner();
        return Some(AtMoment::EarlierVolumes { side, needed });
    }
    let early = first_past_close(source, query)?;
    Some(AtMoment::LaterVolumes {
        side: early.side,
        needed: early.needed,
        closed: early.closed,
    })
}

/// What is shown of a lease of so many seconds that may have been its client's.
fn possible_at<S: LineSource>(
    source: &S,
    line: &LineReading,
    valid: u32,
    releases: &[LineReading],
    query: &HolderQuery,
) -> AtMoment
    ensures so { IsSo (S.journals source.now) (asked_of query.now) line.now (For valid) releases.now result }
    ensures possible { SaysPossible result }
{
    if let Some(state) = doubt_by_lines(line, valid, releases, query) {
        return state;
    }
    match doubt_by_volumes(source, line, query) {
        Some(state) => state,
        None => AtMoment::Shown,
    }
}

/// What two journals show of a delegation at the moment asked about, by the line that tells of it and the releases of
/// it.
#[tactic(auto, using(crate::proofs::ShownSo::shown_so))]
pub fn state_at<S: LineSource>(
    source: &S,
    line: &LineReading,
    lasting: &Lasting,
    releases: &[LineReading],
    query: &HolderQuery,
) -> AtMoment
    // What it says is so.
    ensures so { IsSo (S.journals source.now) (asked_of query.now) line.now lasting.now releases.now result }
    // It says that the delegation may have been its client's exactly where no line shows that it wasn't.
    ensures possible { SaysPossible result ↔ IsPossible (asked_of query.now) line.now lasting.now releases.now }
    // And it says that it was its client's wherever lines and volumes show that.
    ensures shown { IsShown (S.journals source.now) (asked_of query.now) line.now lasting.now releases.now
        → result ≡ state.Shown }
{
    if is_later(line, lasting, query) {
        return AtMoment::NotBegun;
    }
    if let Some(end) = ended_by(line, lasting, query) {
        return AtMoment::Ended(end);
    }
    if let Some(release) = release_that_ends(line, releases, query) {
        return AtMoment::GivenBack(release);
    }
    match lasting {
        Lasting::For(valid) => possible_at(source, line, *valid, releases, query),
        Lasting::Until(_) => AtMoment::Carried,
    }
}
