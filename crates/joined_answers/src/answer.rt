//! What the desk answers over the journals that spans of volumes show.

ghost use Rattle.std.specs.Prelude.{◌≡◌, ◌≢◌, ◌↔◌, [], IsTrue, IfOk, OnOk, MatchOption, Contains as Has};
ghost use Rattle.journal_text.specs.Closed.{IsClosed};
ghost use Rattle.archive_files.specs.Showing.{AreClosed};
ghost use Rattle.candidate_leases.specs.declared.candidates.CandidateLease.{CandidateLease as LeaseValue};
ghost use Rattle.candidate_leases.specs.declared.at_moment.AtMoment.TheVariants as state;
ghost use Rattle.volume_spans.specs.Reading.{AreWritten};
ghost use Rattle.volume_spans.specs.Shown.{IsShownOver};
ghost use Rattle.joined_answers.specs.Answers.{volume_end, ends_of, IsSpanAnswer, IsSpanTry, IsRefusedAnswer, IsFitting};
ghost use Rattle.joined_answers.specs.Answers.{MayChange, HasCarried, MaySayMore, AsksFurther};

use archive_files::{FilesError, shown_until};
use candidate_leases::{CandidateLease, NoHolderReason, VolumeEnd, VolumeEnds};
use desk_args::SettingsCheck;
use holder_answers::{HolderAnswer, NoHolder, holder_answer_over};
use journal_archive::{FiledVolume, PairJournals, VolumeEnding, VolumePair};
use journal_lines::Journal;
use line_origins::SpanOrigins;
use plain_search::HolderQuery;
use std::alloc::Global;
use std::thread::Threads;
use volume_spans::{JoinRefusal, ReadSpans, SpanPair, SpannedJournals};

/// What the desk answers over the journals that spans of both sides show.
#[derive(Debug, Drop)]
pub struct SpannedAnswer {
    /// The volumes that these journals are.
    pub spans: SpanPair,
    /// The last volume of each side.
    pub pair: VolumePair,
    pub shown: PairJournals,
    pub answer: HolderAnswer,
    /// The first moment of which the journals can't tell, in milliseconds of true time. `None` where one has no line.
    pub until: Option<u64>,
    /// Which of these volumes has each line of these journals.
    pub origins: SpanOrigins,
}

/// What comes of asking spans of both sides.
#[derive(Debug, Drop)]
pub(crate) enum SpanTry {
    Answered(SpannedAnswer),
    /// The volumes of a side aren't one journal.
    Refused(JoinRefusal),
}

fn has_lines(journal: &Journal) -> bool
    ensures { IsTrue result ↔ (journal.now.lines ≢ []) }
{
    !journal.lines.as_slice().is_empty()
}

/// Sees that both journals have lines. `Changed` where one has none: its last volume's file has none any longer.
fn expect_lines(pair: &VolumePair, shown: &PairJournals) -> Result<(), FilesError>
    requires { AreClosed shown.now }
    ensures primary { OnOk result (IsClosed shown.now.primary.lines) }
    ensures secondary { OnOk result (IsClosed shown.now.secondary.lines) }
{
    if !has_lines(&shown.primary) {
        return Err(FilesError::Changed {
            file: pair.primary.file,
        });
    }
    if !has_lines(&shown.secondary) {
        return Err(FilesError::Changed {
            file: pair.secondary.file,
        });
    }
    Ok(())
}

fn volume_end(volume: &FiledVolume) -> VolumeEnd
    ensures { result ≡ volume_end volume.now.outline.ending }
{
    match volume.outline.ending {
        VolumeEnding::Closed => VolumeEnd::Closed,
        VolumeEnding::GoesOn => VolumeEnd::Open,
    }
}

/// Which of two volumes their servers still write.
fn ends_of(pair: &VolumePair) -> VolumeEnds
    ensures { result ≡ ends_of pair.now }
{
    VolumeEnds {
        primary: volume_end(&pair.primary),
        secondary: volume_end(&pair.secondary),
    }
}

/// The answer over the journals that spans show. `Changed` where one of them has no line any longer.
fn answer_by(
    rt: &(impl Threads + Sync),
    alloc: Global,
    read: &ReadSpans,
    shown: PairJournals,
    query: &HolderQuery,
    settings: SettingsCheck,
) -> Result<SpannedAnswer, FilesError>
    requires primary { AreWritten read.now.primary.volumes.items }
    requires secondary { AreWritten read.now.secondary.volumes.items }
    requires shown { IsShownOver read.now.primary.volumes.items read.now.secondary.volumes.items
        (SpannedJournals.Journals shown) }
    ensures { IfOk result (IsSpanAnswer read.now query.now settings) }
{
    let pair = read.last_pair();
    expect_lines(&pair, &shown)?;
    let until = shown_until(&shown, query.skew);
    let origins = SpanOrigins::of(alloc, read)?;
    let ends = ends_of(&pair);
    match holder_answer_over(
        rt,
        alloc,
        &shown.primary,
        &shown.secondary,
        query,
        settings,
        ends,
    ) {
        Ok(answer) => Ok(SpannedAnswer {
            spans: read.spans(),
            pair,
            shown,
            answer,
            until,
            origins,
        }),
        Err(_) => Err(FilesError::Memory),
    }
}

/// What comes of asking spans of both sides who held a prefix. `Changed` where a file isn't what the archive knows of
/// it, `Memory` where a growth was refused.
pub(crate) fn answer_over(
    rt: &(impl Threads + Sync),
    alloc: Global,
    read: &ReadSpans,
    query: &HolderQuery,
    settings: SettingsCheck,
) -> Result<SpanTry, FilesError>
    requires primary { AreWritten read.now.primary.volumes.items }
    requires secondary { AreWritten read.now.secondary.volumes.items }
    ensures { IfOk result (IsSpanTry read.now query.now settings) }
{
    match read.shown(alloc)? {
        SpannedJournals::Journals(shown) => {
            let answer = answer_by(rt, alloc, read, shown, query, settings)?;
            Ok(SpanTry::Answered(answer))
        }
        SpannedJournals::Refused(refusal) => Ok(SpanTry::Refused(refusal)),
    }
}

/// Returns whether something stands against the two journals, or against asking this of them.
fn is_refused(answer: &HolderAnswer) -> bool
    ensures { IsTrue result ↔ IsRefusedAnswer answer.now }
{
    match answer {
        HolderAnswer::Refused(_) => true,
        HolderAnswer::Held(_) | HolderAnswer::NotNamed(_) | HolderAnswer::TooLong(_) => false,
    }
}

fn may_change(why: &NoHolderReason) -> bool
    ensures { IsTrue result ↔ MayChange why.now }
{
    match why {
        NoHolderReason::Several { .. }
        | NoHolderReason::Carried { .. }
        | NoHolderReason::NotShown => true,
        _ => false,
    }
}

/// The first lease that is carried, and may have been its client's.
fn first_carried(leases: &[CandidateLease]) -> Option<CandidateLease>
    ensures { MatchOption result ((l : LeaseValue) → Has leases.now l → l.state ≡ state.Carried → ⊥)
        (λ l. Has leases.now l × (l.state ≡ state.Carried)) }
{
    leases
        .iter()
        .find(|lease| lease.state.is_carried())
        .copied()
}

/// Returns whether a lease that may have been a client's is carried from earlier volumes.
pub fn has_carried(leases: &[CandidateLease]) -> bool
    ensures { IsTrue result ↔ HasCarried leases.now }
{
    match first_carried(leases) {
        Some(_) => true,
        None => false,
    }
}

/// Returns whether earlier volumes may say more of why nobody is named.
fn may_say_more(none: &NoHolder) -> bool
    ensures { IsTrue result ↔ MaySayMore none.now }
{
    may_change(&none.why) && has_carried(&none.leases)
}

/// Returns whether earlier volumes may say more: nobody is named, and a lease that may have been a client's began in
/// one of them.
pub(crate) fn asks_further(answer: &HolderAnswer) -> bool
    ensures { IsTrue result ↔ AsksFurther answer.now }
{
    match answer {
        HolderAnswer::NotNamed(none) => may_say_more(none),
        HolderAnswer::Held(_) => false,
        HolderAnswer::Refused(_) => false,
        HolderAnswer::TooLong(_) => false,
    }
}

/// The answer of spans against which nothing stands.
pub(crate) fn fitting(tried: SpanTry) -> Option<SpannedAnswer>
    ensures { IsFitting tried result }
{
    match tried {
        SpanTry::Answered(answer) => {
            if is_refused(&answer.answer) {
                None
            } else {
                Some(answer)
            }
        }
        SpanTry::Refused(_) => None,
    }
}
