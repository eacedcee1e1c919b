//! The lines of the newest pair of volumes.

ghost use Rattle.std.specs.Prelude.{◌≡◌, IfOk};
ghost use Rattle.archive_files.specs.Showing.{AreClosed};
ghost use Rattle.archive_desk.specs.Newest.{last_of, last_moment, IsTimelineOver, IsTimelineAt, IsNewest};

use crate::asking::expect_lines;
use crate::coverage_gaps::TimingBounds;
use archive_files::{FilesError, JournalFiles, ShownJournals, shown_at};
use attribution_desk::{DeskAnswer, ReadPair, timeline_of};
use binding_rules::Role;
use journal_archive::{Archive, CoverageGap, FiledVolume, PairJournals, VolumePair};
use lead_time::{Skew, Transit};
use std::alloc::Global;

/// What files answer to a question of all lines in one order.
#[derive(Debug, Drop)]
pub enum TimelineReply {
    /// The lines of the journals that these two volumes show, or why these have no order.
    Answered(VolumePair, DeskAnswer),
    /// No volume of this side shows the moment, and why.
    Lacking(Role, CoverageGap),
}

/// What files answer to a question of all lines, and the bounds by which they were asked.
#[derive(Debug, Drop)]
pub struct TimelineAnswer {
    pub bounds: TimingBounds,
    pub reply: TimelineReply,
}

/// The last reading of a side's last volume, in milliseconds; 0 where it has none.
fn last_of(volumes: &[FiledVolume]) -> u64
    ensures { result ≡ last_of volumes.now }
{
    match volumes.last() {
        Some(volume) => volume.outline.last.milliseconds(),
        None => 0,
    }
}

/// The last moment before both sides' last readings.
fn last_moment(archive: &Archive) -> u64
    ensures { result ≡ last_moment archive.now }
{
    let primary = last_of(archive.primary.volumes());
    let secondary = last_of(archive.secondary.volumes());
    primary.min(secondary).saturating_sub(1)
}

/// The lines of the journals that two volumes show. `Changed` where one of them has no line any longer.
fn timeline_over(
    alloc: Global,
    pair: &VolumePair,
    shown: PairJournals,
) -> Result<TimelineReply, FilesError>
    requires { AreClosed shown }
    ensures { IfOk result (IsTimelineOver pair.now shown) }
{
    expect_lines(pair, &shown)?;
    let read = ReadPair {
        primary: Ok(shown.primary),
        secondary: Ok(shown.secondary),
    };
    match timeline_of(alloc, &read) {
        Ok(answer) => Ok(TimelineReply::Answered(*pair, answer)),
        Err(_) => Err(FilesError::Memory),
    }
}

/// What the files show of a moment, line by line, by clocks that agree.
fn timeline_at<F: JournalFiles>(
    alloc: Global,
    files: &F,
    archive: &Archive,
    moment: u64,
    skew: Skew,
) -> Result<TimelineReply, FilesError>
    ensures { IfOk result (IsTimelineAt (F.had files.now) archive.now moment skew) }
{
    match shown_at(alloc, files, archive, moment, skew, Transit::ZERO)? {
        ShownJournals::Journals(pair, shown) => timeline_over(alloc, &pair, shown),
        ShownJournals::Lacking(side, lack) => Ok(TimelineReply::Lacking(side, lack)),
    }
}

/// The lines of two journals in one order: of the pair of volumes that shows, by clocks that agree, the last moment
/// before both sides' last readings; or which side lacks it. `Changed` or `Faulty` where a file isn't what the archive
/// knows of it, `Memory` where a growth was refused.
pub(crate) fn timeline<F: JournalFiles>(
    alloc: Global,
    files: &F,
    archive: &Archive,
) -> Result<TimelineAnswer, FilesError>
    ensures { IfOk result (λ answer. IsNewest (F.had files.now) archive.now answer.reply) }
{
    // (a skew of 0 is one)
    let Ok(skew) = Skew::new(0) else {
        return Err(FilesError::Memory);
    };
    let reply = timeline_at(alloc, files, archive, last_moment(archive), skew)?;
    let bounds = TimingBounds {
        skew,
        transit: Transit::ZERO,
    };
    Ok(TimelineAnswer { bounds, reply })
}
