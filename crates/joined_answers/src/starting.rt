//! The spans that show a moment.

ghost use Rattle.std.specs.Prelude.{IfOk, IfErr};
ghost use Rattle.journal_archive.specs.declared.covering.Coverage.TheVariants.{Lacking as IsLacking};
ghost use Rattle.journal_archive.specs.declared.covering.CoverageGap.TheVariants.{Roll};
ghost use Rattle.archive_files.specs.Rereading.{IsReadingRefusal};
ghost use Rattle.joined_answers.specs.Starting.{IsStartOf, AreSpansOf, AreMomentSpans, IsLastingGap};

use archive_files::{FilesError, JournalFiles};
use binding_rules::Role;
use journal_archive::{Archive, Coverage, CoverageGap, FiledVolume};
use plain_search::HolderQuery;
use std::alloc::Global;
use volume_spans::{ReadSpans, SpanReader};

/// The volumes of a side that show a moment.
#[derive(Debug, Drop)]
pub(crate) enum SideStart {
    /// One, or the two of a roll.
    Read(SpanReader),
    /// None, and why.
    Lacking(CoverageGap),
}

/// The volumes of both sides that show a moment.
#[derive(Debug, Drop)]
pub enum MomentSpans {
    Read(ReadSpans),
    /// This side has none, and why.
    Lacking(Role, CoverageGap),
}

/// What is lacking of a side that no volumes together show either; `None` where one shows the moment, or it lies in a
/// roll from one to the next.
pub fn lasting_gap(coverage: &Coverage) -> Option<CoverageGap>
    ensures { IsLastingGap coverage.now result }
{
    match coverage {
        Coverage::Shown(_) => None,
        Coverage::Lacking(CoverageGap::Roll(_, _)) => None,
        Coverage::Lacking(gap) => Some(*gap),
    }
}

/// Reads the two volumes of a roll; none where the first of them can't be read as a volume.
fn read_roll<F: JournalFiles>(
    alloc: Global,
    files: &F,
    shelf: &[FiledVolume],
    before: &FiledVolume,
    next: &FiledVolume,
) -> Result<SideStart, FilesError>
    ensures start { IfOk result (IsStartOf (F.had files.now) shelf.now (IsLacking (Roll before.now next.now))) }
    ensures refused { IfErr result (IsReadingRefusal (F.had files.now)) }
{
    let begun = SpanReader::begin(alloc, files, shelf, next)?;
    if begun.before.is_none() {
        return Ok(SideStart::Lacking(CoverageGap::Roll(*before, *next)));
    }
    let both = begun.widened(alloc, files, shelf)?;
    Ok(SideStart::Read(both))
}

/// Reads the volumes of a side that show a moment to which they stand so.
fn read_side<F: JournalFiles>(
    alloc: Global,
    files: &F,
    shelf: &[FiledVolume],
    coverage: &Coverage,
) -> Result<SideStart, FilesError>
    ensures start { IfOk result (IsStartOf (F.had files.now) shelf.now coverage.now) }
    ensures refused { IfErr result (IsReadingRefusal (F.had files.now)) }
{
    match coverage {
        Coverage::Shown(volume) => {
            let begun = SpanReader::begin(alloc, files, shelf, volume)?;
            Ok(SideStart::Read(begun))
        }
        Coverage::Lacking(CoverageGap::Roll(before, next)) => {
            read_roll(alloc, files, shelf, before, next)
        }
        Coverage::Lacking(gap) => Ok(SideStart::Lacking(*gap)),
    }
}

/// Reads the volumes of both sides that show a moment to which they stand so. `OtherHead`, `Changed`, `Faulty` and
/// `Memory` as of [`SpanReader::begin`].
pub fn read_both<F: JournalFiles>(
    alloc: Global,
    files: &F,
    archive: &Archive,
    primary: &Coverage,
    secondary: &Coverage,
) -> Result<MomentSpans, FilesError>
    ensures start { IfOk result (AreSpansOf (F.had files.now) archive.now primary.now secondary.now) }
    ensures refused { IfErr result (IsReadingRefusal (F.had files.now)) }
{
    let primary = match read_side(alloc, files, archive.primary.volumes(), primary)? {
        SideStart::Read(span) => span,
        SideStart::Lacking(gap) => return Ok(MomentSpans::Lacking(Role::Primary, gap)),
    };
    match read_side(alloc, files, archive.secondary.volumes(), secondary)? {
        SideStart::Read(secondary) => Ok(MomentSpans::Read(ReadSpans { primary, secondary })),
        SideStart::Lacking(gap) => Ok(MomentSpans::Lacking(Role::Secondary, gap)),
    }
}

/// Reads the volumes that show a moment, and those beside them: of a side one, or where the moment lies in the roll from
/// one to the next these two. Where one of the sides has none nothing is read.
///
/// `OtherHead`, `Changed`, `Faulty` and `Memory` as of [`SpanReader::begin`].
pub fn spans_at<F: JournalFiles>(
    alloc: Global,
    files: &F,
    archive: &Archive,
    query: &HolderQuery,
) -> Result<MomentSpans, FilesError>
    ensures start { IfOk result
        (AreMomentSpans (F.had files.now) archive.now query.now.skew query.now.transit query.now.at) }
    ensures refused { IfErr result (IsReadingRefusal (F.had files.now)) }
{
    let moment = query.at.milliseconds();
    let primary = archive.primary.standing(moment, query.skew, query.transit);
    let secondary = archive
        .secondary
        .standing(moment, query.skew, query.transit);
    if let Some(gap) = lasting_gap(&primary) {
        return Ok(MomentSpans::Lacking(Role::Primary, gap));
    }
    if let Some(gap) = lasting_gap(&secondary) {
        return Ok(MomentSpans::Lacking(Role::Secondary, gap));
    }
    read_both(alloc, files, archive, &primary, &secondary)
}
