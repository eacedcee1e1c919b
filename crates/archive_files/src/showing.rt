//! The two journals that files show of a moment.

ghost use Rattle.std.specs.Prelude.{◌↔◌, IsTrue, IfOk, IfErr};
ghost use Rattle.open_volume.specs.Spelling.{IsWrittenSoFar};
ghost use Rattle.archive_files.specs.Showing.{AreOfOne, IsOf, IsCopyOf, AreShownBy, AreClosed};
ghost use Rattle.archive_files.specs.Showing.{AreBorneOut, IsShownAt};
ghost use Rattle.archive_files.specs.Found.{HasContent};
ghost use Rattle.archive_files.specs.Torn.{IsTorn, IsUntornCopyOf};
ghost use Rattle.archive_files.specs.Rereading.{IsReadingRefusal, IsOfFile};

use crate::copies::octets_of;
use crate::error::FilesError;
use crate::files::JournalFiles;
use crate::neighbours::expect_neighbours;
use binding_rules::Role;
use journal_archive::{
    Archive, CoverageGap, FiledVolume, JournalError, PairJournals, PairLookup, VolumeOutline,
    VolumePair, VolumeSoFar, outline_of, read_copy, show_pair,
};
use lead_time::{Skew, Transit};
use open_volume::Phase;
use std::alloc::Global;

/// What files show of a moment.
#[derive(Debug, Drop)]
pub enum ShownJournals {
    /// The journals that these two volumes show, each closed as far as it goes.
    Journals(VolumePair, PairJournals),
    /// No volume of this side shows it, and why.
    Lacking(Role, CoverageGap),
}

/// The volume that octets of its file spell. `Changed` where it's another than was filed, `Faulty` where it's none.
fn volume_in<F: JournalFiles>(
    alloc: Global,
    files: &F,
    filed: &FiledVolume,
    octets: &[u8],
) -> Result<VolumeSoFar, FilesError>
    requires { F.had files.now filed.now.file octets.now }
    ensures content { IfOk result (HasContent octets.now) }
    ensures filed { IfOk result (λ volume. IsOf volume filed.now) }
    ensures written { IfOk result IsWrittenSoFar }
    ensures refused { IfErr result (IsReadingRefusal (F.had files.now)) }
    ensures own { IfErr result (IsOfFile filed.now.file) }
{
    let file = filed.file;
    let volume = match read_copy(alloc, octets) {
        Ok(copied) => copied.volume,
        Err(JournalError::Fault(fault)) => return Err(FilesError::Faulty { file, fault }),
        Err(JournalError::Memory) => return Err(FilesError::Memory),
    };
    if is_of(&volume, filed) {
        Ok(volume)
    } else {
        Err(FilesError::Changed { file })
    }
}

/// The volume that a file has now: the one that was filed, with more lines perhaps, or with fewer where not all that
/// its edges showed is on a disk. `Changed` where it's another or can't be read, `Faulty` where it's none.
pub fn read_again<F: JournalFiles>(
    alloc: Global,
    files: &F,
    filed: &FiledVolume,
) -> Result<VolumeSoFar, FilesError>
    ensures copy { IfOk result (IsCopyOf (F.had files.now filed.now.file) filed.now) }
    ensures written { IfOk result IsWrittenSoFar }
    ensures refused { IfErr result (IsReadingRefusal (F.had files.now)) }
    ensures own { IfErr result (IsOfFile filed.now.file) }
{
    let octets = octets_of(alloc, files, filed.file)?;
    volume_in(alloc, files, filed, &octets)
}

/// Returns whether zero octets stand in a volume's file before it's closed.
fn is_torn(octets: &[u8], volume: &VolumeSoFar) -> bool
    ensures { IsTrue result ↔ IsTorn octets.now volume.now }
{
    match volume.phase {
        Phase::GoingOn => octets.contains(&0),
        Phase::Closed | Phase::Ended => false,
    }
}

/// As [`read_again`], of a volume that a further one follows, so that no line of it is still to come: `Torn` where zero
/// octets stand in its file before it's closed.
pub fn read_untorn<F: JournalFiles>(
    alloc: Global,
    files: &F,
    filed: &FiledVolume,
) -> Result<VolumeSoFar, FilesError>
    ensures copy { IfOk result (IsUntornCopyOf (F.had files.now filed.now.file) filed.now) }
    ensures refused { IfErr result (IsReadingRefusal (F.had files.now)) }
{
    let octets = octets_of(alloc, files, filed.file)?;
    let volume = volume_in(alloc, files, filed, &octets)?;
    if is_torn(&octets, &volume) {
        return Err(FilesError::Torn {
            file: filed.file,
            line: volume.journal.lines.as_slice().len() + 1,
        });
    }
    Ok(volume)
}

fn is_of(volume: &VolumeSoFar, filed: &FiledVolume) -> bool
    ensures { IsTrue result ↔ IsOf volume.now filed.now }
{
    match outline_of(volume, filed.outline.octets) {
        Some(outline) => is_same(&filed.outline, &outline),
        None => false,
    }
}

/// Returns whether both outlines are of one volume, of whichever of its lines.
fn is_same(filed: &VolumeOutline, read: &VolumeOutline) -> bool
    ensures { IsTrue result ↔ AreOfOne filed.now read.now }
{
    filed.side == read.side && filed.number == read.number && filed.opened == read.opened
}

/// The journals that a pair of volumes shows, by what their files have now. The two are read whole, and so are the
/// volumes beside them in the archive: `OtherHead` where one of the two, or the one after it, begins otherwise than the
/// one before it names. `Changed` where a file isn't what the archive knows of it, `Faulty` where one of the two is no
/// journal, `Memory` where a growth was refused.
pub fn shown_by<F: JournalFiles>(
    alloc: Global,
    files: &F,
    archive: &Archive,
    pair: &VolumePair,
) -> Result<PairJournals, FilesError>
    ensures shown { IfOk result (AreShownBy (F.had files.now) pair.now) }
    ensures closed { IfOk result AreClosed }
    ensures borne_out { IfOk result (λ shown. AreBorneOut (F.had files.now) archive.now pair.now) }
    ensures refused { IfErr result (IsReadingRefusal (F.had files.now)) }
{
    let primary = read_again(alloc, files, &pair.primary)?;
    let shelf = archive.primary.volumes();
    expect_neighbours(alloc, files, shelf, &pair.primary, &primary)?;
    let secondary = read_again(alloc, files, &pair.secondary)?;
    let shelf = archive.secondary.volumes();
    expect_neighbours(alloc, files, shelf, &pair.secondary, &secondary)?;
    let shown = show_pair(alloc, &primary, &secondary)?;
    Ok(shown)
}

/// The two journals that the files show of a moment in milliseconds of true time, or what is lacking. The two files are
/// read whole, and those beside them: `OtherHead`, `Changed`, `Faulty` and `Memory` as of [`shown_by`].
pub fn shown_at<F: JournalFiles>(
    alloc: Global,
    files: &F,
    archive: &Archive,
    moment: u64,
    skew: Skew,
    transit: Transit,
) -> Result<ShownJournals, FilesError>
    ensures shown { IfOk result (IsShownAt (F.had files.now) archive.now skew transit moment) }
    ensures refused { IfErr result (IsReadingRefusal (F.had files.now)) }
{
    match archive.at(moment, skew, transit) {
        PairLookup::Shown(pair) => {
            let shown = shown_by(alloc, files, archive, &pair)?;
            Ok(ShownJournals::Journals(pair, shown))
        }
        PairLookup::Lacking(side, lack) => Ok(ShownJournals::Lacking(side, lack)),
    }
}
