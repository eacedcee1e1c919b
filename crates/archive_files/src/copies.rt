//! Whether files that count as one volume have the same octets.

ghost use Rattle.std.specs.Prelude.{◌≡◌, ◌↔◌, IsTrue, IfOk, OnOk, IfErr};
ghost use Rattle.archive_files.specs.declared.file_content.FileContent.TheVariants.{Volume};
ghost use Rattle.archive_files.specs.Found.{IsFound};
ghost use Rattle.archive_files.specs.Catalogues.{AreFound};
ghost use Rattle.archive_files.specs.Alike.{AreSameUpTo, AreCopies, IsCopyOf, AreCopiesOf};
ghost use Rattle.archive_files.specs.Alike.{DifferTruly, IsNoArchives, IsNoTies};
ghost use Rattle.archive_files.specs.Rereading.{IsReadingRefusal, IsOfFile};

use crate::error::FilesError;
use crate::files::{JournalFiles, Unreadable};
use journal_archive::{ArchiveError, FiledVolume};
use std::alloc::Global;

/// Returns whether the first so many octets are the same, as far as both have them.
fn are_same_up_to(octets: u64, first: &[u8], second: &[u8]) -> bool
    ensures { IsTrue result ↔ AreSameUpTo octets first.now second.now }
{
    let both = first.len().min(second.len()) as u64;
    let compared = octets.min(both) as usize;
    first[..compared] == second[..compared]
}

/// All octets of a file, as it has them now. `Changed` where it can't be read again.
pub(crate) fn octets_of<F: JournalFiles>(
    alloc: Global,
    files: &F,
    file: usize,
) -> Result<Vec<u8>, FilesError>
    ensures had { IfOk result (λ octets. F.had files.now file octets.items) }
    ensures refused { IfErr result (IsReadingRefusal (F.had files.now)) }
    ensures own { IfErr result (IsOfFile file) }
    ensures differ { IfErr result IsNoArchives }
    ensures others { IfErr result IsNoTies }
{
    match files.read(alloc, file) {
        Ok(octets) => Ok(octets),
        Err(Unreadable::Device) => Err(FilesError::Changed { file }),
        Err(Unreadable::Memory) => Err(FilesError::Memory),
    }
}

/// Asks of a file whether it has what another has of which the edges say the same. `Differ` where it has other octets,
/// `Changed` where one of them can't be read again, `Memory` where a growth was refused.
fn expect_copy<F: JournalFiles>(
    alloc: Global,
    files: &F,
    kept: &FiledVolume,
    volume: &FiledVolume,
) -> Result<(), FilesError>
    requires kept { IsFound (F.had files.now kept.now.file) kept.now.file (Volume kept.now) }
    requires volume { IsFound (F.had files.now volume.now.file) volume.now.file (Volume volume.now) }
    requires outlines { kept.now.outline ≡ volume.now.outline }
    ensures same { OnOk result (AreCopies (F.had files.now) kept.now volume.now) }
    ensures differ { IfErr result (DifferTruly (F.had files.now)) }
    ensures others { IfErr result IsNoTies }
{
    if kept.file == volume.file {
        return Ok(());
    }
    let first = octets_of(alloc, files, kept.file)?;
    let second = octets_of(alloc, files, volume.file)?;
    if are_same_up_to(kept.outline.octets, &first, &second) {
        return Ok(());
    }
    Err(FilesError::Archive(ArchiveError::Differ {
        first: kept.file,
        second: volume.file,
    }))
}

/// Asks of a file whether it has what the shelf's file has of the same volume. `Differ` where it has other octets.
fn expect_copy_of<F: JournalFiles>(
    alloc: Global,
    files: &F,
    shelf: &[FiledVolume],
    volume: &FiledVolume,
) -> Result<(), FilesError>
    requires shelf { AreFound (F.had files.now) shelf.now }
    requires volume { IsFound (F.had files.now volume.now.file) volume.now.file (Volume volume.now) }
    ensures same { OnOk result (IsCopyOf (F.had files.now) shelf.now volume.now) }
    ensures differ { IfErr result (DifferTruly (F.had files.now)) }
    ensures others { IfErr result IsNoTies }
{
    for kept in shelf {
        if kept.outline == volume.outline {
            expect_copy(alloc, files, kept, volume)?;
        }
    }
    Ok(())
}

/// Asks of each file whether it has what the shelf's file has of the same volume, octet by octet. `Differ` where one
/// has others, `Changed` where one can't be read again, `Memory` where a growth was refused.
pub(crate) fn expect_copies<F: JournalFiles>(
    alloc: Global,
    files: &F,
    shelf: &[FiledVolume],
    volumes: &[FiledVolume],
) -> Result<(), FilesError>
    requires shelf { AreFound (F.had files.now) shelf.now }
    requires volumes { AreFound (F.had files.now) volumes.now }
    ensures same { OnOk result (AreCopiesOf (F.had files.now) shelf.now volumes.now) }
    ensures differ { IfErr result (DifferTruly (F.had files.now)) }
    ensures others { IfErr result IsNoTies }
{
    for volume in volumes {
        expect_copy_of(alloc, files, shelf, volume)?;
    }
    Ok(())
}
