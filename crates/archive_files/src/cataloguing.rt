//! What files are, and the archive of their volumes.

ghost use Rattle.std.specs.Prelude.{◌≡◌, ℕ, IfOk, IfErr};
ghost use Rattle.binding_rules.specs.declared.role.Role.TheVariants.{Primary as A, Secondary as B};
ghost use Rattle.journal_archive.specs.declared.error.ArchiveError.TheVariants.{Differ};
ghost use Rattle.journal_archive.specs.VolumeLists.{IsVolumeListOf, AreTwo, AreDifferent};
ghost use Rattle.archive_files.specs.declared.error.FilesError.TheVariants.{OtherPair, Archive as IsArchives};
ghost use Rattle.archive_files.specs.Alike.{AreCopiesOf, DifferTruly, IsNoTies};
ghost use Rattle.archive_files.specs.Catalogues.{AreFound, IsCatalogue};
ghost use Rattle.archive_files.specs.Telling.{AreTold};
ghost use Rattle.archive_files.specs.Ties.{AreTied, AreOfTwoPairs};

use crate::copies::expect_copies;
use crate::error::FilesError;
use crate::file_content::{FileContent, classify};
use crate::files::JournalFiles;
use crate::settings_check::{SettingsScope, check_settings};
use journal_archive::{Archive, ArchiveError, FiledVolume};
use std::alloc::{AllocError, Global};

/// A file that is no volume for the archive, and what it is.
#[derive(Clone, Copy, Debug, PartialEq, Eq)]
pub struct SkippedFile {
    pub file: usize,
    pub found: FileContent,
}

/// The archive of the files that are volumes, and the others.
#[derive(Debug, Drop)]
pub struct Catalogue {
    pub archive: Archive,
    pub passed_over: Vec<SkippedFile>,
}

/// What files are: the volumes, and the others.
#[derive(Debug, Drop)]
struct ClassifiedFiles {
    volumes: Vec<FiledVolume>,
    passed_over: Vec<SkippedFile>,
}

/// Looks at each file.
fn classify_all<F: JournalFiles>(alloc: Global, files: &F) -> Result<ClassifiedFiles, AllocError>
    ensures { IfOk result (λ told.
        AreTold (F.had files.now) (F.files files.now) told.volumes.items told.passed_over.items) }
{
    let mut volumes = Vec::new(alloc);
    let mut passed_over = Vec::new(alloc);
    for file in 0..files.count() {
        match classify(alloc, files, file)? {
            FileContent::Volume(volume) => volumes.extend_from_slice(&[volume])?,
            other => passed_over.extend_from_slice(&[SkippedFile { file, found: other }])?,
        }
    }
    Ok(ClassifiedFiles {
        volumes,
        passed_over,
    })
}

/// The archive of volumes by what their edges say. `Archive` where they can't be of one pair of servers, `Memory` where
/// a growth was refused.
fn archive_by_edges(alloc: Global, volumes: &[FiledVolume]) -> Result<Archive, FilesError>
    ensures primary { IfOk result (λ archive. IsVolumeListOf A volumes.now archive.primary) }
    ensures secondary { IfOk result (λ archive. IsVolumeListOf B volumes.now archive.secondary) }
    ensures differ { IfErr result (λ e. (first second : ℕ) → e ≡ IsArchives (Differ first second)
        → AreTwo volumes.now first second AreDifferent) }
    ensures others { IfErr result IsNoTies }
{
    match Archive::new(alloc, volumes) {
        Ok(archive) => Ok(archive),
        Err(ArchiveError::Memory) => Err(FilesError::Memory),
        Err(error) => Err(FilesError::Archive(error)),
    }
}

/// The archive of volumes, of which those that count as one have the same octets. `Archive` where they can't be of one
/// pair of servers, `Changed` where a file can't be read again, `Memory` where a growth was refused.
fn archive_of<F: JournalFiles>(
    alloc: Global,
    files: &F,
    volumes: &[FiledVolume],
) -> Result<Archive, FilesError>
    requires { AreFound (F.had files.now) volumes.now }
    ensures primary { IfOk result (λ archive. IsVolumeListOf A volumes.now archive.primary) }
    ensures secondary { IfOk result (λ archive. IsVolumeListOf B volumes.now archive.secondary) }
    ensures copies { IfOk result (λ archive. AreCopiesOf (F.had files.now) archive.primary volumes.now) }
    ensures copied { IfOk result (λ archive. AreCopiesOf (F.had files.now) archive.secondary volumes.now) }
    ensures differ { IfErr result (DifferTruly (F.had files.now)) }
    ensures others { IfErr result IsNoTies }
{
    let archive = archive_by_edges(alloc, volumes)?;
    expect_copies(alloc, files, archive.primary.volumes(), volumes)?;
    expect_copies(alloc, files, archive.secondary.volumes(), volumes)?;
    Ok(archive)
}

/// What the files are: the archive of those that are volumes, and what each other one is. `OtherPair` where two volumes
/// that should agree say settings that differ, `Archive` where their volumes can't be of one pair of servers: `Differ`
/// of it too where two files that say the same of a volume have other octets, read whole. `Changed` where a file can't
/// be read again, `Memory` where a growth was refused.
pub fn catalogue_of<F: JournalFiles>(
    alloc: Global,
    files: &F,
    agreement: SettingsScope,
) -> Result<Catalogue, FilesError>
    ensures catalogue { IfOk result (IsCatalogue (F.had files.now) (F.files files.now)) }
    ensures tied { IfOk result
        (λ c. AreTied (F.had files.now) agreement c.archive.primary c.archive.secondary) }
    ensures refused { IfErr result
        (λ e. (first second : ℕ) → e ≡ OtherPair first second → AreOfTwoPairs (F.had files.now) first second) }
    ensures differ { IfErr result (DifferTruly (F.had files.now)) }
{
    let ClassifiedFiles {
        volumes,
        passed_over,
    } = classify_all(alloc, files)?;
    check_settings(alloc, files, &volumes, agreement)?;
    let archive = archive_of(alloc, files, &volumes)?;
    Ok(Catalogue {
        archive,
        passed_over,
    })
}
