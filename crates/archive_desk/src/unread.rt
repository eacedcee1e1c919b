//! Files that can't be read, though they have the name of a volume's.

ghost use Rattle.std.specs.Prelude.{◌≡◌, ◌↔◌, IsTrue, OnOk, IfErr};
ghost use Rattle.archive_files.specs.declared.cataloguing.SkippedFile.{SkippedFile};
ghost use Rattle.archive_files.specs.declared.error.FilesError.TheVariants.{Unread};
ghost use Rattle.archive_files.specs.Catalogues.{IsIn};
ghost use Rattle.archive_desk.specs.Unread.{IsNamedAsVolume, IsUnread, AllRead};

use crate::names::name_of;
use archive_files::{FileContent, FilesError, SkippedFile};
use std::path::{Path, PathBuf};

/// What the name of a volume's file ends with, behind a stop.
const VOLUME: &str = "journal";

/// Returns whether a file has the name of a volume's.
fn is_named_as_volume(names: &[PathBuf], file: usize) -> bool
    ensures { IsTrue result ↔ IsNamedAsVolume names.now file }
{
    Path::new(name_of(names, file)).extension() == Some(VOLUME)
}

/// Returns whether a file that is passed over has the name of a volume's, and can't be read.
fn is_unread(names: &[PathBuf], passed: &SkippedFile) -> bool
    ensures { IsTrue result ↔ IsUnread names.now passed.now }
{
    passed.found == FileContent::Unreadable && is_named_as_volume(names, passed.file)
}

/// Sees that no file by the name of a volume's is passed over since it can't be read: `Unread` where one is. What
/// stands in it isn't known, so what the others lack isn't either.
#[tactic(auto, using(crate::proofs::NoneUnread::none_unread))]
pub fn expect_read(names: &[PathBuf], passed: &[SkippedFile]) -> Result<(), FilesError>
    ensures read { OnOk result (AllRead names.now passed.now) }
    ensures refused { IfErr result
        (λ e. (p : SkippedFile) × IsIn passed.now p × IsUnread names.now p × (e ≡ Unread p.file)) }
{
    for each in passed {
        if is_unread(names, each) {
            return Err(FilesError::Unread { file: each.file });
        }
    }
    Ok(())
}
