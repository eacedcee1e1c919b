//! The volumes of some files.

ghost use Rattle.std.specs.Prelude.{IfOk, IfSome};
ghost use Rattle.std.specs.List.{All};
ghost use Rattle.volume_listing.specs.Listing.{IsListedOf};

use crate::listed::{ListedVolume, listed_in};
use archive_files::{JournalFiles, Unreadable};
use std::alloc::{AllocError, Global};

/// A volume, and the file that has it, by its count from 0.
#[derive(Clone, Copy, Debug, PartialEq, Eq)]
pub struct FileVolume {
    pub file: usize,
    pub volume: ListedVolume,
}

/// The volumes of some files, and the files that have none.
#[derive(Debug, Drop)]
pub struct VolumeListing {
    pub volumes: Vec<FileVolume>,
    /// By their counts from 0.
    pub others: Vec<usize>,
}

/// The volume that a file has, if it can be read and has one. `AllocError` where a growth was refused.
fn volume_of<F: JournalFiles>(
    alloc: Global,
    files: &F,
    file: usize,
) -> Result<Option<ListedVolume>, AllocError>
    ensures { IfOk result (λ found. IfSome found (IsListedOf (F.had files.now) file)) }
{
    let octets = match files.read(alloc, file) {
        Ok(octets) => octets,
        Err(Unreadable::Device) => return Ok(None),
        Err(Unreadable::Memory) => return Err(AllocError),
    };
    let found = listed_in(alloc, &octets)?;
    Ok(found)
}

/// The volumes of some files, each of which is read whole, one at a time. `AllocError` where a growth was refused.
pub fn listing_of<F: JournalFiles>(alloc: Global, files: &F) -> Result<VolumeListing, AllocError>
    ensures { IfOk result (λ listing. All (λ v. IsListedOf (F.had files.now) v.file v.volume) listing.volumes.items) }
{
    let mut volumes = Vec::new(alloc);
    let mut others = Vec::new(alloc);
    for file in 0..files.count() {
        match volume_of(alloc, files, file)? {
            Some(volume) => volumes.extend_from_slice(&[FileVolume { file, volume }])?,
            None => others.push(file)?,
        }
    }
    Ok(VolumeListing { volumes, others })
}
