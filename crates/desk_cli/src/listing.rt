//! `volumes`: which volumes files have.

use crate::fault::DeskFault;
use crate::over_files::{FilesAsked, files_asked};
use crate::writing::write_out;
use archive_desk::CommandOutput;
use journal_paths::JournalPaths;
use std::alloc::{AllocError, Global};
use std::net::Net;
use volume_listing::{VolumeListing, listing_of, missing_of, push_missing, push_volume};

/// Appends the path of a file.
fn push_path(out: &mut Vec<u8>, files: &JournalPaths, file: usize) -> Result<(), AllocError> {
    match files.path(file) {
        Some(path) => out.extend_from_slice(path.as_str().as_bytes()),
        None => Ok(()),
    }
}

/// A line for each volume, and one for each stretch of missing ones: status 1 where there are any, or no volume.
fn listing_told(
    alloc: Global,
    files: &JournalPaths,
    listing: &VolumeListing,
) -> Result<CommandOutput, AllocError> {
    let mut text = Vec::new(alloc);
    for it in &listing.volumes {
        push_volume(&mut text, &it.volume)?;
        text.push(b' ')?;
        push_path(&mut text, files, it.file)?;
        text.push(b'\n')?;
    }
    let missing = missing_of(alloc, &listing.volumes)?;
    for it in &missing {
        push_missing(&mut text, it)?;
        text.push(b'\n')?;
    }
    let mut notes = Vec::new(alloc);
    for file in &listing.others {
        notes.extend_from_slice(b"passed over ")?;
        push_path(&mut notes, files, *file)?;
        notes.extend_from_slice(b": it has no volume that can be listed\n")?;
    }
    let is_whole = missing.is_empty() && !listing.volumes.is_empty();
    Ok(CommandOutput {
        text,
        status: if is_whole { 0 } else { 1 },
        notes,
    })
}

/// Lists the volumes of the files.
pub(crate) fn listed(
    rt: &HostRuntime,
    net: &impl Net,
    asked: &FilesAsked,
) -> Result<u8, DeskFault> {
    let files = files_asked(rt, net, asked)?;
    let listing = listing_of(rt.alloc(), &files).map_err(|_| DeskFault::memory())?;
    let told = listing_told(rt.alloc(), &files, &listing).map_err(|_| DeskFault::memory())?;
    write_out(rt, &told)
}
