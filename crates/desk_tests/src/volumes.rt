//! Volumes as files of an archive have them.

use binding_rules::Role;
use journal_archive::{Archive, ArchiveError, FiledVolume, VolumeEnding, VolumeOutline};
use lead_time::Reading;
use std::alloc::Global;
use std::test::Fail;

/// A closed volume: the count of its file, its side, its number, and the readings of its first and its last line.
pub(crate) type ClosedVolume = (usize, Role, u32, u64, u64);

/// The volume as its file has it.
fn filed(volume: &ClosedVolume) -> Result<FiledVolume, Fail> {
    let (file, side, number, opened, last) = *volume;
    let outline = VolumeOutline {
        side,
        number,
        opened: Reading::new(opened)?,
        last: Reading::new(last)?,
        ending: VolumeEnding::Closed,
        octets: 1000,
    };
    Ok(FiledVolume { file, outline })
}

/// The archive of closed volumes, or why they make none.
pub(crate) fn archive_of(
    alloc: Global,
    volumes: &[ClosedVolume],
) -> Result<Result<Archive, ArchiveError>, Fail> {
    let mut files = Vec::new(alloc);
    for volume in volumes {
        files.push(filed(volume)?)?;
    }
    Ok(Archive::new(alloc, &files))
}
