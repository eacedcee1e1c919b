//! One volume.

ghost use Rattle.std.specs.Prelude.{◌≡◌, IfOk, IfSome};
ghost use Rattle.sha2.specs.Sha256.{sha256};
ghost use Rattle.volume_listing.specs.Listing.{IsListed};

use journal_archive::{JournalError, VolumeOutline, is_headed, outline_of, read_copy};
use sha2::{Digest, Sha256};
use std::alloc::{AllocError, Global};

/// A volume that a file has.
#[derive(Clone, Copy, Debug, PartialEq, Eq)]
pub struct ListedVolume {
    /// What its lines say of it, and how many octets the file has.
    pub outline: VolumeOutline,
    /// How many lines it has, its head line and its end line not counted.
    pub lines: u64,
    /// The SHA-256 of all octets of the file.
    pub digest: [u8; 32],
}

fn digest_of(octets: &[u8]) -> [u8; 32]
    ensures { result ≡ sha256 octets.now }
{
    Sha256::digest(octets)
}

/// The volume that the octets of a file are; `None` where they are none: another file, a journal without a line yet, or
/// one with a fault. `AllocError` where a growth was refused.
pub fn listed_in(alloc: Global, octets: &[u8]) -> Result<Option<ListedVolume>, AllocError>
    ensures { IfOk result (λ found. IfSome found (IsListed octets.now)) }
{
    if !is_headed(octets) {
        return Ok(None);
    }
    let copied = match read_copy(alloc, octets) {
        Ok(copied) => copied,
        Err(JournalError::Fault(_)) => return Ok(None),
        Err(JournalError::Memory) => return Err(AllocError),
    };
    let Some(outline) = outline_of(&copied.volume, octets.len() as u64) else {
        return Ok(None);
    };
    let lines = copied.volume.journal.lines.as_slice().len() as u64;
    Ok(Some(ListedVolume {
        outline,
        lines,
        digest: digest_of(octets),
    }))
}
