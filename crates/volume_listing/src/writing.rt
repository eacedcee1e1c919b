//! A listing, written.

use crate::listed::ListedVolume;
use crate::missing::MissingVolumes;
use binding_rules::Role;
use journal_archive::VolumeEnding;
use std::alloc::AllocError;
use text_fields::{push_number, push_octets};
use time_text::push_time;

fn side_word(side: Role) -> &'static [u8] {
    match side {
        Role::Primary => b"A",
        Role::Secondary => b"B",
    }
}

fn ending_word(ending: VolumeEnding) -> &'static [u8] {
    match ending {
        VolumeEnding::Closed => b"closed",
        VolumeEnding::GoesOn => b"open",
    }
}

/// Appends a volume's side and number, from when to when it goes, how many lines it has, whether it's closed, how many
/// octets its file has, and the SHA-256 of these, with a space between each two.
pub fn push_volume(out: &mut Vec<u8>, volume: &ListedVolume) -> Result<(), AllocError> {
    let outline = &volume.outline;
    out.extend_from_slice(side_word(outline.side))?;
    out.push(b' ')?;
    push_number(out, u64::from(outline.number))?;
    out.push(b' ')?;
    push_time(out, outline.opened)?;
    out.push(b' ')?;
    push_time(out, outline.last)?;
    out.push(b' ')?;
    push_number(out, volume.lines)?;
    out.push(b' ')?;
    out.extend_from_slice(ending_word(outline.ending))?;
    out.push(b' ')?;
    push_number(out, outline.octets)?;
    out.push(b' ')?;
    push_octets(out, &volume.digest)
}

/// Appends which volumes are missing: `missing A 3`, or `missing A 3-5`.
pub fn push_missing(out: &mut Vec<u8>, missing: &MissingVolumes) -> Result<(), AllocError> {
    out.extend_from_slice(b"missing ")?;
    out.extend_from_slice(side_word(missing.side))?;
    out.push(b' ')?;
    push_number(out, u64::from(missing.first))?;
    if missing.first != missing.last {
        out.push(b'-')?;
        push_number(out, u64::from(missing.last))?;
    }
    Ok(())
}
