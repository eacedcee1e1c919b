//! Which of the joined lines each volume has.

ghost use Rattle.std.specs.Prelude.{◌≡◌, ◌^◌, ◌≤◌, length, IfOk};
ghost use Rattle.volume_join.specs.Joined.{unclosed, behind_head};
ghost use Rattle.volume_spans.specs.Reading.{AreWritten};
ghost use Rattle.line_origins.specs.Parts.{lines_in, whole_part, next_part, parts_of, parts_from, FitsBehind, AllFitBehind, AreTogether};

use journal_lines::Line;
use std::alloc::{AllocError, Global};
use volume_join::{open_length, split_head};
use volume_spans::ReadVolume;

/// Which lines of the journal that consecutive volumes of a side are together are this volume's.
#[derive(Clone, Copy, Debug, PartialEq, Eq)]
pub struct VolumePart {
    /// Which volume of all that its server wrote it is, from 1.
    pub volume: u32,
    /// How many lines at its beginning the joined journal leaves out.
    pub head: u32,
    /// How many joined lines stand before its own.
    pub before: u32,
    /// How many stand up to its last one, with it.
    pub until: u32,
}

/// The lines of a volume.
fn lines_in(read: &ReadVolume) -> &[Line]
    ensures { result.now ≡ lines_in read.now }
{
    read.volume.journal.lines.as_slice()
}

/// A volume alone.
fn whole_part(read: &ReadVolume) -> VolumePart
    requires { length (lines_in read.now) ≤ 2 ^ 20 }
    ensures { result ≡ whole_part read.now }
{
    VolumePart {
        volume: read.filed.outline.number,
        head: 0,
        before: 0,
        until: lines_in(read).len() as u32,
    }
}

/// A further volume, behind the lines before the close line.
fn next_part(before: u32, read: &ReadVolume) -> VolumePart
    requires { FitsBehind before read.now }
    ensures { result ≡ next_part before read.now }
{
    let (head, behind) = split_head(lines_in(read));
    VolumePart {
        volume: read.filed.outline.number,
        head: head.len() as u32,
        before,
        until: before + behind.len() as u32,
    }
}

/// How many lines behind the head of a volume stand before its close line.
#[tactic(auto, using(crate::proofs::Fitting::open_within))]
fn open_behind(read: &ReadVolume) -> u32
    requires { length (behind_head (lines_in read.now)) ≤ 2 ^ 20 }
    ensures { result ≡ length (unclosed (behind_head (lines_in read.now))) }
{
    let (_head, behind) = split_head(lines_in(read));
    open_length(behind) as u32
}

/// The parts of a volume, whose part this is, and of the further ones. So many of the lines joined so far stand before
/// the close line.
#[tactic(auto, using(crate::proofs::Fitting::open_within, crate::proofs::Stepping::part_more))]
fn parts_from(
    alloc: Global,
    first: VolumePart,
    first_close: u32,
    further: &[ReadVolume],
) -> Result<Vec<VolumePart>, AllocError>
    requires { AllFitBehind first_close further.now }
    ensures { IfOk result (λ parts. parts.items ≡ parts_from first first_close further.now) }
{
    let mut parts = Vec::new(alloc);
    let mut part = first;
    let mut until_close = first_close;
    let mut rest = further;
    while let [read, later @ ..] = rest {
        parts.push(VolumePart {
            until: until_close,
            ..part
        })?;
        part = next_part(until_close, read);
        until_close += open_behind(read);
        rest = later;
    }
    parts.push(part)?;
    Ok(parts)
}

/// Which of the joined lines each of these volumes has, one part a volume, in their order. `AllocError` where a growth
/// was refused.
#[tactic(auto, using(crate::proofs::Fitting::open_within, crate::proofs::Fitting::written_few))]
pub fn parts_of(alloc: Global, volumes: &[ReadVolume]) -> Result<Vec<VolumePart>, AllocError>
    requires written { AreWritten volumes.now }
    requires together { AreTogether volumes.now }
    ensures { IfOk result (λ parts. parts.items ≡ parts_of volumes.now) }
{
    match volumes {
        [first, further @ ..] => {
            let until_close = open_length(lines_in(first)) as u32;
            parts_from(alloc, whole_part(first), until_close, further)
        }
        [] => Ok(Vec::new(alloc)),
    }
}
