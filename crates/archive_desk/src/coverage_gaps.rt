//! What is lacking, in words.

ghost use Rattle.std.specs.Prelude.{◌≡◌, ◌++◌, IfOk, OnOk};
ghost use Rattle.archive_desk.specs.CoverageGaps.{side_words, lack_name, BeginsWith, lack_front};

use crate::names::name_of;
use binding_rules::Role;
use journal_archive::{CoverageGap, FiledVolume};
use lead_time::{Reading, Skew, Transit};
use std::alloc::{AllocError, Global};
use std::path::PathBuf;
use text_fields::push_number;
use time_text::push_time;

/// Bounds that a question is asked with.
#[derive(Clone, Copy, Debug)]
pub struct TimingBounds {
    pub skew: Skew,
    pub transit: Transit,
}

fn side_words(side: Role) -> &'static [u8]
    ensures { result.now ≡ side_words side }
{
    match side {
        Role::Primary => b"lacking A ",
        Role::Secondary => b"lacking B ",
    }
}

fn lack_name(lack: &CoverageGap) -> &'static [u8]
    ensures { result.now ≡ lack_name lack.now }
{
    match lack {
        CoverageGap::NoVolume => b"NoVolume",
        CoverageGap::Older(_) => b"Older",
        CoverageGap::Roll(_, _) => b"Roll",
        CoverageGap::Missing(_, _) => b"Missing",
        CoverageGap::Later(_) => b"Later",
    }
}

/// Appends which side lacks a moment, and the lack's name.
pub fn push_gap_name(out: &mut Vec<u8>, side: Role, lack: &CoverageGap) -> Result<(), AllocError>
    ensures { OnOk result (out.new.items ≡ out.old.items ++ lack_front side lack.now) }
{
    out.extend_from_slice(side_words(side))?;
    out.extend_from_slice(lack_name(lack))?;
    Ok(())
}

/// Appends a moment as a time, or one that is none in milliseconds.
pub(crate) fn push_moment(out: &mut Vec<u8>, moment: u64) -> Result<(), AllocError> {
    match Reading::new(moment) {
        Ok(reading) => push_time(out, reading),
        Err(_) => push_number(out, moment),
    }
}

/// Appends these words and the name of a volume's file.
fn push_file(
    out: &mut Vec<u8>,
    words: &[u8],
    names: &[PathBuf],
    volume: &FiledVolume,
) -> Result<(), AllocError> {
    out.extend_from_slice(words)?;
    out.extend_from_slice(name_of(names, volume.file).as_bytes())?;
    Ok(())
}

/// Appends from when to when two neighbours show nothing, and their files.
fn push_gap(
    out: &mut Vec<u8>,
    names: &[PathBuf],
    before: &FiledVolume,
    next: &FiledVolume,
    bounds: &TimingBounds,
) -> Result<(), AllocError> {
    out.extend_from_slice(b"nothing is shown from ")?;
    push_moment(out, before.outline.shown_until(bounds.skew))?;
    out.extend_from_slice(b" to ")?;
    push_moment(out, next.outline.shown_from(bounds.skew, bounds.transit))?;
    push_file(out, b", between ", names, before)?;
    push_file(out, b" and ", names, next)
}

/// Why no volume of a side shows a moment.
fn explained(
    alloc: Global,
    names: &[PathBuf],
    lack: &CoverageGap,
    bounds: &TimingBounds,
) -> Result<Vec<u8>, AllocError> {
    let mut out = Vec::new(alloc);
    out.extend_from_slice(b": ")?;
    match lack {
        CoverageGap::NoVolume => out.extend_from_slice(b"no file is a journal of this side")?,
        CoverageGap::Older(oldest) => {
            push_file(&mut out, b"the first volume is ", names, oldest)?;
            out.extend_from_slice(b", which shows nothing before ")?;
            push_moment(
                &mut out,
                oldest.outline.shown_from(bounds.skew, bounds.transit),
            )?;
        }
        CoverageGap::Roll(before, next) => push_gap(&mut out, names, before, next, bounds)?,
        CoverageGap::Missing(before, next) => {
            push_gap(&mut out, names, before, next, bounds)?;
            out.extend_from_slice(b": the volumes between these are missing")?;
        }
        CoverageGap::Later(latest) => {
            push_file(&mut out, b"the last volume is ", names, latest)?;
            out.extend_from_slice(b", which shows nothing from ")?;
            push_moment(&mut out, latest.outline.shown_until(bounds.skew))?;
            out.extend_from_slice(b" on")?;
        }
    }
    out.push(b'\n')?;
    Ok(out)
}

/// The line that says which side lacks a moment, by the lack's name, and why in plain words.
pub fn gap_line(
    alloc: Global,
    names: &[PathBuf],
    side: Role,
    lack: &CoverageGap,
    bounds: &TimingBounds,
) -> Result<Vec<u8>, AllocError>
    ensures { IfOk result (λ line. BeginsWith (lack_front side lack.now) line.items) }
{
    let mut line = Vec::new(alloc);
    push_gap_name(&mut line, side, lack)?;
    line.extend_from_slice(&explained(alloc, names, lack, bounds)?)?;
    Ok(line)
}
