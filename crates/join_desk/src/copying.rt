//! The text of a side's volumes, up to a line.

ghost use Rattle.std.specs.Prelude.{◌≡◌, ◌≤◌, ◌++◌, IfOk, OnOk};
ghost use Rattle.join_desk.specs.Copying.{last_copied, copied_span, copy_query, lines_words, lines_line};
ghost use Rattle.join_desk.specs.Copying.{IsTextTold, IsCopyOutcomeTold, IsShelfTold, IsCopyTold};
ghost use Rattle.join_desk.specs.Telling.{shelf_of};
ghost use Rattle.joined_rulings.specs.Lacks.{IsLackTold};

use crate::choosing::first_asked;
use crate::joining::shelf_of;
use archive_desk::{CommandOutput, expect_read, passed_over};
use archive_files::{FilesError, JournalFiles, SettingsScope, catalogue_of};
use binding_rules::Role;
use desk_args::{JoinQuery, NoteDetail};
use joined_rulings::{lack_words, missing_told, no_volume_told, none_told, refusal_told};
use journal_archive::{Archive, FiledVolume};
use journal_copies::{CopyOutcome, CopyQuery, copy_of};
use std::alloc::{AllocError, Global};
use std::path::PathBuf;
use text_fields::push_number;
use volume_spans::VolumeSpan;

/// The number of the last volume that is copied.
fn last_copied(first: u32, to: Option<u32>) -> u32
    ensures last { result ≡ last_copied first to }
    ensures order { first ≤ result }
{
    match to {
        Some(to) => to.max(first),
        None => first,
    }
}

/// Which volumes of a side are copied: from the one that is named on, or the first that there is, to the one that is
/// named, or that one alone.
fn copied_span(volumes: &[FiledVolume], query: &JoinQuery) -> VolumeSpan
    ensures span { result ≡ copied_span volumes.now query.now }
    ensures order { result.first ≤ result.last }
{
    let first = first_asked(volumes, query.from, query.to);
    VolumeSpan {
        first,
        last: last_copied(first, query.to),
    }
}

fn copy_query(volumes: &[FiledVolume], query: &JoinQuery, lines: u64) -> CopyQuery
    ensures query { result ≡ copy_query volumes.now query.now lines }
    ensures order { result.span.first ≤ result.span.last }
{
    CopyQuery {
        side: query.side,
        span: copied_span(volumes, query),
        lines,
    }
}

/// Which lines there are, before the number of the last.
fn lines_words() -> &'static [u8]
    ensures { result.now ≡ lines_words }
{
    b"Lines: there are lines 1 to "
}

/// Appends that the volumes have so many lines.
fn push_count(out: &mut Vec<u8>, side: Role, count: u64) -> Result<(), AllocError>
    ensures { OnOk result (out.new.items ≡ out.old.items ++ lines_line side count) }
{
    out.extend_from_slice(lack_words(side))?;
    out.extend_from_slice(lines_words())?;
    push_number(out, count)?;
    out.push(b'\n')?;
    Ok(())
}

/// What is told where the volumes have so many lines, and more are asked for.
fn count_told(
    alloc: Global,
    passed: Vec<u8>,
    side: Role,
    count: u64,
) -> Result<CommandOutput, AllocError>
    ensures { IfOk result (IsLackTold passed.items (lines_line side count)) }
{
    let mut notes = passed;
    push_count(&mut notes, side, count)?;
    none_told(alloc, notes)
}

/// What is told of what comes of a copy, behind the files that are passed over.
fn copy_told(
    alloc: Global,
    names: &[PathBuf],
    passed: Vec<u8>,
    side: Role,
    outcome: CopyOutcome,
) -> Result<CommandOutput, AllocError>
    ensures { IfOk result (IsCopyOutcomeTold names.now passed.items side outcome) }
{
    match outcome {
        CopyOutcome::Copied(copied) => Ok(CommandOutput {
            text: copied.text,
            status: 0,
            notes: passed,
        }),
        CopyOutcome::Missing(side, number) => missing_told(alloc, passed, side, number),
        CopyOutcome::OtherLines(count) => count_told(alloc, passed, side, count),
        CopyOutcome::Refused(refusal) => refusal_told(alloc, names, &refusal),
    }
}

/// What is told of these volumes, which are all of the side.
fn shelf_told<F: JournalFiles>(
    alloc: Global,
    files: &F,
    names: &[PathBuf],
    passed: Vec<u8>,
    archive: &Archive,
    volumes: &[FiledVolume],
    query: &JoinQuery,
    lines: u64,
) -> Result<CommandOutput, FilesError>
    ensures { IfOk result (IsShelfTold (F.had files.now) archive.now names.now passed.items query.now lines
        volumes.now) }
{
    if volumes.is_empty() {
        return Ok(no_volume_told(alloc, passed, query.side)?);
    }
    let asked = copy_query(volumes, query, lines);
    let outcome = copy_of(alloc, files, archive, &asked)?;
    let told = copy_told(alloc, names, passed, query.side, outcome)?;
    Ok(told)
}

/// The text of a side's volumes, up to the line of this number of the journal that they are together: standard output
/// gets it, as the desk used it, and standard error says which files are passed over. Where no volume is named as the
/// last it's the first alone. Where a volume is missing or there are fewer lines standard error says so, where they
/// aren't one journal standard output says why, and the status is 1.
///
/// `OtherPair` or `Archive` where the volumes can't be of one pair of servers, `Unread` where a file by the name of a
/// volume's can't be read, `OtherHead`, `Changed`, `Faulty` and `Torn` as of [`SpanReader::begin`], `Memory` where a
/// growth was refused.
///
/// [`SpanReader::begin`]: volume_spans::SpanReader::begin
pub fn copy_files<F: JournalFiles>(
    alloc: Global,
    files: &F,
    names: &[PathBuf],
    query: &JoinQuery,
    lines: u64,
    detail: NoteDetail,
) -> Result<CommandOutput, FilesError>
    ensures { IfOk result (IsCopyTold (F.had files.now) (F.files files.now) names.now query.now lines) }
{
    let catalogue = catalogue_of(alloc, files, SettingsScope::OfEach)?;
    expect_read(names, &catalogue.passed_over)?;
    let passed = passed_over(alloc, names, &catalogue.passed_over, detail)?;
    let volumes = shelf_of(query.side, &catalogue.archive);
    let told = shelf_told(
        alloc,
        files,
        names,
        passed,
        &catalogue.archive,
        volumes,
        query,
        lines,
    )?;
    Ok(told)
}
