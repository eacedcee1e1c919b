//! Volumes of files, as what a report is made of; and what standard error says of them.

ghost use Rattle.std.specs.Prelude.{◌≡◌, ℕ, List, IfOk, IfErr, IsOkAnd, Ok};
ghost use Rattle.std.specs.Result.{ForOk};
ghost use Rattle.journal_text.specs.Closed.{IsClosed};
ghost use Rattle.archive_files.specs.Showing.{AreClosed};
ghost use Rattle.desk_reports.specs.Behind.{IsBehindNotes, files_note};

use archive_desk::{CommandOutput, expect_lines, passed_over, push_journals, push_volumes};
use archive_files::{FilesError, SkippedFile};
use attribution_desk::{DeskError, ReadPair};
use desk_args::NoteDetail;
use journal_archive::{PairJournals, VolumePair};
use std::alloc::{AllocError, Global};
use std::path::PathBuf;
use volume_spans::SpanPair;

/// The journals that two volumes show. `Changed` where one of them has no line any longer.
pub(crate) fn read_pair(pair: &VolumePair, shown: PairJournals) -> Result<ReadPair, FilesError>
    requires { AreClosed shown }
    ensures first { IfOk result (λ read. read.primary ≡ Ok shown.primary) }
    ensures second { IfOk result (λ read. read.secondary ≡ Ok shown.secondary) }
    ensures primary { IfOk result (λ read. ForOk read.primary (λ journal. IsClosed journal.lines)) }
    ensures secondary { IfOk result (λ read. ForOk read.secondary (λ journal. IsClosed journal.lines)) }
{
    expect_lines(pair, &shown)?;
    Ok(ReadPair {
        primary: Ok(shown.primary),
        secondary: Ok(shown.secondary),
    })
}

/// A note that names the last file of each side, and the volumes where they are several of a side.
fn files_note(
    alloc: Global,
    names: &[PathBuf],
    pair: &VolumePair,
    spans: &SpanPair,
) -> Result<Vec<u8>, AllocError>
    ensures { IfOk result (λ note. note.items ≡ files_note names.now pair.now spans.now) }
{
    let mut note = Vec::new(alloc);
    push_journals(&mut note, names, pair)?;
    push_volumes(&mut note, spans)?;
    Ok(note)
}

/// What is told, behind these notes.
fn behind_notes(notes: Vec<u8>, told: CommandOutput) -> Result<CommandOutput, AllocError>
    ensures { IfOk result (IsBehindNotes notes.items told) }
{
    let CommandOutput {
        text,
        status,
        notes: own,
    } = told;
    let mut notes = notes;
    notes.extend_from_slice(&own)?;
    Ok(CommandOutput {
        text,
        status,
        notes,
    })
}

/// What is told over volumes, behind a note that names them. `Memory` where a growth was refused.
pub(crate) fn noted_over(
    alloc: Global,
    names: &[PathBuf],
    pair: &VolumePair,
    spans: &SpanPair,
    told: Result<CommandOutput, DeskError>,
) -> Result<CommandOutput, FilesError>
    ensures told { IfOk result
        (λ noted. IsOkAnd told (λ core. IsBehindNotes (files_note names.now pair.now spans.now) core noted)) }
    ensures refused { IfErr result (λ e. e ≡ FilesError.Memory) }
{
    let Ok(told) = told else {
        return Err(FilesError::Memory);
    };
    let note = files_note(alloc, names, pair, spans)?;
    let noted = behind_notes(note, told)?;
    Ok(noted)
}

/// What is told, behind the lines on files that are passed over. `Memory` where a growth was refused.
pub(crate) fn behind_passed(
    alloc: Global,
    names: &[PathBuf],
    passed: &[SkippedFile],
    detail: NoteDetail,
    told: CommandOutput,
) -> Result<CommandOutput, FilesError>
    ensures told { IfOk result (λ noted. (lines : List ℕ) × IsBehindNotes lines told noted) }
    ensures refused { IfErr result (λ e. e ≡ FilesError.Memory) }
{
    let notes = passed_over(alloc, names, passed, detail)?;
    let noted = behind_notes(notes, told)?;
    Ok(noted)
}
