//! Volumes of a side, copied.

ghost use Rattle.std.specs.Prelude.{◌≡◌, ◌≤◌, IfOk, IfErr};
ghost use Rattle.archive_files.specs.Rereading.{IsReadingRefusal};
ghost use Rattle.volume_spans.specs.Reading.{AreWritten};
ghost use Rattle.volume_spans.specs.Together.{IsJoined};
ghost use Rattle.journal_copies.specs.Copying.{shelf_of, IsJoiningFault, IsCopied, IsCopyOver, IsCopy};

use crate::query::{CopiedText, CopyOutcome, CopyQuery};
use crate::texts::text_up_to;
use archive_files::{FilesError, JournalFiles};
use binding_rules::Role;
use journal_archive::{Archive, FiledVolume};
use journal_lines::Journal;
use std::alloc::{AllocError, Global};
use volume_spans::{GivenSpan, JoinedSpan, ReadVolume, joined_of, read_span, volume_of};

/// The volumes of a side.
fn shelf_of(side: Role, archive: &Archive) -> &[FiledVolume]
    ensures { result.now ≡ shelf_of side archive.now }
{
    match side {
        Role::Primary => archive.primary.volumes(),
        Role::Secondary => archive.secondary.volumes(),
    }
}

/// What volumes are together. `Changed` where a file has another volume than the archive knows of it, `Memory` where a
/// growth was refused.
fn joined_by(alloc: Global, volumes: &[ReadVolume]) -> Result<JoinedSpan, FilesError>
    requires { AreWritten volumes.now }
    ensures joined { IfOk result (IsJoined volumes.now) }
    ensures refused { IfErr result IsJoiningFault }
{
    match joined_of(alloc, volumes) {
        Ok(joined) => Ok(joined),
        Err(FilesError::Changed { file }) => Err(FilesError::Changed { file }),
        Err(_) => Err(FilesError::Memory),
    }
}

/// What comes of the journal that the volumes are.
fn copied(alloc: Global, journal: &Journal, query: &CopyQuery) -> Result<CopyOutcome, AllocError>
    ensures { IfOk result (IsCopied query.now journal.now) }
{
    let count = journal.lines.as_slice().len() as u64;
    if count < query.lines {
        return Ok(CopyOutcome::OtherLines(count));
    }
    let text = text_up_to(alloc, journal, query.lines)?;
    Ok(CopyOutcome::Copied(CopiedText {
        text,
        volumes: query.span,
    }))
}

/// What comes of volumes that were read.
fn copied_over(
    alloc: Global,
    volumes: &[ReadVolume],
    query: &CopyQuery,
) -> Result<CopyOutcome, FilesError>
    requires { AreWritten volumes.now }
    ensures copied { IfOk result (IsCopyOver query.now volumes.now) }
    ensures refused { IfErr result IsJoiningFault }
{
    let joined = joined_by(alloc, volumes)?;
    match volume_of(volumes, &joined) {
        Ok(volume) => match copied(alloc, &volume.journal, query) {
            Ok(outcome) => Ok(outcome),
            Err(_) => Err(FilesError::Memory),
        },
        Err(refusal) => Ok(CopyOutcome::Refused(refusal)),
    }
}

/// The text of a side's volumes up to a line, as far as their files have it: of one volume its own, of several that of
/// the journal that they are together. What isn't there, or why they aren't one journal, is an outcome.
///
/// `OtherHead` where a volume begins otherwise than the one before it names, `Changed`, `Faulty` or `Torn` where a file
/// isn't what the archive knows of it, `Memory` where a growth was refused.
pub fn copy_of<F: JournalFiles>(
    alloc: Global,
    files: &F,
    archive: &Archive,
    query: &CopyQuery,
) -> Result<CopyOutcome, FilesError>
    requires { query.now.span.first ≤ query.now.span.last }
    ensures copy { IfOk result (IsCopy (F.had files.now) archive.now query.now) }
    ensures refused { IfErr result (IsReadingRefusal (F.had files.now)) }
{
    let shelf = shelf_of(query.side, archive);
    match read_span(alloc, files, shelf, query.span)? {
        GivenSpan::Read(read) => copied_over(alloc, &read.volumes, query),
        GivenSpan::Missing(number) => Ok(CopyOutcome::Missing(query.side, number)),
    }
}
