//! Why files answer nothing, in words.

ghost use Rattle.std.specs.Prelude.{◌≡◌, ◌++◌, OnOk, IfOk};
ghost use Rattle.archive_desk.specs.Failing.{file_word, refusal_line, other_pair_line, other_head_line, unread_line};
ghost use Rattle.archive_desk.specs.Failing.{IsFailure, IsFailureTold};

use crate::command_output::CommandOutput;
use crate::names::name_of;
use archive_files::FilesError;
use journal_archive::ArchiveError;
use std::alloc::{AllocError, Global};
use std::path::PathBuf;
use text_fields::push_number;

/// Why files answer nothing.
#[derive(Debug, Drop)]
pub enum FilesFailure {
    /// Their volumes can't be of one pair of servers, as this line says.
    Refused(Vec<u8>),
    /// Another fault, as this line says.
    Fault(Vec<u8>),
}

impl FilesFailure {
    /// What is told of it: a refusal on standard output, by status 1; a fault on standard error, by status 2.
    pub fn told(self, alloc: Global) -> CommandOutput
        ensures { IsFailureTold self result }
    {
        match self {
            FilesFailure::Refused(text) => CommandOutput {
                text,
                status: 1,
                notes: Vec::new(alloc),
            },
            FilesFailure::Fault(notes) => CommandOutput {
                text: Vec::new(alloc),
                status: 2,
                notes,
            },
        }
    }
}

/// Appends a blank and the name of a file.
fn push_file(out: &mut Vec<u8>, names: &[PathBuf], file: usize) -> Result<(), AllocError>
    ensures { OnOk result (out.new.items ≡ out.old.items ++ file_word names.now file) }
{
    out.push(b' ')?;
    out.extend_from_slice(name_of(names, file).as_bytes())?;
    Ok(())
}

/// Appends why files make no archive, by name and files.
fn push_refusal(
    out: &mut Vec<u8>,
    names: &[PathBuf],
    error: &ArchiveError,
) -> Result<(), AllocError>
    ensures { OnOk result (out.new.items ≡ out.old.items ++ refusal_line names.now error.now) }
{
    match error {
        ArchiveError::NoVolume { file } => {
            out.extend_from_slice(b"refused V1 NoVolume")?;
            push_file(out, names, *file)?;
        }
        ArchiveError::Differ { first, second } => {
            out.extend_from_slice(b"refused V2 Differ")?;
            push_file(out, names, *first)?;
            push_file(out, names, *second)?;
        }
        ArchiveError::OutOfOrder { earlier, later } => {
            out.extend_from_slice(b"refused V3 OutOfOrder")?;
            push_file(out, names, *earlier)?;
            push_file(out, names, *later)?;
        }
        ArchiveError::Memory => out.extend_from_slice(b"fault Memory")?,
    }
    out.push(b'\n')?;
    Ok(())
}

/// The line that refuses files whose volumes make no archive.
fn refused(alloc: Global, names: &[PathBuf], error: &ArchiveError) -> Result<Vec<u8>, AllocError>
    ensures { IfOk result (λ line. line.items ≡ refusal_line names.now error.now) }
{
    let mut line = Vec::new(alloc);
    push_refusal(&mut line, names, error)?;
    Ok(line)
}

/// The line that refuses two files whose servers' settings differ.
fn of_two_pairs(
    alloc: Global,
    names: &[PathBuf],
    first: usize,
    second: usize,
) -> Result<Vec<u8>, AllocError>
    ensures { IfOk result (λ line. line.items ≡ other_pair_line names.now first second) }
{
    let mut line = Vec::new(alloc);
    line.extend_from_slice(b"refused V4 OtherPair")?;
    push_file(&mut line, names, first)?;
    push_file(&mut line, names, second)?;
    line.push(b'\n')?;
    Ok(line)
}

/// The line that refuses a volume which begins otherwise than the one before it names: in which line first.
fn with_other_head(
    alloc: Global,
    names: &[PathBuf],
    file: usize,
    line: usize,
) -> Result<Vec<u8>, AllocError>
    ensures { IfOk result (λ text. text.items ≡ other_head_line names.now file line) }
{
    let mut text = Vec::new(alloc);
    text.extend_from_slice(b"refused V7 Head")?;
    push_file(&mut text, names, file)?;
    text.push(b' ')?;
    push_number(&mut text, line as u64)?;
    text.push(b'\n')?;
    Ok(text)
}

/// The line of a file by the name of a volume's that can't be read.
fn unread(alloc: Global, names: &[PathBuf], file: usize) -> Result<Vec<u8>, AllocError>
    ensures { IfOk result (λ line. line.items ≡ unread_line names.now file) }
{
    let mut line = Vec::new(alloc);
    line.extend_from_slice(b"fault Path")?;
    push_file(&mut line, names, file)?;
    line.push(b'\n')?;
    Ok(line)
}

/// The line of another fault.
fn faulty(alloc: Global, names: &[PathBuf], error: &FilesError) -> Result<Vec<u8>, AllocError> {
    let mut line = Vec::new(alloc);
    match error {
        FilesError::Changed { file } => {
            line.extend_from_slice(b"fault Changed")?;
            push_file(&mut line, names, *file)?;
        }
        FilesError::Faulty { file, fault } => {
            line.extend_from_slice(b"fault Journal")?;
            push_file(&mut line, names, *file)?;
            let words = format!(in alloc; ": {fault}")?;
            line.extend_from_slice(words.as_bytes())?;
        }
        FilesError::Torn { file, line: number } => {
            line.extend_from_slice(b"fault Journal")?;
            push_file(&mut line, names, *file)?;
            let words = format!(in alloc; ": zero octets stand where line {number} should")?;
            line.extend_from_slice(words.as_bytes())?;
        }
        FilesError::Archive(_)
        | FilesError::OtherPair { .. }
        | FilesError::OtherHead { .. }
        | FilesError::Unread { .. }
        | FilesError::Memory => { line.extend_from_slice(b"fault Memory")? }
    }
    line.push(b'\n')?;
    Ok(line)
}

/// Why files answer nothing, in words: whether their volumes can't be of one pair of servers, or another fault.
/// `AllocError` where a growth was refused.
pub fn failure(
    alloc: Global,
    names: &[PathBuf],
    error: &FilesError,
) -> Result<FilesFailure, AllocError>
    ensures { IfOk result (IsFailure names.now error.now) }
{
    match error {
        FilesError::Archive(ArchiveError::Memory) => {
            Ok(FilesFailure::Fault(faulty(alloc, names, error)?))
        }
        FilesError::Archive(refusal) => {
            Ok(FilesFailure::Refused(refused(alloc, names, refusal)?))
        }
        FilesError::OtherPair { first, second } => {
            let line = of_two_pairs(alloc, names, *first, *second)?;
            Ok(FilesFailure::Refused(line))
        }
        FilesError::OtherHead { file, line } => {
            let line = with_other_head(alloc, names, *file, *line)?;
            Ok(FilesFailure::Refused(line))
        }
        FilesError::Unread { file } => Ok(FilesFailure::Fault(unread(alloc, names, *file)?)),
        FilesError::Changed { .. }
        | FilesError::Faulty { .. }
        | FilesError::Torn { .. }
        | FilesError::Memory => Ok(FilesFailure::Fault(faulty(alloc, names, error)?)),
    }
}
