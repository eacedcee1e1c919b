//! Files that are passed over, for a person.

use crate::names::name_of;
use archive_files::{FileContent, SkippedFile};
use desk_args::NoteDetail;
use journal_archive::JournalFault;
use std::alloc::{AllocError, Global};
use std::path::PathBuf;
use text_fields::push_number;

/// Appends why a file is passed over.
fn push_why(alloc: Global, out: &mut Vec<u8>, found: &FileContent) -> Result<(), AllocError> {
    match found {
        FileContent::Volume(_) => out.extend_from_slice(b"it's a journal"),
        FileContent::NoJournal => out.extend_from_slice(b"it's no journal"),
        FileContent::Unwritten => out.extend_from_slice(b"no line is written in it yet"),
        FileContent::Faulty(fault) => push_fault(alloc, out, fault),
        FileContent::Unreadable => out.extend_from_slice(b"it can't be read"),
    }
}

fn push_fault(alloc: Global, out: &mut Vec<u8>, fault: &JournalFault) -> Result<(), AllocError> {
    let words = format!(in alloc; "{fault}")?;
    out.extend_from_slice(words.as_bytes())?;
    Ok(())
}

/// A line that says how many files are passed over.
fn push_count(out: &mut Vec<u8>, count: usize) -> Result<(), AllocError> {
    out.extend_from_slice(b"passed over ")?;
    push_number(out, count as u64)?;
    out.extend_from_slice(b" files that are no volumes: --verbose says which, and why\n")
}

/// A line for each file that is passed over, with its name and why; or in brief one line of several.
pub fn passed_over(
    alloc: Global,
    names: &[PathBuf],
    passed: &[SkippedFile],
    detail: NoteDetail,
) -> Result<Vec<u8>, AllocError> {
    let mut out = Vec::new(alloc);
    if detail == NoteDetail::Brief && passed.len() > 1 {
        push_count(&mut out, passed.len())?;
        return Ok(out);
    }
    for file in passed {
        out.extend_from_slice(b"passed over ")?;
        out.extend_from_slice(name_of(names, file.file).as_bytes())?;
        out.extend_from_slice(b": ")?;
        push_why(alloc, &mut out, &file.found)?;
        out.push(b'\n')?;
    }
    Ok(out)
}
