//! What is told of volumes that are put together.

ghost use Rattle.std.specs.Prelude.{◌≡◌, ◌++◌, take, IfOk, OnOk};
ghost use Rattle.archive_desk.specs.Failing.{file_word};
ghost use Rattle.join_desk.specs.Telling.{file_words, taken_line, IsOutcomeTold};

use crate::outcome::JoinOutcome;
use crate::text::text_of;
use archive_desk::{CommandOutput, name_of};
use joined_rulings::refusal_told;
use journal_archive::FiledVolume;
use std::alloc::{AllocError, Global};
use std::path::PathBuf;

/// Appends a blank and the name of a file.
fn push_file(out: &mut Vec<u8>, names: &[PathBuf], file: usize) -> Result<(), AllocError>
    ensures { OnOk result (out.new.items ≡ out.old.items ++ file_word names.now file) }
{
    out.push(b' ')?;
    out.extend_from_slice(name_of(names, file).as_bytes())?;
    Ok(())
}

/// Appends the names of the volumes' files, each behind a blank.
fn push_files(out: &mut Vec<u8>, names: &[PathBuf], taken: &[FiledVolume]) -> Result<(), AllocError>
    ensures { OnOk result (out.new.items ≡ out.old.items ++ file_words names.now taken.now) }
{
    for volume in taken {
        push_file(out, names, volume.file)?;
    }
    Ok(())
}

/// Appends the line that says of which files the journal is.
fn push_taken(out: &mut Vec<u8>, names: &[PathBuf], taken: &[FiledVolume]) -> Result<(), AllocError>
    ensures { OnOk result (out.new.items ≡ out.old.items ++ taken_line names.now taken.now) }
{
    out.extend_from_slice(b"journals")?;
    push_files(out, names, taken)?;
    out.push(b'\n')?;
    Ok(())
}

/// The first so many volumes, or all where there are fewer.
#[tactic(auto, using(crate::proofs::Rows::take_whole))]
fn first_of(chosen: &[FiledVolume], count: usize) -> &[FiledVolume]
    ensures { result.now ≡ take count chosen.now }
{
    if count < chosen.len() {
        &chosen[..count]
    } else {
        chosen
    }
}

/// What is told of what comes of chosen volumes, behind the files that are passed over.
pub(crate) fn outcome_told(
    alloc: Global,
    names: &[PathBuf],
    passed: Vec<u8>,
    chosen: &[FiledVolume],
    outcome: &JoinOutcome,
) -> Result<CommandOutput, AllocError>
    ensures { IfOk result (IsOutcomeTold names.now passed.items chosen.now outcome.now) }
{
    match outcome {
        JoinOutcome::Joined(journal, count) => {
            let text = text_of(alloc, journal)?;
            let mut notes = passed;
            push_taken(&mut notes, names, first_of(chosen, *count))?;
            Ok(CommandOutput {
                text,
                status: 0,
                notes,
            })
        }
        JoinOutcome::Refused(refusal) => refusal_told(alloc, names, refusal),
    }
}
