//! Why no journals are shown by given volumes, as it's told.

ghost use Rattle.std.specs.Prelude.{◌≡◌, ◌++◌, IfOk, OnOk};
ghost use Rattle.archive_desk.specs.Failing.{file_word, IsRefusal};
ghost use Rattle.joined_rulings.specs.Lacks.{lack_front, no_volume_words, missing_words, no_volume_line, missing_line};
ghost use Rattle.joined_rulings.specs.Lacks.{number_word, refusal_words, refusal_line, IsNoneTold, IsLackTold};

use archive_desk::{CommandOutput, name_of};
use binding_rules::Role;
use std::alloc::{AllocError, Global};
use std::path::PathBuf;
use text_fields::push_number;
use volume_spans::JoinRefusal;

/// Appends a blank and the name of a file.
fn push_file(out: &mut Vec<u8>, names: &[PathBuf], file: usize) -> Result<(), AllocError>
    ensures { OnOk result (out.new.items ≡ out.old.items ++ file_word names.now file) }
{
    out.push(b' ')?;
    out.extend_from_slice(name_of(names, file).as_bytes())?;
    Ok(())
}

/// Appends a blank and a number.
fn push_word(out: &mut Vec<u8>, number: u64) -> Result<(), AllocError>
    ensures { OnOk result (out.new.items ≡ out.old.items ++ number_word number) }
{
    out.push(b' ')?;
    push_number(out, number)
}

/// What a line begins with that says what a side lacks.
pub fn lack_words(side: Role) -> &'static [u8]
    ensures { result.now ≡ lack_front side }
{
    match side {
        Role::Primary => b"lacking A ",
        Role::Secondary => b"lacking B ",
    }
}

/// That a side has no volume, behind its name.
fn no_volume_words() -> &'static [u8]
    ensures { result.now ≡ no_volume_words }
{
    b"NoVolume: no file is a journal of this side\n"
}

/// That the volume of a number is missing, before that number.
fn missing_words() -> &'static [u8]
    ensures { result.now ≡ missing_words }
{
    b"Missing: no file has volume "
}

/// Appends that the side has no volume.
fn push_no_volume(out: &mut Vec<u8>, side: Role) -> Result<(), AllocError>
    ensures { OnOk result (out.new.items ≡ out.old.items ++ no_volume_line side) }
{
    out.extend_from_slice(lack_words(side))?;
    out.extend_from_slice(no_volume_words())?;
    Ok(())
}

/// Appends that the volume of this number is missing.
fn push_missing(out: &mut Vec<u8>, side: Role, number: u32) -> Result<(), AllocError>
    ensures { OnOk result (out.new.items ≡ out.old.items ++ missing_line side number) }
{
    out.extend_from_slice(lack_words(side))?;
    out.extend_from_slice(missing_words())?;
    push_number(out, u64::from(number))?;
    out.push(b'\n')?;
    Ok(())
}

/// Appends why the volumes of files aren't one journal.
fn push_refusal(
    out: &mut Vec<u8>,
    names: &[PathBuf],
    refusal: &JoinRefusal,
) -> Result<(), AllocError>
    ensures { OnOk result (out.new.items ≡ out.old.items ++ refusal_words names.now refusal.now) }
{
    match refusal {
        JoinRefusal::NotClosed { file } => {
            out.extend_from_slice(b"refused V5 NotClosed")?;
            push_file(out, names, *file)
        }
        JoinRefusal::Rule { file, line, rule } => {
            out.extend_from_slice(b"refused V6 Rule")?;
            push_file(out, names, *file)?;
            push_word(out, u64::from(*line))?;
            push_word(out, u64::from(rule.number()))
        }
        JoinRefusal::Head { file, line } => {
            out.extend_from_slice(b"refused V7 Head")?;
            push_file(out, names, *file)?;
            push_word(out, *line as u64)
        }
        JoinRefusal::TooLong { file } => {
            out.extend_from_slice(b"refused V8 TooLong")?;
            push_file(out, names, *file)
        }
    }
}

/// What is told where nothing can be given, with these notes.
pub fn none_told(alloc: Global, notes: Vec<u8>) -> Result<CommandOutput, AllocError>
    ensures { IfOk result (IsNoneTold notes.items) }
{
    let mut text = Vec::new(alloc);
    text.extend_from_slice(b"none\n")?;
    Ok(CommandOutput {
        text,
        status: 1,
        notes,
    })
}

/// What is told where the side has no volume.
pub fn no_volume_told(
    alloc: Global,
    passed: Vec<u8>,
    side: Role,
) -> Result<CommandOutput, AllocError>
    ensures { IfOk result (IsLackTold passed.items (no_volume_line side)) }
{
    let mut notes = passed;
    push_no_volume(&mut notes, side)?;
    none_told(alloc, notes)
}

/// What is told where the volume of this number is missing.
pub fn missing_told(
    alloc: Global,
    passed: Vec<u8>,
    side: Role,
    number: u32,
) -> Result<CommandOutput, AllocError>
    ensures { IfOk result (IsLackTold passed.items (missing_line side number)) }
{
    let mut notes = passed;
    push_missing(&mut notes, side, number)?;
    none_told(alloc, notes)
}

/// What is told where volumes aren't one journal: standard output says why, and nothing else is said.
pub fn refusal_told(
    alloc: Global,
    names: &[PathBuf],
    refusal: &JoinRefusal,
) -> Result<CommandOutput, AllocError>
    ensures { IfOk result (IsRefusal (refusal_line names.now refusal.now)) }
{
    let mut text = Vec::new(alloc);
    push_refusal(&mut text, names, refusal)?;
    text.push(b'\n')?;
    Ok(CommandOutput {
        text,
        status: 1,
        notes: Vec::new(alloc),
    })
}
