//! What the words say beside the question.

ghost use Rattle.std.specs.Prelude.{◌≡◌, ◌↔◌, ℕ, IsTrue, IfOk, IfSome, IsErrOf, Some, None, codes};
ghost use Rattle.clap.specs.Words.{rows_of, found_of};
ghost use Rattle.desk_args.specs.declared.asides.MomentSpan.{MomentSpan as SpanValue};
ghost use Rattle.desk_args.specs.Asides.{IsNoted, IsWithin, IsSpan, IsDetail};

use crate::command::number_in;
use crate::error::UsageError;
use crate::texts::{address_text, is_set, text_given};
use crate::who_args::address_in;
use clap::ArgMatches;
use report_addresses::AddressNote;
use std::alloc::Global;

/// The most seconds on each side of a moment: a day.
const MOST_SECONDS: u64 = 86_400;

/// For which moments round the one asked of an answer must hold too.
#[derive(Clone, Copy, Debug, PartialEq, Eq)]
pub enum MomentSpan {
    /// None.
    Alone,
    /// All from so many seconds before it to as many after it.
    Within(u64),
    /// All from it to a minute after it.
    Minute,
}

/// How much is said of files that are passed over.
#[derive(Clone, Copy, Debug, PartialEq, Eq)]
pub enum NoteDetail {
    /// How many there are.
    Brief,
    /// Why, of each.
    EachFile,
}

/// What of the address of `who` was passed over. `Memory` where a growth was refused.
pub(crate) fn note_given(
    alloc: Global,
    name: &str,
    options: &ArgMatches,
) -> Result<AddressNote, UsageError>
    ensures given { IfOk result (IsNoted (name.now, rows_of (found_of options.now))) }
    ensures refused { IsErrOf result UsageError.Usage → ⊥ }
{
    if name != "who" {
        return Ok(AddressNote::Nothing);
    }
    match address_in(alloc, address_text(options)) {
        Ok(address) => Ok(address.note),
        Err(UsageError::Usage) => Ok(AddressNote::Nothing),
        Err(UsageError::Memory) => Err(UsageError::Memory),
    }
}

fn within_in(text: &str) -> Option<u64>
    ensures given { IfSome result (IsWithin (Some text.now)) }
    ensures none { result ≡ None → (seconds : ℕ) → IsWithin (Some text.now) seconds → ⊥ }
{
    let seconds = number_in(text, MOST_SECONDS)?;
    if seconds == 0 {
        return None;
    }
    Some(seconds)
}

/// `--within S`, `--minute`, or none of them. `None` where both stand, or S is no number of seconds.
pub(crate) fn span_given(options: &ArgMatches) -> Option<MomentSpan>
    ensures given { IfSome result (IsSpan (rows_of (found_of options.now))) }
    ensures none { result ≡ None → (span : SpanValue) → IsSpan (rows_of (found_of options.now)) span → ⊥ }
{
    match (text_given(options, "within"), is_set(options, "minute")) {
        (None, false) => Some(MomentSpan::Alone),
        (None, true) => Some(MomentSpan::Minute),
        (Some(text), false) => Some(MomentSpan::Within(within_in(text)?)),
        (Some(_), true) => None,
    }
}

/// `--verbose`, or nothing of it.
pub(crate) fn detail_given(options: &ArgMatches) -> NoteDetail
    ensures { IsDetail (rows_of (found_of options.now)) result }
{
    if is_set(options, "verbose") {
        NoteDetail::EachFile
    } else {
        NoteDetail::Brief
    }
}
