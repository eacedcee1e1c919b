//! What the words of a command line order.

ghost use Rattle.std.specs.Prelude.{◌≡◌, [], IfOk, IsErrOf, map, string_bytes, true};
ghost use Rattle.clap.specs.Words.{subcommand_of, subcommand_rows_of, takes, fault_of, kind_of, rows_of, found_of};
ghost use Rattle.desk_args.specs.Words.{desk};
ghost use Rattle.desk_args.specs.Surrounding.{around};
ghost use Rattle.desk_args.specs.Orders.{IsOrder, IsOrdered, IsNoOrder};
ghost use Rattle.desk_args.specs.declared.orders.Invocation.{Invocation as InvocationValue};

use crate::asides::{MomentSpan, NoteDetail, detail_given, note_given, span_given};
use crate::error::UsageError;
use crate::request::DeskRequest;
use crate::requests::request_given;
use crate::sources::{InputSource, source_given};
use crate::subcommands::desk_command;
use crate::surroundings::Surroundings;
use crate::texts::text_given;
use clap::error::ErrorKind;
use clap::{ArgMatches, Error as ClapError};
use report_addresses::AddressNote;
use std::alloc::Global;

/// What is asked, where its texts come from, and what stands beside it.
#[derive(Debug, Drop)]
pub struct Invocation<'a> {
    pub request: DeskRequest<'a>,
    pub source: InputSource<'a>,
    /// What of the address of `who` was passed over.
    pub address: AddressNote,
    /// For which moments round the one asked of the answer of `who` must hold too.
    pub span: MomentSpan,
    /// How much is said of files that are passed over.
    pub detail: NoteDetail,
    /// The volumes over which certificates are judged, as they were given: `A40-48,B39-47`.
    pub volumes: Option<&'a str>,
}

pub(crate) fn usage_error(error: ClapError) -> UsageError
    ensures { kind_of error ≡ ErrorKind.OutOfMemory → result ≡ UsageError.Memory }
{
    if error.kind() == ErrorKind::OutOfMemory {
        UsageError::Memory
    } else {
        UsageError::Usage
    }
}

/// The order of a command with these options: `Usage` where a value is no value, `Memory` where a growth was refused.
fn order_given<'a>(
    alloc: Global,
    name: &str,
    options: &ArgMatches<'a>,
    surroundings: &Surroundings,
) -> Result<Invocation<'a>, UsageError>
    ensures given { IfOk result (IsOrder (around surroundings.now) (name.now, rows_of (found_of options.now))) }
    ensures refused { IsErrOf result UsageError.Usage → (order : InvocationValue)
        → IsOrder (around surroundings.now) (name.now, rows_of (found_of options.now)) order → ⊥ }
{
    let request = match request_given(alloc, name, options, surroundings) {
        Ok(request) => request,
        Err(error) => return Err(error),
    };
    let source = source_given(alloc, name, options)?;
    let address = note_given(alloc, name, options)?;
    let span = span_given(options).ok_or(UsageError::Usage)?;
    Ok(Invocation {
        request,
        source,
        address,
        span,
        detail: detail_given(options),
        volumes: text_given(options, "volumes"),
    })
}

/// The order in what clap found: `Usage` where a value is no value, `Memory` where a growth was refused.
fn order_found<'a>(
    alloc: Global,
    matches: &ArgMatches<'a>,
    surroundings: &Surroundings,
) -> Result<Invocation<'a>, UsageError>
    ensures given { IfOk result (IsOrdered (around surroundings.now) (subcommand_rows_of matches.now)) }
    ensures refused { IsErrOf result UsageError.Usage
        → IsNoOrder (around surroundings.now) (subcommand_rows_of matches.now) }
{
    match matches.subcommand() {
        Some((name, options)) => order_given(alloc, name, options, surroundings),
        None => Err(UsageError::Usage),
    }
}

/// The order that the words give, the first of which is the program's name, with what stands around them: `Usage` where
/// clap finds none in them or a value is no value, `Memory` where a growth was refused.
pub fn invocation_of<'a>(
    alloc: Global,
    words: &'a [String],
    surroundings: &Surroundings,
) -> Result<Invocation<'a>, UsageError>
    ensures given { IfOk result
        (IsOrdered (around surroundings.now) (subcommand_of desk (map string_bytes words.now))) }
    // clap finds nothing wrong: no word too many, no option twice
    ensures accepted { IfOk result (λ _. fault_of desk (map string_bytes words.now) ≡ []) }
    ensures refused { IsErrOf result UsageError.Usage → takes desk (map string_bytes words.now) ≡ true
        → IsNoOrder (around surroundings.now) (subcommand_of desk (map string_bytes words.now)) }
{
    let Ok(command) = desk_command(alloc) else {
        return Err(UsageError::Memory);
    };
    match command.try_get_matches_from(words) {
        Ok(matches) => order_found(alloc, &matches, surroundings),
        Err(error) => Err(usage_error(error)),
    }
}
