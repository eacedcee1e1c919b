//! What the words name that has to be read before they are judged.

ghost use Rattle.std.specs.Prelude.{◌≡◌, ◌↔◌, ◌≢◌, IsTrue, IfOk, None, codes, map, string_bytes};
ghost use Rattle.clap.specs.Words.{subcommand_of, subcommand_rows_of, first_of, rows_of, found_of};
ghost use Rattle.desk_args.specs.Words.{desk};
ghost use Rattle.desk_args.specs.Outlines.{IsBounded, AreBoundsFrom, IsOutline, IsOutlined};

use crate::error::UsageError;
use crate::orders::usage_error;
use crate::sources::{InputSource, source_given};
use crate::subcommands::desk_command;
use crate::texts::{is_some, text_given};
use clap::ArgMatches;
use std::alloc::Global;

/// What says the bounds on clocks and answers.
#[derive(Clone, Copy, Debug, PartialEq, Eq)]
pub enum BoundsSource {
    /// The words, where there are any.
    Words,
    /// The heads of the journals, where the words don't.
    Heads,
}

/// What the words name that has to be read before they are judged.
#[derive(Debug, Drop)]
pub struct Outline<'a> {
    /// The name of a time zone.
    pub zone: Option<&'a str>,
    pub source: InputSource<'a>,
    pub bounds: BoundsSource,
}

/// Returns whether the command of this name believes clocks as far as said.
fn is_bounded(name: &str) -> bool
    ensures { IsTrue result ↔ IsBounded name.now }
{
    name == "who" || name == "find" || name == "audit" || name == "batch" || name == "explain"
}

/// Returns whether an option is given.
fn is_given(options: &ArgMatches, name: &str) -> bool
    ensures { IsTrue result ↔ (first_of name.now (rows_of (found_of options.now)) ≢ None) }
{
    is_some(text_given(options, name))
}

/// What says the bounds of a command with these options.
fn bounds_from(name: &str, options: &ArgMatches) -> BoundsSource
    ensures { AreBoundsFrom (name.now, rows_of (found_of options.now)) result }
{
    if is_bounded(name) && is_given(options, "journals") && !is_given(options, "skew-ms") {
        BoundsSource::Heads
    } else {
        BoundsSource::Words
    }
}

/// The outline of a command with these options: `Usage` where its paths are those of no question, `Memory` where a
/// growth was refused.
fn outline_given<'a>(
    alloc: Global,
    name: &str,
    options: &ArgMatches<'a>,
) -> Result<Outline<'a>, UsageError>
    ensures { IfOk result (IsOutline (name.now, rows_of (found_of options.now))) }
{
    let source = source_given(alloc, name, options)?;
    Ok(Outline {
        zone: text_given(options, "zone"),
        source,
        bounds: bounds_from(name, options),
    })
}

fn outline_found<'a>(alloc: Global, matches: &ArgMatches<'a>) -> Result<Outline<'a>, UsageError>
    ensures { IfOk result (IsOutlined (subcommand_rows_of matches.now)) }
{
    match matches.subcommand() {
        Some((name, options)) => outline_given(alloc, name, options),
        None => Err(UsageError::Usage),
    }
}

/// What the words name that has to be read before they are judged: `Usage` where clap finds no command in them or their
/// paths are those of no question, `Memory` where a growth was refused.
pub fn outline_of<'a>(alloc: Global, words: &'a [String]) -> Result<Outline<'a>, UsageError>
    ensures { IfOk result (IsOutlined (subcommand_of desk (map string_bytes words.now))) }
{
    let Ok(command) = desk_command(alloc) else {
        return Err(UsageError::Memory);
    };
    match command.try_get_matches_from(words) {
        Ok(matches) => outline_found(alloc, &matches),
        Err(error) => Err(usage_error(error)),
    }
}
