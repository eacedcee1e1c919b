//! Options, as clap is told of them.

ghost use Rattle.std.specs.Prelude.{◌≡◌, IfOk, codes, false};
ghost use Rattle.clap.specs.Words.{app_of, rule_of, with_rule};
ghost use Rattle.clap.specs.declared.builder.command.Command.TheViews.{out-Command};
ghost use Rattle.desk_args.specs.Words.{option_rule, flag_rule, list_rule, place_rule};
ghost use Rattle.desk_args.specs.Words.{from_files, with_journals, over_journals};

use clap::{Arg, ArgAction, Command as ClapCommand};
use std::alloc::{AllocError, Global};

/// An option with a value.
fn value_option<'a>(alloc: Global, name: &'a str, required: bool) -> Arg<'a>
    ensures rule { rule_of result ≡ option_rule name.entry.now required }
    ensures local { result.global ≡ false }
{
    Arg::new(alloc, name)
        .long(name)
        .required(required)
        .action(ArgAction::Set)
}

/// A command with one option more, which has a value.
pub(crate) fn with_option<'a>(
    alloc: Global,
    command: ClapCommand<'a>,
    name: &'a str,
    required: bool,
) -> Result<ClapCommand<'a>, AllocError>
    ensures app { IfOk result (λ c. app_of c ≡ with_rule (app_of command.entry) (option_rule name.entry.now required)) }
    ensures local { (out-Command command.entry).has_globals ≡ false
        → IfOk result (λ c. (out-Command c).has_globals ≡ false) }
{
    command.arg(value_option(alloc, name, required))
}

/// An option without a value.
fn flag_option<'a>(alloc: Global, name: &'a str) -> Arg<'a>
    ensures rule { rule_of result ≡ flag_rule name.entry.now }
    ensures local { result.global ≡ false }
{
    Arg::new(alloc, name).long(name).action(ArgAction::SetTrue)
}

/// A command with one option more, which has no value.
pub(crate) fn with_flag<'a>(
    alloc: Global,
    command: ClapCommand<'a>,
    name: &'a str,
) -> Result<ClapCommand<'a>, AllocError>
    ensures app { IfOk result (λ c. app_of c ≡ with_rule (app_of command.entry) (flag_rule name.entry.now)) }
    ensures local { (out-Command command.entry).has_globals ≡ false
        → IfOk result (λ c. (out-Command c).has_globals ≡ false) }
{
    command.arg(flag_option(alloc, name))
}

/// A word by its place.
fn place<'a>(alloc: Global, name: &'a str) -> Arg<'a>
    ensures rule { rule_of result ≡ place_rule name.entry.now }
    ensures local { result.global ≡ false }
{
    Arg::new(alloc, name).action(ArgAction::Set)
}

/// A command with one word more, by its place.
pub(crate) fn with_place<'a>(
    alloc: Global,
    command: ClapCommand<'a>,
    name: &'a str,
) -> Result<ClapCommand<'a>, AllocError>
    ensures app { IfOk result (λ c. app_of c ≡ with_rule (app_of command.entry) (place_rule name.entry.now)) }
    ensures local { (out-Command command.entry).has_globals ≡ false
        → IfOk result (λ c. (out-Command c).has_globals ≡ false) }
{
    command.arg(place(alloc, name))
}

/// An option with a value or two, which may be given again.
fn list_option<'a>(alloc: Global, name: &'a str, required: bool) -> Arg<'a>
    ensures rule { rule_of result ≡ list_rule name.entry.now required }
    ensures local { result.global ≡ false }
{
    Arg::new(alloc, name)
        .long(name)
        .required(required)
        .num_args(1..=2)
        .action(ArgAction::Append)
}

/// A command with `[--journals PATH [PATH]].. [--verbose]`.
fn from_files<'a>(
    alloc: Global,
    command: ClapCommand<'a>,
    required: bool,
) -> Result<ClapCommand<'a>, AllocError>
    ensures app { IfOk result (λ c. app_of c ≡ from_files required (app_of command.entry)) }
    ensures local { (out-Command command.entry).has_globals ≡ false
        → IfOk result (λ c. (out-Command c).has_globals ≡ false) }
{
    let command = command.arg(list_option(alloc, "journals", required))?;
    with_flag(alloc, command, "verbose")
}

/// A command with `[--journals PATH [PATH]].. [--verbose]`.
pub(crate) fn with_journals<'a>(
    alloc: Global,
    command: ClapCommand<'a>,
) -> Result<ClapCommand<'a>, AllocError>
    ensures app { IfOk result (λ c. app_of c ≡ with_journals (app_of command.entry)) }
    ensures local { (out-Command command.entry).has_globals ≡ false
        → IfOk result (λ c. (out-Command c).has_globals ≡ false) }
{
    from_files(alloc, command, false)
}

/// A command with `--journals PATH [PATH].. [--verbose]`, of which there is one path at least.
pub(crate) fn over_journals<'a>(
    alloc: Global,
    command: ClapCommand<'a>,
) -> Result<ClapCommand<'a>, AllocError>
    ensures app { IfOk result (λ c. app_of c ≡ over_journals (app_of command.entry)) }
    ensures local { (out-Command command.entry).has_globals ≡ false
        → IfOk result (λ c. (out-Command c).has_globals ≡ false) }
{
    from_files(alloc, command, true)
}
