//! What the words of the command line ask.

ghost use Rattle.std.specs.Prelude.{◌≡◌, IfOk, codes, option_map, string_bytes};
ghost use Rattle.clap.specs.Matches.{first_value, found_of};

use crate::error::ArgsError;
use clap::error::ErrorKind;
use clap::{Arg, ArgAction, ArgMatches, Command as ClapCommand, Error as ClapError};
use client_service::PartnerAvailability;
use server_status::{CLOCK_RIGHT, ControlRequest, PARTNER_STOPPED, ShutdownMode, StatusFormat};
use std::alloc::{AllocError, Global};
use text_fields::number_of;

/// The most datagrams of a run.
const MOST_DATAGRAMS: u32 = 1_000_000;

/// A command of the node.
#[derive(Debug, Drop)]
pub enum NodeCommand {
    /// Say what settings are worth.
    Check(CheckCommand),
    /// Serve some datagrams, and write the journal.
    Run(RunCommand),
    /// Serve a directory until a person says to stop.
    Serve(ServeCommand),
    /// Ask the server of a directory.
    Ask {
        directory: String,
        request: ControlRequest,
    },
}

/// What is checked: the settings of a file, or those on standard input where none is named. Where a file is named that
/// has the partner's, also whether the two go together.
#[derive(Debug, Drop)]
pub struct CheckCommand {
    pub settings: Option<String>,
    pub partner: Option<String>,
}

/// How many datagrams are served, by the settings on standard input.
#[derive(Clone, Copy, Debug, PartialEq, Eq)]
pub struct RunCommand {
    pub count: u32,
    pub partner: PartnerAvailability,
}

/// What is served: a directory, by the settings of a file, or of the directory's own where none is named.
#[derive(Debug, Drop)]
pub struct ServeCommand {
    pub directory: String,
    pub settings: Option<String>,
}

/// A command with one option more.
fn with_option<'a>(
    alloc: Global,
    command: ClapCommand<'a>,
    name: &'a str,
    required: bool,
    action: ArgAction,
) -> Result<ClapCommand<'a>, AllocError> {
    command.arg(
        Arg::new(alloc, name)
            .long(name)
            .required(required)
            .action(action),
    )
}

/// `check [--settings FILE] [--partner FILE]`.
fn check_command<'a>(alloc: Global) -> Result<ClapCommand<'a>, AllocError> {
    let check = with_option(
        alloc,
        ClapCommand::new(alloc, "check"),
        "settings",
        false,
        ArgAction::Set,
    )?;
    with_option(alloc, check, "partner", false, ArgAction::Set)
}

/// `run --count N [--partner-down]`.
fn run_command<'a>(alloc: Global) -> Result<ClapCommand<'a>, AllocError> {
    let run = with_option(
        alloc,
        ClapCommand::new(alloc, "run"),
        "count",
        true,
        ArgAction::Set,
    )?;
    with_option(alloc, run, "partner-down", false, ArgAction::SetTrue)
}

/// A command about a directory: `NAME --dir DIR`.
fn directory_command<'a>(alloc: Global, name: &'a str) -> Result<ClapCommand<'a>, AllocError> {
    with_option(
        alloc,
        ClapCommand::new(alloc, name),
        "dir",
        true,
        ArgAction::Set,
    )
}

/// `serve --dir DIR [--settings FILE]`.
fn serve_command<'a>(alloc: Global) -> Result<ClapCommand<'a>, AllocError> {
    let serve = directory_command(alloc, "serve")?;
    with_option(alloc, serve, "settings", false, ArgAction::Set)
}

/// `status --dir DIR [--json] [--metrics]`.
fn status_command<'a>(alloc: Global) -> Result<ClapCommand<'a>, AllocError> {
    let status = directory_command(alloc, "status")?;
    let status = with_option(alloc, status, "json", false, ArgAction::SetTrue)?;
    with_option(alloc, status, "metrics", false, ArgAction::SetTrue)
}

/// `stop --dir DIR [--close]`.
fn stop_command<'a>(alloc: Global) -> Result<ClapCommand<'a>, AllocError> {
    let stop = directory_command(alloc, "stop")?;
    with_option(alloc, stop, "close", false, ArgAction::SetTrue)
}

/// A command about a directory with words that vouch for something: `NAME --dir DIR WORDS`.
fn vouching_command<'a>(alloc: Global, name: &'a str) -> Result<ClapCommand<'a>, AllocError> {
    let command = directory_command(alloc, name)?;
    command.arg(
        Arg::new(alloc, "words")
            .required(true)
            .action(ArgAction::Set),
    )
}

/// The commands that say what settings are worth or try them, and those about a directory.
pub(crate) fn node_command<'a>(alloc: Global) -> Result<ClapCommand<'a>, AllocError> {
    let check = check_command(alloc)?;
    let run = run_command(alloc)?;
    let serve = serve_command(alloc)?;
    let status = status_command(alloc)?;
    let stop = stop_command(alloc)?;
    let roll = directory_command(alloc, "roll")?;
    let down = vouching_command(alloc, "partner-down")?;
    let normal = directory_command(alloc, "partner-normal")?;
    let accepted = vouching_command(alloc, "clock-accepted")?;
    ClapCommand::new(alloc, "node_cli")
        .subcommand_required(true)
        .disable_help_subcommand(true)
        .subcommand(check)?
        .subcommand(run)?
        .subcommand(serve)?
        .subcommand(status)?
        .subcommand(stop)?
        .subcommand(roll)?
        .subcommand(down)?
        .subcommand(normal)?
        .subcommand(accepted)
}

/// Returns how many datagrams, 1 to 1,000,000, written as numbers are in a journal.
pub(crate) fn count_given(options: &ArgMatches) -> Option<u32> {
    let number = number_of(options.get_str("count")?.as_bytes())?;
    let count = u32::try_from(number).ok()?;
    if count == 0 || count > MOST_DATAGRAMS {
        return None;
    }
    Some(count)
}

fn partner_given(options: &ArgMatches) -> PartnerAvailability {
    if options.get_flag("partner-down") {
        PartnerAvailability::Down
    } else {
        PartnerAvailability::Up
    }
}

/// How a status is to be written; of both forms none.
fn form_given(options: &ArgMatches) -> Option<StatusFormat> {
    match (options.get_flag("json"), options.get_flag("metrics")) {
        (false, false) => Some(StatusFormat::Lines),
        (true, false) => Some(StatusFormat::Json),
        (false, true) => Some(StatusFormat::Metrics),
        (true, true) => None,
    }
}

fn leave_given(options: &ArgMatches) -> ShutdownMode {
    if options.get_flag("close") {
        ShutdownMode::Closed
    } else {
        ShutdownMode::Open
    }
}

/// The words of an option or an argument.
fn text_given(alloc: Global, options: &ArgMatches, name: &str) -> Result<String, ArgsError> {
    match options.get_str(name) {
        Some(words) => Ok(String::from_str(alloc, words)?),
        None => Err(ArgsError::Usage),
    }
}

/// The file that an option names, where it is given.
fn file_given(alloc: Global, options: &ArgMatches, name: &str) -> Result<Option<String>, AllocError>
    ensures { IfOk result (λ file. option_map string_bytes file ≡ first_value (found_of options.now) name.now) }
{
    match options.get_str(name) {
        Some(file) => Ok(Some(String::from_str(alloc, file)?)),
        None => Ok(None),
    }
}

/// What is checked.
fn checked_given(alloc: Global, options: &ArgMatches) -> Result<CheckCommand, AllocError>
    ensures settings { IfOk result (λ check. option_map string_bytes check.settings
        ≡ first_value (found_of options.now) (codes "settings")) }
    ensures partner { IfOk result (λ check. option_map string_bytes check.partner
        ≡ first_value (found_of options.now) (codes "partner")) }
{
    Ok(CheckCommand {
        settings: file_given(alloc, options, "settings")?,
        partner: file_given(alloc, options, "partner")?,
    })
}

/// What is served.
fn served_given(alloc: Global, options: &ArgMatches) -> Result<ServeCommand, ArgsError> {
    Ok(ServeCommand {
        directory: text_given(alloc, options, "dir")?,
        settings: file_given(alloc, options, "settings")?,
    })
}

/// What is asked of a server by a command of this name.
fn request_given(name: &str, options: &ArgMatches) -> Result<ControlRequest, ArgsError> {
    match name {
        "status" => match form_given(options) {
            Some(form) => Ok(ControlRequest::Status(form)),
            None => Err(ArgsError::Usage),
        },
        "stop" => Ok(ControlRequest::Stop(leave_given(options))),
        "roll" => Ok(ControlRequest::Roll),
        "partner-down" if options.get_str("words") == Some(PARTNER_STOPPED) => {
            Ok(ControlRequest::PartnerDown)
        }
        "partner-down" => Err(ArgsError::NotVouched),
        "partner-normal" => Ok(ControlRequest::PartnerNormal),
        "clock-accepted" if options.get_str("words") == Some(CLOCK_RIGHT) => {
            Ok(ControlRequest::AcceptClock)
        }
        "clock-accepted" => Err(ArgsError::ClockNotVouched),
        _ => Err(ArgsError::Usage),
    }
}

fn command_in(alloc: Global, matches: &ArgMatches) -> Result<NodeCommand, ArgsError> {
    let Some((name, options)) = matches.subcommand() else {
        return Err(ArgsError::Usage);
    };
    match name {
        "check" => Ok(NodeCommand::Check(checked_given(alloc, options)?)),
        "run" => match count_given(options) {
            Some(count) => Ok(NodeCommand::Run(RunCommand {
                count,
                partner: partner_given(options),
            })),
            None => Err(ArgsError::Usage),
        },
        "serve" => Ok(NodeCommand::Serve(served_given(alloc, options)?)),
        _ => Ok(NodeCommand::Ask {
            request: request_given(name, options)?,
            directory: text_given(alloc, options, "dir")?,
        }),
    }
}

fn usage_error(error: ClapError) -> ArgsError {
    if error.kind() == ErrorKind::OutOfMemory {
        ArgsError::Memory
    } else {
        ArgsError::Usage
    }
}

/// The command that the words give, the first of which is the program's name.
pub fn command_of(alloc: Global, words: &[String]) -> Result<NodeCommand, ArgsError> {
    match node_command(alloc)?.try_get_matches_from(words) {
        Ok(matches) => command_in(alloc, &matches),
        Err(error) => Err(usage_error(error)),
    }
}
