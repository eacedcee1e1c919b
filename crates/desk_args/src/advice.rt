//! Why words order nothing, for a person.

use crate::address_advice::advice_on_address;
use crate::asides::span_given;
use crate::bounds::{skew_given, transit_given};
use crate::command::{holder_given, prefix_given, workers_given};
use crate::copy_args::line_count_given;
use crate::error::UsageError;
use crate::join_args::{side_given, volume_given};
use crate::subcommands::desk_command;
use crate::surroundings::Surroundings;
use crate::texts::{address_text, time_text};
use crate::time_advice::{TimeText, advice_on_time};
use crate::when::{BareNumbers, end_given, numbers_given, when_given};
use crate::who_args::address_given;
use crate::wishes::WISHES;
use clap::ArgMatches;
use std::alloc::{AllocError, Global};

/// What is said where no option is at fault alone.
const TOGETHER: &str = "error: these options don't go together, as desk --help says";

/// An option whose value isn't as wanted.
#[derive(Clone, Copy)]
struct InvalidOption<'a> {
    option: &'static str,
    wish: &'static str,
    value: &'a str,
}

/// Returns whether a value was given.
fn is_given(given: Result<(), UsageError>) -> Result<bool, AllocError> {
    match given {
        Ok(()) => Ok(true),
        Err(UsageError::Usage) => Ok(false),
        Err(UsageError::Memory) => Err(AllocError),
    }
}

/// Returns whether an option of `who` is as wanted.
fn is_fit_for_who(
    alloc: Global,
    option: &str,
    options: &ArgMatches,
    surroundings: &Surroundings,
) -> Result<bool, AllocError> {
    match option {
        "at" => is_given(when_given(alloc, options, surroundings.zone).map(|_| ())),
        "prefix" => is_given(address_given(alloc, options).map(|_| ())),
        "within" => Ok(span_given(options).is_some()),
        _ => Ok(true),
    }
}

/// Returns whether an option of `find` is as wanted.
fn is_fit_for_find(
    alloc: Global,
    option: &str,
    options: &ArgMatches,
    surroundings: &Surroundings,
) -> Result<bool, AllocError> {
    match option {
        "holder" => Ok(holder_given(options).is_some()),
        "prefix" => Ok(prefix_given(options).is_some()),
        "from" | "to" => is_given(end_given(alloc, options, surroundings.zone, option).map(|_| ())),
        _ => Ok(true),
    }
}

/// Returns whether an option of `join` or `copy` is as wanted.
fn is_fit_for_join(option: &str, options: &ArgMatches) -> bool {
    match option {
        "side" => side_given(options).is_some(),
        "from" | "to" => volume_given(options, option).is_some(),
        "lines" => line_count_given(options).is_some(),
        _ => true,
    }
}

/// Returns whether an option of a command is as wanted.
fn is_fit(
    alloc: Global,
    command: &str,
    option: &str,
    options: &ArgMatches,
    surroundings: &Surroundings,
) -> Result<bool, AllocError> {
    match option {
        "skew-ms" => Ok(skew_given(options, surroundings.heads).is_some()),
        "transit-ms" => Ok(transit_given(options, surroundings.heads).is_some()),
        "workers" => Ok(workers_given(options).is_some()),
        _ => match command {
            "who" => is_fit_for_who(alloc, option, options, surroundings),
            "find" => is_fit_for_find(alloc, option, options, surroundings),
            "join" | "copy" => Ok(is_fit_for_join(option, options)),
            _ => Ok(true),
        },
    }
}

/// The text that a command has for an option, by its name or its place.
fn value_of<'a>(command: &str, option: &str, options: &ArgMatches<'a>) -> Option<&'a str> {
    match (command, option) {
        ("who", "prefix") => address_text(options),
        ("who", "at") => time_text(options),
        _ => options.get_str(option),
    }
}

/// The first option of a command whose value isn't as wanted.
fn first_unfit<'a>(
    alloc: Global,
    command: &str,
    options: &ArgMatches<'a>,
    surroundings: &Surroundings,
) -> Result<Option<InvalidOption<'a>>, AllocError> {
    for (option, wish) in WISHES {
        if let Some(value) = value_of(command, option, options) {
            if !is_fit(alloc, command, option, options, surroundings)? {
                return Ok(Some(InvalidOption {
                    option,
                    wish,
                    value,
                }));
            }
        }
    }
    Ok(None)
}

/// What a command lacks, if it lacks an address, a time or a skew.
fn lack_of(
    command: &str,
    options: &ArgMatches,
    surroundings: &Surroundings,
) -> Option<&'static str> {
    if command == "who" && (address_text(options).is_none() || time_text(options).is_none()) {
        return Some(
            "error: who wants one address and one time: desk who --journals DIR DIR 2001:db8::17 \
            2026-11-22T22:17:03+01:00, or --prefix and --at",
        );
    }
    match command {
        "who" | "find" | "audit" | "batch" | "explain" => {}
        _ => return None,
    }
    if options.get_str("skew-ms").is_none() && surroundings.heads.is_none() {
        return Some(
            "error: --skew-ms is missing: give it, or journals by --journals PATH, whose heads say it",
        );
    }
    None
}

/// Returns what is wrong with the value of an option.
fn advice_on_value(
    alloc: Global,
    command: &str,
    options: &ArgMatches,
    surroundings: &Surroundings,
    unfit: &InvalidOption,
) -> Result<String, AllocError> {
    let InvalidOption {
        option,
        wish,
        value,
    } = *unfit;
    let label = format!(in alloc; "--{option}")?;
    let numbers = match command {
        "who" => numbers_given(options),
        _ => BareNumbers::AnyMilliseconds,
    };
    let is_over_files = options.get_str("journals").is_some();
    match (command, option) {
        ("who", "prefix") => advice_on_address(alloc, &label, value, wish),
        ("who", "at") => {
            let asked = TimeText {
                label: &label,
                text: value,
                numbers,
                zone: surroundings.zone,
            };
            advice_on_time(alloc, &asked, wish)
        }
        ("find", "from" | "to") if is_over_files => {
            let asked = TimeText {
                label: &label,
                text: value,
                numbers,
                zone: surroundings.zone,
            };
            advice_on_time(alloc, &asked, wish)
        }
        _ => format!(in alloc; "error: {label} wants {wish}, and has '{value}'"),
    }
}

/// Returns what is wrong with the options of a command.
fn advice_on_options(
    alloc: Global,
    command: &str,
    options: &ArgMatches,
    surroundings: &Surroundings,
) -> Result<String, AllocError> {
    if let Some(lack) = lack_of(command, options, surroundings) {
        return String::from_str(alloc, lack);
    }
    match first_unfit(alloc, command, options, surroundings)? {
        Some(unfit) => advice_on_value(alloc, command, options, surroundings, &unfit),
        None => String::from_str(alloc, TOGETHER),
    }
}

/// Returns what is wrong with words in which clap finds nothing wrong.
fn advice_on_values(
    alloc: Global,
    matches: &ArgMatches,
    surroundings: &Surroundings,
) -> Result<String, AllocError> {
    match matches.subcommand() {
        Some((command, options)) => advice_on_options(alloc, command, options, surroundings),
        None => String::from_str(alloc, TOGETHER),
    }
}

/// Why [`invocation_of`](crate::invocation_of) finds no order in these words, the first of which is the program's name,
/// with what stands around them: a sentence or some lines for standard error, without the last line feed. `AllocError`
/// where a growth was refused.
pub fn advice_of(
    alloc: Global,
    words: &[String],
    surroundings: &Surroundings,
) -> Result<String, AllocError> {
    let command = desk_command(alloc)?;
    match command.try_get_matches_from(words) {
        Ok(matches) => advice_on_values(alloc, &matches, surroundings),
        Err(error) => {
            let text = format!(in alloc; "{error}")?;
            String::from_str(alloc, text.as_str().trim_end())
        }
    }
}
