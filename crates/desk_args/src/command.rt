//! Command words, as clap finds them.

ghost use Rattle.std.specs.Prelude.{◌≡◌, ◌≢◌, ℕ, List, codes, IfOk, IfSome, IsErrOf, Some, None};
ghost use Rattle.clap.specs.Words.{first_of, rows_of, found_of};
ghost use Rattle.desk_args.specs.Surrounding.{around};
ghost use Rattle.desk_args.specs.Given.{IsNumber, IsWorkers, IsGiven, IsNoCommand};
ghost use Rattle.desk_args.specs.Given.{IsHolder, IsPrefixText, IsQuery};
ghost use Rattle.prefix_range.specs.Prefix.{Prefix as PrefixValue};
ghost use Rattle.plain_search.specs.declared.query.Query.{Query as QueryValue};

use crate::bounds::{skew_given, transit_given};
use crate::error::UsageError;
use crate::settings::{SettingsCheck, settings_given};
use crate::surroundings::Surroundings;
use crate::when::end_given;
use crate::who_args::holder_query_given;
use crate::workers::Workers;
use clap::ArgMatches;
use client_id::Duid;
use lead_time::{Skew, Transit};
use plain_search::{HolderQuery, Query};
use prefix_range::{Prefix, read_text};
use std::alloc::Global;
use text_fields::number_of;

/// A command of the desk.
#[derive(Clone, Copy, Debug, PartialEq, Eq)]
pub enum Command {
    /// Judge one certificate over two journals, with clocks within this skew of true time and answers that reach
    /// their clients within this transit.
    Audit {
        skew: Skew,
        transit: Transit,
    },
    /// Judge any number of certificates over two journals in the same way, by this many workers.
    Batch {
        skew: Skew,
        transit: Transit,
        workers: Workers,
    },
    /// Print the lines of two journals in one order.
    Timeline,
    /// Print the least skew with which two journals could have been written.
    Clocks,
    /// Print a certificate over two journals that shows what is asked.
    Find(Query),
    /// Print which client held a prefix at a moment, when, and a certificate over two journals that shows it.
    Who(HolderQuery, SettingsCheck),
}

/// The number that a text is, written as in a journal, of at most so much.
pub(crate) fn number_in(text: &str, most: u64) -> Option<u64>
    ensures given { IfSome result (IsNumber most (Some text.now)) }
    ensures none { result ≡ None → (n : ℕ) → IsNumber most (Some text.now) n → ⊥ }
{
    let number = number_of(text.as_bytes())?;
    if number > most {
        return None;
    }
    Some(number)
}

/// The number that an option has, of at most so much.
pub(crate) fn number_given(options: &ArgMatches, name: &str, most: u64) -> Option<u64>
    ensures given { IfSome result (IsNumber most (first_of name.now (rows_of (found_of options.now)))) }
    ensures none { result ≡ None → (n : ℕ) → IsNumber most (first_of name.now (rows_of (found_of options.now))) n → ⊥ }
{
    number_in(options.get_str(name)?, most)
}

/// Returns how many workers, 1 to 64.
pub(crate) fn workers_given(options: &ArgMatches) -> Option<Workers>
    ensures given { IfSome result (IsWorkers (first_of (codes "workers") (rows_of (found_of options.now)))) }
    ensures none { result ≡ None
        → (workers : ℕ) → IsWorkers (first_of (codes "workers") (rows_of (found_of options.now))) workers → ⊥ }
{
    let count = number_given(options, "workers", Workers::MAX)?;
    Workers::new(count)
}

fn holder_in(text: &str) -> Option<Duid>
    ensures given { IfSome result (IsHolder (Some text.now)) }
    ensures none { result ≡ None → (holder : List ℕ) → IsHolder (Some text.now) holder → ⊥ }
{
    match Duid::from_hex(text.as_bytes()) {
        Ok(holder) => Some(holder),
        Err(_) => None,
    }
}

/// The client, in hexadecimal digits.
pub(crate) fn holder_given(options: &ArgMatches) -> Option<Duid>
    ensures given { IfSome result (IsHolder (first_of (codes "holder") (rows_of (found_of options.now)))) }
    ensures none { result ≡ None
        → (holder : List ℕ) → IsHolder (first_of (codes "holder") (rows_of (found_of options.now))) holder → ⊥ }
{
    holder_in(options.get_str("holder")?)
}

pub(crate) fn prefix_in(text: &str) -> Option<Prefix>
    ensures given { IfSome result (IsPrefixText (Some text.now)) }
    ensures none { result ≡ None → (p : PrefixValue) → IsPrefixText (Some text.now) p → ⊥ }
{
    match read_text(text.as_bytes()) {
        Ok(prefix) => Some(prefix),
        Err(_) => None,
    }
}

/// The prefix.
pub(crate) fn prefix_given(options: &ArgMatches) -> Option<Prefix>
    ensures given { IfSome result (IsPrefixText (first_of (codes "prefix") (rows_of (found_of options.now)))) }
    ensures none { result ≡ None
        → (p : PrefixValue) → IsPrefixText (first_of (codes "prefix") (rows_of (found_of options.now))) p → ⊥ }
{
    prefix_in(options.get_str("prefix")?)
}

/// Returns what is asked of a search.
fn query_given(
    alloc: Global,
    options: &ArgMatches,
    surroundings: &Surroundings,
) -> Result<Query, UsageError>
    ensures given { IfOk result (IsQuery (around surroundings.now) (rows_of (found_of options.now))) }
    ensures refused { IsErrOf result UsageError.Usage → (query : QueryValue)
        → IsQuery (around surroundings.now) (rows_of (found_of options.now)) query → ⊥ }
{
    let skew = skew_given(options, surroundings.heads).ok_or(UsageError::Usage)?;
    let transit = transit_given(options, surroundings.heads).ok_or(UsageError::Usage)?;
    let holder = holder_given(options).ok_or(UsageError::Usage)?;
    let prefix = prefix_given(options).ok_or(UsageError::Usage)?;
    let from = end_given(alloc, options, surroundings.zone, "from")?;
    let to = end_given(alloc, options, surroundings.zone, "to")?;
    Ok(Query {
        holder,
        prefix,
        from,
        to,
        skew,
        transit,
    })
}

/// The command of this name with these options, but `who` and `find`.
fn command_named(name: &str, options: &ArgMatches, surroundings: &Surroundings) -> Option<Command>
    requires who { name.now ≢ codes "who" }
    requires find { name.now ≢ codes "find" }
    ensures given { IfSome result (IsGiven (around surroundings.now) (Some (name.now, rows_of (found_of options.now)))) }
    ensures none { result ≡ None
        → IsNoCommand (around surroundings.now) (Some (name.now, rows_of (found_of options.now))) }
{
    if name == "audit" {
        let skew = skew_given(options, surroundings.heads)?;
        let transit = transit_given(options, surroundings.heads)?;
        Some(Command::Audit { skew, transit })
    } else if name == "batch" {
        let skew = skew_given(options, surroundings.heads)?;
        let transit = transit_given(options, surroundings.heads)?;
        let workers = workers_given(options)?;
        Some(Command::Batch {
            skew,
            transit,
            workers,
        })
    } else if name == "timeline" {
        Some(Command::Timeline)
    } else if name == "clocks" {
        Some(Command::Clocks)
    } else {
        None
    }
}

/// `who`.
fn held(
    alloc: Global,
    options: &ArgMatches,
    surroundings: &Surroundings,
) -> Result<Command, UsageError>
    ensures given { IfOk result
        (IsGiven (around surroundings.now) (Some (codes "who", rows_of (found_of options.now)))) }
    ensures refused { IsErrOf result UsageError.Usage
        → IsNoCommand (around surroundings.now) (Some (codes "who", rows_of (found_of options.now))) }
{
    match holder_query_given(alloc, options, surroundings) {
        Ok(query) => Ok(Command::Who(query, settings_given(options))),
        Err(error) => Err(error),
    }
}

/// `find`.
fn found(
    alloc: Global,
    options: &ArgMatches,
    surroundings: &Surroundings,
) -> Result<Command, UsageError>
    ensures given { IfOk result
        (IsGiven (around surroundings.now) (Some (codes "find", rows_of (found_of options.now)))) }
    ensures refused { IsErrOf result UsageError.Usage
        → IsNoCommand (around surroundings.now) (Some (codes "find", rows_of (found_of options.now))) }
{
    let query = query_given(alloc, options, surroundings)?;
    Ok(Command::Find(query))
}

/// The command of this name with these options: `Usage` where there is none, or a value is no value; `Memory` where a
/// growth was refused.
pub(crate) fn command_given(
    alloc: Global,
    name: &str,
    options: &ArgMatches,
    surroundings: &Surroundings,
) -> Result<Command, UsageError>
    ensures given { IfOk result
        (IsGiven (around surroundings.now) (Some (name.now, rows_of (found_of options.now)))) }
    ensures refused { IsErrOf result UsageError.Usage
        → IsNoCommand (around surroundings.now) (Some (name.now, rows_of (found_of options.now))) }
{
    if name == "who" {
        return held(alloc, options, surroundings);
    }
    if name == "find" {
        return found(alloc, options, surroundings);
    }
    command_named(name, options, surroundings).ok_or(UsageError::Usage)
}
