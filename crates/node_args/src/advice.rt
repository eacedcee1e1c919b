//! Why words are no command, for a person.

use crate::command::{count_given, node_command};
use clap::ArgMatches;
use std::alloc::{AllocError, Global};

/// Returns what is wrong with words in which clap finds nothing wrong.
fn advice_on_values(alloc: Global, matches: &ArgMatches) -> Result<String, AllocError> {
    if let Some(("run", options)) = matches.subcommand() {
        if let (None, Some(value)) = (count_given(options), options.get_str("count")) {
            return format!(in alloc;
                "error: --count wants a whole number, 1 to 1000000, and has '{value}'"
            );
        }
    }
    String::from_str(
        alloc,
        "error: these options don't go together, as node --help says",
    )
}

/// Why [`command_of`](crate::command_of) finds no command in these words, the first of which is the program's name: a
/// sentence or some lines for standard error, without the last line feed. `AllocError` where a growth was refused.
pub fn advice_of(alloc: Global, words: &[String]) -> Result<String, AllocError> {
    let command = node_command(alloc)?;
    match command.try_get_matches_from(words) {
        Ok(matches) => advice_on_values(alloc, &matches),
        Err(error) => {
            let text = format!(in alloc; "{error}")?;
            String::from_str(alloc, text.as_str().trim_end())
        }
    }
}
