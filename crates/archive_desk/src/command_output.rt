//! What is told of a question: on standard output, by the status, and on standard error.

ghost use Rattle.std.specs.Prelude.{◌≡◌};
ghost use Rattle.archive_desk.specs.CommandOutputs.{said_of, noted_first};
ghost use Rattle.archive_desk.specs.Telling.{falls_short};

use crate::coverage_gaps::push_moment;
use std::alloc::{AllocError, Global};

/// What is told of a question.
#[derive(Debug, Drop)]
pub struct CommandOutput {
    /// For standard output.
    pub text: Vec<u8>,
    /// 0 where everything was accepted or found, else 1.
    pub status: u8,
    /// For standard error.
    pub notes: Vec<u8>,
}

impl CommandOutput {
    /// This alone is told: on standard error.
    pub fn noting(alloc: Global, notes: Vec<u8>) -> CommandOutput
        ensures { said_of result ≡ noted_first notes.items }
    {
        CommandOutput {
            text: Vec::new(alloc),
            status: 0,
            notes,
        }
    }
}

/// Returns whether two journals that end there end before this moment.
pub(crate) fn falls_short(until: &Option<u64>, end: u64) -> bool
    ensures { result ≡ falls_short until.now end }
{
    match until {
        Some(until) => *until < end,
        None => false,
    }
}

/// The line that says that the two files show less than was asked of, or nothing.
pub(crate) fn reach_line(
    alloc: Global,
    until: &Option<u64>,
    end: u64,
) -> Result<Vec<u8>, AllocError> {
    let mut line = Vec::new(alloc);
    if let Some(until) = until {
        if *until < end {
            line.extend_from_slice(b"lacking Later: these two files show nothing from ")?;
            push_moment(&mut line, *until)?;
            line.extend_from_slice(b" on\n")?;
        }
    }
    Ok(line)
}
