//! How much a line of the log matters.

use std::fmt;
use std::fmt::Write;

/// How much a line matters.
#[derive(Clone, Copy, Debug, PartialEq, Eq)]
pub enum Level {
    Error,
    Warning,
    Notice,
}

impl fmt::Display for Level {
    /// The number that syslog has for it, as journald reads it at the front of a line.
    fn fmt<W: Write>(&self, f: &mut fmt::Formatter<W>) -> fmt::Result {
        f.write_str(match self {
            Level::Error => "<3>",
            Level::Warning => "<4>",
            Level::Notice => "<6>",
        })
    }
}
