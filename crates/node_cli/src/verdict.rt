//! What `check` says that settings are worth.

use server_book::OpenError;
use std::fmt;
use std::fmt::Write;

/// What settings are worth.
#[derive(Clone, Copy, Debug)]
pub enum CheckVerdict {
    /// They are fit, and so are the partner's where these are named, with which they go together.
    Fit { units: usize },
    /// They are refused, or can't be read.
    Refused(OpenError),
    /// The partner's are refused, or can't be read.
    PartnerRefused,
    /// By their settings the two don't join.
    Apart,
}

impl CheckVerdict {
    /// The status by which the program says it.
    pub fn status(&self) -> u8 {
        match self {
            CheckVerdict::Fit { .. } => 0,
            CheckVerdict::Refused(_) | CheckVerdict::PartnerRefused | CheckVerdict::Apart => 1,
        }
    }
}

impl fmt::Display for CheckVerdict {
    fn fmt<W: Write>(&self, f: &mut fmt::Formatter<W>) -> fmt::Result {
        match self {
            CheckVerdict::Fit { units } => write!(f, "ok {units}"),
            CheckVerdict::Refused(refusal) => write!(f, "{refusal}"),
            CheckVerdict::PartnerRefused => f.write_str("refused Partner"),
            CheckVerdict::Apart => f.write_str("refused Apart"),
        }
    }
}
