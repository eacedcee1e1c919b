//! That a server refused its partner, and why.

use lead_time::Reading;
use std::fmt;
use std::fmt::Write;

/// Why a server refused its partner: it ended a connection with it.
#[derive(Clone, Copy, Debug, PartialEq, Eq)]
pub enum PartnerRefusal {
    /// What the partner sent may not come there, or one of the two has lost its journal.
    Frame,
    /// The book took no message of the partner's.
    Message,
    /// The partner lacks messages of older volumes, which can't be told again.
    OlderVolumes,
    /// This server's journal is older than what the partner took.
    JournalOlder,
    /// The partner sent a notice that isn't spelled as one.
    Notice,
}

/// The last refusal of a partner, with which no connection has stood for a while since.
#[derive(Clone, Copy, Debug, PartialEq, Eq)]
pub struct LastRefusal {
    pub why: PartnerRefusal,
    /// What the clock read when the connection ended.
    pub at: Reading,
}

impl PartnerRefusal {
    /// The name of the reason, as programs read it.
    pub(crate) fn name(&self) -> &'static str {
        match self {
            PartnerRefusal::Frame => "frame",
            PartnerRefusal::Message => "message",
            PartnerRefusal::OlderVolumes => "older_volumes",
            PartnerRefusal::JournalOlder => "journal_older",
            PartnerRefusal::Notice => "notice",
        }
    }
}

impl fmt::Display for PartnerRefusal {
    fn fmt<W: Write>(&self, f: &mut fmt::Formatter<W>) -> fmt::Result {
        f.write_str(match self {
            PartnerRefusal::Frame =>
                "what it sent may not come there, or one of the two has lost its journal",
            PartnerRefusal::Message => "the book takes no message of it",
            PartnerRefusal::OlderVolumes =>
                "it lacks messages of older volumes, which can't be told again",
            PartnerRefusal::JournalOlder => "this journal is older than what it took",
            PartnerRefusal::Notice => "it sent a notice that isn't spelled as one",
        })
    }
}
