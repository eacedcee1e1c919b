//! What a server's partner told beside the frames.

use link_notices::{ClockRange, ClockVerdict, SettingsDifference};
use std::fmt;
use std::fmt::Write;

/// Whether notices go between a server and its partner, and why not.
#[derive(Clone, Copy, Debug, PartialEq, Eq)]
pub enum NoticeState {
    /// Both send and take them.
    Understood,
    /// The partner's program is older than they are.
    OlderPartner,
    /// The link has no key.
    NoKey,
    /// There is no connection with the partner.
    NoConnection,
}

/// What a server's partner told beside the frames, as far as it did.
#[derive(Clone, Copy)]
pub struct PartnerNotices<'a> {
    pub state: NoticeState,
    /// The name of the partner's program, and its version.
    pub program: Option<(&'a str, &'a str)>,
    /// By how much the partner's clock is ahead of this one, by its last answer.
    pub clock: Option<ClockRange>,
    /// Whether the two clocks may both be right, by the same answer.
    pub verdict: Option<ClockVerdict>,
    /// In what the partner's settings differ from this server's; none of an empty list.
    pub settings: Option<&'a [SettingsDifference]>,
}

impl PartnerNotices<'_> {
    /// Of a server without a connection.
    pub const NONE: PartnerNotices<'static> = PartnerNotices {
        state: NoticeState::NoConnection,
        program: None,
        clock: None,
        verdict: None,
        settings: None,
    };
}

impl NoticeState {
    /// The name of the state, as programs read it.
    pub(crate) fn name(&self) -> &'static str {
        match self {
            NoticeState::Understood => "understood",
            NoticeState::OlderPartner => "older_version",
            NoticeState::NoKey => "no_key",
            NoticeState::NoConnection => "no_connection",
        }
    }
}

impl fmt::Display for NoticeState {
    fn fmt<W: Write>(&self, f: &mut fmt::Formatter<W>) -> fmt::Result {
        f.write_str(match self {
            NoticeState::Understood => "understood",
            NoticeState::OlderPartner => "none, its partner is of an older version",
            NoticeState::NoKey => "none, link_key is \"none\"",
            NoticeState::NoConnection => "none, there is no connection",
        })
    }
}

/// The name of each thing that may be known of the partner's clock.
pub(crate) const VERDICTS: [&str; 4] = ["unknown", "agrees", "differs", "unclear"];

/// The name of what is known of the partner's clock.
pub(crate) fn verdict_name(verdict: Option<ClockVerdict>) -> &'static str {
    match verdict {
        None => "unknown",
        Some(ClockVerdict::Agrees) => "agrees",
        Some(ClockVerdict::TooFarOff) => "differs",
        Some(ClockVerdict::Unknown) => "unclear",
    }
}

/// By how many milliseconds a clock is ahead of another; below 0 where it is behind.
#[derive(Clone, Copy)]
pub(crate) struct Lead(pub(crate) i64);

impl fmt::Display for Lead {
    fn fmt<W: Write>(&self, f: &mut fmt::Formatter<W>) -> fmt::Result {
        let side = if self.0 < 0 { "behind" } else { "ahead" };
        let milliseconds = self.0.unsigned_abs();
        write!(f, "{milliseconds} ms {side}")
    }
}
