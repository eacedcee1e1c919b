//! Why a connection with the partner is over.

ghost use Rattle.std.specs.Prelude.{◌≡◌};
ghost use Rattle.server_log.specs.Refusals.{refusal_of};

use crate::lead_words::LeadWords;
use crate::level::Level;
use link_notices::{ClockRange, SettingsDifference};
use locked_book::ServeError;
use server_status::PartnerRefusal;
use std::fmt;
use std::fmt::Write;

/// Why a connection with the partner is over.
#[derive(Clone, Copy, Debug, PartialEq, Eq)]
pub enum DisconnectReason {
    /// The partner said DISCONNECT.
    PartnerLeft,
    /// The connection broke, or the partner closed it.
    Lost,
    /// Nothing came over it for too long.
    Silent,
    /// What came isn't what may come there.
    Refused,
    /// The book takes no message of the partner's.
    Book(ServeError),
    /// It took no message of a volume that this server doesn't know any more.
    Lacks,
    /// This server began its next volume.
    Rolled,
    /// The partner, which proved itself again, has another connection.
    Replaced,
    /// What came was made or changed by somebody who hasn't the key.
    Forged,
    /// What came first isn't what the partner says first.
    Stranger,
    /// Its other end didn't show in time that it is the partner.
    Unproved,
    /// It broke, or its other end closed it, before that had shown that it is the partner.
    LostUnproved,
    /// The partner took messages that this server's journal lacks.
    JournalOlder,
    /// The partner doesn't wait, though this server's journal says that it must: the journal is an older copy.
    OldCopy,
    /// This server's clock was set.
    ClockSet,
    /// The partner's clock and this one can't both be right.
    ClocksDiffer(ClockRange),
    /// They differ in a setting in which they have to agree.
    SettingsDiffer(SettingsDifference),
    /// The partner didn't say its settings in time.
    NoSettings,
    /// The partner didn't say in time what its clock shows.
    NoClock,
    /// The partner sent a notice whose words aren't spelled as it wants.
    MisspelledNotice,
    /// A growth was refused.
    Memory,
}

impl DisconnectReason {
    /// How much it matters.
    pub(crate) fn level(&self) -> Level {
        match self {
            DisconnectReason::ClocksDiffer(_) | DisconnectReason::SettingsDiffer(_) => Level::Error,
            DisconnectReason::PartnerLeft | DisconnectReason::Rolled | DisconnectReason::Replaced =>
                Level::Notice,
            _ => Level::Warning,
        }
    }

    /// Why the partner was refused by it, where it was: what it sent or knows, and not what befell the connection.
    pub fn refusal(&self) -> Option<PartnerRefusal>
        ensures { result ≡ refusal_of self.now }
    {
        match self {
            DisconnectReason::Refused => Some(PartnerRefusal::Frame),
            DisconnectReason::Book(_) => Some(PartnerRefusal::Message),
            DisconnectReason::Lacks => Some(PartnerRefusal::OlderVolumes),
            DisconnectReason::JournalOlder | DisconnectReason::OldCopy => {
                Some(PartnerRefusal::JournalOlder)
            }
            DisconnectReason::MisspelledNotice => Some(PartnerRefusal::Notice),
            _ => None,
        }
    }

    /// Returns whether both say the same but for the numbers of clocks, which are others each time.
    pub(crate) fn is_alike(&self, other: &DisconnectReason) -> bool {
        match (self, other) {
            (DisconnectReason::ClocksDiffer(_), DisconnectReason::ClocksDiffer(_)) => true,
            _ => self == other,
        }
    }

    /// What ends a connection over which the two haven't met yet, or are to meet anew.
    fn meeting_words(&self) -> Option<&'static str> {
        match self {
            DisconnectReason::Rolled => Some("meets its partner anew, behind its new volume"),
            DisconnectReason::Replaced => Some("meets its partner anew, which connected again"),
            DisconnectReason::Forged => Some(
                "ended a connection over which somebody sent who hasn't the key: is link_key the same at both?",
            ),
            DisconnectReason::Stranger => Some(
                "ended a connection: what came first isn't its partner's CONNECT",
            ),
            DisconnectReason::Unproved => Some(
                "ended a connection whose other end didn't show within 5 s that it is its partner",
            ),
            DisconnectReason::LostUnproved => Some(
                "lost a connection whose other end hadn't shown yet that it is its partner",
            ),
            _ => None,
        }
    }

    /// What ends a connection since a journal lacks something.
    fn journal_words(&self) -> Option<&'static str> {
        match self {
            DisconnectReason::Refused => Some(
                "refused its partner: what it sent may not come there, or one of the two has lost its journal",
            ),
            DisconnectReason::Lacks => Some(
                "refused its partner: it lacks messages of older volumes, which can't be told again",
            ),
            DisconnectReason::JournalOlder => Some(
                "ended the connection with its partner: this server's journal lacks messages that the partner took",
            ),
            DisconnectReason::OldCopy => Some(
                "ended the connection with its partner: it doesn't wait, so this journal is an older copy",
            ),
            _ => None,
        }
    }

    /// What else ends a connection.
    fn ending_words(&self) -> Option<&'static str> {
        match self {
            DisconnectReason::PartnerLeft => Some("its partner said DISCONNECT"),
            DisconnectReason::Lost => Some("lost the connection with its partner"),
            DisconnectReason::Silent => Some("gave up a connection over which nothing came"),
            DisconnectReason::ClockSet => Some(
                "ended the connection with its partner: this server's clock was set",
            ),
            DisconnectReason::NoSettings => Some(
                "ended the connection with its partner: its partner's program sent no settings",
            ),
            DisconnectReason::NoClock => Some(
                "ended the connection with its partner: its partner's program sent no clock",
            ),
            DisconnectReason::MisspelledNotice => Some(
                "ended the connection with its partner: it sent a notice that isn't spelled as one",
            ),
            DisconnectReason::Memory => Some(
                "ended the connection with its partner: out of memory",
            ),
            _ => None,
        }
    }

    /// The words of a reason that has no values.
    fn plain_words(&self) -> &'static str {
        self.meeting_words()
            .or(self.journal_words())
            .or(self.ending_words())
            .unwrap_or("")
    }
}

impl fmt::Display for DisconnectReason {
    fn fmt<W: Write>(&self, f: &mut fmt::Formatter<W>) -> fmt::Result {
        match self {
            DisconnectReason::Book(refusal) => {
                write!(f, "ended the connection with its partner: {refusal}")
            }
            DisconnectReason::ClocksDiffer(range) => {
                let lead = LeadWords(*range);
                write!(
                    f,
                    "its partner's clock is {lead}: they stay apart until the two agree"
                )
            }
            DisconnectReason::SettingsDiffer(difference) => write!(
                f,
                "its partner's settings differ in {difference}: they stay apart until the two agree"
            ),
            _ => f.write_str(self.plain_words()),
        }
    }
}
