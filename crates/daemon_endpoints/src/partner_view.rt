//! What the partner told of itself by notices.

ghost use Rattle.std.specs.Prelude.{◌≡◌};

use crate::partner::PartnerEndpoint;
use clock_watch::PartnerSight;
use daemon_io::{ConnectionSource, NoticeUse};
use link_notices::{ClockRange, ClockVerdict, SettingsDifference};
use notice_exchange::{NoticeTalk, PartnerProgram};
use server_status::NoticeState;

impl<D: ConnectionSource> PartnerEndpoint<D> {
    /// Asks the partner's clock again, with the next notices.
    pub fn ask_again(&mut self)
        ensures { self.new ≡ self.old }
    {
        if let Some(standing) = &mut self.standing {
            standing.ask_again();
        }
    }

    /// Whether notices go over the connection that stands.
    pub fn notices(&self) -> NoticeState {
        let Some(standing) = &self.standing else {
            return NoticeState::NoConnection;
        };
        match standing.connection.notices() {
            NoticeUse::Understood => NoticeState::Understood,
            NoticeUse::OlderPartner => NoticeState::OlderPartner,
            NoticeUse::NoKey => NoticeState::NoKey,
        }
    }

    /// What the partner told last: over the connection that stands, or over the one before until it told its settings.
    fn talk(&self) -> Option<&NoticeTalk> {
        match &self.standing {
            Some(standing) => match standing.talk() {
                Some(talk) if talk.settings().is_none() => self.last.as_ref(),
                talk => talk,
            },
            None => self.last.as_ref(),
        }
    }

    /// What the partner's last answer says of the two clocks, if it told its skew and answered.
    pub fn verdict(&self) -> Option<ClockVerdict> {
        self.talk()?.verdict()
    }

    /// Returns whether the partner's clock agrees with this one, over a connection that stands and isn't over.
    pub fn agrees(&self) -> bool {
        match &self.standing {
            Some(standing) => standing.agrees(),
            None => false,
        }
    }

    /// By how many milliseconds the partner's clock is ahead of this one, by its last answer.
    pub fn clock_range(&self) -> Option<ClockRange> {
        self.talk()?.range()
    }

    /// In what the partner's settings differ from this server's, once it told them.
    pub fn differences(&self) -> Option<&[SettingsDifference]> {
        Some(self.talk()?.settings()?.differences.as_slice())
    }

    /// Which program the partner is, once it told it.
    pub fn partner_program(&self) -> Option<&PartnerProgram> {
        self.talk()?.program()
    }

    /// What a start knows of the partner's clock: nothing can be told of it where no notices go over the connection that
    /// stands.
    pub fn sight(&self) -> PartnerSight {
        match self.notices() {
            NoticeState::OlderPartner | NoticeState::NoKey => PartnerSight::Untold,
            NoticeState::Understood | NoticeState::NoConnection => match self.verdict() {
                Some(verdict) => PartnerSight::Told(verdict),
                None => PartnerSight::Unseen,
            },
        }
    }
}
