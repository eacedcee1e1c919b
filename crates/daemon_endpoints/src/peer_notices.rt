//! What goes over a connection beside the frames: notices.

ghost use Rattle.std.specs.Prelude.{◌≡◌, ◌⊎◌, ◌++◌, ◌∷◌, [], IfOk, OnOk};
ghost use Rattle.daemon_io.specs.ConnectionWrites.{IsGiven};
ghost use Rattle.link_notices.specs.Items.{notice_octets};
ghost use Rattle.link_notices.specs.Spelling.{notice_text};
ghost use Rattle.daemon_endpoints.specs.Joining.{OpensBy, Brings};
ghost use Rattle.daemon_endpoints.specs.Saying.{AreGiven};
ghost use Rattle.notice_exchange.specs.declared.talk.LinkEvent.TheVariants.{Frames};

use crate::peer_connection::PeerConnection;
use daemon_io::{ConnectionLost, ConnectionSource, NoticeUse};
use lead_time::Reading;
use link_notices::{ClockVerdict, Notice, encode_notice};
use notice_exchange::{LinkEvent, NoticeTalk, Overdue, TalkEnd};
use server_clocks::Moment;
use server_log::{DisconnectReason, Log, LogEvent};
use server_settings::Settings;
use std::alloc::{AllocError, Global};
use std::time::Instant;
use text_fields::Listed;

/// What a connection begins with: a talk of notices, where both ends understand them; else its session. `AllocError`
/// where a growth was refused.
pub(crate) fn opening(
    alloc: Global,
    notices: NoticeUse,
    settings: &Settings,
) -> Result<(Option<NoticeTalk>, Vec<LinkEvent>), AllocError>
    ensures { IfOk result (λ r. OpensBy notices r.0 r.1.items) }
{
    let mut events = Vec::new(alloc);
    match notices {
        NoticeUse::Understood => Ok((Some(NoticeTalk::new(alloc, settings)?), events)),
        NoticeUse::OlderPartner | NoticeUse::NoKey => {
            events.push(LinkEvent::Begins)?;
            Ok((None, events))
        }
    }
}

/// Takes octets of a connection without notices: all are its session's. `Memory` where a growth was refused.
fn take_frames(alloc: Global, octets: &[u8], events: &mut Vec<LinkEvent>) -> Result<(), TalkEnd>
    ensures taken { OnOk result (events.new.items ≡ events.old.items ++ Frames octets.now ∷ []) }
    ensures either { (events.new.items ≡ events.old.items ++ Frames octets.now ∷ [])
        ⊎ (events.new.items ≡ events.old.items) }
{
    let Ok(copied) = octets.to_vec(alloc) else {
        return Err(TalkEnd::Memory);
    };
    match events.push(LinkEvent::Frames(Listed::new(copied))) {
        Ok(()) => Ok(()),
        Err(_) => Err(TalkEnd::Memory),
    }
}

/// Takes octets that came when the clock showed `now`: what they lead to is put behind what waits. The reason, where the
/// connection is over.
pub(crate) fn take_octets(
    alloc: Global,
    notices: &mut Option<NoticeTalk>,
    octets: &[u8],
    now: Reading,
    events: &mut Vec<LinkEvent>,
) -> Result<(), TalkEnd>
    ensures { Brings result octets.now notices.old events.old.items notices.new events.new.items }
{
    match notices {
        Some(talk) => talk.take(octets, now, events),
        None => take_frames(alloc, octets, events),
    }
}

impl<D: ConnectionSource> PeerConnection<D> {
    /// Tells in what its partner's settings differ, once an hour, where the two may join all the same.
    pub(crate) fn log_settings<L: Print>(&self, now: &Moment, log: &mut Log<'_, L>) {
        let Some(settings) = self.notices.as_ref().and_then(NoticeTalk::settings) else {
            return;
        };
        for difference in settings.differences.as_slice() {
            if !difference.keeps_apart() {
                log.log_hourly(&LogEvent::PartnerSettings(*difference), now.reading);
            }
        }
    }

    /// Says the notices that are due, where the two understand them.
    pub(crate) fn say_notices(&mut self, now: &Moment)
        ensures { AreGiven self.old.connection.sent [] self.new.connection.sent }
    {
        let Some(talk) = &mut self.notices else {
            return;
        };
        match talk.due(now) {
            Ok(notices) => self.write_notices(notices.as_slice()),
            Err(_) => self.end(DisconnectReason::Memory),
        }
    }

    /// Gives the connection notices, in their order: all of them, or it is over.
    fn write_notices(&mut self, notices: &[Notice])
        ensures { AreGiven self.old.connection.sent [] self.new.connection.sent }
    {
        for notice in notices {
            match self.write_notice(notice) {
                Ok(()) => {}
                Err(_) => {
                    self.end(DisconnectReason::Lost);
                    return;
                }
            }
        }
        if self.connection.flush().is_err() {
            self.end(DisconnectReason::Lost);
        }
    }

    /// Gives the connection a notice.
    fn write_notice(&mut self, notice: &Notice) -> Result<(), ConnectionLost>
        ensures given { IsGiven (notice_octets (notice_text notice.now)) self.old.connection.sent
            self.new.connection.sent result }
    {
        match encode_notice(self.alloc, notice) {
            Ok(octets) => self.connection.write(octets.as_slice()),
            Err(_) => Err(ConnectionLost::Memory),
        }
    }

    /// What the partner didn't say in time by notices, if it didn't.
    pub(crate) fn overdue(&self, now: Instant) -> Option<Overdue> {
        self.notices.as_ref()?.overdue(self.begun.instant, now)
    }

    /// Asks the partner's clock again, where the two understand notices.
    pub(crate) fn ask_again(&mut self)
        ensures { self.new.connection ≡ self.old.connection }
    {
        if let Some(talk) = &mut self.notices {
            talk.ask_again();
        }
    }

    /// What the two told each other by notices, where both understand them.
    pub(crate) fn talk(&self) -> Option<&NoticeTalk> {
        self.notices.as_ref()
    }

    /// What the two told each other by notices, once it is over.
    pub(crate) fn into_talk(self) -> Option<NoticeTalk> {
        self.notices
    }

    /// Returns whether the partner's clock agrees with this one, of a connection that isn't over.
    pub(crate) fn agrees(&self) -> bool {
        match &self.notices {
            Some(talk) => {
                self.parting.is_none()
                    && talk.may_join()
                    && talk.verdict() == Some(ClockVerdict::Agrees)
            }
            None => false,
        }
    }
}
