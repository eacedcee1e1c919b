//! The talk with the partner, over one connection after the other.

ghost use Rattle.std.specs.Prelude.{◌≡◌, ◌≤◌, ◌↔◌, IsTrue, IfSome, List, false};
ghost use Rattle.failover_session.specs.Sessions.{IsGoing};
ghost use Rattle.server_core.specs.Served.{receipts_in};
ghost use Rattle.server_core.specs.Saying.{sent_before, stage_of, told_all_of, SaysWhyTalkIsShort, KnowsToldAll};
ghost use Rattle.locked_book.specs.declared.receipt.Receipt.{Receipt as ReceiptValue};
ghost use Rattle.server_core.specs.VolumeWriters.{Grows};

use crate::server::ServerCore;
use crate::volume_writer::VolumeWriter;
use binding_rules::Counter;
use disk_model::{Device, Folder};
use failover_session::{FailoverSession, LinkInput, SessionError, SessionPolicy, SessionStage};
use journal_lines::Event;
use lead_time::Reading;
use locked_book::Receipt;
use server_settings::Settings;
use std::time::Instant;

/// The serial up to which these receipts don't say what was sent: 0 where they say all. The first message that one
/// sends follows on it, or the base line of a volume tells it.
fn sent_before(receipts: &[Receipt]) -> u64
    ensures { result ≡ sent_before receipts.now }
{
    let mut rest = receipts;
    while let [receipt, behind @ ..] = rest {
        match &receipt.line.event {
            Event::Base(numbers) => return numbers.serial.number(),
            Event::Send(message) => return message.serial.number().saturating_sub(1),
            _ => rest = behind,
        }
    }
    0
}

/// Forgets receipts of older volumes, up to the message that the partner named.
fn forget_by<D: Device>(volume: &mut VolumeWriter<D>, stage: &SessionStage)
    ensures journal { volume.new.served.journal ≡ volume.old.served.journal }
    ensures file { (volume.new.kept ≡ volume.old.kept) × (volume.new.calls ≡ volume.old.calls) }
{
    match stage {
        SessionStage::Joined { last } | SessionStage::Ended { named: Some(last) } => volume.forget(
            *last,
        ),
        SessionStage::Greeting
        | SessionStage::Refused
        | SessionStage::Ended { named: None }
        | SessionStage::Short { .. } => {}
    }
}

impl<F: Folder + Drop, P: Drop> ServerCore<F, P>
where
    F::File: Drop,
{
    /// A connection with the partner begins: the primary's greeting is held back.
    pub fn connect_partner(&mut self, settings: &Settings) -> Result<(), SessionError>
        ensures rest { self.new ≡ record self.old { talk = self.new.talk } }
        // Its partner has told nothing yet.
        ensures untold { told_all_of self.new.talk ≡ false }
    {
        let mut talk = FailoverSession::new(self.alloc, SessionPolicy::Serve);
        match self.volume.greet(&mut talk, settings) {
            Ok(()) => {
                self.talk = Some(talk);
                Ok(())
            }
            Err(error) => {
                self.talk = Some(talk);
                Err(error)
            }
        }
    }

    /// What the monotonic clock shows: by it the talk counts, in the turns that follow, for how long it waits
    /// (`failover_session::FailoverSession::see_clock`).
    pub fn see_clock(&mut self, now: Instant)
        ensures { self.new ≡ self.old }
    {
        if let Some(talk) = &mut self.talk {
            talk.see_clock(now);
        }
    }

    /// Takes what came over the connection, does what follows from it, and holds back what is to be said
    /// (`failover_session::FailoverSession::poll`). Where there is no connection, nothing is done. After an error the
    /// connection has to be ended, once what was held back has left.
    pub fn handle_input(
        &mut self,
        settings: &Settings,
        read: Reading,
        came: &LinkInput<'_>,
    ) -> Result<(), SessionError>
        ensures grows { (added : List ReceiptValue) × Grows self.old.volume self.new.volume added }
        ensures rest { self.new ≡ record self.old { volume = self.new.volume; talk = self.new.talk } }
        // Whether the partner has told all, the talk knows by what came.
        ensures told { KnowsToldAll result came.now self.old.talk self.new.talk }
        // A talk that goes on says that this journal is short by what its receipts send, or by what it would take.
        ensures why { IfSome self.old.talk (λ s. IsGoing s.stage
            → SaysWhyTalkIsShort s.policy (receipts_in self.new.volume.served) self.new.talk) }
    {
        match &mut self.talk {
            Some(talk) => self.volume.poll(talk, settings, read, came),
            None => Ok(()),
        }
    }

    /// The connection has ended. What was held back for it isn't said. Where no answer is held back, receipts of older
    /// volumes are forgotten, up to the message that the partner named as the last that it took.
    pub fn disconnect_partner(&mut self)
        ensures talk { self.new.talk ≡ None }
        ensures journal { self.new.volume.served.journal ≡ self.old.volume.served.journal }
        ensures file { (self.new.volume.kept ≡ self.old.volume.kept) × (self.new.volume.calls ≡ self.old.volume.calls) }
        ensures rest { (self.new.own ≡ self.old.own) × (self.new.terms ≡ self.old.terms)
            × (self.new.names ≡ self.old.names) × (self.new.held ≡ self.old.held) }
    {
        let stage = self.stage();
        self.talk = None;
        if !self.held.is_empty() {
            return;
        }
        if let Some(stage) = &stage {
            forget_by(&mut self.volume, stage);
        }
    }

    /// Returns whether its receipts say all that was sent above a serial. A partner that took no more than one below
    /// can't be told all again: of older volumes it had said before that it took them, or they weren't read at the
    /// start.
    pub fn can_resend_above(&self, last: Counter) -> bool
        ensures { IsTrue result ↔ (sent_before (receipts_in self.now.volume.served) ≤ last) }
    {
        sent_before(self.volume.served.receipts()) <= last.number()
    }

    /// How far the two ends of the connection have come; none where there is no connection.
    pub fn stage(&self) -> Option<SessionStage>
        ensures { result ≡ stage_of self.now.talk }
    {
        match &self.talk {
            Some(talk) => Some(talk.stage()),
            None => None,
        }
    }

    /// Returns whether the partner has said over the connection that it told all that there was to tell (UPDDONE).
    pub fn partner_told_all(&self) -> bool
        ensures { result ≡ told_all_of self.now.talk }
    {
        match &self.talk {
            Some(talk) => talk.partner_told_all(),
            None => false,
        }
    }

    /// Returns whether the partner said over the connection that it waits for an answer (UPDREQALL).
    pub fn partner_waits(&self) -> bool {
        match &self.talk {
            Some(talk) => talk.partner_waits(),
            None => false,
        }
    }
}
