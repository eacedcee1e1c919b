//! How the two ends come together again: after a restart, and after a time in which one took the other for down.

ghost use Rattle.std.specs.Prelude.{◌≡◌};
ghost use Rattle.failover_session.specs.OutboundFrames.{meanings_of};
ghost use Rattle.failover_session.specs.Sessions.{SendsLines};

use crate::book::{PairBook, Receipts};
use crate::error::SessionError;
use crate::link_endpoint::LinkEndpoint;
use crate::session_state::{ResendRequest, SessionState};
use crate::updates_done::is_request_due;
use binding_rules::{Role, ServerState};
use failover_message::FrameKind;
use order_book::Order;

impl<'a, B: PairBook> LinkEndpoint<'a, B> {
    /// Asks for what is asked on each connection: by a server that waits for all updates, by the secondary for units.
    #[tactic(auto, using(crate::proofs::Saying::saying))]
    pub(crate) fn request_updates(
        &self,
        pass: &mut B::Pass,
        duties: &mut SessionState,
    ) -> Result<(), SessionError>
        ensures { SendsLines (B.Pass.receipts pass.old) (B.Pass.receipts pass.new) duties.old.out.items duties.new.out.items }
    {
        if self.work(pass, 0)?.waiting {
            duties.push_control_frame(FrameKind::UpdateRequestAll)?;
        }
        match self.role {
            Role::Primary => Ok(()),
            Role::Secondary => self.ask_for_units(duties),
        }
    }

    /// Asks the partner, whose contact was just taken, where this server still waits.
    #[tactic(auto, using(crate::proofs::Saying::saying))]
    pub(crate) fn ask_again(
        &self,
        pass: &mut B::Pass,
        duties: &mut SessionState,
    ) -> Result<(), SessionError>
        ensures { SendsLines (B.Pass.receipts pass.old) (B.Pass.receipts pass.new) duties.old.out.items duties.new.out.items }
    {
        if self.work(pass, 0)?.waiting {
            self.order(pass, duties, &Order::SendContact)?;
        }
        Ok(())
    }

    /// Asks the partner for what is due, where it didn't say in time that it told all.
    pub(crate) fn ask_for_updates(
        &self,
        duties: &mut SessionState,
        told_all: bool,
    ) -> Result<(), SessionError>
        ensures { meanings_of duties.new.out.items ≡ meanings_of duties.old.out.items }
    {
        if duties.joined.is_none() {
            duties.joined = self.at;
        }
        if is_request_due(told_all, duties.has_asked, duties.joined, self.at) {
            duties.push_control_frame(FrameKind::UpdateRequest)?;
            duties.has_asked = true;
        }
        Ok(())
    }

    /// Takes the partner for up again, if it was taken for down.
    #[tactic(auto, using(crate::proofs::Saying::saying))]
    fn end_down(&self, pass: &mut B::Pass, duties: &mut SessionState) -> Result<(), SessionError>
        ensures { SendsLines (B.Pass.receipts pass.old) (B.Pass.receipts pass.new) duties.old.out.items duties.new.out.items }
    {
        if self.work(pass, 0)?.down.is_some() {
            self.order(pass, duties, &Order::State(ServerState::Normal))?;
        }
        Ok(())
    }

    /// Begins what a partner's UPDREQALL asks for: it is up again, and is told this server's term by a contact. All
    /// updates follow it.
    #[tactic(auto, using(crate::proofs::Saying::saying))]
    pub(crate) fn begin_full_update(
        &self,
        pass: &mut B::Pass,
        duties: &mut SessionState,
    ) -> Result<(), SessionError>
        ensures { SendsLines (B.Pass.receipts pass.old) (B.Pass.receipts pass.new) duties.old.out.items duties.new.out.items }
    {
        duties.partner_waits = true;
        self.end_down(pass, duties)?;
        self.order(pass, duties, &Order::SendContact)?;
        duties.begin_again(ResendRequest::All);
        Ok(())
    }

    /// Sends what waits until no unit is marked: that all updates were sent, and the contact that answers the
    /// partner's.
    #[tactic(auto, using(crate::proofs::Saying::saying))]
    pub(crate) fn finish_round(
        &self,
        pass: &mut B::Pass,
        duties: &mut SessionState,
    ) -> Result<(), SessionError>
        ensures { SendsLines (B.Pass.receipts pass.old) (B.Pass.receipts pass.new) duties.old.out.items duties.new.out.items }
    {
        if !duties.owes_done && !duties.owes_contact {
            return Ok(());
        }
        if self.work(pass, 0)?.mark.is_some() {
            return Ok(());
        }
        if duties.owes_done {
            duties.push_control_frame(FrameKind::UpdateDone)?;
            duties.owes_done = false;
        }
        if duties.owes_contact {
            self.order(pass, duties, &Order::SendContact)?;
            duties.owes_contact = false;
        }
        Ok(())
    }
}
