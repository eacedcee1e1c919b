//! What an end makes of the frames that come.

ghost use Rattle.std.specs.Prelude.{◌≡◌, ◌∷◌, [], None, Some, IfOk, IfSome, OnOk, OnErr};
ghost use Rattle.failover_session.specs.Messages.{body_in};
ghost use Rattle.failover_session.specs.Sessions.{SendsLines, Takes, TakesFront, Handles, HandlesFront, IsGoing, messages_in};
ghost use Rattle.failover_session.specs.Sessions.{met_at, Unmet, Named};
ghost use Rattle.failover_session.specs.Shortage.{IsShortage, SaysWhyShort};

use crate::book::{PairBook, Receipts};
use crate::crossing::is_told_first;
use crate::error::SessionError;
use crate::link_endpoint::{LinkEndpoint, OrderOutcome};
use crate::messages::message_in;
use crate::policy::SessionPolicy;
use crate::raising::LastRaise;
use crate::sending::{answer, sent_above};
use crate::sent_state::{last_sent, last_taken};
use crate::session_state::{ResendRequest, SessionState};
use crate::shortage::JournalShortage;
use crate::stage::SessionStage;
use binding_rules::{Acknowledgement, BindReply, Body, Counter, PartnerMessage, Role, Status};
use failover_message::{Frame, FrameKind};
use order_book::Order;
use prefix_range::Prefix;

/// Whether the talk goes on behind a frame.
#[derive(Clone, Copy)]
enum Next {
    GoesOn,
    Ends,
}

impl<'a, B: PairBook> LinkEndpoint<'a, B> {
    /// Answers the other end, which named the message that it took last, hands out again what it didn't take, and asks
    /// what is asked of each connection. The talk ends, behind the answer, where one of the two has lost its journal:
    /// this one, where the other took what was never sent; the other, where it took less than it answered.
    #[tactic(auto, using(crate::proofs::Hearing::joining))]
    fn complete_handshake(
        &self,
        pass: &mut B::Pass,
        duties: &mut SessionState,
        stage: &mut SessionStage,
        last: Counter,
    ) -> Result<(), SessionError>
        requires { stage.old ≡ SessionStage.Greeting }
        ensures heard { Handles self.now.role [] Unmet (met_at stage.new) (B.Pass.receipts pass.old)
            (B.Pass.receipts pass.new) duties.old.out.items duties.new.out.items }
        ensures why { SaysWhyShort self.now.policy (B.Pass.receipts pass.new) stage.new }
    {
        let mut first = answer(self.alloc, self.role, pass.receipts())?;
        let sent = last_sent(pass.receipts());
        if last > sent {
            duties.push_frames(&first)?;
            *stage = SessionStage::Short {
                named: None,
                shortage: JournalShortage::Messages { taken: last, sent },
            };
            return Err(SessionError::Frame);
        }
        if last < duties.told.answered {
            duties.push_frames(&first)?;
            *stage = SessionStage::Refused;
            return Err(SessionError::Frame);
        }
        let again = sent_above(self.alloc, pass.receipts(), last)?;
        first.extend_from_slice(&again)?;
        duties.push_frames(&first)?;
        *stage = SessionStage::Joined { last };
        self.request_updates(pass, duties)
    }

    /// The first frame of the other end: the primary's CONNECT, or the secondary's answer to it.
    #[tactic(auto, using(crate::proofs::Hearing::meeting))]
    fn handle_greeting(
        &self,
        pass: &mut B::Pass,
        duties: &mut SessionState,
        stage: &mut SessionStage,
        kind: &FrameKind,
    ) -> Result<(), SessionError>
        requires { stage.old ≡ SessionStage.Greeting }
        ensures heard { Handles self.now.role [] Unmet (met_at stage.new) (B.Pass.receipts pass.old)
            (B.Pass.receipts pass.new) duties.old.out.items duties.new.out.items }
        ensures word { OnOk result (body_in kind.now ≡ None) }
        ensures why { SaysWhyShort self.now.policy (B.Pass.receipts pass.new) stage.new }
    {
        match (self.role, kind) {
            (
                Role::Secondary,
                FrameKind::Connect {
                    role: Role::Primary,
                    last,
                },
            )
            | (
                Role::Primary,
                FrameKind::ConnectReply {
                    role: Role::Secondary,
                    last,
                },
            ) => self.complete_handshake(pass, duties, stage, *last),
            (_, FrameKind::Disconnect) => {
                *stage = stage.ended();
                Ok(())
            }
            _ => Err(SessionError::Frame),
        }
    }

    /// Asks for a unit back whose last change was its move to the secondary, where that rejects it.
    #[tactic(auto, using(crate::proofs::Saying::saying))]
    fn reclaim_rejected(
        &self,
        pass: &mut B::Pass,
        duties: &mut SessionState,
        reply: &BindReply,
    ) -> Result<(), SessionError>
        ensures { SendsLines (B.Pass.receipts pass.old) (B.Pass.receipts pass.new) duties.old.out.items duties.new.out.items }
    {
        if !matches!(
            (self.role, reply.acknowledgement),
            (Role::Primary, Acknowledgement::Reject)
        ) {
            return Ok(());
        }
        let look = self.look(pass, &reply.prefix)?;
        let Some(unit) = &look.unit else {
            return Ok(());
        };
        if unit.due == Some(Status::Backup) && unit.mine == reply.of {
            self.order(pass, duties, &Order::Reclaim(reply.prefix))?;
        }
        Ok(())
    }

    /// What raised a unit's number of changes last.
    fn last_raise(
        &self,
        pass: &B::Pass,
        duties: &mut SessionState,
        prefix: &Prefix,
    ) -> Result<LastRaise, SessionError>
        ensures { duties.new.out.items ≡ duties.old.out.items }
    {
        duties.told.catch_up(pass.receipts())?;
        Ok(duties.told.last_raise(prefix))
    }

    /// Asks before a message is taken whether this server tells its own change of the unit before it replies.
    fn tells_first(
        &self,
        pass: &mut B::Pass,
        duties: &mut SessionState,
        message: &PartnerMessage,
    ) -> Result<bool, SessionError>
        ensures pass { B.Pass.receipts pass.new ≡ B.Pass.receipts pass.old }
        ensures out { duties.new.out.items ≡ duties.old.out.items }
    {
        let Body::Update(update) = &message.body else {
            return Ok(false);
        };
        let raise = self.last_raise(pass, duties, &update.prefix)?;
        if raise == LastRaise::Own || self.policy == SessionPolicy::Run {
            return Ok(false);
        }
        let look = self.look(pass, &update.prefix)?;
        Ok(match &look.unit {
            Some(was) => is_told_first(self.policy, was, raise, update),
            None => false,
        })
    }

    /// Tells this server's own change of a unit of which an update was taken. The reply to that follows at the end of
    /// the turn.
    #[tactic(auto, using(crate::proofs::Saying::saying))]
    fn tell_first(
        &self,
        pass: &mut B::Pass,
        duties: &mut SessionState,
        prefix: &Prefix,
    ) -> Result<(), SessionError>
        ensures { SendsLines (B.Pass.receipts pass.old) (B.Pass.receipts pass.new) duties.old.out.items duties.new.out.items }
    {
        if let OrderOutcome::Done = self.order(pass, duties, &Order::SendUpdate(*prefix))? {
            duties.in_flight.add(self.at)?;
        }
        Ok(())
    }

    /// Does what a message asks of the end that was just taken.
    #[tactic(auto, using(crate::proofs::Saying::saying))]
    fn follow(
        &self,
        pass: &mut B::Pass,
        duties: &mut SessionState,
        body: &Body,
        is_accepted: bool,
        tells_first: bool,
    ) -> Result<(), SessionError>
        ensures { SendsLines (B.Pass.receipts pass.old) (B.Pass.receipts pass.new) duties.old.out.items duties.new.out.items }
    {
        match body {
            Body::Reply(reply) => {
                duties.told.catch_up(pass.receipts())?;
                let before = duties.in_flight.count();
                let left = duties.told.under_way_behind(reply, before);
                duties.in_flight.keep_last(left);
                self.reclaim_rejected(pass, duties, reply)
            }
            Body::Contact { ask, .. } => {
                if is_accepted && *ask > Counter::ZERO {
                    duties.owes_contact = true;
                }
                self.ask_again(pass, duties)
            }
            Body::Update(update) if is_accepted && tells_first => {
                self.tell_first(pass, duties, &update.prefix)
            }
            Body::Update(_) => Ok(()),
        }
    }

    /// Takes the next message. One that was taken before is passed over. `Frame` where the serial jumps: the partner
    /// leaves none out, so a message was lost, or it isn't the partner's.
    #[tactic(auto, using(crate::proofs::Front::one_message))]
    fn take(
        &self,
        pass: &mut B::Pass,
        duties: &mut SessionState,
        message: &PartnerMessage,
    ) -> Result<(), SessionError>
        ensures front { TakesFront (message.now ∷ []) (B.Pass.receipts pass.old) (B.Pass.receipts pass.new)
            duties.old.out.items duties.new.out.items }
        ensures taken { OnOk result (Takes (message.now ∷ []) (B.Pass.receipts pass.old) (B.Pass.receipts pass.new)
            duties.old.out.items duties.new.out.items) }
    {
        let last = last_taken(pass.receipts());
        if message.serial <= last {
            return Ok(());
        }
        if message.serial.number() > last.number() + 1 {
            return Err(SessionError::Frame);
        }
        let tells_first = self.tells_first(pass, duties, message)?;
        let is_accepted = self.take_in(pass, message)?;
        self.follow(pass, duties, &message.body, is_accepted, tells_first)
    }

    /// A frame between the first and the last that carries no message.
    #[tactic(auto, using(crate::proofs::Saying::saying))]
    fn handle_control(
        &self,
        pass: &mut B::Pass,
        duties: &mut SessionState,
        kind: &FrameKind,
    ) -> Result<Next, SessionError>
        ensures { SendsLines (B.Pass.receipts pass.old) (B.Pass.receipts pass.new) duties.old.out.items duties.new.out.items }
    {
        match kind {
            FrameKind::Connect { .. } | FrameKind::ConnectReply { .. } => {
                return Err(SessionError::Frame);
            }
            FrameKind::Disconnect => return Ok(Next::Ends),
            FrameKind::UpdateRequest => {
                if duties.again == ResendRequest::Nothing {
                    duties.begin_again(ResendRequest::Due);
                }
            }
            FrameKind::UpdateRequestAll => self.begin_full_update(pass, duties)?,
            FrameKind::PoolRequest => self.answer_pool_request(pass, duties)?,
            FrameKind::PoolResponse { .. } => duties.awaits_units = false,
            _ => {}
        }
        Ok(Next::GoesOn)
    }

    /// Nothing came for a while. The secondary asks for units where it has none; and what wasn't answered by now isn't
    /// waited for.
    #[tactic(auto, using(crate::proofs::Hearing::quiet))]
    pub(crate) fn handle_idle(
        &self,
        pass: &mut B::Pass,
        duties: &mut SessionState,
        stage: &SessionStage,
    ) -> Result<(), SessionError>
        ensures { Handles self.now.role [] (met_at stage.now) (met_at stage.now)
            (B.Pass.receipts pass.old) (B.Pass.receipts pass.new) duties.old.out.items duties.new.out.items }
    {
        duties.in_flight.let_all_go();
        match stage {
            SessionStage::Joined { .. } => self.ask_if_needed(pass, duties),
            SessionStage::Greeting
            | SessionStage::Refused
            | SessionStage::Ended { .. }
            | SessionStage::Short { .. } => Ok(()),
        }
    }

    /// A contact is due. It is sent where the two ends have joined: its serial is the next, so what follows it would be
    /// refused without it.
    #[tactic(auto, using(crate::proofs::Hearing::quiet))]
    pub(crate) fn handle_heartbeat(
        &self,
        pass: &mut B::Pass,
        duties: &mut SessionState,
        stage: &SessionStage,
    ) -> Result<(), SessionError>
        ensures { Handles self.now.role [] (met_at stage.now) (met_at stage.now)
            (B.Pass.receipts pass.old) (B.Pass.receipts pass.new) duties.old.out.items duties.new.out.items }
    {
        match stage {
            SessionStage::Joined { .. } => {
                self.order(pass, duties, &Order::SendContact)?;
                Ok(())
            }
            SessionStage::Greeting
            | SessionStage::Refused
            | SessionStage::Ended { .. }
            | SessionStage::Short { .. } => Ok(()),
        }
    }

    /// A frame without a message, at an end that has joined the other.
    #[tactic(auto, using(crate::proofs::Saying::saying))]
    fn handle_control_frame(
        &self,
        pass: &mut B::Pass,
        duties: &mut SessionState,
        stage: &mut SessionStage,
        last: Counter,
        kind: &FrameKind,
    ) -> Result<(), SessionError>
        requires { stage.old ≡ SessionStage.Joined last }
        ensures says { SendsLines (B.Pass.receipts pass.old) (B.Pass.receipts pass.new) duties.old.out.items
            duties.new.out.items }
        ensures named { met_at stage.new ≡ Named last }
        ensures why { SaysWhyShort self.now.policy (B.Pass.receipts pass.new) stage.new }
    {
        match self.handle_control(pass, duties, kind)? {
            Next::GoesOn => Ok(()),
            Next::Ends => {
                *stage = SessionStage::Ended { named: Some(last) };
                Ok(())
            }
        }
    }

    /// Asks before a message is taken whether it speaks of a change of a unit that this server never made, as the
    /// partner may where a part of this journal was lost.
    fn shortage_in(
        &self,
        pass: &mut B::Pass,
        message: &PartnerMessage,
    ) -> Result<Option<JournalShortage>, SessionError>
        ensures same { B.Pass.receipts pass.new ≡ B.Pass.receipts pass.old }
        ensures found { IfOk result (λ found. IfSome found (λ s. IsShortage self.now.policy
            (B.Pass.receipts pass.new) s)) }
    {
        if self.policy == SessionPolicy::Run {
            return Ok(None);
        }
        let (prefix, taken) = match &message.body {
            Body::Update(update) => (update.prefix, update.seen),
            Body::Reply(reply) => (reply.prefix, reply.of),
            Body::Contact { .. } => return Ok(None),
        };
        let look = self.look(pass, &prefix)?;
        match &look.unit {
            Some(unit) if taken > unit.mine => Ok(Some(JournalShortage::Change {
                prefix,
                taken,
                made: unit.mine,
            })),
            _ => Ok(None),
        }
    }

    /// Takes the next message of an end that has joined the other, unless it shows that this journal is short.
    #[tactic(auto, using(crate::proofs::Front::one_message))]
    fn take_unless_short(
        &self,
        pass: &mut B::Pass,
        duties: &mut SessionState,
        stage: &mut SessionStage,
        last: Counter,
        message: &PartnerMessage,
    ) -> Result<(), SessionError>
        requires { stage.old ≡ SessionStage.Joined last }
        ensures front { TakesFront (message.now ∷ []) (B.Pass.receipts pass.old) (B.Pass.receipts pass.new)
            duties.old.out.items duties.new.out.items }
        ensures taken { OnOk result (Takes (message.now ∷ []) (B.Pass.receipts pass.old) (B.Pass.receipts pass.new)
            duties.old.out.items duties.new.out.items) }
        ensures named { met_at stage.new ≡ Named last }
        ensures why { SaysWhyShort self.now.policy (B.Pass.receipts pass.new) stage.new }
    {
        if let Some(shortage) = self.shortage_in(pass, message)? {
            *stage = SessionStage::Short {
                named: Some(last),
                shortage,
            };
            return Err(SessionError::Frame);
        }
        self.take(pass, duties, message)
    }

    /// Does what one frame asks of an end that has joined the other.
    #[tactic(auto, using(crate::proofs::Front::one_joined))]
    fn handle_joined_frame(
        &self,
        pass: &mut B::Pass,
        duties: &mut SessionState,
        stage: &mut SessionStage,
        last: Counter,
        frame: &Frame,
    ) -> Result<(), SessionError>
        requires { stage.old ≡ SessionStage.Joined last }
        ensures front { TakesFront (messages_in (frame.now ∷ [])) (B.Pass.receipts pass.old) (B.Pass.receipts pass.new)
            duties.old.out.items duties.new.out.items }
        ensures whole { OnOk result (Takes (messages_in (frame.now ∷ [])) (B.Pass.receipts pass.old)
            (B.Pass.receipts pass.new) duties.old.out.items duties.new.out.items) }
        ensures named { met_at stage.new ≡ Named last }
        ensures why { SaysWhyShort self.now.policy (B.Pass.receipts pass.new) stage.new }
    {
        match message_in(frame) {
            Some(message) => self.take_unless_short(pass, duties, stage, last, &message),
            None => self.handle_control_frame(pass, duties, stage, last, &frame.kind),
        }
    }

    /// Does what one frame asks of the end.
    #[tactic(auto, using(crate::proofs::Front::one_frame))]
    fn handle_frame(
        &self,
        pass: &mut B::Pass,
        duties: &mut SessionState,
        stage: &mut SessionStage,
        frame: &Frame,
    ) -> Result<(), SessionError>
        ensures front { HandlesFront self.now.role (messages_in (frame.now ∷ [])) (met_at stage.old)
            (met_at stage.new) (B.Pass.receipts pass.old) (B.Pass.receipts pass.new)
            duties.old.out.items duties.new.out.items }
        ensures whole { OnOk result (IsGoing stage.new → Handles self.now.role (messages_in (frame.now ∷ []))
            (met_at stage.old) (met_at stage.new) (B.Pass.receipts pass.old) (B.Pass.receipts pass.new)
            duties.old.out.items duties.new.out.items) }
        ensures why { IsGoing stage.old → SaysWhyShort self.now.policy (B.Pass.receipts pass.new) stage.new }
    {
        match stage {
            SessionStage::Greeting => self.handle_greeting(pass, duties, stage, &frame.kind),
            SessionStage::Joined { last } => {
                let last = *last;
                self.handle_joined_frame(pass, duties, stage, last, frame)
            }
            SessionStage::Refused | SessionStage::Ended { .. } | SessionStage::Short { .. } => Ok(
                (),
            ),
        }
    }

    /// Does what frames ask of the end, in their order, up to one that ends the talk.
    #[tactic(auto, using(crate::proofs::Front::frames))]
    pub(crate) fn handle_frames(
        &self,
        pass: &mut B::Pass,
        duties: &mut SessionState,
        stage: &mut SessionStage,
        frames: &[Frame],
    ) -> Result<(), SessionError>
        ensures front { HandlesFront self.now.role (messages_in frames.now) (met_at stage.old)
            (met_at stage.new) (B.Pass.receipts pass.old) (B.Pass.receipts pass.new)
            duties.old.out.items duties.new.out.items }
        ensures whole { OnOk result (IsGoing stage.new → Handles self.now.role (messages_in frames.now)
            (met_at stage.old) (met_at stage.new) (B.Pass.receipts pass.old) (B.Pass.receipts pass.new)
            duties.old.out.items duties.new.out.items) }
        ensures why { IsGoing stage.old → SaysWhyShort self.now.policy (B.Pass.receipts pass.new) stage.new }
    {
        for frame in frames {
            self.handle_frame(pass, duties, stage, frame)?;
            if stage.has_ended() {
                return Ok(());
            }
        }
        Ok(())
    }
}
