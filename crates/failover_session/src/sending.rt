//! What an end sends at each turn.

ghost use Rattle.std.specs.Prelude.{◌≡◌, IfOk};
ghost use Rattle.failover_session.specs.OutboundFrames.{meanings_of, sends_above, answer};
ghost use Rattle.failover_session.specs.Sessions.{SendsLines};

use crate::book::{PairBook, Receipts};
use crate::crossing::is_held_back;
use crate::error::SessionError;
use crate::link_endpoint::{LinkEndpoint, OrderOutcome};
use crate::outbox::OutboundFrame;
use crate::policy::SessionPolicy;
use crate::sent_state::last_taken;
use crate::session_state::{
    Backlog, ResendRequest, SentUpTo, SessionState, UpdateKind, UpdateRound, lines_at,
};
use crate::updates_done::{RoundEnd, round_end};
use binding_rules::{Counter, Role, Status, Unit};
use book_state::MOST_UNITS;
use failover_message::FrameKind;
use locked_book::{PendingWork, Receipt};
use order_book::Order;
use prefix_range::Prefix;
use std::alloc::{AllocError, Global};

/// How far a turn's telling came.
#[derive(Clone, Copy)]
pub(crate) enum Progress {
    /// All of it was told.
    All,
    /// A later turn goes on.
    Part,
    /// The journal has no room.
    NoRoom,
}

/// Returns what an update of a unit would tell, if it is this that there is to tell: a marked unit's only update is
/// that it was seized.
fn status_of(unit: &Unit, matter: UpdateKind) -> Option<Status> {
    match (matter, unit.marked) {
        (UpdateKind::Mark, true) => Some(Status::Seized),
        (UpdateKind::Change, false) => unit.due,
        _ => None,
    }
}

/// Returns what answers the partner's first frame: the secondary names the message that it took last.
pub(crate) fn answer(
    alloc: Global,
    role: Role,
    receipts: &[Receipt],
) -> Result<Vec<OutboundFrame>, AllocError>
    ensures { IfOk result (λ out. meanings_of out.items ≡ answer role receipts.now) }
{
    let mut out = Vec::new(alloc);
    match role {
        Role::Primary => {}
        Role::Secondary => {
            out.extend_from_slice(&[OutboundFrame::greeting(role, last_taken(receipts))])?;
        }
    }
    Ok(out)
}

/// Returns, in order, what was sent after the message of a serial.
pub(crate) fn sent_above(
    alloc: Global,
    receipts: &[Receipt],
    last: Counter,
) -> Result<Vec<OutboundFrame>, AllocError>
    ensures { IfOk result (λ out. meanings_of out.items ≡ sends_above last receipts.now) }
{
    let mut out = Vec::new(alloc);
    for receipt in receipts {
        if let Some(handed) = OutboundFrame::above(receipt, last) {
            out.extend_from_slice(&[handed])?;
        }
    }
    Ok(out)
}

impl<'a, B: PairBook> LinkEndpoint<'a, B> {
    /// Returns whether a unit's update is to be sent: there is one, and it wasn't sent yet and isn't held back, or it is
    /// asked for again.
    fn needs_update(
        &self,
        pass: &mut B::Pass,
        duties: &mut SessionState,
        matter: UpdateKind,
        prefix: &Prefix,
    ) -> Result<bool, SessionError>
        ensures pass { B.Pass.receipts pass.new ≡ B.Pass.receipts pass.old }
        ensures out { duties.new.out.items ≡ duties.old.out.items }
    {
        let look = self.look(pass, prefix)?;
        let Some(unit) = &look.unit else {
            return Ok(false);
        };
        let Some(status) = status_of(unit, matter) else {
            return Ok(false);
        };
        if duties.again != ResendRequest::Nothing {
            return Ok(true);
        }
        duties.told.catch_up(pass.receipts())?;
        let raise = duties.told.last_raise(prefix);
        Ok(
            !duties.told.was_sent(prefix, status, unit.mine)
                && !is_held_back(self.policy, self.role, status, raise),
        )
    }

    /// Sends a unit's update, if it is to be sent. None where there is none.
    #[tactic(auto, using(crate::proofs::Saying::saying))]
    pub(crate) fn send_update(
        &self,
        pass: &mut B::Pass,
        duties: &mut SessionState,
        matter: UpdateKind,
        prefix: &Prefix,
    ) -> Result<Option<OrderOutcome>, SessionError>
        ensures { SendsLines (B.Pass.receipts pass.old) (B.Pass.receipts pass.new) duties.old.out.items duties.new.out.items }
    {
        if !self.needs_update(pass, duties, matter, prefix)? {
            return Ok(None);
        }
        let fate = self.order(pass, duties, &Order::SendUpdate(*prefix))?;
        if let OrderOutcome::Done = fate {
            duties.in_flight.add(self.at)?;
        }
        Ok(Some(fate))
    }

    /// Sends each pending reply, the lowest unit's first. False where there was no room for it.
    #[tactic(auto, using(crate::proofs::Saying::saying))]
    fn reply_all(
        &self,
        pass: &mut B::Pass,
        duties: &mut SessionState,
        first: Option<Prefix>,
    ) -> Result<bool, SessionError>
        ensures { SendsLines (B.Pass.receipts pass.old) (B.Pass.receipts pass.new) duties.old.out.items duties.new.out.items }
    {
        let mut next = first;
        for _unit in 0..MOST_UNITS {
            let Some(prefix) = next else {
                return Ok(true);
            };
            if let OrderOutcome::NoRoom = self.order(pass, duties, &Order::SendReply(prefix))? {
                return Ok(false);
            }
            let Some(from) = prefix.first().checked_add(1) else {
                return Ok(true);
            };
            next = self.work(pass, from)?.reply;
        }
        Ok(true)
    }

    /// The lowest unit from an address on of which there is this to tell.
    fn next_of(
        &self,
        pass: &mut B::Pass,
        matter: UpdateKind,
        from: u128,
    ) -> Result<Option<Prefix>, SessionError>
        ensures { B.Pass.receipts pass.new ≡ B.Pass.receipts pass.old }
    {
        let work = self.work(pass, from)?;
        match matter {
            UpdateKind::Mark => Ok(work.mark),
            UpdateKind::Change => Ok(work.change),
        }
    }

    /// Sends the update of each unit of which there is this to tell, the lowest first, from where the round stands.
    #[tactic(auto, using(crate::proofs::Saying::saying))]
    fn send_each_update(
        &self,
        pass: &mut B::Pass,
        duties: &mut SessionState,
        round: &mut UpdateRound,
    ) -> Result<Progress, SessionError>
        ensures { SendsLines (B.Pass.receipts pass.old) (B.Pass.receipts pass.new) duties.old.out.items duties.new.out.items }
    {
        for _unit in 0..MOST_UNITS {
            if duties.in_flight.is_full() {
                return Ok(Progress::Part);
            }
            let Some(prefix) = self.next_of(pass, round.matter, round.from)? else {
                return Ok(Progress::All);
            };
            if let Some(OrderOutcome::NoRoom) = self.send_update(
                pass,
                duties,
                round.matter,
                &prefix,
            )? {
                return Ok(Progress::NoRoom);
            }
            let Some(from) = prefix.first().checked_add(1) else {
                return Ok(Progress::All);
            };
            round.from = from;
        }
        Ok(Progress::Part)
    }

    /// Goes on with a round: each marked unit's update, then each due one.
    #[tactic(auto, using(crate::proofs::Saying::saying))]
    fn continue_round(
        &self,
        pass: &mut B::Pass,
        duties: &mut SessionState,
        round: &mut UpdateRound,
    ) -> Result<Progress, SessionError>
        ensures { SendsLines (B.Pass.receipts pass.old) (B.Pass.receipts pass.new) duties.old.out.items duties.new.out.items }
    {
        if let UpdateKind::Mark = round.matter {
            match self.send_each_update(pass, duties, round)? {
                Progress::All => {}
                progress => return Ok(progress),
            }
            round.matter = UpdateKind::Change;
            round.from = 0;
        }
        self.send_each_update(pass, duties, round)
    }

    /// Returns what there is to do: in a run of a node once the lowest lease that has ended is ended. A daemon's session
    /// ends none: whether the partner may have renewed it, it doesn't know alone.
    #[tactic(auto, using(crate::proofs::Saying::saying))]
    fn work_left(
        &self,
        pass: &mut B::Pass,
        duties: &mut SessionState,
    ) -> Result<PendingWork, SessionError>
        ensures { SendsLines (B.Pass.receipts pass.old) (B.Pass.receipts pass.new) duties.old.out.items duties.new.out.items }
    {
        let work = self.work(pass, 0)?;
        if self.policy == SessionPolicy::Serve {
            return Ok(work);
        }
        let Some(prefix) = &work.expired else {
            return Ok(work);
        };
        self.order(pass, duties, &Order::Expire(*prefix))?;
        self.work(pass, 0)
    }

    /// Notes how far a round came, and that what was asked for again was sent, once it is at its end.
    fn end_round(
        &self,
        duties: &mut SessionState,
        round: &UpdateRound,
        progress: Progress,
    ) -> Result<(), SessionError>
        ensures { meanings_of duties.new.out.items ≡ meanings_of duties.old.out.items }
    {
        duties.round = match progress {
            Progress::Part => Some(*round),
            Progress::All | Progress::NoRoom => None,
        };
        if let Progress::All = progress {
            duties.settled = Some(round.settles);
            match round_end(self.policy, duties.again, !duties.has_told_all) {
                RoundEnd::Silent => {}
                RoundEnd::Done => duties.push_control_frame(FrameKind::UpdateDone)?,
                RoundEnd::DoneOnceUnmarked => duties.owes_done = true,
            }
            duties.has_told_all = true;
            duties.again = ResendRequest::Nothing;
        }
        Ok(())
    }

    /// Goes on with the round over all that is to be told, or begins one.
    #[tactic(auto, using(crate::proofs::Saying::saying))]
    pub(crate) fn send_all_updates(
        &self,
        pass: &mut B::Pass,
        duties: &mut SessionState,
        now: &SentUpTo,
    ) -> Result<(), SessionError>
        ensures { SendsLines (B.Pass.receipts pass.old) (B.Pass.receipts pass.new) duties.old.out.items duties.new.out.items }
    {
        let mut round = match duties.round {
            Some(round) => round,
            None => UpdateRound {
                settles: *now,
                matter: UpdateKind::Mark,
                from: 0,
            },
        };
        let progress = self.continue_round(pass, duties, &mut round)?;
        self.end_round(duties, &round, progress)
    }

    /// How far the lines went when the turn's telling began, and in which term.
    fn told_by_now(
        &self,
        pass: &mut B::Pass,
        duties: &mut SessionState,
        work: &PendingWork,
    ) -> Result<SentUpTo, SessionError>
        ensures pass { B.Pass.receipts pass.new ≡ B.Pass.receipts pass.old }
        ensures out { duties.new.out.items ≡ duties.old.out.items }
    {
        duties.told.catch_up(pass.receipts())?;
        Ok(SentUpTo {
            lines: lines_at(work, pass.receipts().len()),
            term: duties.told.term,
        })
    }

    /// Sends what is to be told: by the new lines where these say it, else by a round.
    #[tactic(auto, using(crate::proofs::Saying::saying))]
    fn tell_by(
        &self,
        pass: &mut B::Pass,
        duties: &mut SessionState,
        now: &SentUpTo,
        standing: Backlog,
    ) -> Result<(), SessionError>
        ensures { SendsLines (B.Pass.receipts pass.old) (B.Pass.receipts pass.new) duties.old.out.items duties.new.out.items }
    {
        match standing {
            Backlog::Empty => Ok(()),
            Backlog::Since(settled) => self.send_updates_since(pass, duties, settled, now),
            Backlog::Unknown => self.send_all_updates(pass, duties, now),
        }
    }

    /// Sends each pending reply and what is to be told, unless no line was added since all was.
    #[tactic(auto, using(crate::proofs::Saying::saying))]
    fn send_replies_and_updates(
        &self,
        pass: &mut B::Pass,
        duties: &mut SessionState,
        work: &PendingWork,
    ) -> Result<(), SessionError>
        ensures { SendsLines (B.Pass.receipts pass.old) (B.Pass.receipts pass.new) duties.old.out.items duties.new.out.items }
    {
        let now = self.told_by_now(pass, duties, work)?;
        let standing = duties.backlog(&now);
        if let Backlog::Empty = standing {
            return Ok(());
        }
        if !self.reply_all(pass, duties, work.reply)? {
            return Ok(());
        }
        self.tell_by(pass, duties, &now, standing)
    }

    /// Ends the lowest lease that has ended, in a run of a node, and sends lines, replies and updates.
    #[tactic(auto, using(crate::proofs::Saying::saying))]
    fn send_lines(&self, pass: &mut B::Pass, duties: &mut SessionState) -> Result<(), SessionError>
        ensures { SendsLines (B.Pass.receipts pass.old) (B.Pass.receipts pass.new) duties.old.out.items duties.new.out.items }
    {
        let work = self.work_left(pass, duties)?;
        self.send_replies_and_updates(pass, duties, &work)?;
        self.finish_round(pass, duties)
    }

    /// Sends what is to be sent: a request for updates, where one is due, and then all else. A turn in which there is
    /// nothing new costs one look at the book.
    #[tactic(auto, using(crate::proofs::Saying::saying))]
    pub(crate) fn send_all(
        &self,
        pass: &mut B::Pass,
        duties: &mut SessionState,
        told_all: bool,
    ) -> Result<(), SessionError>
        ensures { SendsLines (B.Pass.receipts pass.old) (B.Pass.receipts pass.new) duties.old.out.items duties.new.out.items }
    {
        duties.in_flight.let_go(self.at);
        self.ask_for_updates(duties, told_all)?;
        self.send_lines(pass, duties)
    }
}
