//! What a worker does.

ghost use Rattle.std.specs.Prelude.{◌≡◌, ◌≤◌, List, length, take, IfOk};
ghost use Rattle.failover_session.specs.Receipts.{Goes};
ghost use Rattle.node_threads.specs.Sending.{IsHeard, IsTurn, IsServed};
ghost use Rattle.node_threads.specs.Answered.{unanswered, refused, IsSent, IsReplied};

use crate::clock::Clock;
use crate::error::NodeError;
use crate::mailbox::Mailbox;
use crate::notices::{Notices, tell_any};
use crate::turns::{MOST_TURNS, Turns};
use crate::worker_outcome::WorkerOutcome;
use client_id::Duid;
use client_service::{ClientReply, NoReplyReason, PartnerAvailability, SharedService, answer_to};
use dhcp6_pd::{ClientMessage, decode};
use lead_time::Reading;
use locked_book::{BookName, Pass, ServeError, SharedBook};
use server_book::ReplyPolicy;
use std::alloc::Global;
use std::sync::Wait;

/// The longest datagram, in octets.
const LONGEST: usize = 65_535;

/// What a worker answers by: the server's book and DUID, what it takes its partner for, and its clock.
#[derive(Drop)]
struct Worker<'a, N: BookName, R: Wait, C: Clock> {
    rt: &'a R,
    alloc: Global,
    shared: &'a SharedBook<N>,
    own: &'a Duid,
    partner: PartnerAvailability,
    clock: &'a C,
}

/// What comes of a message that has no answer: where its pass is a stranger to the book, the worker ends.
fn unanswered(why: NoReplyReason) -> Result<WorkerOutcome, NodeError>
    ensures { result ≡ unanswered why }
{
    match why {
        NoReplyReason::NothingRequested => Ok(WorkerOutcome::Unanswered(
            NoReplyReason::NothingRequested,
        )),
        NoReplyReason::UnknownBinding => Ok(WorkerOutcome::Unanswered(
            NoReplyReason::UnknownBinding,
        )),
        NoReplyReason::TooLong => Ok(WorkerOutcome::Unanswered(NoReplyReason::TooLong)),
        NoReplyReason::Memory => Ok(WorkerOutcome::Unanswered(NoReplyReason::Memory)),
        NoReplyReason::Refused(refusal) => refused(refusal),
    }
}

/// What comes of a message whose order ended in what no client is told.
fn refused(refusal: ServeError) -> Result<WorkerOutcome, NodeError>
    ensures { result ≡ refused refusal }
{
    match refusal {
        ServeError::Stranger { .. } => Err(NodeError::Serve(refusal)),
        ServeError::Book(_) | ServeError::Memory => {
            Ok(WorkerOutcome::Unanswered(NoReplyReason::Refused(refusal)))
        }
    }
}

/// Sends an answer.
fn sent<M: Mailbox>(
    mailbox: &mut M,
    answer: ClientReply<M::Peer>,
) -> Result<WorkerOutcome, NodeError>
    ensures { IsSent M.sends M.fails answer mailbox.old mailbox.new result }
{
    match mailbox.send(answer) {
        Ok(()) => Ok(WorkerOutcome::Answered),
        Err(_) => Err(NodeError::Net),
    }
}

impl<'a, N: BookName, R: Wait, C: Clock> Worker<'a, N, R, C> {
    /// Answers a message that came from a peer at a reading.
    fn reply<M: Mailbox>(
        &self,
        pass: &mut Pass<N>,
        mailbox: &mut M,
        peer: M::Peer,
        now: Reading,
        message: &ClientMessage,
    ) -> Result<WorkerOutcome, NodeError>
        ensures heard { IsReplied M.sends M.fails self.now.partner self.now.own.now peer now message.now
            mailbox.old mailbox.new pass.old.receipts pass.new.receipts result }
        ensures goes { Goes pass.old.receipts pass.new.receipts }
    {
        let service = SharedService {
            rt: self.rt,
            book: self.shared,
        };
        let manner = ReplyPolicy::plain(self.alloc);
        match answer_to(
            self.alloc,
            &service,
            pass,
            self.own,
            &manner,
            self.partner,
            &[],
            now,
            message,
            peer,
        ) {
            Ok(answer) => sent(mailbox, answer),
            Err(why) => unanswered(why),
        }
    }

    /// Answers a datagram that came from a peer, where it is a message to the server that has an answer. Only for a
    /// message the time is taken.
    fn answer<M: Mailbox>(
        &self,
        pass: &mut Pass<N>,
        mailbox: &mut M,
        peer: M::Peer,
        datagram: &[u8],
    ) -> Result<WorkerOutcome, NodeError>
        ensures heard { IsHeard M.sends M.fails self.now.partner self.now.own.now peer datagram.now
            mailbox.old mailbox.new pass.old.receipts pass.new.receipts result }
        ensures goes { Goes pass.old.receipts pass.new.receipts }
    {
        let message = match decode(self.alloc, datagram, self.own) {
            Ok(message) => message,
            Err(error) => return Ok(WorkerOutcome::Unread(error)),
        };
        let Ok(now) = self.clock.now() else {
            return Err(NodeError::Net);
        };
        self.reply(pass, mailbox, peer, now, &message)
    }

    /// Waits for a datagram, and answers it.
    fn turn<M: Mailbox>(
        &self,
        pass: &mut Pass<N>,
        mailbox: &mut M,
        buffer: &mut [u8],
    ) -> Result<WorkerOutcome, NodeError>
        ensures turn { IsTurn M.receives M.sends M.fails self.now.partner self.now.own.now
            mailbox.old mailbox.new pass.old.receipts pass.new.receipts result }
        ensures goes { Goes pass.old.receipts pass.new.receipts }
    {
        let Ok((count, peer)) = mailbox.receive(buffer) else {
            return Err(NodeError::Net);
        };
        self.answer(pass, mailbox, peer, &buffer[..count])
    }
}

/// Receives datagrams while there are turns, answers each that is a client's message to the server `own`, and gives
/// how many it received, at most 1,000,000. A turn is one datagram, answered or not: at most one answer is sent for it,
/// to its peer, and what that tells stands in the journal.
///
/// It ends sooner where a call of the mailbox or the clock fails (`Net`), where the buffer finds no memory (`Memory`),
/// or where the pass is a stranger to the book (`Serve`); any other refusal leaves a message without an answer. Of a
/// partner that is down a unit is taken over where no prefix is left. Where a message has no answer since the journal
/// is full, that is told.
pub fn serve_datagrams<N: BookName, R: Wait, M: Mailbox, C: Clock, V: Notices>(
    rt: &R,
    alloc: Global,
    shared: &SharedBook<N>,
    pass: &mut Pass<N>,
    own: &Duid,
    mailbox: &mut M,
    clock: &C,
    turns: &Turns,
    partner: PartnerAvailability,
    notices: &V,
) -> Result<u32, NodeError>
    ensures few { IfOk result (λ received. received ≤ 1000000) }
    ensures served { IsServed M.receives M.sends M.fails partner own.now
        mailbox.old mailbox.new pass.old.receipts pass.new.receipts result }
    ensures goes { Goes pass.old.receipts pass.new.receipts }
{
    let worker = Worker {
        rt,
        alloc,
        shared,
        own,
        partner,
        clock,
    };
    let mut buffer = vec![in alloc; 0u8; LONGEST]?;
    for received in 0..MOST_TURNS {
        if !turns.take(rt) {
            return Ok(received);
        }
        match worker.turn(pass, mailbox, &mut buffer) {
            Ok(heard) => tell_any(notices, heard.notice()),
            Err(why) => return Err(why),
        }
    }
    Ok(MOST_TURNS)
}
