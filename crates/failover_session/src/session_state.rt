//! What an end still owes the other, and what it hands out.

ghost use Rattle.std.specs.Prelude.{◌≡◌, ◌<◌, ◌++◌, ◌∷◌, [], vec_len, vec_capacity, OnOk, OnErr};
ghost use Rattle.failover_session.specs.OutboundFrames.{IsWord, meanings_of, sends_of};

use crate::in_flight::InFlight;
use crate::messages::word;
use crate::outbox::OutboundFrame;
use crate::sent_state::SentState;
use failover_message::FrameKind;
use locked_book::{PendingWork, Receipt};
use std::alloc::{AllocError, Global};
use std::time::Instant;

/// The updates that the partner asked to be told again (RFC 8156, section 5: UPDREQ, UPDREQALL).
#[derive(Clone, Copy, PartialEq, Eq)]
pub(crate) enum ResendRequest {
    Nothing,
    /// Each update that is due.
    Due,
    /// Each update that is due, by a partner that waits after a restart.
    All,
}

/// How many lines the book had: those of other passes, and those of this one.
#[derive(Clone, Copy, PartialEq, Eq)]
pub(crate) struct LineCount {
    pub others: usize,
    pub own: usize,
}

/// The matters that there may be to tell of a unit by an update.
#[derive(Clone, Copy)]
pub(crate) enum UpdateKind {
    /// That it was seized.
    Mark,
    /// What became of it.
    Change,
}

/// What was told: all that the lines up to here left to tell, in this term.
#[derive(Clone, Copy, PartialEq, Eq)]
pub(crate) struct SentUpTo {
    pub lines: LineCount,
    pub term: u32,
}

/// How far it is known what there is to tell.
#[derive(Clone, Copy)]
pub(crate) enum Backlog {
    /// Nothing.
    Empty,
    /// What the lines of this pass since then left.
    Since(SentUpTo),
    /// It has to be looked for: a round is under way, or nobody knows.
    Unknown,
}

/// A round over the units of which there is something to tell: it may go on in a later turn.
#[derive(Clone, Copy)]
pub(crate) struct UpdateRound {
    /// What is told once it is at its end: the lines at which it began. Of later ones a later turn tells.
    pub settles: SentUpTo,
    pub matter: UpdateKind,
    /// The address from which on it goes on.
    pub from: u128,
}

/// What an end owes in one connection, and the frames that are to be written.
#[derive(Drop)]
pub(crate) struct SessionState {
    pub out: Vec<OutboundFrame>,
    /// What the receipts of the end's pass tell.
    pub told: SentState,
    pub again: ResendRequest,
    /// Whether the partner asked for all updates over this connection (UPDREQALL), so that it waits for an answer.
    pub partner_waits: bool,
    /// Whether UPDDONE is to be sent once no unit is marked.
    pub owes_done: bool,
    /// Whether a contact is to be sent once no unit is marked, since the partner's last one asks.
    pub owes_contact: bool,
    /// Whether a POOLREQ is unanswered.
    pub awaits_units: bool,
    /// The round that isn't at its end.
    pub round: Option<UpdateRound>,
    /// How far all is told. None where it isn't known: then a round looks for it.
    pub settled: Option<SentUpTo>,
    /// Whether all that there was to tell was told over this connection.
    pub has_told_all: bool,
    /// When the two had joined, by the first turn in which that is known.
    pub joined: Option<Instant>,
    /// Whether the partner was asked for the updates that are due (UPDREQ).
    pub has_asked: bool,
    pub in_flight: InFlight,
}

/// Returns how many lines other passes and this one have added, where this one has so many receipts.
pub(crate) fn lines_at(work: &PendingWork, receipts: usize) -> LineCount {
    LineCount {
        others: work.lines.saturating_sub(receipts),
        own: receipts,
    }
}

/// Puts a frame behind the others, where there is room.
fn put(out: &mut Vec<OutboundFrame>, handed: &OutboundFrame)
    requires { vec_len out.old < vec_capacity out.old }
    ensures { out.new.items ≡ out.old.items ++ handed.now ∷ [] }
{
    let _in_place = out.extend_from_slice(&[*handed]);
}

impl SessionState {
    /// Those of a connection that begins.
    pub(crate) fn new(alloc: Global) -> SessionState
        ensures { result.out.items ≡ [] }
    {
        SessionState {
            out: Vec::new(alloc),
            told: SentState::nothing(alloc),
            again: ResendRequest::Nothing,
            partner_waits: false,
            owes_done: false,
            owes_contact: false,
            awaits_units: false,
            round: None,
            settled: None,
            has_told_all: false,
            joined: None,
            has_asked: false,
            in_flight: InFlight::none(alloc),
        }
    }

    /// Hands out a frame that has no line in a journal.
    #[tactic(auto, using(crate::proofs::Saying::word_said))]
    pub(crate) fn push_control_frame(&mut self, kind: FrameKind) -> Result<(), AllocError>
        requires { IsWord kind }
        ensures { meanings_of self.new.out.items ≡ meanings_of self.old.out.items }
    {
        let handed = OutboundFrame {
            frame: word(kind),
            number: None,
        };
        self.out.extend_from_slice(&[handed])?;
        Ok(())
    }

    /// Hands out frames, or none of them where a growth is refused.
    #[tactic(auto, using(crate::proofs::Saying::more_said))]
    pub(crate) fn push_frames(&mut self, frames: &[OutboundFrame]) -> Result<(), AllocError>
        ensures said { OnOk result (meanings_of self.new.out.items ≡ meanings_of self.old.out.items ++ meanings_of frames.now) }
        ensures nothing { OnErr result (self.new.out.items ≡ self.old.out.items) }
    {
        self.out.extend_from_slice(frames)?;
        Ok(())
    }

    /// Hands out what a line sends, if it sends anything.
    #[tactic(auto, using(crate::proofs::Saying::one_more))]
    pub(crate) fn send(&mut self, receipt: &Receipt)
        requires { vec_len self.old.out < vec_capacity self.old.out }
        ensures { meanings_of self.new.out.items ≡ meanings_of self.old.out.items ++ sends_of (receipt.now ∷ []) }
    {
        match OutboundFrame::of(receipt) {
            Some(handed) => put(&mut self.out, &handed),
            None => {}
        }
    }

    /// Begins to tell what was asked for again.
    pub(crate) fn begin_again(&mut self, again: ResendRequest)
        ensures { self.new.out.items ≡ self.old.out.items }
    {
        self.again = again;
        self.round = None;
    }

    /// Returns how far it is known what there is to tell at these lines and in this term.
    pub(crate) fn backlog(&self, now: &SentUpTo) -> Backlog {
        if self.again != ResendRequest::Nothing || self.round.is_some() {
            return Backlog::Unknown;
        }
        match self.settled {
            Some(settled) if settled == *now => Backlog::Empty,
            Some(settled) if settled.term == now.term && settled.lines.others == now.lines.others =>
                { Backlog::Since(settled) }
            _ => Backlog::Unknown,
        }
    }
}
