//! What one end of the link does: it reads, has its talk, and writes.

ghost use Rattle.std.specs.Prelude.{◌≡◌, ◌≤◌, false, [], ℕ, length, OnOk};
ghost use Rattle.failover_message.specs.Frames.{frame_octets};
ghost use Rattle.failover_session.specs.OutboundFrames.{opening};
ghost use Rattle.failover_session.specs.Receipts.{Goes};
ghost use Rattle.failover_session.specs.Sessions.{Met, Unmet, met_at, IsGoing};
ghost use Rattle.failover_session.specs.Polling.{octets_of};
ghost use Rattle.failover_session.specs.declared.policy.SessionPolicy.TheVariants.{Run};
ghost use Rattle.failover_session.specs.declared.stage.SessionStage.TheVariants.{Greeting};
ghost use Rattle.node_threads.specs.Reading.{octets_in, HeardAll, HeardOn, AllBehind};
ghost use Rattle.node_threads.specs.Reading.{HeardFront, FrontBehind, HeardTill};
ghost use Rattle.node_threads.specs.Writing.{Carried, MayHear, HasHeard, HandsOut, SaysWords, IsWritten};
ghost use Rattle.node_threads.specs.Writing.{WritesInOrder, HasTold};

use crate::clock::Clock;
use crate::error::{NetFault, NodeError};
use crate::notices::{Notices, tell_any};
use crate::pauses::{IdleTimer, PAUSES_A_SECOND, SilenceTimer};
use crate::turns::Turns;
use crate::watched_book::WatchedBook;
use crate::wire::{Got, Wire};
use binding_rules::Counter;
use failover_message::{Frame, FrameKind, encode};
use failover_session::{FailoverSession, LinkInput, LockedBook, OutboundFrame, SessionPolicy};
use locked_book::{BookName, Pass, SharedBook};
use server_book::Settings;
use std::alloc::Global;
use std::sync::Wait;

/// How many octets are read at once, at most.
const READ_SIZE: usize = 4096;

/// How often an end that goes hears octets, at most.
const LAST_READS: u32 = 1000;

/// One end of the link, but for its connection.
#[derive(Drop)]
struct LinkEnd<'a, N: BookName, R: Wait, C: Clock, V: Notices> {
    alloc: Global,
    book: WatchedBook<'a, LockedBook<'a, N, R>, V>,
    settings: &'a Settings,
    clock: &'a C,
}

/// Writes a frame to the wire.
fn write_frame<W: Wire>(alloc: Global, wire: &mut W, frame: &Frame) -> Result<(), NodeError>
    ensures { IsWritten W.writes W.fails (frame_octets frame.now) wire.old wire.new result }
{
    let Ok(octets) = encode(alloc, frame) else {
        return Err(NodeError::Memory);
    };
    match wire.write(octets.as_slice()) {
        Ok(()) => Ok(()),
        Err(_) => Err(NodeError::Write),
    }
}

/// Writes frames, in their order.
fn write_all<W: Wire>(
    alloc: Global,
    wire: &mut W,
    frames: &[OutboundFrame],
) -> Result<(), NodeError>
    ensures out { HandsOut W.brings W.writes W.fails [] frames.now wire.old wire.new result }
    ensures whole { OnOk result (Carried W.brings W.writes wire.old [] frames.now wire.new) }
{
    for handed in frames {
        match write_frame(alloc, wire, &handed.frame) {
            Ok(()) => {}
            Err(error) => return Err(error),
        }
    }
    Ok(())
}

/// Writes what a talk hands out: the one place where a message leaves.
fn write_out<W: Wire>(
    alloc: Global,
    wire: &mut W,
    talk: &mut FailoverSession,
) -> Result<(), NodeError>
    ensures out { HandsOut W.brings W.writes W.fails [] talk.old.handed wire.old wire.new result }
    ensures whole { OnOk result (Carried W.brings W.writes wire.old [] talk.old.handed wire.new) }
    ensures none { talk.new ≡ record talk.old { handed = [] } }
{
    let frames = talk.take_frames();
    write_all(alloc, wire, &frames)
}

/// Returns what a read brought. When pauses have filled a second, nothing came; before, no octets yet.
fn came<'a>(got: Got, buffer: &'a [u8], pauses: &mut IdleTimer) -> LinkInput<'a>
    requires { (count : ℕ) → got ≡ Got.Octets count → count ≤ length buffer.now }
    ensures { octets_of result ≡ octets_in got buffer.now }
{
    match got {
        Got::Octets(count) => LinkInput::Octets(&buffer[..count]),
        Got::Idle => {
            if pauses.fills_a_second() {
                LinkInput::Idle
            } else {
                LinkInput::Octets(&[])
            }
        }
        Got::End => LinkInput::Closed,
    }
}

impl<'a, N: BookName, R: Wait, C: Clock, V: Notices> LinkEnd<'a, N, R, C, V> {
    /// The talk's turn, and what it hands out, which is written also where the talk ends.
    fn tell<W: Wire>(
        &self,
        pass: &mut Pass<N>,
        talk: &mut FailoverSession,
        came: &LinkInput<'_>,
        wire: &mut W,
    ) -> Result<(), NodeError>
        requires { talk.old.handed ≡ [] }
        ensures told { WritesInOrder W.brings W.writes W.fails
            (FrontBehind talk.old.held (octets_of came.now)) self.now.settings.now.role []
            (met_at talk.old.stage) (met_at talk.new.stage) pass.old.receipts pass.new.receipts wire.old wire.new
            result }
        ensures out { OnOk result (HasTold W.brings W.writes
            (FrontBehind talk.old.held (octets_of came.now)) self.now.settings.now.role []
            (met_at talk.old.stage) (met_at talk.new.stage) pass.old.receipts pass.new.receipts wire.old wire.new) }
        ensures whole { OnOk result (IsGoing talk.new.stage → HasTold W.brings W.writes
            (AllBehind talk.old.held talk.new.held (octets_of came.now))
            self.now.settings.now.role [] (met_at talk.old.stage) (met_at talk.new.stage) pass.old.receipts
            pass.new.receipts wire.old wire.new) }
        ensures none { OnOk result (talk.new.handed ≡ []) }
        ensures goes { Goes pass.old.receipts pass.new.receipts }
    {
        let Ok(now) = self.clock.now() else {
            return Err(NodeError::Net);
        };
        let done = talk.poll(&self.book, pass, self.settings, now, came);
        match write_out(self.alloc, wire, talk) {
            Ok(()) => {}
            Err(error) => return Err(error),
        }
        match done {
            Ok(()) => Ok(()),
            Err(error) => Err(NodeError::from(error)),
        }
    }

    /// One read, and what follows from it.
    fn turn<W: Wire>(
        &self,
        pass: &mut Pass<N>,
        talk: &mut FailoverSession,
        pauses: &mut IdleTimer,
        quiet: &mut SilenceTimer,
        buffer: &mut [u8],
        wire: &mut W,
    ) -> Result<(), NodeError>
        requires { talk.old.handed ≡ [] }
        ensures told { WritesInOrder W.brings W.writes W.fails (HeardFront talk.old.held) self.now.settings.now.role []
            (met_at talk.old.stage) (met_at talk.new.stage) pass.old.receipts pass.new.receipts wire.old wire.new
            result }
        ensures whole { OnOk result (IsGoing talk.new.stage → HasTold W.brings W.writes
            (HeardOn talk.old.held talk.new.held) self.now.settings.now.role [] (met_at talk.old.stage)
            (met_at talk.new.stage) pass.old.receipts pass.new.receipts wire.old wire.new) }
        ensures none { OnOk result (talk.new.handed ≡ []) }
        ensures goes { Goes pass.old.receipts pass.new.receipts }
    {
        let Ok(got) = wire.read(buffer) else {
            return Err(NodeError::Read);
        };
        tell_any(self.book.notices, quiet.notice(&got));
        let came = came(got, buffer, pauses);
        self.tell(pass, talk, &came, wire)
    }

    /// Has one more turn, so that the last answers are told, and says DISCONNECT.
    fn leave<W: Wire>(
        &self,
        pass: &mut Pass<N>,
        talk: &mut FailoverSession,
        buffer: &mut [u8],
        wire: &mut W,
    ) -> Result<(), NodeError>
        requires { talk.old.handed ≡ [] }
        ensures told { WritesInOrder W.brings W.writes W.fails (HeardFront talk.old.held) self.now.settings.now.role []
            (met_at talk.old.stage) (met_at talk.new.stage) pass.old.receipts pass.new.receipts wire.old wire.new
            result }
        ensures goes { Goes pass.old.receipts pass.new.receipts }
    {
        match self.tell(pass, talk, &LinkInput::Octets(&[]), wire) {
            Ok(()) => disconnect(self.alloc, buffer, wire),
            Err(error) => Err(error),
        }
    }

    /// Says what the primary says first: which message it took last.
    fn greet<W: Wire>(
        &self,
        pass: &Pass<N>,
        talk: &mut FailoverSession,
        wire: &mut W,
    ) -> Result<(), NodeError>
        requires { talk.old ≡ record { policy = Run; held = []; stage = Greeting; told_all = false; handed = [] } }
        ensures told { WritesInOrder W.brings W.writes W.fails HeardTill self.now.settings.now.role
            (opening self.now.settings.now.role pass.now.receipts) Unmet Unmet pass.now.receipts pass.now.receipts
            wire.old wire.new result }
        ensures whole { OnOk result (HasTold W.brings W.writes (HeardAll []) self.now.settings.now.role
            (opening self.now.settings.now.role pass.now.receipts) Unmet Unmet pass.now.receipts pass.now.receipts
            wire.old wire.new) }
        ensures talk { OnOk result (talk.new ≡ talk.old) }
    {
        match talk.send_greeting(pass, self.settings) {
            Ok(()) => write_out(self.alloc, wire, talk),
            Err(error) => Err(NodeError::from(error)),
        }
    }
}

/// Waits for octets, at most a second.
fn hear_in_a_second<W: Wire>(buffer: &mut [u8], wire: &mut W) -> Result<Got, NetFault>
    ensures heard { OnOk result (MayHear W.brings W.writes wire.old wire.new) }
    ensures ended { HasHeard W.brings W.writes W.fails wire.old wire.new }
{
    for _ in 0..PAUSES_A_SECOND {
        match wire.read(buffer) {
            Ok(Got::Idle) => {}
            Ok(got) => return Ok(got),
            Err(fault) => return Err(fault),
        }
    }
    Ok(Got::Idle)
}

/// Reads on until the other end has closed or is quiet for a second.
fn hear_out<W: Wire>(buffer: &mut [u8], wire: &mut W)
    ensures { HasHeard W.brings W.writes W.fails wire.old wire.new }
{
    for _ in 0..LAST_READS {
        match hear_in_a_second(buffer, wire) {
            Ok(Got::Octets(_)) => {}
            Ok(Got::Idle | Got::End) | Err(_) => return,
        }
    }
}

/// Says DISCONNECT, and reads on until the other end has closed or is quiet for a second. What still comes isn't taken:
/// but a connection that is closed with octets unread may lose what was written last.
fn disconnect<W: Wire>(alloc: Global, buffer: &mut [u8], wire: &mut W) -> Result<(), NodeError>
    ensures { SaysWords W.brings W.writes W.fails wire.old wire.new result }
{
    let frame = Frame {
        term: 0,
        serial: Counter::ZERO,
        kind: FrameKind::Disconnect,
    };
    match write_frame(alloc, wire, &frame) {
        Ok(()) => {
            hear_out(buffer, wire);
            Ok(())
        }
        Err(error) => Err(error),
    }
}

/// Joins the other end of the link and tells it of this one's book, until the wire's end, a DISCONNECT, or a turn after
/// `Turns::end`, at which it has one more turn and says DISCONNECT itself. What is new in the book it tells at the
/// next pause of the wire. What it sent and took it knows by the receipts of its pass, which is the same for each
/// connection.
///
/// However it ends, receipts were added to the pass and none changed. The messages that they take are those that came
/// in whole frames and are newer than all before, in their order, but for some of the last read. What it wrote are
/// frames: first this server's greeting, which names the last message that it took; then what was sent above the
/// serial that the partner named, and what the added receipts say, in their order; none is left out, but for the rest
/// of them where a write failed or memory lacked. No other greeting and no other message was written.
///
/// It ends sooner where the clock fails (`Net`), a read fails or brings what is no frame or not the frame that comes
/// there (`Read`), a write fails (`Write`), a growth is refused (`Memory`), or the pass is a stranger to the book or
/// the book has no room for a message that came (`Serve`): were that passed over, a later one would be taken in its
/// place, and this one lost. Any other refusal of the book is passed over.
///
/// It tells that the journal is full where an order of the talk's is refused for it, that the partner is silent behind
/// ten seconds without octets, and that the settings differ where a move is refused or what is told of is no unit.
pub fn serve_link<N: BookName, R: Wait, C: Clock, V: Notices, W: Wire>(
    rt: &R,
    alloc: Global,
    shared: &SharedBook<N>,
    pass: &mut Pass<N>,
    settings: &Settings,
    clock: &C,
    turns: &Turns,
    notices: &V,
    wire: &mut W,
) -> Result<(), NodeError>
    ensures told { (met : Met) × WritesInOrder W.brings W.writes W.fails HeardTill settings.now.role
        (opening settings.now.role pass.old.receipts) Unmet met pass.old.receipts pass.new.receipts wire.old wire.new
        result }
    ensures goes { Goes pass.old.receipts pass.new.receipts }
{
    let book = LockedBook { rt, shared };
    let end = LinkEnd {
        alloc,
        book: WatchedBook {
            book: &book,
            notices,
        },
        settings,
        clock,
    };
    let Ok(mut buffer) = vec![in alloc; 0u8; READ_SIZE] else {
        return Err(NodeError::Memory);
    };
    let mut talk = FailoverSession::new(alloc, SessionPolicy::Run);
    let mut pauses = IdleTimer::new();
    let mut quiet = SilenceTimer::new();
    match end.greet(pass, &mut talk, wire) {
        Ok(()) => {}
        Err(error) => return Err(error),
    }
    for _ in rt.forever() {
        if turns.has_ended(rt) {
            return end.leave(pass, &mut talk, &mut buffer, wire);
        }
        match end.turn(pass, &mut talk, &mut pauses, &mut quiet, &mut buffer, wire) {
            Ok(()) => {}
            Err(error) => return Err(error),
        }
        if talk.stage().has_ended() {
            return Ok(());
        }
    }
    unreachable!()
}
