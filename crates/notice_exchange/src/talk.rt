//! One end of a connection over which frames and notices go.

ghost use Rattle.std.specs.Prelude.{◌≡◌, None, IsTrue, IfOk, OnOk, false};
ghost use Rattle.notice_exchange.specs.Talks.{IsOverdue, IsStep, PutsBehind, Talk};

use crate::exchange::{NoticeExchange, PartnerProgram, PartnerSettings};
use crate::stage::{ExchangeStage, KeptApart};
use lead_time::Reading;
use link_notices::{
    ClockRange, ClockVerdict, Notice, NoticeError, ProgramWord, StreamPart, StreamSplitter,
    read_notice,
};
use server_clocks::Moment;
use server_settings::Settings;
use std::alloc::{AllocError, Global};
use std::marker::Model;
use std::time::{Duration, Instant};
use text_fields::Listed;

/// This program, as its partner is told.
const PROGRAM: &str = "fengtuyas";

/// Its version.
const VERSION: &str = "1.0.0";

/// How many seconds pass between two questions while the clocks don't agree.
const SHORT_PAUSE: u64 = 1;

/// How many seconds a partner has to say its settings and what its clock shows.
const LONGEST_OPENING: u64 = 5;

/// What octets of a connection lead to.
#[derive(Drop)]
pub enum LinkEvent {
    /// The two may join: frames may be sent, and are taken, from now on.
    Begins,
    /// Octets of frames.
    Frames(Listed<u8>),
}

/// Why a connection is over.
#[derive(Clone, Copy, Debug, PartialEq, Eq)]
pub enum TalkEnd {
    /// A frame came before the two may join.
    EarlyFrame,
    /// A notice came whose words aren't spelled as it wants.
    Misspelled,
    /// What the partner said keeps the two apart.
    Apart(KeptApart),
    /// A growth was refused.
    Memory,
}

/// What a partner didn't say in time.
#[derive(Clone, Copy, Debug, PartialEq, Eq)]
pub enum Overdue {
    Settings,
    Clock,
}

/// One end of a connection over which frames and notices go: what comes is parted into both, and the notices that are due
/// are given. It reads no clock and no stream. Contracts see what the two have told each other, and whether they may join.
#[derive(Drop)]
pub struct NoticeTalk {
    alloc: Global,
    splitter: StreamSplitter,
    exchange: NoticeExchange,
    /// When the partner's clock was asked last; before its first question a server says its settings.
    asked: Option<Instant>,
    /// Whether it is to be asked again, since a heartbeat is over.
    asks_again: bool,
    may_join: bool,
}

impl Model for NoticeTalk {
    ghost use Rattle.notice_exchange.specs.Talks.{Talk};

    ghost Value = { Talk };

    ghost view = { λ t. record { exchange = t.exchange; may_join = t.may_join } };
}

/// Which program this is. `Memory` where a growth was refused.
fn program(alloc: Global) -> Result<Notice, NoticeError> {
    Ok(Notice::Program {
        name: ProgramWord::new(alloc, PROGRAM.as_bytes())?,
        version: ProgramWord::new(alloc, VERSION.as_bytes())?,
    })
}

/// Takes parts of what came when the clock showed `now`, in order, and puts what they lead to behind what is there. The
/// reason, where the connection is over by one; those after it aren't taken.
#[tactic(auto, using(crate::proofs::Steps::puts_nothing, crate::proofs::Steps::puts_silent, crate::proofs::Steps::puts_event))]
fn take_parts(
    talk: &mut NoticeTalk,
    parts: Vec<StreamPart>,
    now: Reading,
    events: &mut Vec<LinkEvent>,
) -> Result<(), TalkEnd>
    ensures { (reached : Talk) × PutsBehind talk.old reached events.old.items events.new.items
        × OnOk result (talk.new ≡ reached) }
{
    for part in parts {
        match talk.take_part(part, now) {
            Ok(Some(event)) => {
                if events.push(event).is_err() {
                    return Err(TalkEnd::Memory);
                }
            }
            Ok(None) => {}
            Err(end) => return Err(end),
        }
    }
    Ok(())
}

impl NoticeTalk {
    /// The talk of a connection that begins, of a server of these settings. `AllocError` where a growth was refused.
    pub fn new(alloc: Global, settings: &Settings) -> Result<NoticeTalk, AllocError>
        ensures { IfOk result (λ t. t.may_join ≡ false) }
    {
        Ok(NoticeTalk {
            alloc,
            splitter: StreamSplitter::new(alloc),
            exchange: NoticeExchange::new(alloc, settings)?,
            asked: None,
            asks_again: false,
            may_join: false,
        })
    }

    /// Takes octets that came when the clock showed `now`, and puts what they lead to behind what is there. The reason,
    /// where the connection is over; then what came before that was put there.
    pub fn take(
        &mut self,
        octets: &[u8],
        now: Reading,
        events: &mut Vec<LinkEvent>,
    ) -> Result<(), TalkEnd>
        ensures { (reached : Talk) × PutsBehind self.old reached events.old.items events.new.items
            × OnOk result (self.new ≡ reached) }
    {
        let Ok(parts) = self.splitter.feed(octets) else {
            return Err(TalkEnd::Memory);
        };
        take_parts(self, parts, now, events)
    }

    /// Takes a part of what came, and gives what it leads to.
    fn take_part(&mut self, part: StreamPart, now: Reading) -> Result<Option<LinkEvent>, TalkEnd>
        ensures { IfOk result (λ event. IsStep self.old event self.new) }
    {
        match part {
            StreamPart::Frames(octets) if self.may_join => Ok(Some(LinkEvent::Frames(octets))),
            StreamPart::Frames(_) => Err(TalkEnd::EarlyFrame),
            StreamPart::Notice(text) => match read_notice(self.alloc, text.as_slice()) {
                Ok(Some(notice)) => self.take_notice(notice, now),
                Ok(None) => Ok(None),
                Err(NoticeError::Memory) => Err(TalkEnd::Memory),
                Err(_) => Err(TalkEnd::Misspelled),
            },
        }
    }

    /// Takes a notice: the session of frames begins where it lets the two join.
    fn take_notice(&mut self, notice: Notice, now: Reading) -> Result<Option<LinkEvent>, TalkEnd>
        ensures { IfOk result (λ event. IsStep self.old event self.new) }
    {
        match self.exchange.hear(notice, now) {
            Ok(()) => {}
            Err(_) => return Err(TalkEnd::Memory),
        }
        match self.exchange.stage() {
            ExchangeStage::Asks => Ok(None),
            ExchangeStage::Apart(kept) => Err(TalkEnd::Apart(kept)),
            ExchangeStage::Joins if self.may_join => Ok(None),
            ExchangeStage::Joins => {
                self.may_join = true;
                Ok(Some(LinkEvent::Begins))
            }
        }
    }

    /// Asks the partner's clock again, when notices are given next.
    pub fn ask_again(&mut self)
        ensures { self.new ≡ self.old }
    {
        self.asks_again = true;
    }

    /// Returns whether the partner's clock is to be asked: at first; then, once it has answered, each second while the two
    /// clocks don't agree, and when it was told so. A partner that is slow to answer isn't asked anew meanwhile: of its
    /// answers only the one to the last question counts.
    fn is_question_due(&self, now: Instant) -> bool {
        let Some(asked) = self.asked else {
            return true;
        };
        if self.exchange.awaits_answer() {
            return false;
        }
        let agrees = self.exchange.verdict() == Some(ClockVerdict::Agrees);
        self.asks_again
            || (!agrees && now.duration_since(asked) >= Duration::from_secs(SHORT_PAUSE))
    }

    /// Gives the notices that are to be written now, in order: at first which program this is and its settings; answers to
    /// the partner's questions; and the next question, where it is due. `Memory` where a growth was refused.
    pub fn due(&mut self, now: &Moment) -> Result<Vec<Notice>, NoticeError>
        ensures { self.new.may_join ≡ self.old.may_join }
    {
        let mut notices = Vec::new(self.alloc);
        if self.asked.is_none() {
            notices.push(program(self.alloc)?)?;
            notices.push(Notice::Settings(self.exchange.own_settings()?))?;
        }
        for answer in self.exchange.take_answers() {
            notices.push(answer)?;
        }
        if self.is_question_due(now.instant) {
            self.asked = Some(now.instant);
            self.asks_again = false;
            notices.push(self.exchange.ask(now.reading))?;
        }
        Ok(notices)
    }

    /// What the partner of a connection that began then didn't say in time, if it didn't.
    pub fn overdue(&self, begun: Instant, now: Instant) -> Option<Overdue>
        ensures { result ≡ None → IsOverdue begun now → IsTrue self.now.may_join }
    {
        if self.may_join || now.duration_since(begun) < Duration::from_secs(LONGEST_OPENING) {
            return None;
        }
        match self.exchange.settings() {
            None => Some(Overdue::Settings),
            Some(_) => Some(Overdue::Clock),
        }
    }

    /// Returns whether the two may join.
    pub fn may_join(&self) -> bool
        ensures { result ≡ self.now.may_join }
    {
        self.may_join
    }

    /// What the last answer says of the two clocks; none before the partner told its skew and answered.
    pub fn verdict(&self) -> Option<ClockVerdict> {
        self.exchange.verdict()
    }

    /// By how much the partner's clock is ahead, by its last answer.
    pub fn range(&self) -> Option<ClockRange> {
        Some(self.exchange.clock()?.range())
    }

    /// What the partner's settings are worth, once it told them.
    pub fn settings(&self) -> Option<&PartnerSettings> {
        self.exchange.settings()
    }

    /// Which program the partner is, once it told it.
    pub fn program(&self) -> Option<&PartnerProgram> {
        self.exchange.program()
    }
}
