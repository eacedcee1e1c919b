//! The talk of one connection.

ghost use Rattle.std.specs.Prelude.{◌≡◌, ◌++◌, [], false, OnOk, OnErr, IsErrOf};
ghost use Rattle.failover_session.specs.declared.error.SessionError.{SessionError as Error};
ghost use Rattle.failover_session.specs.declared.error.SessionError.TheVariants.{Memory};
ghost use Rattle.failover_session.specs.declared.stage.SessionStage.TheVariants.{Greeting};
ghost use Rattle.failover_session.specs.Receipts.{Goes};
ghost use Rattle.failover_session.specs.OutboundFrames.{meanings_of, opening};
ghost use Rattle.failover_session.specs.Sessions.{SendsLines, met_at, IsGoing};
ghost use Rattle.failover_session.specs.Polling.{IsPoll, IsWholePoll};
ghost use Rattle.failover_session.specs.Shortage.{SaysWhyShort};
ghost use Rattle.failover_session.specs.TellingAll.{HasToldAll};

use crate::book::{PairBook, Receipts};
use crate::error::SessionError;
use crate::link_endpoint::LinkEndpoint;
use crate::link_input::LinkInput;
use crate::outbox::OutboundFrame;
use crate::policy::SessionPolicy;
use crate::sent_state::last_taken;
use crate::session_state::SessionState;
use crate::stage::SessionStage;
use crate::updates_done::says_all;
use binding_rules::Role;
use failover_message::{Feed, LinkError};
use lead_time::Reading;
use server_settings::Settings;
use std::alloc::Global;
use std::marker::Model;
use std::mem;
use std::time::Instant;

/// The talk of one connection with the partner. Contracts see by which policy it judges, the octets that it holds of a frame that hasn't come
/// whole, how far the two ends have come, whether the partner has said that it told all, and the frames that are to be written.
#[derive(Drop)]
pub struct FailoverSession {
    alloc: Global,
    policy: SessionPolicy,
    feed: Feed,
    stage: SessionStage,
    /// Whether the partner has said over this connection that it told all (UPDDONE).
    told_all: bool,
    /// What the monotonic clock showed last, of a daemon's session.
    at: Option<Instant>,
    duties: SessionState,
}

impl Model for FailoverSession {
    ghost use Rattle.failover_session.specs.Polling.{SessionModel};

    ghost Value = { SessionModel };

    ghost view = { λ t. record {
      policy = t.policy;
      held = t.feed;
      stage = t.stage;
      told_all = t.told_all;
      handed = t.duties.out.items;
    } };
}

/// Takes what came, and hands out what follows from it.
#[tactic(auto, using(crate::proofs::Turns::parts))]
fn handle_input<B: PairBook>(
    end: &LinkEndpoint<'_, B>,
    pass: &mut B::Pass,
    feed: &mut Feed,
    stage: &mut SessionStage,
    told_all: &mut bool,
    duties: &mut SessionState,
    came: &LinkInput<'_>,
) -> Result<(), SessionError>
    ensures turn { IsPoll end.now.role came.now feed.old (met_at stage.old) (met_at stage.new)
        (B.Pass.receipts pass.old) (B.Pass.receipts pass.new) duties.old.out.items duties.new.out.items }
    ensures whole { OnOk result (IsGoing stage.new → IsWholePoll end.now.role came.now feed.old feed.new
        (met_at stage.old) (met_at stage.new) (B.Pass.receipts pass.old) (B.Pass.receipts pass.new)
        duties.old.out.items duties.new.out.items) }
    ensures told { OnOk result (HasToldAll came.now feed.old told_all.old told_all.new) }
    ensures untold { OnErr result (told_all.new ≡ told_all.old) }
    ensures why { IsGoing stage.old → SaysWhyShort end.now.policy (B.Pass.receipts pass.new) stage.new }
{
    match came {
        LinkInput::Octets(octets) => {
            let frames = match feed.feed(octets) {
                Ok(frames) => frames,
                Err(LinkError::Memory) => return Err(SessionError::Memory),
                Err(_) => return Err(SessionError::Frame),
            };
            end.handle_frames(pass, duties, stage, &frames)?;
            *told_all = *told_all || says_all(&frames);
            Ok(())
        }
        LinkInput::Idle => end.handle_idle(pass, duties, stage),
        LinkInput::HeartbeatDue => end.handle_heartbeat(pass, duties, stage),
        LinkInput::Closed => {
            *stage = stage.ended();
            Ok(())
        }
    }
}

/// Does one turn: takes what came, and then hands out what is to be sent, where the two ends have joined.
#[tactic(auto, using(crate::proofs::Turns::then))]
fn poll_session<B: PairBook>(
    end: &LinkEndpoint<'_, B>,
    pass: &mut B::Pass,
    feed: &mut Feed,
    stage: &mut SessionStage,
    told_all: &mut bool,
    duties: &mut SessionState,
    came: &LinkInput<'_>,
) -> Result<(), SessionError>
    ensures turn { IsPoll end.now.role came.now feed.old (met_at stage.old) (met_at stage.new)
        (B.Pass.receipts pass.old) (B.Pass.receipts pass.new) duties.old.out.items duties.new.out.items }
    ensures whole { OnOk result (IsGoing stage.new → IsWholePoll end.now.role came.now feed.old feed.new
        (met_at stage.old) (met_at stage.new) (B.Pass.receipts pass.old) (B.Pass.receipts pass.new)
        duties.old.out.items duties.new.out.items) }
    ensures told { OnOk result (HasToldAll came.now feed.old told_all.old told_all.new) }
    ensures why { IsGoing stage.old → SaysWhyShort end.now.policy (B.Pass.receipts pass.new) stage.new }
{
    handle_input(end, pass, feed, stage, told_all, duties, came)?;
    match stage {
        SessionStage::Joined { .. } => end.send_all(pass, duties, *told_all),
        SessionStage::Greeting
        | SessionStage::Refused
        | SessionStage::Ended { .. }
        | SessionStage::Short { .. } => Ok(()),
    }
}

impl FailoverSession {
    /// The talk of a connection that begins, by a policy.
    pub fn new(alloc: Global, policy: SessionPolicy) -> FailoverSession
        ensures { result ≡ record {
          policy = policy;
          held = [];
          stage = Greeting;
          told_all = false;
          handed = [];
        } }
    {
        FailoverSession {
            alloc,
            policy,
            feed: Feed::new(alloc),
            stage: SessionStage::Greeting,
            told_all: false,
            at: None,
            duties: SessionState::new(alloc),
        }
    }

    /// What the monotonic clock shows at the turns that follow. By it a daemon's session counts for how long it waits for
    /// a reply; any other passes it over.
    pub fn see_clock(&mut self, now: Instant)
        ensures { self.new ≡ self.old }
    {
        if self.policy == SessionPolicy::Serve {
            self.at = Some(now);
        }
    }

    /// Returns how far the two ends have come.
    pub fn stage(&self) -> SessionStage
        ensures { result ≡ self.now.stage }
    {
        self.stage
    }

    /// Returns whether the partner has said over this connection that it told all that there was to tell (UPDDONE): by
    /// then this server has taken all of it.
    pub fn partner_told_all(&self) -> bool
        ensures { result ≡ self.now.told_all }
    {
        self.told_all
    }

    /// Returns whether the partner said over this connection that it waits for an answer: it asked for all updates
    /// (UPDREQALL).
    pub fn partner_waits(&self) -> bool {
        self.duties.partner_waits
    }

    /// Says what the primary says first: the serial of the last message that it took. The secondary waits for it.
    /// Where a growth is refused, nothing is said.
    pub fn send_greeting<P: Receipts>(
        &mut self,
        pass: &P,
        settings: &Settings,
    ) -> Result<(), SessionError>
        ensures policy { self.new.policy ≡ self.old.policy }
        ensures stage { self.new.stage ≡ self.old.stage }
        ensures told { self.new.told_all ≡ self.old.told_all }
        ensures held { self.new.held ≡ self.old.held }
        ensures said { OnOk result (meanings_of self.new.handed
            ≡ meanings_of self.old.handed ++ opening settings.now.role (P.receipts pass.now)) }
        ensures nothing { OnErr result (self.new.handed ≡ self.old.handed) }
        ensures memory { (e : Error) → IsErrOf result e → e ≡ Memory }
    {
        self.duties.told.begin(pass.receipts())?;
        match settings.role() {
            Role::Primary => {
                let last = last_taken(pass.receipts());
                self.duties
                    .push_frames(&[OutboundFrame::greeting(Role::Primary, last)])?;
                Ok(())
            }
            Role::Secondary => Ok(()),
        }
    }

    /// Takes what came by a read, and hands out what follows from it: the frames that `take_frames` gives, in their
    /// order. What was sent and taken it knows by the receipts of the pass, which is the same for each connection.
    /// However it ends, the lines that were added take exactly those of the messages that were heard which are newer
    /// than all before, and each is the next by its serial; and what they send is handed out, in order, behind what was
    /// sent above the serial that the partner named.
    ///
    /// `Frame` where what came is no frame or not the one that comes there, its serial jumps, or one of the two has lost
    /// its journal: the stage then tells that it is this one's (`Short`), and by what. The partner took a message that
    /// was never sent; or, of a daemon's session, it is about to be taken that speaks of a change never made.
    /// `Serve` where the pass is a stranger to the book, or the book has no room for a message that came: were that
    /// passed over, a later one would be taken in its place, and this one lost. `Memory` where a growth was refused.
    /// Then the connection has to be ended, behind what was handed out. Any other refusal of the book is passed over.
    pub fn poll<B: PairBook>(
        &mut self,
        book: &B,
        pass: &mut B::Pass,
        settings: &Settings,
        now: Reading,
        came: &LinkInput<'_>,
    ) -> Result<(), SessionError>
        ensures turn { IsPoll settings.now.role came.now self.old.held (met_at self.old.stage) (met_at self.new.stage)
            (B.Pass.receipts pass.old) (B.Pass.receipts pass.new) self.old.handed self.new.handed }
        ensures next { Goes (B.Pass.receipts pass.old) (B.Pass.receipts pass.new) }
        ensures policy { self.new.policy ≡ self.old.policy }
        ensures told { OnOk result (HasToldAll came.now self.old.held self.old.told_all self.new.told_all) }
        ensures why { IsGoing self.old.stage → SaysWhyShort self.old.policy (B.Pass.receipts pass.new) self.new.stage }
        ensures whole { OnOk result (IsGoing self.new.stage → IsWholePoll settings.now.role came.now self.old.held
            self.new.held (met_at self.old.stage) (met_at self.new.stage) (B.Pass.receipts pass.old)
            (B.Pass.receipts pass.new) self.old.handed self.new.handed) }
    {
        let end = LinkEndpoint {
            alloc: self.alloc,
            book,
            role: settings.role(),
            policy: self.policy,
            settings,
            reading: now,
            at: self.at,
        };
        poll_session(
            &end,
            pass,
            &mut self.feed,
            &mut self.stage,
            &mut self.told_all,
            &mut self.duties,
            came,
        )
    }

    /// Gives the frames that are to be written, and keeps none of them.
    pub fn take_frames(&mut self) -> Vec<OutboundFrame>
        ensures given { result.items ≡ self.old.handed }
        ensures none { self.new ≡ record self.old { handed = [] } }
    {
        mem::replace(&mut self.duties.out, Vec::new(self.alloc))
    }
}
