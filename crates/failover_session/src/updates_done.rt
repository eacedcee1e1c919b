//! When an end says that it told all (UPDDONE), and asks the other for what it didn't say (UPDREQ; RFC 8156, section 5).

ghost use Rattle.std.specs.Prelude.{◌≡◌};
ghost use Rattle.failover_session.specs.TellingAll.{says_all, round_end};
ghost use Rattle.failover_session.specs.Waiting.{is_request_due};

use crate::policy::SessionPolicy;
use crate::session_state::ResendRequest;
use failover_message::{Frame, FrameKind};
use std::time::{Duration, Instant};

/// How many milliseconds an end waits until the other says that it told all, before it asks for that.
const LONGEST_TELLING: u64 = 10_000;

/// What is said at the end of a round over all that there is to tell.
#[derive(Clone, Copy, Debug, PartialEq, Eq)]
pub(crate) enum RoundEnd {
    /// Nothing.
    Silent,
    /// UPDDONE, at once.
    Done,
    /// UPDDONE, once no unit is marked.
    DoneOnceUnmarked,
}

/// What is said at the end of a round, which is the first of its connection or isn't: what the partner asked for, and
/// of a daemon's first round without being asked.
pub(crate) fn round_end(policy: SessionPolicy, again: ResendRequest, is_first: bool) -> RoundEnd
    ensures { result ≡ round_end policy again is_first }
{
    match (again, policy) {
        (ResendRequest::Due, _) => RoundEnd::Done,
        (ResendRequest::All, _) => RoundEnd::DoneOnceUnmarked,
        (ResendRequest::Nothing, SessionPolicy::Serve) if is_first => RoundEnd::DoneOnceUnmarked,
        (ResendRequest::Nothing, _) => RoundEnd::Silent,
    }
}

/// Returns whether one of the frames says that the other end told all.
pub(crate) fn says_all(frames: &[Frame]) -> bool
    ensures { result ≡ says_all frames.now }
{
    frames
        .iter()
        .any(|frame| matches!(&frame.kind, FrameKind::UpdateDone))
}

/// Returns whether the other end is asked now for what is due: it didn't say in time that it told all, and wasn't asked
/// before.
pub(crate) fn is_request_due(
    told_all: bool,
    has_asked: bool,
    joined: Option<Instant>,
    now: Option<Instant>,
) -> bool
    ensures { result ≡ is_request_due told_all has_asked joined now }
{
    match (joined, now) {
        (Some(joined), Some(now)) => {
            !told_all
                && !has_asked
                && now.duration_since(joined) >= Duration::from_millis(LONGEST_TELLING)
        }
        _ => false,
    }
}
