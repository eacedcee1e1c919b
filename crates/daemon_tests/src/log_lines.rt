//! Lines of a server's log, by their levels.

use crate::paper::Paper;
use binding_rules::Counter;
use lead_time::Reading;
use server_log::{DisconnectReason, Log, LogEvent, StateWatch};
use server_status::{JournalShortage, JournalState};
use std::test::Fail;

const LINES: &str = "\
<3>node: serves nobody: its journal lacks messages that its partner took: it was put back from a copy, or is \
another's. Don't begin it again: see \"A lost disk\"
<6>node: goes on alone, as before its restart: its partner is taken for down since 2026-11-29T12:00:00.000Z
<6>node: goes on, as before its restart: its partner has yet to acknowledge units that were seized from it
<6>node: waits 30 s for its partner before it goes on alone
<4>node: ended the connection with its partner: this server's journal lacks messages that the partner took
<4>node: ended the connection with its partner: it doesn't wait, so this journal is an older copy
<3>node: serves nobody: its disk failed
<6>node: stops, as it was told
";

#[test]
fn tells_how_a_server_began_again(rt: HostRuntime) -> Result<(), Fail> {
    let paper = Paper::new(rt.alloc());
    let log = Log::new(rt.alloc(), &paper);
    let events = [
        LogEvent::JournalOlder,
        LogEvent::GoesOnAlone {
            since: Reading::new(1_795_953_600_000)?,
        },
        LogEvent::MarkedGoesOn,
        LogEvent::HoldsOff { seconds: 30 },
        LogEvent::Disconnected(DisconnectReason::JournalOlder),
        LogEvent::Disconnected(DisconnectReason::OldCopy),
        LogEvent::DiskFailed,
        LogEvent::Stops,
    ];
    for event in &events {
        log.log(event);
    }
    assert!(rt; paper.has(LINES));
    Ok(())
}

/// A journal that lacks so many messages.
fn lacking(taken: u64) -> Option<JournalState> {
    Some(JournalState::Older(JournalShortage::Messages {
        taken: Counter::new(taken)?,
        sent: Counter::ZERO,
    }))
}

const OLDER: &str = "\
<3>node: serves nobody: its journal lacks messages that its partner took: it was put back from a copy, or is \
another's. Don't begin it again: see \"A lost disk\"
";

#[test]
fn tells_once_that_a_journal_is_older(rt: HostRuntime) -> Result<(), Fail> {
    let paper = Paper::new(rt.alloc());
    let log = Log::new(rt.alloc(), &paper);
    let (Some(older), Some(later)) = (lacking(5), lacking(6)) else {
        panic!(rt; "its numbers are small");
    };
    let mut watch = StateWatch::new();
    watch.see_journal(&JournalState::Whole, &log);
    assert_eq!(rt; watch.journal(), JournalState::Whole);
    assert!(rt; paper.has(""));
    for seen in [older, older, later, JournalState::Whole] {
        watch.see_journal(&seen, &log);
        assert_eq!(rt; watch.journal(), older);
    }
    assert!(rt; paper.has(OLDER));
    Ok(())
}
