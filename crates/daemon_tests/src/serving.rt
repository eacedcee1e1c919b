//! Whether a server serves, and why not.

use crate::statuses::serving;
use binding_rules::Counter;
use lead_time::Reading;
use link_notices::ClockVerdict;
use prefix_range::{Prefix, read_text};
use server_status::{
    ClockState, JournalShortage, JournalState, NotServing, PartnerState, ServerStatus,
    ServingInput, ServingState, StatusFormat, serving_of,
};
use server_timers::Room;
use std::alloc::Global;
use std::test::Fail;

/// A reason, as a status begins with it, as JSON has it, and as metrics have it.
struct Reason {
    why: NotServing,
    line: &'static str,
    json: &'static str,
    metric: &'static str,
}

const REASONS: [Reason; 9] = [
    Reason {
        why: NotServing::WaitsForPartner,
        line: "serving: no, waits for its partner's answer\nrole: primary\n",
        json: "\"serving\":{\"is\":false,\"why\":\"waits_for_partner\"}",
        metric: "fengtuyas_not_serving{why=\"waits_for_partner\"} 1\n",
    },
    Reason {
        why: NotServing::ClockBehind,
        line: "serving: no, clock behind\nrole: primary\n",
        json: "\"serving\":{\"is\":false,\"why\":\"clock_behind\"}",
        metric: "fengtuyas_not_serving{why=\"clock_behind\"} 1\n",
    },
    Reason {
        why: NotServing::JournalOlder,
        line: "serving: no, journal older than what its partner took\nrole: primary\n",
        json: "\"serving\":{\"is\":false,\"why\":\"journal_older\"}",
        metric: "fengtuyas_not_serving{why=\"journal_older\"} 1\n",
    },
    Reason {
        why: NotServing::VolumeFull,
        line: "serving: no, volume full\nrole: primary\n",
        json: "\"serving\":{\"is\":false,\"why\":\"volume_full\"}",
        metric: "fengtuyas_not_serving{why=\"volume_full\"} 1\n",
    },
    Reason {
        why: NotServing::GoesOnIn { seconds: 21 },
        line: "serving: no, goes on after its restart in 21 s\nrole: primary\n",
        json: "\"serving\":{\"is\":false,\"seconds\":21,\"why\":\"goes_on_after_restart\"}",
        metric: "fengtuyas_not_serving{why=\"goes_on_after_restart\"} 1\n",
    },
    Reason {
        why: NotServing::ClockSet,
        line: "serving: no, clock set\nrole: primary\n",
        json: "\"serving\":{\"is\":false,\"why\":\"clock_set\"}",
        metric: "fengtuyas_not_serving{why=\"clock_set\"} 1\n",
    },
    Reason {
        why: NotServing::AsksPartnerClock,
        line: "serving: no, asks its partner's clock\nrole: primary\n",
        json: "\"serving\":{\"is\":false,\"why\":\"asks_partner_clock\"}",
        metric: "fengtuyas_not_serving{why=\"asks_partner_clock\"} 1\n",
    },
    Reason {
        why: NotServing::PartnerClockDiffers,
        line: "serving: no, its partner's clock differs\nrole: primary\n",
        json: "\"serving\":{\"is\":false,\"why\":\"partner_clock_differs\"}",
        metric: "fengtuyas_not_serving{why=\"partner_clock_differs\"} 1\n",
    },
    Reason {
        why: NotServing::DiskFailed,
        line: "serving: no, disk failed\nrole: primary\n",
        json: "\"serving\":{\"is\":false,\"why\":\"disk_failed\"}",
        metric: "fengtuyas_not_serving{why=\"disk_failed\"} 1\n",
    },
];

/// How many lines of metrics name a reason that holds.
fn reasons_that_hold(text: &str) -> usize {
    let mut count = 0usize;
    for line in text.lines() {
        if line.starts_with("fengtuyas_not_serving{") && line.ends_with(" 1") {
            count = count.saturating_add(1);
        }
    }
    count
}

/// Whether a status says this reason in each form, and metrics no other.
fn says_why(alloc: Global, status: &ServerStatus<'_>, reason: &Reason) -> Result<bool, Fail> {
    let lines = status.text(alloc, StatusFormat::Lines)?;
    let json = status.text(alloc, StatusFormat::Json)?;
    let metrics = status.text(alloc, StatusFormat::Metrics)?;
    Ok(
        lines.as_str().starts_with(reason.line)
            && json.as_str().contains(reason.json)
            && metrics.as_str().contains("\nfengtuyas_serving 0\n")
            && metrics.as_str().contains(reason.metric)
            && reasons_that_hold(metrics.as_str()) == 1,
    )
}

/// The partner took message 512, and this journal sent 498.
fn lacks_messages() -> Option<JournalShortage> {
    Some(JournalShortage::Messages {
        taken: Counter::new(512)?,
        sent: Counter::new(498)?,
    })
}

/// The partner speaks of change 9 of a unit of which this journal made 7.
fn lacks_change(prefix: Prefix) -> Option<JournalShortage> {
    Some(JournalShortage::Change {
        prefix,
        taken: Counter::new(9)?,
        made: Counter::new(7)?,
    })
}

#[test]
fn says_each_reason_in_three_forms(rt: HostRuntime) -> Result<(), Fail> {
    let Ok(mut status) = serving() else {
        panic!(rt; "its readings are small");
    };
    for reason in &REASONS {
        status.serving = ServingState::No(reason.why);
        assert!(rt; says_why(rt.alloc(), &status, reason)?);
    }
    Ok(())
}

/// Whether a status says this of its journal, and JSON and metrics that it is older.
fn says_it_is_older(alloc: Global, status: &ServerStatus<'_>, line: &str) -> Result<bool, Fail> {
    let lines = status.text(alloc, StatusFormat::Lines)?;
    let json = status.text(alloc, StatusFormat::Json)?;
    let metrics = status.text(alloc, StatusFormat::Metrics)?;
    Ok(
        lines.as_str().contains(line)
            && json.as_str().contains("\"journal\":\"older\"")
            && metrics
                .as_str()
                .contains("\nfengtuyas_journal{fengtuyas_journal=\"whole\"} 0\n")
            && metrics
                .as_str()
                .contains("\nfengtuyas_journal{fengtuyas_journal=\"older\"} 1\n"),
    )
}

const LACKS_MESSAGES: &str = "\
clock: right, 1203 ms ahead of the last line
journal: older than what its partner took (it took message 512, this journal sent 498)
volume: 3
";

const LACKS_A_CHANGE: &str = "\
clock: right, 1203 ms ahead of the last line
journal: older than what its partner took (it speaks of change 9 of 2001:db8:1::/56, this journal made 7)
volume: 3
";

#[test]
fn says_what_a_journal_lacks(rt: HostRuntime) -> Result<(), Fail> {
    let prefix = read_text(b"2001:db8:1::/56")?;
    let (Ok(mut status), Some(messages), Some(change)) = (
        serving(),
        lacks_messages(),
        lacks_change(prefix),
    ) else {
        panic!(rt; "its numbers are small");
    };
    status.journal = JournalState::Older(messages);
    assert!(rt; says_it_is_older(rt.alloc(), &status, LACKS_MESSAGES)?);
    status.journal = JournalState::Older(change);
    assert!(rt; says_it_is_older(rt.alloc(), &status, LACKS_A_CHANGE)?);
    Ok(())
}

const OLDER: ServingState = ServingState::No(NotServing::JournalOlder);

const BEHIND: ServingState = ServingState::No(NotServing::ClockBehind);

const SET: ServingState = ServingState::No(NotServing::ClockSet);

const ASKS: ServingState = ServingState::No(NotServing::AsksPartnerClock);

const HOLDS_OFF: ServingState = ServingState::No(NotServing::GoesOnIn { seconds: 21 });

const DIFFERS: ServingState = ServingState::No(NotServing::PartnerClockDiffers);

const WAITS: ServingState = ServingState::No(NotServing::WaitsForPartner);

const FULL: ServingState = ServingState::No(NotServing::VolumeFull);

/// A server with every reason against it.
fn with_every_reason(shortage: JournalShortage, since: Reading) -> ServingInput {
    ServingInput {
        journal: JournalState::Older(shortage),
        clock: ClockState::Behind,
        asks_clock: true,
        goes_on_in: Some(21),
        standing: PartnerState::Waiting { since },
        partner_clock: Some(ClockVerdict::TooFarOff),
        room: Room::Full,
    }
}

/// That server, then each with a reason less than the one before, and what is said of it.
fn with_fewer_reasons(every: ServingInput) -> [(ServingInput, ServingState); 9] {
    let mut whole = every;
    whole.journal = JournalState::Whole;
    let mut set = whole;
    set.clock = ClockState::Set;
    let mut right = set;
    right.clock = ClockState::Right;
    let mut begun = right;
    begun.asks_clock = false;
    let mut waits = begun;
    waits.goes_on_in = None;
    let mut agrees = waits;
    agrees.partner_clock = Some(ClockVerdict::Agrees);
    let mut normal = agrees;
    normal.standing = PartnerState::Normal;
    let mut well = normal;
    well.room = Room::FullWithinHour;
    [
        (every, OLDER),
        (whole, BEHIND),
        (set, SET),
        (right, ASKS),
        (begun, HOLDS_OFF),
        (waits, DIFFERS),
        (agrees, WAITS),
        (normal, FULL),
        (well, ServingState::Yes),
    ]
}

/// A server that takes its partner for down, and has no reason against it.
fn without_reason(since: Reading) -> ServingInput {
    ServingInput {
        journal: JournalState::Whole,
        clock: ClockState::Right,
        asks_clock: false,
        goes_on_in: None,
        standing: PartnerState::Down { since },
        partner_clock: None,
        room: Room::Enough,
    }
}

/// That server, and others with one reason each, and what is said of it.
fn with_one_reason(
    shortage: JournalShortage,
    well: ServingInput,
) -> [(ServingInput, ServingState); 7] {
    let (mut older, mut behind, mut set) = (well, well, well);
    older.journal = JournalState::Older(shortage);
    behind.clock = ClockState::Behind;
    set.clock = ClockState::Set;
    let (mut asks, mut holds_off, mut full) = (well, well, well);
    asks.asks_clock = true;
    holds_off.goes_on_in = Some(21);
    full.room = Room::Full;
    [
        (well, ServingState::Yes),
        (older, OLDER),
        (behind, BEHIND),
        (set, SET),
        (asks, ASKS),
        (holds_off, HOLDS_OFF),
        (full, FULL),
    ]
}

/// Servers that don't wait for their partner, of whose clock something is known, and what is said of them.
fn without_waiting(well: ServingInput) -> [(ServingInput, ServingState); 3] {
    let (mut differs, mut unclear, mut normal) = (well, well, well);
    differs.partner_clock = Some(ClockVerdict::TooFarOff);
    unclear.partner_clock = Some(ClockVerdict::Unknown);
    normal.partner_clock = Some(ClockVerdict::TooFarOff);
    normal.standing = PartnerState::Normal;
    [
        (differs, ServingState::Yes),
        (unclear, ServingState::Yes),
        (normal, ServingState::Yes),
    ]
}

/// Servers that wait for their partner, of whose clock something is known or nothing, and what is said of them.
fn with_waiting(well: ServingInput, since: Reading) -> [(ServingInput, ServingState); 3] {
    let (mut differs, mut unclear, mut unknown) = (well, well, well);
    differs.partner_clock = Some(ClockVerdict::TooFarOff);
    differs.standing = PartnerState::Waiting { since };
    unclear.partner_clock = Some(ClockVerdict::Unknown);
    unclear.standing = PartnerState::Waiting { since };
    unknown.partner_clock = None;
    unknown.standing = PartnerState::Waiting { since };
    [(differs, DIFFERS), (unclear, WAITS), (unknown, WAITS)]
}

/// Whether of each of these servers is said what stands beside it.
fn say_so(servers: &[(ServingInput, ServingState)]) -> bool {
    servers
        .iter()
        .all(|(server, said)| serving_of(server) == *said)
}

#[test]
fn gives_the_first_reason_that_holds(rt: HostRuntime) -> Result<(), Fail> {
    let Some(shortage) = lacks_messages() else {
        panic!(rt; "its numbers are small");
    };
    let since = Reading::new(1_795_460_400_000)?;
    let every = with_every_reason(shortage, since);
    assert!(rt; say_so(&with_fewer_reasons(every)));
    Ok(())
}

#[test]
fn gives_the_one_reason_that_holds(rt: HostRuntime) -> Result<(), Fail> {
    let Some(shortage) = lacks_messages() else {
        panic!(rt; "its numbers are small");
    };
    let since = Reading::new(1_795_460_400_000)?;
    assert!(rt; say_so(&with_one_reason(shortage, without_reason(since))));
    Ok(())
}

#[test]
fn minds_its_partners_clock_where_it_waits(rt: HostRuntime) -> Result<(), Fail> {
    let since = Reading::new(1_795_460_400_000)?;
    assert!(rt; say_so(&without_waiting(without_reason(since))));
    assert!(rt; say_so(&with_waiting(without_reason(since), since)));
    Ok(())
}
