//! What a status says of what a server's partner told beside the frames.

use crate::statuses::{serving_with, waiting, waiting_with};
use lead_time::Skew;
use link_notices::{ClockRange, ClockVerdict, SettingsDifference};
use server_status::{NoticeState, PartnerNotices, ServerStatus, StatusFormat};
use std::alloc::Global;
use std::test::Fail;

/// Lines of a status, members of its object `partner`, and lines of metrics.
struct Said {
    lines: &'static str,
    json: &'static str,
    metrics: &'static str,
}

/// Whether a status says this in each form.
fn says(alloc: Global, status: &ServerStatus<'_>, said: &Said) -> Result<bool, Fail> {
    let lines = status.text(alloc, StatusFormat::Lines)?;
    let json = status.text(alloc, StatusFormat::Json)?;
    let metrics = status.text(alloc, StatusFormat::Metrics)?;
    Ok(
        lines.as_str().contains(said.lines)
            && json.as_str().contains(said.json)
            && metrics.as_str().contains(said.metrics),
    )
}

const APART: Said = Said {
    lines: "\
heard: never
refusal: 2026-11-23T19:00:00.000Z, it lacks messages of older volumes, which can't be told again
notices: none, there is no connection
partner_program: unknown
partner_clock: unknown
settings: unknown
units: 0 own",
    json: "\"notices\":\"no_connection\",\"program\":null,\
\"refusal\":{\"at_ms\":1795460400000,\"why\":\"older_volumes\"},\"settings\":null,",
    metrics: "\
fengtuyas_partner_clock{fengtuyas_partner_clock=\"unknown\"} 1
fengtuyas_partner_clock{fengtuyas_partner_clock=\"agrees\"} 0
fengtuyas_partner_clock{fengtuyas_partner_clock=\"differs\"} 0
fengtuyas_partner_clock{fengtuyas_partner_clock=\"unclear\"} 0
",
};

const DIFFERS: Said = Said {
    lines: "\
heard: 2026-11-23T19:01:44.419Z
refusal: none
notices: understood
partner_program: other 2.5.13
partner_clock: between 4001 ms ahead and 4020 ms ahead
settings: differ in skew_ms: 2000 here, 3000 there; life: 3600 here, 7200 there
units: 100 own",
    json: "\
\"partner\":{\"clock\":{\"least_ms\":4001,\"most_ms\":4020},\"connected_since_ms\":1795460500000,\
\"heard_ms\":1795460504419,\"link\":\"connected\",\"notices\":\"understood\",\"program\":\"other 2.5.13\",\
\"refusal\":null,\"settings\":[\"skew_ms\",\"life\"],\"standing\":\"normal\",\"standing_since_ms\":null}",
    metrics: "\
fengtuyas_partner_clock{fengtuyas_partner_clock=\"unknown\"} 0
fengtuyas_partner_clock{fengtuyas_partner_clock=\"agrees\"} 0
fengtuyas_partner_clock{fengtuyas_partner_clock=\"differs\"} 1
fengtuyas_partner_clock{fengtuyas_partner_clock=\"unclear\"} 0
",
};

#[test]
fn says_nothing_is_known_of_a_partner(rt: HostRuntime) -> Result<(), Fail> {
    let Ok(status) = waiting() else {
        panic!(rt; "its readings are small");
    };
    assert!(rt; says(rt.alloc(), &status, &APART)?);
    Ok(())
}

#[test]
fn says_what_its_partner_told(rt: HostRuntime) -> Result<(), Fail> {
    let settings = [
        SettingsDifference::Skew {
            own: Skew::new(2000)?,
            other: Skew::new(3000)?,
        },
        SettingsDifference::Life {
            own: 3600,
            other: 7200,
        },
    ];
    let told = serving_with(PartnerNotices {
        state: NoticeState::Understood,
        program: Some(("other", "2.5.13")),
        clock: Some(ClockRange {
            least: 4001,
            most: 4020,
        }),
        verdict: Some(ClockVerdict::TooFarOff),
        settings: Some(&settings),
    });
    let Ok(status) = told else {
        panic!(rt; "its readings are small");
    };
    assert!(rt; says(rt.alloc(), &status, &DIFFERS)?);
    Ok(())
}

const STATES: [(NoticeState, &str, &str); 4] = [
    (
        NoticeState::Understood,
        "\nnotices: understood\n",
        "\"notices\":\"understood\"",
    ),
    (
        NoticeState::OlderPartner,
        "\nnotices: none, its partner is of an older version\n",
        "\"notices\":\"older_version\"",
    ),
    (
        NoticeState::NoKey,
        "\nnotices: none, link_key is \"none\"\n",
        "\"notices\":\"no_key\"",
    ),
    (
        NoticeState::NoConnection,
        "\nnotices: none, there is no connection\n",
        "\"notices\":\"no_connection\"",
    ),
];

/// What a partner told between which and this server notices go so.
fn in_state(state: NoticeState) -> PartnerNotices<'static> {
    PartnerNotices {
        state,
        program: None,
        clock: None,
        verdict: None,
        settings: None,
    }
}

#[test]
fn says_whether_notices_go(rt: HostRuntime) -> Result<(), Fail> {
    for (state, line, json) in STATES {
        let Ok(status) = waiting_with(in_state(state)) else {
            panic!(rt; "its readings are small");
        };
        let text = status.text(rt.alloc(), StatusFormat::Lines)?;
        assert!(rt; text.as_str().contains(line));
        let text = status.text(rt.alloc(), StatusFormat::Json)?;
        assert!(rt; text.as_str().contains(json));
    }
    Ok(())
}

/// What is known of a partner's clock, and the metric that holds then.
const VERDICTS: [(Option<ClockVerdict>, &str); 4] = [
    (
        None,
        "\nfengtuyas_partner_clock{fengtuyas_partner_clock=\"unknown\"} 1\n",
    ),
    (
        Some(ClockVerdict::Agrees),
        "\nfengtuyas_partner_clock{fengtuyas_partner_clock=\"agrees\"} 1\n",
    ),
    (
        Some(ClockVerdict::TooFarOff),
        "\nfengtuyas_partner_clock{fengtuyas_partner_clock=\"differs\"} 1\n",
    ),
    (
        Some(ClockVerdict::Unknown),
        "\nfengtuyas_partner_clock{fengtuyas_partner_clock=\"unclear\"} 1\n",
    ),
];

/// What a partner told of whose clock this is known.
fn with_verdict(verdict: Option<ClockVerdict>) -> PartnerNotices<'static> {
    PartnerNotices {
        state: NoticeState::Understood,
        program: None,
        clock: None,
        verdict,
        settings: None,
    }
}

#[test]
fn says_what_is_known_of_a_clock(rt: HostRuntime) -> Result<(), Fail> {
    for (verdict, line) in VERDICTS {
        let Ok(status) = waiting_with(with_verdict(verdict)) else {
            panic!(rt; "its readings are small");
        };
        let text = status.text(rt.alloc(), StatusFormat::Metrics)?;
        assert!(rt; text.as_str().contains(line));
    }
    Ok(())
}
