//! What is written of a status.

use crate::statuses::{serving, waiting};
use server_status::{StatusFormat, failed_status};
use std::test::Fail;

const SERVING_LINES: &str = "\
serving: yes
role: primary
time: 2026-11-23T19:01:45.623Z
clock: right, 1203 ms ahead of the last line
journal: whole
volume: 3
lines: 1042, 1040 on the disk
opened: 2026-11-23T19:00:00.000Z
written: 2026-11-23T19:01:44.420Z
roll: unit_marked
room: enough
partner: normal
link: connected since 2026-11-23T19:01:40.000Z
heard: 2026-11-23T19:01:44.419Z
refusal: none
notices: understood
partner_program: fengtuyas 1.0.0
partner_clock: between 12 ms behind and 5 ms ahead
settings: agree
units: 100 own, 50 partners, 90 delegated, 12 expired, 4 released
due: 7
marked: 1
messages: 31 solicit, 30 request, 400 renew, 2 rebind, 5 release
refused: 1 short, 0 option_length, 0 duplicate_id, 0 no_client_id, 0 server_id_present, 0 server_id_missing, \
9 not_ours, 0 too_deep, 0 too_many_ias, 0 ignored, 0 bad_prefix_length
answers: 31 advertise, 435 reply
over_quota: 8
unanswered: 2
late: 3
held: 6
syncs: 61 in a minute, median 420 us, worst 1012000 us
";

const WAITING_LINES: &str = "\
serving: no, clock behind
role: secondary
time: 2026-11-23T19:00:00.000Z
clock: behind, -105623 ms ahead of the last line
journal: whole
volume: 1
lines: 2, 2 on the disk
opened: 2026-11-23T19:00:00.000Z
written: 2026-11-23T19:01:45.623Z
roll: not_due
room: full
partner: waiting since 2026-11-23T19:00:00.000Z
link: apart
heard: never
refusal: 2026-11-23T19:00:00.000Z, it lacks messages of older volumes, which can't be told again
notices: none, there is no connection
partner_program: unknown
partner_clock: unknown
settings: unknown
units: 0 own, 0 partners, 0 delegated, 0 expired, 0 released
due: 0
marked: 0
messages: 0 solicit, 0 request, 0 renew, 0 rebind, 0 release
refused: 0 short, 0 option_length, 0 duplicate_id, 0 no_client_id, 0 server_id_present, 0 server_id_missing, \
0 not_ours, 0 too_deep, 0 too_many_ias, 0 ignored, 0 bad_prefix_length
answers: 0 advertise, 0 reply
over_quota: 0
unanswered: 0
late: 0
held: 0
syncs: none in a minute
";

const SERVING_JSON: &str = "\
{\"ahead_ms\":1203,\"answers\":{\"advertise\":31,\"reply\":435},\"clock\":\"right\",\"due\":7,\"held\":6,\
\"journal\":\"whole\",\"late\":3,\"marked\":1,\
\"messages\":{\"rebind\":2,\"release\":5,\"renew\":400,\"request\":30,\"solicit\":31},\
\"over_quota\":8,\"partner\":{\"clock\":{\"least_ms\":-12,\"most_ms\":5},\"connected_since_ms\":1795460500000,\
\"heard_ms\":1795460504419,\"link\":\"connected\",\"notices\":\"understood\",\"program\":\"fengtuyas 1.0.0\",\
\"refusal\":null,\
\"settings\":[],\"standing\":\"normal\",\"standing_since_ms\":null},\"reading_ms\":1795460505623,\
\"refused\":{\"bad_prefix_length\":0,\"duplicate_id\":0,\"ignored\":0,\"no_client_id\":0,\"not_ours\":9,\
\"option_length\":0,\"server_id_missing\":0,\"server_id_present\":0,\"short\":1,\"too_deep\":0,\"too_many_ias\":0},\
\"role\":\"primary\",\"serving\":{\"is\":true},\
\"syncs\":{\"count\":61,\"median_us\":420,\"worst_us\":1012000},\"unanswered\":2,\
\"units\":{\"delegated\":90,\"expired\":12,\"own\":100,\"partners\":50,\"released\":4},\
\"volume\":{\"lines\":1042,\"number\":3,\"opened_ms\":1795460400000,\"roll\":\"unit_marked\",\"room\":\"enough\",\
\"synced\":1040,\"written_ms\":1795460504420}}
";

/// Lines of a status that waits, as OpenMetrics has them, which differ from one that serves.
const WAITING_METRICS: [&str; 13] = [
    "fengtuyas_server_info{role=\"secondary\"} 1\n",
    "fengtuyas_clock{fengtuyas_clock=\"right\"} 0\n",
    "fengtuyas_clock{fengtuyas_clock=\"behind\"} 1\n",
    "fengtuyas_clock_ahead_seconds -105.623\n",
    "fengtuyas_roll{fengtuyas_roll=\"not_due\"} 1\n",
    "fengtuyas_room{fengtuyas_room=\"full\"} 1\n",
    "fengtuyas_partner{fengtuyas_partner=\"waiting\"} 1\n",
    "fengtuyas_partner_since_timestamp_seconds 1795460400.000\n",
    "fengtuyas_link{fengtuyas_link=\"apart\"} 1\n",
    "fengtuyas_partner_refused 1\n",
    "# TYPE fengtuyas_link_connected_timestamp_seconds gauge\n",
    "# TYPE fengtuyas_sync_seconds summary\n",
    "# EOF\n",
];

const SERVING_METRICS: &str = "\
# TYPE fengtuyas_server_info gauge
# HELP fengtuyas_server_info What the server is.
fengtuyas_server_info{role=\"primary\"} 1
# TYPE fengtuyas_clock gauge
# HELP fengtuyas_clock Whether the clock may go on with the journal.
fengtuyas_clock{fengtuyas_clock=\"right\"} 1
fengtuyas_clock{fengtuyas_clock=\"behind\"} 0
fengtuyas_clock{fengtuyas_clock=\"set\"} 0
# TYPE fengtuyas_clock_timestamp_seconds gauge
# UNIT fengtuyas_clock_timestamp_seconds seconds
# HELP fengtuyas_clock_timestamp_seconds What the clock reads.
fengtuyas_clock_timestamp_seconds 1795460505.623
# TYPE fengtuyas_clock_ahead_seconds gauge
# UNIT fengtuyas_clock_ahead_seconds seconds
# HELP fengtuyas_clock_ahead_seconds By how much the clock is ahead of the last line.
fengtuyas_clock_ahead_seconds 1.203
# TYPE fengtuyas_serving gauge
# HELP fengtuyas_serving Whether clients are served.
fengtuyas_serving 1
# TYPE fengtuyas_not_serving gauge
# HELP fengtuyas_not_serving Why nobody is served.
fengtuyas_not_serving{why=\"waits_for_partner\"} 0
fengtuyas_not_serving{why=\"clock_behind\"} 0
fengtuyas_not_serving{why=\"journal_older\"} 0
fengtuyas_not_serving{why=\"volume_full\"} 0
fengtuyas_not_serving{why=\"goes_on_after_restart\"} 0
fengtuyas_not_serving{why=\"clock_set\"} 0
fengtuyas_not_serving{why=\"asks_partner_clock\"} 0
fengtuyas_not_serving{why=\"partner_clock_differs\"} 0
fengtuyas_not_serving{why=\"disk_failed\"} 0
# TYPE fengtuyas_journal gauge
# HELP fengtuyas_journal Whether the journal has all that the partner took of it.
fengtuyas_journal{fengtuyas_journal=\"whole\"} 1
fengtuyas_journal{fengtuyas_journal=\"older\"} 0
# TYPE fengtuyas_volume gauge
# HELP fengtuyas_volume The number of the volume.
fengtuyas_volume 3
# TYPE fengtuyas_volume_lines gauge
# HELP fengtuyas_volume_lines How many lines the volume has.
fengtuyas_volume_lines 1042
# TYPE fengtuyas_volume_synced_lines gauge
# HELP fengtuyas_volume_synced_lines How many of them are on the disk.
fengtuyas_volume_synced_lines 1040
# TYPE fengtuyas_volume_opened_timestamp_seconds gauge
# UNIT fengtuyas_volume_opened_timestamp_seconds seconds
# HELP fengtuyas_volume_opened_timestamp_seconds The reading of the volume's first line.
fengtuyas_volume_opened_timestamp_seconds 1795460400.000
# TYPE fengtuyas_volume_written_timestamp_seconds gauge
# UNIT fengtuyas_volume_written_timestamp_seconds seconds
# HELP fengtuyas_volume_written_timestamp_seconds The reading of the volume's last line.
fengtuyas_volume_written_timestamp_seconds 1795460504.420
# TYPE fengtuyas_roll gauge
# HELP fengtuyas_roll Whether the next volume is due, or what forbids it though it is due.
fengtuyas_roll{fengtuyas_roll=\"not_due\"} 0
fengtuyas_roll{fengtuyas_roll=\"due\"} 0
fengtuyas_roll{fengtuyas_roll=\"partner_down\"} 0
fengtuyas_roll{fengtuyas_roll=\"unit_marked\"} 1
# TYPE fengtuyas_room gauge
# HELP fengtuyas_room How much room the volume has.
fengtuyas_room{fengtuyas_room=\"enough\"} 1
fengtuyas_room{fengtuyas_room=\"full_within_hour\"} 0
fengtuyas_room{fengtuyas_room=\"full\"} 0
# TYPE fengtuyas_partner gauge
# HELP fengtuyas_partner What the server takes its partner for.
fengtuyas_partner{fengtuyas_partner=\"normal\"} 1
fengtuyas_partner{fengtuyas_partner=\"waiting\"} 0
fengtuyas_partner{fengtuyas_partner=\"down\"} 0
# TYPE fengtuyas_partner_since_timestamp_seconds gauge
# UNIT fengtuyas_partner_since_timestamp_seconds seconds
# HELP fengtuyas_partner_since_timestamp_seconds Since when it waits for its partner or takes it for down.
# TYPE fengtuyas_link gauge
# HELP fengtuyas_link How the server is linked to its partner.
fengtuyas_link{fengtuyas_link=\"alone\"} 0
fengtuyas_link{fengtuyas_link=\"apart\"} 0
fengtuyas_link{fengtuyas_link=\"connected\"} 1
# TYPE fengtuyas_link_connected_timestamp_seconds gauge
# UNIT fengtuyas_link_connected_timestamp_seconds seconds
# HELP fengtuyas_link_connected_timestamp_seconds Since when there is a connection.
fengtuyas_link_connected_timestamp_seconds 1795460500.000
# TYPE fengtuyas_partner_heard_timestamp_seconds gauge
# UNIT fengtuyas_partner_heard_timestamp_seconds seconds
# HELP fengtuyas_partner_heard_timestamp_seconds When the partner's last message was taken.
fengtuyas_partner_heard_timestamp_seconds 1795460504.419
# TYPE fengtuyas_partner_refused gauge
# HELP fengtuyas_partner_refused Whether the partner was refused, and no connection has stood for a while since.
fengtuyas_partner_refused 0
# TYPE fengtuyas_partner_clock gauge
# HELP fengtuyas_partner_clock Whether the partner's clock and this one may both be right.
fengtuyas_partner_clock{fengtuyas_partner_clock=\"unknown\"} 0
fengtuyas_partner_clock{fengtuyas_partner_clock=\"agrees\"} 1
fengtuyas_partner_clock{fengtuyas_partner_clock=\"differs\"} 0
fengtuyas_partner_clock{fengtuyas_partner_clock=\"unclear\"} 0
# TYPE fengtuyas_units gauge
# HELP fengtuyas_units How many units are what.
fengtuyas_units{state=\"own\"} 100
fengtuyas_units{state=\"partners\"} 50
fengtuyas_units{state=\"delegated\"} 90
fengtuyas_units{state=\"expired\"} 12
fengtuyas_units{state=\"released\"} 4
# TYPE fengtuyas_due_units gauge
# HELP fengtuyas_due_units Units of which the partner has yet to acknowledge what became.
fengtuyas_due_units 7
# TYPE fengtuyas_marked_units gauge
# HELP fengtuyas_marked_units Seized units that the partner has yet to acknowledge.
fengtuyas_marked_units 1
# TYPE fengtuyas_messages counter
# HELP fengtuyas_messages Messages that were read.
fengtuyas_messages_total{kind=\"solicit\"} 31
fengtuyas_messages_total{kind=\"request\"} 30
fengtuyas_messages_total{kind=\"renew\"} 400
fengtuyas_messages_total{kind=\"rebind\"} 2
fengtuyas_messages_total{kind=\"release\"} 5
# TYPE fengtuyas_refused_datagrams counter
# HELP fengtuyas_refused_datagrams Datagrams that are no message to the server.
fengtuyas_refused_datagrams_total{fault=\"short\"} 1
fengtuyas_refused_datagrams_total{fault=\"option_length\"} 0
fengtuyas_refused_datagrams_total{fault=\"duplicate_id\"} 0
fengtuyas_refused_datagrams_total{fault=\"no_client_id\"} 0
fengtuyas_refused_datagrams_total{fault=\"server_id_present\"} 0
fengtuyas_refused_datagrams_total{fault=\"server_id_missing\"} 0
fengtuyas_refused_datagrams_total{fault=\"not_ours\"} 9
fengtuyas_refused_datagrams_total{fault=\"too_deep\"} 0
fengtuyas_refused_datagrams_total{fault=\"too_many_ias\"} 0
fengtuyas_refused_datagrams_total{fault=\"ignored\"} 0
fengtuyas_refused_datagrams_total{fault=\"bad_prefix_length\"} 0
# TYPE fengtuyas_answers counter
# HELP fengtuyas_answers Answers that were sent.
fengtuyas_answers_total{kind=\"advertise\"} 31
fengtuyas_answers_total{kind=\"reply\"} 435
# TYPE fengtuyas_quota_refusals counter
# HELP fengtuyas_quota_refusals IA_PDs that asked for a prefix which a quota refused.
fengtuyas_quota_refusals_total 8
# TYPE fengtuyas_unanswered_messages counter
# HELP fengtuyas_unanswered_messages Messages without an answer.
fengtuyas_unanswered_messages_total 2
# TYPE fengtuyas_late_answers counter
# HELP fengtuyas_late_answers Answers too late to be sent.
fengtuyas_late_answers_total 3
# TYPE fengtuyas_held_answers gauge
# HELP fengtuyas_held_answers Answers that wait for the disk.
fengtuyas_held_answers 6
# TYPE fengtuyas_sync_seconds summary
# UNIT fengtuyas_sync_seconds seconds
# HELP fengtuyas_sync_seconds How long the syncs of the last minute took.
fengtuyas_sync_seconds{quantile=\"0.5\"} 0.000420
fengtuyas_sync_seconds{quantile=\"1.0\"} 1.012000
# EOF
";

#[test]
fn writes_lines_for_a_person(rt: HostRuntime) -> Result<(), Fail> {
    let Ok(status) = serving() else {
        panic!(rt; "its readings are small");
    };
    assert_eq!(rt;
        status.text(rt.alloc(), StatusFormat::Lines)?.as_str(),
        SERVING_LINES
    );
    let Ok(status) = waiting() else {
        panic!(rt; "its readings are small");
    };
    assert_eq!(rt;
        status.text(rt.alloc(), StatusFormat::Lines)?.as_str(),
        WAITING_LINES
    );
    Ok(())
}

#[test]
fn writes_one_object_of_json(rt: HostRuntime) -> Result<(), Fail> {
    let Ok(status) = serving() else {
        panic!(rt; "its readings are small");
    };
    assert_eq!(rt;
        status.text(rt.alloc(), StatusFormat::Json)?.as_str(),
        SERVING_JSON
    );
    Ok(())
}

#[test]
fn writes_the_text_of_openmetrics(rt: HostRuntime) -> Result<(), Fail> {
    let Ok(status) = serving() else {
        panic!(rt; "its readings are small");
    };
    assert_eq!(rt;
        status.text(rt.alloc(), StatusFormat::Metrics)?.as_str(),
        SERVING_METRICS
    );
    let Ok(status) = waiting() else {
        panic!(rt; "its readings are small");
    };
    let text = status.text(rt.alloc(), StatusFormat::Metrics)?;
    for line in WAITING_METRICS {
        assert!(rt; text.as_str().contains(line));
    }
    Ok(())
}

const FAILED_METRICS: &str = "\
# TYPE fengtuyas_serving gauge
# HELP fengtuyas_serving Whether clients are served.
fengtuyas_serving 0
# TYPE fengtuyas_not_serving gauge
# HELP fengtuyas_not_serving Why nobody is served.
fengtuyas_not_serving{why=\"waits_for_partner\"} 0
fengtuyas_not_serving{why=\"clock_behind\"} 0
fengtuyas_not_serving{why=\"journal_older\"} 0
fengtuyas_not_serving{why=\"volume_full\"} 0
fengtuyas_not_serving{why=\"goes_on_after_restart\"} 0
fengtuyas_not_serving{why=\"clock_set\"} 0
fengtuyas_not_serving{why=\"asks_partner_clock\"} 0
fengtuyas_not_serving{why=\"partner_clock_differs\"} 0
fengtuyas_not_serving{why=\"disk_failed\"} 1
# EOF
";

#[test]
fn says_alone_that_the_disk_failed(rt: HostRuntime) -> Result<(), Fail> {
    let forms = [
        (StatusFormat::Lines, "serving: no, disk failed\n"),
        (
            StatusFormat::Json,
            "{\"serving\":{\"is\":false,\"why\":\"disk_failed\"}}\n",
        ),
        (StatusFormat::Metrics, FAILED_METRICS),
    ];
    for (form, wanted) in forms {
        assert_eq!(rt; failed_status(rt.alloc(), form)?.as_str(), wanted);
    }
    Ok(())
}
