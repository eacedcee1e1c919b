//! A status as text that is OpenMetrics, and that readers of Prometheus's text format 0.0.4 take too.

use crate::notices::{VERDICTS, verdict_name};
use crate::serving::{NotServing, ServingState};
use crate::status::{ClockState, ServerStatus, VolumeStatus};
use crate::sync_times::SyncSummary;
use crate::traffic::Traffic;
use crate::units::UnitCounts;
use crate::writing::{role_name, roll_name, room_name};
use lead_time::Reading;
use link_notices::ClockVerdict;
use std::alloc::{AllocError, Global};

/// Begins a family of metrics.
fn push_family(out: &mut String, name: &str, kind: &str, help: &str) -> Result<(), AllocError> {
    writeln!(out, "# TYPE fengtuyas_{name} {kind}")?;
    writeln!(out, "# HELP fengtuyas_{name} {help}")
}

/// Begins a family of metrics in seconds, as its name says.
fn push_seconds_family(
    out: &mut String,
    name: &str,
    kind: &str,
    help: &str,
) -> Result<(), AllocError> {
    writeln!(out, "# TYPE fengtuyas_{name} {kind}")?;
    writeln!(out, "# UNIT fengtuyas_{name} seconds")?;
    writeln!(out, "# HELP fengtuyas_{name} {help}")
}

/// Appends a family of one gauge.
fn push_gauge(out: &mut String, name: &str, help: &str, value: u64) -> Result<(), AllocError> {
    push_family(out, name, "gauge", help)?;
    writeln!(out, "fengtuyas_{name} {value}")
}

/// Appends a family of one counter.
fn push_counter(out: &mut String, name: &str, help: &str, value: u64) -> Result<(), AllocError> {
    push_family(out, name, "counter", help)?;
    writeln!(out, "fengtuyas_{name}_total {value}")
}

/// Appends a family of counters, one for each kind.
fn push_counters(
    out: &mut String,
    name: &str,
    help: &str,
    label: &str,
    counts: &[(&'static str, u64)],
) -> Result<(), AllocError> {
    push_family(out, name, "counter", help)?;
    for (kind, count) in counts {
        writeln!(out, "fengtuyas_{name}_total{{{label}=\"{kind}\"}} {count}")?;
    }
    Ok(())
}

/// Appends a family that says which of its states holds.
fn push_states(
    out: &mut String,
    name: &str,
    help: &str,
    states: &[&'static str],
    state: &str,
) -> Result<(), AllocError> {
    push_family(out, name, "gauge", help)?;
    for other in states {
        let holds = if *other == state { 1 } else { 0 };
        writeln!(
            out,
            "fengtuyas_{name}{{fengtuyas_{name}=\"{other}\"}} {holds}"
        )?;
    }
    Ok(())
}

/// Appends a family that is a moment, if there is one, in seconds since 1970.
fn push_moment(
    out: &mut String,
    name: &str,
    help: &str,
    moment: Option<Reading>,
) -> Result<(), AllocError> {
    push_seconds_family(out, name, "gauge", help)?;
    let Some(moment) = moment else {
        return Ok(());
    };
    let milliseconds = moment.milliseconds();
    let (seconds, part) = (milliseconds / 1000, milliseconds % 1000);
    writeln!(out, "fengtuyas_{name} {seconds}.{part:03}")
}

/// Appends what the server and its clock are.
fn push_server(out: &mut String, status: &ServerStatus<'_>) -> Result<(), AllocError> {
    let role = role_name(status.role);
    push_family(out, "server_info", "gauge", "What the server is.")?;
    writeln!(out, "fengtuyas_server_info{{role=\"{role}\"}} 1")?;
    push_states(
        out,
        "clock",
        "Whether the clock may go on with the journal.",
        &ClockState::NAMES,
        status.clock.name(),
    )?;
    push_moment(
        out,
        "clock_timestamp_seconds",
        "What the clock reads.",
        Some(status.reading),
    )
}

/// Appends how far the clock is ahead of the last line.
fn push_ahead(out: &mut String, ahead: i64) -> Result<(), AllocError> {
    let sign = if ahead < 0 { "-" } else { "" };
    let milliseconds = ahead.unsigned_abs();
    let (seconds, part) = (milliseconds / 1000, milliseconds % 1000);
    push_seconds_family(
        out,
        "clock_ahead_seconds",
        "gauge",
        "By how much the clock is ahead of the last line.",
    )?;
    writeln!(
        out,
        "fengtuyas_clock_ahead_seconds {sign}{seconds}.{part:03}"
    )
}

/// Appends whether clients are served, and each reason why they aren't.
pub(crate) fn push_serving(out: &mut String, serving: &ServingState) -> Result<(), AllocError> {
    let why = serving.why_not();
    let serves = if why.is_none() { 1 } else { 0 };
    push_gauge(out, "serving", "Whether clients are served.", serves)?;
    push_family(out, "not_serving", "gauge", "Why nobody is served.")?;
    for other in &NotServing::NAMES {
        let holds = if why == Some(*other) { 1 } else { 0 };
        writeln!(out, "fengtuyas_not_serving{{why=\"{other}\"}} {holds}")?;
    }
    Ok(())
}

/// Appends whether the journal has all that the partner took of it.
fn push_journal(out: &mut String, journal: &str) -> Result<(), AllocError> {
    push_states(
        out,
        "journal",
        "Whether the journal has all that the partner took of it.",
        &["whole", "older"],
        journal,
    )
}

/// Appends how long the volume is, and since when it is.
fn push_volume(out: &mut String, volume: &VolumeStatus) -> Result<(), AllocError> {
    let (lines, synced) = (volume.lines as u64, volume.synced as u64);
    push_gauge(
        out,
        "volume",
        "The number of the volume.",
        u64::from(volume.number),
    )?;
    push_gauge(out, "volume_lines", "How many lines the volume has.", lines)?;
    push_gauge(
        out,
        "volume_synced_lines",
        "How many of them are on the disk.",
        synced,
    )?;
    push_moment(
        out,
        "volume_opened_timestamp_seconds",
        "The reading of the volume's first line.",
        Some(volume.opened),
    )?;
    push_moment(
        out,
        "volume_written_timestamp_seconds",
        "The reading of the volume's last line.",
        Some(volume.written),
    )
}

/// Appends what is owed of a roll, and how much room there is.
fn push_limits(out: &mut String, volume: &VolumeStatus) -> Result<(), AllocError> {
    push_states(
        out,
        "roll",
        "Whether the next volume is due, or what forbids it though it is due.",
        &["not_due", "due", "partner_down", "unit_marked"],
        roll_name(&volume.roll),
    )?;
    push_states(
        out,
        "room",
        "How much room the volume has.",
        &["enough", "full_within_hour", "full"],
        room_name(&volume.room),
    )
}

/// Appends what is known of the partner.
fn push_partner(out: &mut String, status: &ServerStatus<'_>) -> Result<(), AllocError> {
    push_states(
        out,
        "partner",
        "What the server takes its partner for.",
        &["normal", "waiting", "down"],
        status.standing.name(),
    )?;
    push_moment(
        out,
        "partner_since_timestamp_seconds",
        "Since when it waits for its partner or takes it for down.",
        status.standing.since(),
    )?;
    push_states(
        out,
        "link",
        "How the server is linked to its partner.",
        &["alone", "apart", "connected"],
        status.link.name(),
    )?;
    push_moment(
        out,
        "link_connected_timestamp_seconds",
        "Since when there is a connection.",
        status.link.since(),
    )?;
    push_moment(
        out,
        "partner_heard_timestamp_seconds",
        "When the partner's last message was taken.",
        status.heard,
    )?;
    push_gauge(
        out,
        "partner_refused",
        "Whether the partner was refused, and no connection has stood for a while since.",
        if status.refusal.is_some() { 1 } else { 0 },
    )
}

/// Appends what is known of the partner's clock.
fn push_partner_clock(out: &mut String, verdict: Option<ClockVerdict>) -> Result<(), AllocError> {
    push_states(
        out,
        "partner_clock",
        "Whether the partner's clock and this one may both be right.",
        &VERDICTS,
        verdict_name(verdict),
    )
}

/// Appends how many units are what.
fn push_units(out: &mut String, units: &UnitCounts) -> Result<(), AllocError> {
    push_family(out, "units", "gauge", "How many units are what.")?;
    for (state, count) in &units.named() {
        writeln!(out, "fengtuyas_units{{state=\"{state}\"}} {count}")?;
    }
    push_gauge(
        out,
        "due_units",
        "Units of which the partner has yet to acknowledge what became.",
        units.due,
    )?;
    push_gauge(
        out,
        "marked_units",
        "Seized units that the partner has yet to acknowledge.",
        units.marked,
    )
}

/// Appends what came and what was sent.
fn push_traffic(out: &mut String, traffic: &Traffic) -> Result<(), AllocError> {
    push_counters(
        out,
        "messages",
        "Messages that were read.",
        "kind",
        &traffic.messages.named(),
    )?;
    push_counters(
        out,
        "refused_datagrams",
        "Datagrams that are no message to the server.",
        "fault",
        &traffic.faults.named(),
    )?;
    push_counters(
        out,
        "answers",
        "Answers that were sent.",
        "kind",
        &traffic.answers.named(),
    )?;
    push_counter(
        out,
        "quota_refusals",
        "IA_PDs that asked for a prefix which a quota refused.",
        traffic.over_quota,
    )?;
    push_counter(
        out,
        "unanswered_messages",
        "Messages without an answer.",
        traffic.unanswered,
    )?;
    push_counter(
        out,
        "late_answers",
        "Answers too late to be sent.",
        traffic.late,
    )?;
    push_gauge(
        out,
        "held_answers",
        "Answers that wait for the disk.",
        traffic.held,
    )
}

/// Appends a quantile of how long syncs took.
fn push_quantile(out: &mut String, quantile: &str, microseconds: u64) -> Result<(), AllocError> {
    let (seconds, part) = (microseconds / 1_000_000, microseconds % 1_000_000);
    writeln!(
        out,
        "fengtuyas_sync_seconds{{quantile=\"{quantile}\"}} {seconds}.{part:06}"
    )
}

/// Appends how long syncs took.
fn push_syncs(out: &mut String, syncs: &Option<SyncSummary>) -> Result<(), AllocError> {
    push_seconds_family(
        out,
        "sync_seconds",
        "summary",
        "How long the syncs of the last minute took.",
    )?;
    let Some(syncs) = syncs else {
        return Ok(());
    };
    push_quantile(out, "0.5", syncs.median)?;
    push_quantile(out, "1.0", syncs.worst)
}

/// Writes the text of OpenMetrics. `AllocError` where a growth was refused.
pub(crate) fn metrics_of(alloc: Global, status: &ServerStatus<'_>) -> Result<String, AllocError> {
    let mut out = String::new(alloc);
    push_server(&mut out, status)?;
    push_ahead(&mut out, status.ahead())?;
    push_serving(&mut out, &status.serving)?;
    push_journal(&mut out, status.journal.name())?;
    push_volume(&mut out, &status.volume)?;
    push_limits(&mut out, &status.volume)?;
    push_partner(&mut out, status)?;
    push_partner_clock(&mut out, status.notices.verdict)?;
    push_units(&mut out, &status.units)?;
    push_traffic(&mut out, &status.traffic)?;
    push_syncs(&mut out, &status.syncs)?;
    writeln!(out, "# EOF")?;
    Ok(out)
}
