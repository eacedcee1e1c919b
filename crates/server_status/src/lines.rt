//! A status as lines for a person, each a name and what it is.

use crate::notices::{Lead, PartnerNotices};
use crate::partner_refusal::LastRefusal;
use crate::status::{ServerStatus, VolumeStatus};
use crate::sync_times::SyncSummary;
use crate::traffic::Traffic;
use crate::units::UnitCounts;
use crate::writing::{push_moment, role_name, roll_name, room_name};
use lead_time::Reading;
use link_notices::{ClockRange, SettingsDifference};
use std::alloc::{AllocError, Global};

/// Appends a line that names a moment.
fn push_at(out: &mut String, alloc: Global, name: &str, moment: Reading) -> Result<(), AllocError> {
    write!(out, "{name}: ")?;
    push_moment(out, alloc, moment)?;
    out.push('\n')
}

/// Appends a line of what is, and since when.
fn push_since(
    out: &mut String,
    alloc: Global,
    name: &str,
    what: &str,
    since: Option<Reading>,
) -> Result<(), AllocError> {
    write!(out, "{name}: {what}")?;
    if let Some(since) = since {
        out.push_str(" since ")?;
        push_moment(out, alloc, since)?;
    }
    out.push('\n')
}

/// Appends a line of counts, each before its name.
fn push_counts(
    out: &mut String,
    name: &str,
    counts: &[(&'static str, u64)],
) -> Result<(), AllocError> {
    write!(out, "{name}:")?;
    let mut comma = "";
    for (what, count) in counts {
        write!(out, "{comma} {count} {what}")?;
        comma = ",";
    }
    out.push('\n')
}

/// Appends whether clients are served, and what the server, its clock and its journal are.
fn push_server(
    out: &mut String,
    alloc: Global,
    status: &ServerStatus<'_>,
) -> Result<(), AllocError> {
    let role = role_name(status.role);
    let clock = status.clock.name();
    let ahead = status.ahead();
    let (serving, journal) = (&status.serving, &status.journal);
    writeln!(out, "serving: {serving}")?;
    writeln!(out, "role: {role}")?;
    push_at(out, alloc, "time", status.reading)?;
    writeln!(out, "clock: {clock}, {ahead} ms ahead of the last line")?;
    writeln!(out, "journal: {journal}")
}

/// Appends what the volume is.
fn push_volume(out: &mut String, alloc: Global, volume: &VolumeStatus) -> Result<(), AllocError> {
    let (number, lines, synced) = (volume.number, volume.lines, volume.synced);
    let (roll, room) = (roll_name(&volume.roll), room_name(&volume.room));
    writeln!(out, "volume: {number}")?;
    writeln!(out, "lines: {lines}, {synced} on the disk")?;
    push_at(out, alloc, "opened", volume.opened)?;
    push_at(out, alloc, "written", volume.written)?;
    writeln!(out, "roll: {roll}")?;
    writeln!(out, "room: {room}")
}

/// Appends what is known of the partner.
fn push_partner(
    out: &mut String,
    alloc: Global,
    status: &ServerStatus<'_>,
) -> Result<(), AllocError> {
    let (standing, link) = (&status.standing, &status.link);
    push_since(out, alloc, "partner", standing.name(), standing.since())?;
    push_since(out, alloc, "link", link.name(), link.since())?;
    match status.heard {
        Some(heard) => push_at(out, alloc, "heard", heard)?,
        None => writeln!(out, "heard: never")?,
    }
    push_refusal(out, alloc, &status.refusal)
}

/// Appends why the partner was refused last, and when.
fn push_refusal(
    out: &mut String,
    alloc: Global,
    refusal: &Option<LastRefusal>,
) -> Result<(), AllocError> {
    let Some(refusal) = refusal else {
        return writeln!(out, "refusal: none");
    };
    let why = refusal.why;
    out.push_str("refusal: ")?;
    push_moment(out, alloc, refusal.at)?;
    writeln!(out, ", {why}")
}

/// Appends which program the partner is.
fn push_program(out: &mut String, program: &Option<(&str, &str)>) -> Result<(), AllocError> {
    match program {
        Some((name, version)) => writeln!(out, "partner_program: {name} {version}"),
        None => writeln!(out, "partner_program: unknown"),
    }
}

/// Appends by how much the partner's clock is ahead.
fn push_partner_clock(out: &mut String, clock: &Option<ClockRange>) -> Result<(), AllocError> {
    match clock {
        Some(range) => {
            let (least, most) = (Lead(range.least), Lead(range.most));
            writeln!(out, "partner_clock: between {least} and {most}")
        }
        None => writeln!(out, "partner_clock: unknown"),
    }
}

/// Appends in what the partner's settings differ.
fn push_differences(
    out: &mut String,
    differences: &[SettingsDifference],
) -> Result<(), AllocError> {
    if differences.is_empty() {
        return writeln!(out, "settings: agree");
    }
    out.push_str("settings: differ in ")?;
    let mut stop = "";
    for difference in differences {
        write!(out, "{stop}{difference}")?;
        stop = "; ";
    }
    out.push('\n')
}

/// Appends what the partner told beside the frames.
fn push_notices(out: &mut String, notices: &PartnerNotices<'_>) -> Result<(), AllocError> {
    let state = notices.state;
    writeln!(out, "notices: {state}")?;
    push_program(out, &notices.program)?;
    push_partner_clock(out, &notices.clock)?;
    match notices.settings {
        Some(differences) => push_differences(out, differences),
        None => writeln!(out, "settings: unknown"),
    }
}

/// Appends how many units are what.
fn push_units(out: &mut String, units: &UnitCounts) -> Result<(), AllocError> {
    let (due, marked) = (units.due, units.marked);
    push_counts(out, "units", &units.named())?;
    writeln!(out, "due: {due}")?;
    writeln!(out, "marked: {marked}")
}

/// Appends what came and what was sent.
fn push_traffic(out: &mut String, traffic: &Traffic) -> Result<(), AllocError> {
    let (unanswered, late, held) = (traffic.unanswered, traffic.late, traffic.held);
    push_counts(out, "messages", &traffic.messages.named())?;
    push_counts(out, "refused", &traffic.faults.named())?;
    push_counts(out, "answers", &traffic.answers.named())?;
    let over_quota = traffic.over_quota;
    writeln!(out, "over_quota: {over_quota}")?;
    writeln!(out, "unanswered: {unanswered}")?;
    writeln!(out, "late: {late}")?;
    writeln!(out, "held: {held}")
}

/// Appends how long syncs took.
fn push_syncs(out: &mut String, syncs: &Option<SyncSummary>) -> Result<(), AllocError> {
    match syncs {
        Some(syncs) => {
            let (count, median, worst) = (syncs.count, syncs.median, syncs.worst);
            writeln!(
                out,
                "syncs: {count} in a minute, median {median} us, worst {worst} us"
            )
        }
        None => writeln!(out, "syncs: none in a minute"),
    }
}

/// Writes lines for a person. `AllocError` where a growth was refused.
pub(crate) fn lines_of(alloc: Global, status: &ServerStatus<'_>) -> Result<String, AllocError> {
    let mut out = String::new(alloc);
    push_server(&mut out, alloc, status)?;
    push_volume(&mut out, alloc, &status.volume)?;
    push_partner(&mut out, alloc, status)?;
    push_notices(&mut out, &status.notices)?;
    push_units(&mut out, &status.units)?;
    push_traffic(&mut out, &status.traffic)?;
    push_syncs(&mut out, &status.syncs)?;
    Ok(out)
}
