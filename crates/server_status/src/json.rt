//! A status as JSON. Readings are in milliseconds since 1970, and what there isn't is `null`.

use crate::notices::PartnerNotices;
use crate::partner_refusal::LastRefusal;
use crate::serving::{NotServing, ServingState};
use crate::status::{ServerStatus, VolumeStatus};
use crate::sync_times::SyncSummary;
use crate::traffic::Traffic;
use crate::units::UnitCounts;
use crate::writing::{role_name, roll_name, room_name};
use lead_time::Reading;
use link_notices::{ClockRange, SettingsDifference};
use serde_json::{Map, ToValue, Value, json, put};
use std::alloc::{AllocError, Global};

/// A reading, or null.
fn reading_or_null(reading: Option<Reading>) -> Value {
    match reading {
        Some(reading) => Value::from(reading.milliseconds()),
        None => Value::Null,
    }
}

/// An object of counts.
fn counts_of(alloc: Global, counts: &[(&'static str, u64)]) -> Result<Value, AllocError> {
    let mut object = Map::new(alloc);
    for (name, count) in counts {
        put(&mut object, alloc, name, Value::from(*count))?;
    }
    Ok(Value::Object(object))
}

/// Whether clients are served, and why not.
pub(crate) fn serving_value(alloc: Global, serving: &ServingState) -> Result<Value, AllocError> {
    match serving {
        ServingState::Yes => json!(in alloc; { "is": true }),
        ServingState::No(why) => match why {
            NotServing::GoesOnIn { seconds } => {
                json!(in alloc; { "is": false, "why": why.name(), "seconds": *seconds })
            }
            _ => json!(in alloc; { "is": false, "why": why.name() }),
        },
    }
}

fn volume_of(alloc: Global, volume: &VolumeStatus) -> Result<Value, AllocError> {
    json!(in alloc; {
        "number": volume.number,
        "lines": volume.lines as u64,
        "synced": volume.synced as u64,
        "opened_ms": volume.opened.milliseconds(),
        "written_ms": volume.written.milliseconds(),
        "roll": roll_name(&volume.roll),
        "room": room_name(&volume.room)
    })
}

fn syncs_of(alloc: Global, syncs: &Option<SyncSummary>) -> Result<Value, AllocError> {
    match syncs {
        Some(syncs) => json!(in alloc; {
            "count": syncs.count as u64,
            "median_us": syncs.median,
            "worst_us": syncs.worst
        }),
        None => Ok(Value::Null),
    }
}

/// Puts a value at a name of an object.
fn add<V: ToValue>(
    alloc: Global,
    object: &mut Map<String, Value>,
    name: &str,
    value: V,
) -> Result<(), AllocError> {
    let value = value.to_value(alloc)?;
    put(object, alloc, name, value)
}

/// Puts what the server is, what its clock shows, and whether its journal is whole.
fn add_server(
    alloc: Global,
    object: &mut Map<String, Value>,
    status: &ServerStatus<'_>,
) -> Result<(), AllocError> {
    add(alloc, object, "role", role_name(status.role))?;
    add(alloc, object, "reading_ms", status.reading.milliseconds())?;
    add(alloc, object, "clock", status.clock.name())?;
    add(alloc, object, "ahead_ms", status.ahead())?;
    add(alloc, object, "journal", status.journal.name())
}

/// Between how many milliseconds ahead the partner's clock is, or null.
fn range_or_null(alloc: Global, range: &Option<ClockRange>) -> Result<Value, AllocError> {
    match range {
        Some(range) => json!(in alloc; { "least_ms": range.least, "most_ms": range.most }),
        None => Ok(Value::Null),
    }
}

/// Which program the partner is, or null.
fn program_or_null(alloc: Global, program: &Option<(&str, &str)>) -> Result<Value, AllocError> {
    match program {
        Some((name, version)) => Ok(Value::String(format!(in alloc; "{name} {version}")?)),
        None => Ok(Value::Null),
    }
}

/// A list of the names of settings.
fn names_of(alloc: Global, differences: &[SettingsDifference]) -> Result<Value, AllocError> {
    let mut names = Vec::new(alloc);
    for difference in differences {
        names.push(difference.name().to_value(alloc)?)?;
    }
    Ok(Value::Array(names))
}

/// Why the partner was refused last, and when, or null.
fn refusal_or_null(alloc: Global, refusal: &Option<LastRefusal>) -> Result<Value, AllocError> {
    match refusal {
        Some(refusal) => json!(in alloc; {
            "at_ms": refusal.at.milliseconds(),
            "why": refusal.why.name()
        }),
        None => Ok(Value::Null),
    }
}

/// Puts what the server takes its partner for, and how it is linked to it.
fn add_standing(
    alloc: Global,
    object: &mut Map<String, Value>,
    status: &ServerStatus<'_>,
) -> Result<(), AllocError> {
    let since = reading_or_null(status.standing.since());
    add(alloc, object, "standing", status.standing.name())?;
    add(alloc, object, "standing_since_ms", since)?;
    let since = reading_or_null(status.link.since());
    add(alloc, object, "link", status.link.name())?;
    add(alloc, object, "connected_since_ms", since)?;
    add(alloc, object, "heard_ms", reading_or_null(status.heard))?;
    let refusal = refusal_or_null(alloc, &status.refusal)?;
    add(alloc, object, "refusal", refusal)
}

/// Puts what the partner told beside the frames.
fn add_notices(
    alloc: Global,
    object: &mut Map<String, Value>,
    notices: &PartnerNotices<'_>,
) -> Result<(), AllocError> {
    let clock = range_or_null(alloc, &notices.clock)?;
    let program = program_or_null(alloc, &notices.program)?;
    let settings = match notices.settings {
        Some(differences) => names_of(alloc, differences)?,
        None => Value::Null,
    };
    add(alloc, object, "notices", notices.state.name())?;
    add(alloc, object, "clock", clock)?;
    add(alloc, object, "program", program)?;
    add(alloc, object, "settings", settings)
}

/// What is known of the partner, as an object.
fn partner_of(alloc: Global, status: &ServerStatus<'_>) -> Result<Map<String, Value>, AllocError> {
    let mut object = Map::new(alloc);
    add_standing(alloc, &mut object, status)?;
    add_notices(alloc, &mut object, &status.notices)?;
    Ok(object)
}

/// Puts how many units there are of each kind, and how many changes the partner lacks.
fn add_units(
    alloc: Global,
    object: &mut Map<String, Value>,
    units: &UnitCounts,
) -> Result<(), AllocError> {
    let counts = counts_of(alloc, &units.named())?;
    add(alloc, object, "units", counts)?;
    add(alloc, object, "due", units.due)?;
    add(alloc, object, "marked", units.marked)
}

/// Puts how many messages were heard, refused and answered.
fn add_messages(
    alloc: Global,
    object: &mut Map<String, Value>,
    traffic: &Traffic,
) -> Result<(), AllocError> {
    let messages = counts_of(alloc, &traffic.messages.named())?;
    add(alloc, object, "messages", messages)?;
    let refused = counts_of(alloc, &traffic.faults.named())?;
    add(alloc, object, "refused", refused)?;
    let answers = counts_of(alloc, &traffic.answers.named())?;
    add(alloc, object, "answers", answers)
}

/// Puts how many messages were left without an answer, or wait for it.
fn add_unanswered(
    alloc: Global,
    object: &mut Map<String, Value>,
    traffic: &Traffic,
) -> Result<(), AllocError> {
    add(alloc, object, "over_quota", traffic.over_quota)?;
    add(alloc, object, "unanswered", traffic.unanswered)?;
    add(alloc, object, "late", traffic.late)?;
    add(alloc, object, "held", traffic.held)
}

/// A status as an object.
fn object_of(alloc: Global, status: &ServerStatus<'_>) -> Result<Map<String, Value>, AllocError> {
    let mut object = Map::new(alloc);
    let serving = serving_value(alloc, &status.serving)?;
    add(alloc, &mut object, "serving", serving)?;
    add_server(alloc, &mut object, status)?;
    let volume = volume_of(alloc, &status.volume)?;
    add(alloc, &mut object, "volume", volume)?;
    let partner = Value::Object(partner_of(alloc, status)?);
    add(alloc, &mut object, "partner", partner)?;
    add_units(alloc, &mut object, &status.units)?;
    add_messages(alloc, &mut object, &status.traffic)?;
    add_unanswered(alloc, &mut object, &status.traffic)?;
    let syncs = syncs_of(alloc, &status.syncs)?;
    add(alloc, &mut object, "syncs", syncs)?;
    Ok(object)
}

/// Writes JSON: one object, and a line feed. `AllocError` where a growth was refused.
pub(crate) fn json_of(alloc: Global, status: &ServerStatus<'_>) -> Result<String, AllocError> {
    let mut text = Value::Object(object_of(alloc, status)?).to_string(alloc)?;
    text.push('\n')?;
    Ok(text)
}
