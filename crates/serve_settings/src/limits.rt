//! The keys of a server that goes on for years.

ghost use Rattle.std.specs.Prelude.{◌≡◌, ◌≤◌, IfSome, MatchResult};
ghost use Rattle.toml.specs.Data.{get_member};
ghost use Rattle.toml.specs.View.{view, table_view};
ghost use Rattle.text_fields.specs.Parsing.{Finds};
ghost use Rattle.serve_settings.specs.Serving.{counted, limit_at, alone_in, limits_in, IsLimitFault};
ghost use Rattle.serve_settings.specs.Serving.{floor_of, floor_in, IsFloorFault};
ghost use Rattle.serve_settings.specs.Serving.{HasPartnerOrIsAlone, IsPartnerFault};

use crate::error::ServeSettingsError;
use server_timers::Timers;
use toml::{Table, Value};

/// Seconds without a line, where nothing else is said.
const HEARTBEAT: u32 = 60;

/// Lines of a volume, where nothing else is said.
const VOLUME_LINES: u32 = 200_000;

/// Hours of a volume, where nothing else is said.
const VOLUME_HOURS: u32 = 24;

/// Seconds of a year.
const YEAR: u32 = 31_536_000;

/// The least age of a grant that isn't told again, in seconds, where nothing else is said.
const LEAST_FLOOR: u32 = 10;

/// Returns the value at a key.
pub(crate) fn value_at<'a>(table: &'a Table, key: &str) -> Option<&'a Value>
    ensures { Finds (λ v. view v.now) result (get_member key.now (table_view table.now)) }
{
    table.get(key)
}

/// The whole number from 1 to the limit that a value is.
#[tactic(auto, unfolding(crate::specs::Serving::counted))]
fn counted(value: &Value, most: u32) -> Option<u32>
    ensures number { Finds (λ n. n) result (counted most (view value.now)) }
    ensures least { IfSome result (λ n. 1 ≤ n) }
{
    let number = u32::try_from(value.as_integer()?).ok()?;
    if 1 <= number && number <= most {
        Some(number)
    } else {
        None
    }
}

/// The whole number from 1 to the limit at a key, or what is meant where the key isn't there.
#[tactic(auto, unfolding(crate::specs::Serving::limit_at))]
fn limit_at(table: &Table, key: &str, unsaid: u32, most: u32) -> Option<u32>
    requires { 1 ≤ unsaid }
    ensures number { Finds (λ n. n) result (limit_at key.now unsaid most (table_view table.now)) }
    ensures least { IfSome result (λ n. 1 ≤ n) }
{
    match value_at(table, key) {
        Some(value) => counted(value, most),
        None => Some(unsaid),
    }
}

/// Whether a document says that the server is alone.
#[tactic(auto, unfolding(crate::specs::Serving::alone_in))]
fn alone_in(table: &Table) -> Option<bool>
    ensures { Finds (λ b. b) result (alone_in (table_view table.now)) }
{
    match value_at(table, "alone") {
        Some(value) => value.as_bool(),
        None => Some(false),
    }
}

/// When the server owes something. `Heartbeat`, `VolumeLines` or `VolumeHours`, in this order, where that key has no
/// number within its limits.
#[tactic(auto, unfolding(crate::specs::Serving::limits_in))]
pub(crate) fn upkeep_in(table: &Table) -> Result<Timers, ServeSettingsError>
    ensures { MatchResult result (λ u. limits_in (table_view table.now)
        ≡ Some u) (IsLimitFault (table_view table.now)) }
{
    let heartbeat = limit_at(table, "heartbeat", HEARTBEAT, 31_536_000).ok_or(
        ServeSettingsError::Heartbeat,
    )?;
    let volume_lines = limit_at(table, "volume_lines", VOLUME_LINES, 1_048_575).ok_or(
        ServeSettingsError::VolumeLines,
    )?;
    let volume_hours = limit_at(table, "volume_hours", VOLUME_HOURS, 8_760).ok_or(
        ServeSettingsError::VolumeHours,
    )?;
    match Timers::new(heartbeat, volume_lines, volume_hours) {
        Some(upkeep) => Ok(upkeep),
        None => unreachable!(),
    }
}

/// The whole number of seconds that a value is, a year at most.
#[tactic(auto, unfolding(crate::specs::Serving::floor_of))]
fn floor_of(value: &Value) -> Option<u32>
    ensures { Finds (λ n. n) result (floor_of (view value.now)) }
{
    let number = u32::try_from(value.as_integer()?).ok()?;
    if number <= YEAR { Some(number) } else { None }
}

/// The age in seconds from which on a grant isn't told again, by a document and the desired lifetime: with 0 none is.
#[tactic(auto, unfolding(crate::specs::Serving::floor_in))]
fn floor_in(table: &Table, life: u32) -> Option<u32>
    ensures { Finds (λ n. n) result (floor_in life (table_view table.now)) }
{
    match value_at(table, "renew_floor") {
        Some(value) => floor_of(value),
        None => Some((life / 10).max(LEAST_FLOOR)),
    }
}

/// The same. `RenewFloor` where that key has no number within its limits.
pub(crate) fn renew_floor_in(table: &Table, life: u32) -> Result<u32, ServeSettingsError>
    ensures { MatchResult result (λ floor. floor_in life (table_view table.now) ≡ Some floor)
        (IsFloorFault (table_view table.now)) }
{
    match floor_in(table, life) {
        Some(floor) => Ok(floor),
        None => Err(ServeSettingsError::RenewFloor),
    }
}

/// Returns whether the server is alone, by a document that names its partner or says that there is none. `Alone` where
/// the key has no truth value, `NoPartner` where there is neither, `PartnerOfAlone` where there are both.
pub(crate) fn is_alone(table: &Table) -> Result<bool, ServeSettingsError>
    ensures { MatchResult result (λ alone. HasPartnerOrIsAlone (table_view table.now)
        × (alone_in (table_view table.now) ≡ Some alone)) (IsPartnerFault (table_view table.now)) }
{
    let is_alone = alone_in(table).ok_or(ServeSettingsError::Alone)?;
    match (value_at(table, "link"), is_alone) {
        (None, false) => Err(ServeSettingsError::NoPartner),
        (Some(_), true) => Err(ServeSettingsError::PartnerOfAlone),
        _ => Ok(is_alone),
    }
}
