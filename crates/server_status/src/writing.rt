//! Names and times as a status is written with them.

use binding_rules::Role;
use lead_time::Reading;
use server_timers::{RollBlocked, RollState, Room};
use std::alloc::{AllocError, Global};
use std::str;
use time_text::push_time;

/// Returns the name of a role.
pub(crate) fn role_name(role: Role) -> &'static str {
    match role {
        Role::Primary => "primary",
        Role::Secondary => "secondary",
    }
}

/// Returns the name of what is owed of a roll.
pub(crate) fn roll_name(roll: &RollState) -> &'static str {
    match roll {
        RollState::NotDue => "not_due",
        RollState::Due => "due",
        RollState::Blocked(RollBlocked::PartnerDown) => "partner_down",
        RollState::Blocked(RollBlocked::UnitMarked) => "unit_marked",
    }
}

/// Returns the name of how much room there is.
pub(crate) fn room_name(room: &Room) -> &'static str {
    match room {
        Room::Enough => "enough",
        Room::FullWithinHour => "full_within_hour",
        Room::Full => "full",
    }
}

/// Appends a moment in UTC, as RFC 3339 writes it.
pub(crate) fn push_moment(
    out: &mut String,
    alloc: Global,
    moment: Reading,
) -> Result<(), AllocError> {
    let mut octets = Vec::new(alloc);
    push_time(&mut octets, moment)?;
    match str::from_utf8(&octets) {
        Ok(text) => out.push_str(text),
        Err(_) => Ok(()),
    }
}
