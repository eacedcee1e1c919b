//! Time zones, by the system's zone files.

use crate::fault::DeskFault;
use desk_args::{NoteDetail, ReportOptions};
use desk_reports::{ReportStyle, StatedFacts};
use std::alloc::Global;
use std::fs;
use std::path::Path;
use zone_times::{ZoneError, ZoneFile};

/// Where the system has its zone files.
const FOLDER: &str = "/usr/share/zoneinfo/";

/// Returns whether the word may name a zone: letters, digits, `_`, `+`, `-` and single slashes between them.
fn is_name(name: &str) -> bool {
    let octets = name.as_bytes();
    !octets.is_empty()
        && octets.iter().all(|octet| octet.is_ascii_alphanumeric() || b"_+-/".contains(octet))
        && octets[0] != b'/'
}

/// The path of a zone's file.
fn path_of(alloc: Global, name: &str) -> Result<String, DeskFault> {
    match format!(in alloc; "{FOLDER}{name}") {
        Ok(path) => Ok(path),
        Err(_) => Err(DeskFault::memory()),
    }
}

/// The zone of this name, if one is named. `Zone` where the system has no such zone.
pub(crate) fn zone_named(
    rt: &HostRuntime,
    name: Option<&str>,
) -> Result<Option<ZoneFile>, DeskFault> {
    let Some(name) = name else {
        return Ok(None);
    };
    if !is_name(name) {
        return Err(DeskFault::zone(rt.alloc(), name));
    }
    let path = path_of(rt.alloc(), name)?;
    let Ok(octets) = fs::read(rt, Path::new(path.as_str())) else {
        return Err(DeskFault::zone(rt.alloc(), name));
    };
    match ZoneFile::read(rt.alloc(), &octets) {
        Ok(zone) => Ok(Some(zone)),
        Err(ZoneError::Memory) => Err(DeskFault::memory()),
        Err(ZoneError::NoZone) => Err(DeskFault::zone(rt.alloc(), name)),
    }
}

/// How a report is told, by the zone that was found.
pub(crate) fn style_of<'a>(
    telling: &'a ReportOptions<'a>,
    zone: &'a Option<ZoneFile>,
    detail: NoteDetail,
) -> ReportStyle<'a> {
    ReportStyle {
        form: telling.form,
        zone: zone.as_ref(),
        detail,
        facts: StatedFacts {
            case: telling.facts.case,
            asked_by: telling.facts.asked_by,
            made: telling.facts.made,
        },
    }
}
