//! Zones written out here octet by octet; what clocks show in them is what Python's zoneinfo says.

use lead_time::Reading;
use std::alloc::Global;
use std::process::Abort;
use std::test::Fail;
use zone_times::{ZoneError, ZoneFile, push_local};

/// A zone without transitions, up to the first type's offset: version 2, one type and four octets of names.
const HEADER: &[u8] =
    b"TZif2\0\0\0\0\0\0\0\0\0\0\0\0\0\0\0\0\0\0\0\0\0\0\0\0\0\0\0\0\0\0\0\0\0\0\x01\0\0\0\x04";

/// What stands behind a type's offset: it is no summer time, and the first of these names.
const NAMES: &[u8] = b"\0\0XYZ\0";

const LINE_FEED: &[u8] = b"\n";

/// The zone that goes by a rule from the beginning.
fn zone(alloc: Global, seconds: i32, rule: &str) -> Result<ZoneFile, Fail> {
    let seconds = seconds.to_be_bytes();
    let seconds = seconds.as_slice();
    let rule = rule.as_bytes();
    let octets = [
        HEADER, seconds, NAMES, HEADER, seconds, NAMES, LINE_FEED, rule, LINE_FEED,
    ]
    .concat(alloc)?;
    Ok(ZoneFile::read(alloc, &octets)?)
}

/// What a clock of the zone shows at a moment.
fn shown(alloc: Global, zone: &ZoneFile, moment: u64) -> Result<Vec<u8>, Fail> {
    let moment = Reading::new(moment)?;
    let mut out = Vec::new(alloc);
    push_local(&mut out, alloc, zone, moment)?;
    Ok(out)
}

/// By how many seconds a zone's clocks are ahead of UTC, but for its rule, that rule, and what they show at moments.
type Zone = (i32, &'static str, &'static [(u64, &'static str)]);

const ZONES: [Zone; 4] = [
    // An hour comes twice, and one is left out.
    (
        3600,
        "XYZ-1XYZT,M3.5.0,M10.5.0/3",
        &[
            (1_792_888_200_000, "2026-10-25T02:30:00.000+02:00"),
            (1_792_891_800_000, "2026-10-25T02:30:00.000+01:00"),
            (1_774_745_999_999, "2026-03-29T01:59:59.999+01:00"),
            (1_774_746_000_000, "2026-03-29T03:00:00.000+02:00"),
        ],
    ),
    // Leap days begin where the zone is.
    (
        3600,
        "XYZ-1",
        &[
            (0, "1970-01-01T01:00:00.000+01:00"),
            (1_709_164_799_999, "2024-02-29T00:59:59.999+01:00"),
        ],
    ),
    // Zones have half hours.
    (
        19_800,
        "XYZ-5:30",
        &[(1_709_164_799_999, "2024-02-29T05:29:59.999+05:30")],
    ),
    // Behind UTC. Where a clock would show a time before 1970, UTC is told.
    (
        -12_600,
        "XYZ3:30XYZT,M3.2.0,M11.1.0",
        &[
            (1_709_164_799_999, "2024-02-28T20:29:59.999-03:30"),
            (1_793_511_000_000, "2026-11-01T02:00:00.000-03:30"),
            (0, "1970-01-01T00:00:00.000Z"),
        ],
    ),
];

/// That a clock of the zone shows this at these moments.
fn check(
    rt: &impl Abort,
    alloc: Global,
    zone: &ZoneFile,
    moments: &[(u64, &'static str)],
) -> Result<(), Fail> {
    for (moment, text) in moments {
        let shown = shown(alloc, zone, *moment)?;
        assert_eq!(rt; shown.as_slice(), text.as_bytes());
    }
    Ok(())
}

#[test]
fn clocks_go_by_their_zones(rt: HostRuntime) -> Result<(), Fail> {
    for (seconds, rule, moments) in &ZONES {
        let zone = zone(rt.alloc(), *seconds, rule)?;
        check(&rt, rt.alloc(), &zone, moments)?;
    }
    Ok(())
}

#[test]
fn what_is_no_zone_is_refused(rt: HostRuntime) {
    let refused = ZoneFile::read(rt.alloc(), b"Europe/Berlin");
    assert_eq!(rt; refused.err(), Some(ZoneError::NoZone));
}
