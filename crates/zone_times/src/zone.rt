//! A zone's file.

ghost use Rattle.std.specs.Prelude.{IfOk};
ghost use Rattle.zone_times.specs.Local.{IsOffsetAt, IsZoneOf};

use crate::error::ZoneError;
use jiff::tz::{TimeZone, Tzif};
use jiff::{Error, Timestamp};
use lead_time::Reading;
use std::alloc::Global;

/// What a zone's file says: at which offsets its clocks stand, and when.
#[derive(Drop)]
pub struct ZoneFile {
    pub(crate) table: Tzif,
}

impl ZoneFile {
    /// Reads a zone's file (TZif, RFC 9636). `NoZone` where the octets are none, `Memory` where a growth was refused.
    pub fn read(alloc: Global, octets: &[u8]) -> Result<ZoneFile, ZoneError>
        ensures { IfOk result (λ zone. IsZoneOf octets.now zone.table) }
    {
        match Tzif::parse(alloc, None, octets) {
            Ok(table) => Ok(ZoneFile { table }),
            Err(Error::OutOfMemory) => Err(ZoneError::Memory),
            Err(_) => Err(ZoneError::NoZone),
        }
    }

    /// By how many seconds a clock of the zone is ahead of UTC at a moment; below 0 where it is behind. 0 for a moment
    /// that is behind the year 9999.
    #[tactic(auto, unfolding(jiff_tz::specs::Zone::offset_at))]
    pub fn offset(&self, moment: Reading) -> i32
        ensures { IsOffsetAt self.now.table moment result }
    {
        match Timestamp::from_millisecond(moment.milliseconds() as i64) {
            Ok(timestamp) => TimeZone::tzif(&self.table).to_offset(timestamp).seconds(),
            Err(_) => 0,
        }
    }
}
