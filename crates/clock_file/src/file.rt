//! The file of both clocks.

use clock_watch::{BOOT_LENGTH, BootId, ClockRecord, ClockStore};
use lead_time::Reading;
use std::fs;
use std::path::{Path, PathBuf};

/// Its name in a server's directory.
const CLOCK: &str = "clock";

/// Where the system says which boot it is.
const BOOT: &str = "/proc/sys/kernel/random/boot_id";

/// Where the system says how long it has run: seconds, a point, and hundredths of a second.
const UPTIME: &str = "/proc/uptime";

/// The file of both clocks in a server's directory.
#[derive(Drop)]
pub struct ClockFile {
    rt: HostRuntime,
    path: PathBuf,
}

/// The milliseconds that a text says, which begins with seconds, a point, and two digits.
fn milliseconds_of(text: &str) -> Option<u64> {
    let first = text.split_whitespace().next()?;
    let (seconds, hundredths) = first.split_once('.')?;
    let seconds = seconds.parse::<u64>().ok()?;
    let hundredths = hundredths.parse::<u64>().ok()?;
    seconds
        .checked_mul(1000)?
        .checked_add(hundredths.min(99).checked_mul(10)?)
}

impl ClockFile {
    /// The file in this directory. `None` where a growth was refused.
    pub fn new(rt: &HostRuntime, directory: &str) -> Option<ClockFile> {
        Some(ClockFile {
            rt: *rt,
            path: Path::new(directory).join(rt.alloc(), CLOCK).ok()?,
        })
    }
}

impl ClockStore for ClockFile {
    fn recorded(&self) -> Option<ClockRecord> {
        ClockRecord::read(&fs::read(&self.rt, self.path.as_path()).ok()?)
    }

    fn present(&self, wall: Reading) -> Option<ClockRecord> {
        let boot = fs::read(&self.rt, BOOT).ok()?;
        let uptime = fs::read_to_string(&self.rt, UPTIME).ok()?;
        Some(ClockRecord {
            boot: BootId::new(boot.get(..BOOT_LENGTH)?)?,
            wall,
            uptime: milliseconds_of(uptime.as_str())?,
        })
    }

    fn keep(&mut self, record: &ClockRecord) {
        if let Ok(text) = record.text(self.rt.alloc()) {
            let _ = fs::write(&self.rt, self.path.as_path(), text);
        }
    }
}
