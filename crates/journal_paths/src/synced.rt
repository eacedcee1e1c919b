//! What a server's status says of its disk.

use serde_json::Value;
use std::alloc::Global;

/// How much of the volume that a server writes is on its disk.
#[derive(Clone, Copy, Debug, PartialEq, Eq)]
pub struct Synced {
    /// The volume's number.
    pub number: u64,
    /// How many of its lines, from the first, the head line not counted.
    pub lines: u64,
}

/// What a number of a status's volume is, by its name.
fn number_of(volume: &Value, name: &str) -> Option<u64> {
    volume.get(name)?.as_u64()
}

/// What a status, written as JSON, says of the disk, or `None` where it says nothing.
pub fn synced_in(alloc: Global, status: &str) -> Option<Synced> {
    let Ok(status) = Value::from_str(alloc, status) else {
        return None;
    };
    let volume = status.get("volume")?;
    let number = number_of(volume, "number")?;
    let lines = number_of(volume, "synced")?;
    Some(Synced { number, lines })
}
