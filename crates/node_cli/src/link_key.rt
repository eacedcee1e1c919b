//! The key of the partners' link, out of its file.

ghost use Rattle.std.specs.Prelude.{◌≢◌, ◌↔◌, IsTrue, bit_and};

use link_auth::{KeyError, LinkKey};
use std::alloc::Global;
use std::fs::{File, OpenFile};
use std::io;
use std::io::Read;
use std::os::unix::fs::PermissionsExt;
use std::path::Path;
use thiserror::Error;

/// More octets than a key's file may have: 128 digits and a line feed.
const TOO_MANY: u64 = 130;

/// The bits of a file's mode that let others than its owner read, change or run it.
const OTHERS: u32 = 0o077;

/// Why a file's key isn't taken.
#[derive(Debug, Drop, Error)]
pub enum KeyRefusal {
    /// The file can't be read.
    #[error("{0}")]
    Unreadable(io::Error),
    /// Others than its owner may read or change it.
    #[error("others than its owner may read or change it: chmod 600 helps")]
    Shared,
    /// It has no key.
    #[error("{0}")]
    NoKey(KeyError),
    /// A growth was refused.
    #[error("out of memory")]
    Memory,
}

impl From<io::Error> for KeyRefusal {
    fn from(error: io::Error) -> KeyRefusal {
        KeyRefusal::Unreadable(error)
    }
}

/// Returns whether a file of this mode is for others than its owner too.
fn is_shared(mode: u32) -> bool
    ensures { IsTrue result ↔ (bit_and mode 0o077 ≢ 0) }
{
    mode & OTHERS != 0
}

/// The key that a file has, which nobody but its owner may read.
pub fn key_in(rt: &HostRuntime, alloc: Global, path: Path<'_>) -> Result<LinkKey, KeyRefusal> {
    let file = File::open(rt, path)?;
    if is_shared(file.metadata()?.permissions().mode()) {
        return Err(KeyRefusal::Shared);
    }
    let mut text = Vec::new(alloc);
    file.take(TOO_MANY).read_to_end(&mut text)?;
    match LinkKey::from_text(&text) {
        Ok(key) => Ok(key),
        Err(error) => Err(KeyRefusal::NoKey(error)),
    }
}
