//! Whether the file of the open volume is linked still.

use crate::folder::RealFolder;
use crate::names::name_of;
use binding_rules::Role;
use std::fs::File;
use std::io::{self, ErrorKind};
use std::os::unix::fs::MetadataExt;

/// Sees whether the file of a volume is linked still: somebody may remove it, or put another in its place, while it is
/// written.
pub trait VolumeWatch {
    /// Returns whether the file of the volume of this number has no link any more. Where the system doesn't say it, no.
    fn is_unlinked(&mut self, volume: u32) -> bool;
}

/// A handle of a volume's file.
#[derive(Drop)]
struct SeenVolume {
    volume: u32,
    file: File,
}

/// Sees by a handle of its own of the last volume's file of a side. A file that is removed keeps its octets as long as
/// there is a handle, so that its server alone would see nothing of it.
#[derive(Drop)]
pub struct VolumeLinks {
    rt: HostRuntime,
    folder: RealFolder,
    side: Role,
    seen: Option<SeenVolume>,
}

impl VolumeLinks {
    /// Sees the volumes of a side in this directory.
    pub fn new(rt: HostRuntime, folder: RealFolder, side: Role) -> VolumeLinks {
        VolumeLinks {
            rt,
            folder,
            side,
            seen: None,
        }
    }

    /// Opens the file of a volume.
    fn opened(&self, volume: u32) -> io::Result<File> {
        let alloc = self.rt.alloc();
        let name = name_of(alloc, self.side, volume as usize)?;
        let path = self.folder.path.as_path().join(alloc, name.as_str())?;
        File::open(&self.rt, path.as_path())
    }

    /// Takes a handle of a volume's file, where there is none yet.
    fn see(&mut self, volume: u32) -> io::Result<()> {
        match &self.seen {
            Some(seen) if seen.volume == volume => {}
            _ => {
                let file = self.opened(volume)?;
                self.seen = Some(SeenVolume { volume, file });
            }
        }
        Ok(())
    }

    /// How many links the file has that is seen.
    fn links(&self) -> io::Result<u64> {
        match &self.seen {
            Some(seen) => Ok(seen.file.metadata()?.nlink()),
            None => Err(io::Error::from(ErrorKind::NotFound)),
        }
    }
}

impl VolumeWatch for VolumeLinks {
    fn is_unlinked(&mut self, volume: u32) -> bool {
        if let Err(error) = self.see(volume) {
            return error.kind() == ErrorKind::NotFound;
        }
        matches!(self.links(), Ok(0))
    }
}
