//! A directory with a lock on it.

ghost use Rattle.std.specs.Prelude.{◌≡◌, [], ◌∷◌, IfOk};
ghost use Rattle.disk_model.specs.Disk.{opened};

use crate::error::FolderError;
use crate::file::{OpenedFile, RealFile};
use std::fs::{self, File};
use std::io::{self, ErrorKind};
use std::path::{Path, PathBuf};

/// A directory that this process alone writes to, as long as every other asks for the lock.
#[derive(Drop)]
pub struct RealFolder {
    pub(crate) path: PathBuf,
    pub(crate) handle: File,
}

impl RealFolder {
    /// Opens a directory and takes the lock on it, which goes with the last of its files that is let go, or with the
    /// process.
    pub fn open(rt: &HostRuntime, path: &str) -> Result<RealFolder, FolderError> {
        let handle = File::open(rt, path)?;
        handle.try_lock()?;
        Ok(RealFolder {
            path: Path::new(path)
                .to_path_buf(rt.alloc())
                .map_err(io::Error::from)?,
            handle,
        })
    }

    /// Opens the file of this name, or makes it, and reads all of it. What was found, and the file's own entry in the
    /// directory, is on the disk before it is told.
    pub fn open_file(&self, rt: &HostRuntime, name: &str) -> io::Result<OpenedFile>
        ensures { IfOk result (λ f. f.file.noted.calls ≡ opened f.content.items ∷ []) }
    {
        let path = self.path.as_path().join(rt.alloc(), name)?;
        RealFile::open(rt, path.as_path(), &self.handle)
    }

    /// Reads all of the file of this name; `None` where there is none.
    pub fn read_file(&self, rt: &HostRuntime, name: &str) -> io::Result<Option<Vec<u8>>> {
        let path = self.path.as_path().join(rt.alloc(), name)?;
        match fs::read(rt, path.as_path()) {
            Ok(content) => Ok(Some(content)),
            Err(error) if error.kind() == ErrorKind::NotFound => Ok(None),
            Err(error) => Err(error),
        }
    }

    /// The same directory under the same lock, which stays as long as one of the two is there.
    pub fn shared(&self, rt: &HostRuntime) -> io::Result<RealFolder> {
        Ok(RealFolder {
            path: self.path.as_path().to_path_buf(rt.alloc())?,
            handle: self.handle.try_clone()?,
        })
    }
}
