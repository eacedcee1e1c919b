//! Directories of the operating system, each for one test.

use disk_files::{FolderError, RealFolder};
use std::path::{Path, PathBuf};
use std::test::Fail;
use std::{env, fs, process};

/// Makes a directory.
pub(crate) fn directory(rt: &HostRuntime, name: &str) -> Result<PathBuf, Fail> {
    let path = env::temp_dir(rt)?.join(
        rt.alloc(),
        format!(in rt.alloc(); "{name}-{}", process::id(rt.process()))?,
    )?;
    fs::create_dir(rt, path.as_path())?;
    Ok(path)
}

/// Removes a directory with all that is in it.
pub(crate) fn remove(rt: &HostRuntime, path: Path<'_>) -> Result<(), Fail> {
    fs::remove_dir_all(rt, path)?;
    Ok(())
}

/// Returns whether a directory isn't opened since somebody has the lock on it.
pub(crate) fn is_locked(rt: &HostRuntime, path: Path<'_>) -> bool {
    matches!(
        &RealFolder::open(rt, path.as_str()),
        Err(FolderError::Locked)
    )
}

/// Returns whether a file holds this content.
pub(crate) fn holds(rt: &HostRuntime, path: Path<'_>, content: &[u8]) -> bool {
    match fs::read(rt, path) {
        Ok(found) => found.as_slice() == content,
        Err(_) => false,
    }
}
