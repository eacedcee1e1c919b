//! Serving a directory until a person says to stop.

use crate::MOST_OCTETS;
use crate::advising::{DocumentName, advise};
use crate::fault::NodeFault;
use crate::link_key::{KeyRefusal, key_in};
use link_auth::LinkKey;
use node_args::ServeCommand;
use node_daemon::{DaemonError, ServeFailure, serve};
use serve_settings::{LinkProtection, ServeSettings, ServeSettingsError};
use std::alloc::{AllocError, Global};
use std::fs::{File, Files};
use std::io;
use std::io::Read;
use std::net::Net;
use std::path::{Path, PathBuf};
use std::random::RandomSource;
use std::sync::Wait;
use std::time::Clock;

/// The settings' file of a directory.
const SETTINGS: &str = "settings.toml";

/// The settings are refused, which was said.
#[derive(Drop)]
struct Refused;

/// What the file of this name holds, as far as settings go.
pub fn content_of(rt: &HostRuntime, alloc: Global, path: Path<'_>) -> io::Result<Vec<u8>> {
    let file = File::open(rt, path)?;
    let mut text = Vec::new(alloc);
    file.take(MOST_OCTETS as u64 + 1).read_to_end(&mut text)?;
    Ok(text)
}

/// The path of the settings: the file that is named, or the directory's own.
fn path_of(alloc: Global, served: &ServeCommand) -> Result<PathBuf, AllocError> {
    match &served.settings {
        Some(file) => Path::new(file.as_str()).to_path_buf(alloc),
        None => Path::new(served.directory.as_str()).join(alloc, SETTINGS),
    }
}

/// The settings that a text has; why they are refused, and what in them is odd, is said on standard error.
fn settings_in(rt: &HostRuntime, alloc: Global, text: &[u8]) -> Option<ServeSettings> {
    let notes = rt.stderr();
    match ServeSettings::read(alloc, text) {
        Ok(settings) => {
            advise(&notes, alloc, DocumentName::Own, text, Ok(&settings.node));
            Some(settings)
        }
        Err(error) => {
            if let ServeSettingsError::Node(error) = error {
                advise(&notes, alloc, DocumentName::Own, text, Err(error));
            }
            let _ = eprintln!(rt; "<3>node: settings: {error}");
            None
        }
    }
}

/// The key of the link, where the settings, which stand at a path, name a file for it. Why there is none is said on
/// standard error.
fn key_of(
    rt: &HostRuntime,
    alloc: Global,
    path: Path<'_>,
    protection: &Option<LinkProtection>,
) -> Result<Option<LinkKey>, Refused> {
    let Some(LinkProtection::KeyFile(file)) = protection else {
        return Ok(None);
    };
    let found = match path.with_file_name(alloc, file.as_str()) {
        Ok(beside) => key_in(rt, alloc, beside.as_path()),
        Err(_) => Err(KeyRefusal::Memory),
    };
    match found {
        Ok(key) => Ok(Some(key)),
        Err(error) => {
            let _ = eprintln!(rt; "<3>node: link_key: {file}: {error}");
            Err(Refused)
        }
    }
}

/// The status by which a daemon ends that failed: 1 where it was refused to start, 3 where the disk failed while it
/// served, 4 where its volume was removed, so that it isn't to be started again, and 2 for any other fault.
fn status_of(failure: &ServeFailure) -> u8 {
    match failure {
        ServeFailure::Folder(_) | ServeFailure::Start(_) | ServeFailure::ClockBehind { .. } => 1,
        ServeFailure::Ended(DaemonError::VolumeUnlinked { .. }) => 4,
        ServeFailure::Ended(error) if error.is_disk() => 3,
        ServeFailure::Ended(_) | ServeFailure::Listen { .. } | ServeFailure::Control(_) => 2,
    }
}

/// Serves a directory until a person says to stop. Gives the status: 0 then, 1 where the settings or the journal are
/// refused, 3 where the disk failed, 4 where the volume was removed; what was wrong is said on standard error.
pub fn serve_directory<R: Wait + Files + Net + RandomSource + Clock>(
    rt: &HostRuntime,
    handles: &R,
    served: &ServeCommand,
) -> Result<u8, NodeFault> {
    let alloc = rt.alloc();
    let path = path_of(alloc, served)?;
    let text = match content_of(rt, alloc, path.as_path()) {
        Ok(text) => text,
        Err(error) => {
            let shown = path.display();
            let _ = eprintln!(rt; "<3>node: the settings can't be read: {shown}: {error}");
            return Ok(1);
        }
    };
    let Some(settings) = settings_in(rt, alloc, &text) else {
        return Ok(1);
    };
    let Ok(key) = key_of(rt, alloc, path.as_path(), &settings.protection) else {
        return Ok(1);
    };
    match serve(
        rt,
        handles,
        served.directory.as_str(),
        &settings,
        key,
        &rt.stderr(),
    ) {
        Ok(()) => Ok(0),
        Err(failure) => {
            let _ = eprintln!(rt; "<3>node: {failure}");
            Ok(status_of(&failure))
        }
    }
}
