//! Files of journals at paths of the operating system.
//!
//! `JournalPaths` are the files that paths name, of a directory those in it and none deeper, but for those that a server
//! keeps beside its volumes, for `archive_files` to read, whole or at their edges. Where a server runs over a directory it's asked how much of the volume that it writes
//! is on its disk, and of that volume no more is read. Beside `A-0000012.journal` the text `A-0000012.access` may have
//! access records. What the system answers has no meaning in a contract.
//!
//! ```text
//! let files = JournalPaths::at(&rt, &rt, &words)?;
//! let catalogue = catalogue_of(rt.alloc(), &files, SettingsScope::OfBoth)?;
//! ```
//!
//! How much of a volume its server has on the disk, as the server says.
//!
//! Who copies a file that a server writes on may see lines that a loss of power would take back, and of which nobody
//! was told yet. [`ask`] asks the server, over its directory's control socket, which volume it writes and how many
//! lines of it are on the disk; [`first_lines`] are these lines of what was read since, with the head line before them.
//!
//! ```text
//! if let Some(synced) = ask(&net, alloc, control) {
//!     let octets = first_lines(&octets, synced.lines + 1);
//! }
//! ```
#![tactic(auto)]

mod asking;
mod synced;
mod synced_lines;

ghost use Rattle.std.specs.Prelude.{◌≤◌, ⊤, length, IfOk};

use access_records::{AccessError, AccessText, AccessTexts};
use archive_files::{FileEnd, JournalFiles, Unreadable};
pub use asking::ask;
use std::alloc::{AllocError, Global};
use std::fs::{self, File};
use std::io::{self, Error, ErrorKind, Read, Seek, SeekFrom};
use std::net::Net;
use std::path::{Path, PathBuf};
pub use synced::{Synced, synced_in};
pub use synced_lines::first_lines;

/// The name of a server's socket in its directory.
const CONTROL: &str = "control";

/// How many lines of a file are on its server's disk.
#[derive(Clone, Copy, Debug, PartialEq, Eq)]
struct Live {
    file: usize,
    lines: u64,
}

/// Files at paths, by their counts.
#[derive(Drop)]
pub struct JournalPaths<'a> {
    rt: &'a HostRuntime,
    paths: Vec<PathBuf>,
    live: Vec<Live>,
    silent: Vec<PathBuf>,
}

/// Returns whether the path is known to be no file. A link that leads nowhere isn't: its reader tells.
fn is_no_file(rt: &HostRuntime, path: Path<'_>) -> bool {
    match fs::metadata(rt, path) {
        Ok(metadata) => !metadata.is_file(),
        Err(_) => false,
    }
}

/// What the name of a file of access records ends with, behind a stop.
const ACCESS: &str = "access";

/// What the names of files with keys end with, behind a stop.
const KEY: &str = "key";

/// The names of further files that a server keeps in its directory: of both its clocks, and of its settings.
const KEPT: [&'static str; 2] = ["clock", "settings.toml"];

/// Returns whether a file is one that a server keeps beside its volumes, by its name.
fn is_kept(path: Path<'_>) -> bool {
    let by_ending = path.extension() == Some(ACCESS) || path.extension() == Some(KEY);
    let by_name = match path.file_name() {
        Some(name) => name == KEPT[0] || name == KEPT[1],
        None => false,
    };
    by_ending || by_name
}

/// Adds the files of a directory by their names, but those that a server keeps beside its volumes, and none deeper.
fn add_files_in(rt: &HostRuntime, paths: &mut Vec<PathBuf>, folder: Path<'_>) -> io::Result<()> {
    let mut inside = Vec::new(rt.alloc());
    for entry in fs::read_dir(rt, folder)? {
        let path = folder.join(rt.alloc(), entry?.file_name())?;
        if !is_kept(path.as_path()) && !is_no_file(rt, path.as_path()) {
            inside.push(path)?;
        }
    }
    inside.sort()?;
    paths.append(&mut inside)?;
    Ok(())
}

/// The file of a directory that has the volume of this number, by the name that its server gives it.
fn file_of(
    rt: &HostRuntime,
    paths: &[PathBuf],
    folder: Path<'_>,
    number: u64,
) -> io::Result<Option<usize>> {
    for side in ["A", "B"] {
        let name = format!(in rt.alloc(); "{side}-{number:07}.journal")?;
        let path = folder.join(rt.alloc(), name.as_str())?;
        for file in 0..paths.len() {
            if paths[file].as_path().as_str() == path.as_path().as_str() {
                return Ok(Some(file));
            }
        }
    }
    Ok(None)
}

/// A word that names nothing, or nothing that can be looked at.
#[derive(Debug, Drop)]
pub struct PathError {
    /// Which of the words, from 0.
    pub word: usize,
    /// What the system said.
    pub error: Error,
}

impl<'a> JournalPaths<'a> {
    /// The files that these words name, in the order of the words, and of a directory's in that of their names. The
    /// first word that names nothing, or what can't be looked at.
    pub fn at(
        rt: &'a HostRuntime,
        net: &impl Net,
        words: &[&str],
    ) -> Result<JournalPaths<'a>, PathError> {
        let alloc = rt.alloc();
        let mut files = JournalPaths {
            rt,
            paths: Vec::new(alloc),
            live: Vec::new(alloc),
            silent: Vec::new(alloc),
        };
        for word in 0..words.len() {
            match files.add(net, Path::new(words[word])) {
                Ok(()) => {}
                Err(error) => return Err(PathError { word, error }),
            }
        }
        Ok(files)
    }

    /// Adds what a path names: a file, or the files of a directory.
    fn add(&mut self, net: &impl Net, path: Path<'_>) -> io::Result<()> {
        if !fs::metadata(self.rt, path)?.is_dir() {
            // (a file that is named and can't be opened isn't passed over)
            File::open(self.rt, path)?;
            self.paths.push(path.to_path_buf(self.rt.alloc())?)?;
            return Ok(());
        }
        // (its files first: of a volume that begins later nothing is read)
        add_files_in(self.rt, &mut self.paths, path)?;
        self.ask_server(net, path)
    }

    /// Asks the server that runs over a directory, if one does, how much of its volume is on the disk.
    fn ask_server(&mut self, net: &impl Net, folder: Path<'_>) -> io::Result<()> {
        let control = folder.join(self.rt.alloc(), CONTROL)?;
        if fs::metadata(self.rt, control.as_path()).is_err() {
            return Ok(());
        }
        let Some(Synced { number, lines }) = ask(net, self.rt.alloc(), control.as_path()) else {
            self.silent.push(control)?;
            return Ok(());
        };
        if let Some(file) = file_of(self.rt, &self.paths, folder, number)? {
            self.live.push(Live { file, lines })?;
        }
        Ok(())
    }

    /// The path of a file.
    pub fn path(&self, file: usize) -> Option<Path<'_>> {
        let path = self.paths.get(file)?;
        Some(path.as_path())
    }

    /// The paths of all files, in the order of their counts.
    pub fn paths(&self) -> &[PathBuf] {
        &self.paths
    }

    /// The sockets at which no server answered, though their directories have them: what is read there may not be on a
    /// disk yet.
    pub fn silent(&self) -> &[PathBuf] {
        &self.silent
    }

    /// What a file has on its server's disk of what was read of it; all where no server runs over it.
    fn on_disk(&self, file: usize, octets: Vec<u8>) -> Vec<u8> {
        let mut octets = octets;
        for live in &self.live {
            if live.file == file {
                let whole = first_lines(&octets, live.lines.saturating_add(1)).len();
                octets.truncate(whole);
            }
        }
        octets
    }
}

fn unreadable(error: &Error) -> Unreadable {
    match error.kind() {
        ErrorKind::OutOfMemory => Unreadable::Memory,
        _ => Unreadable::Device,
    }
}

/// So many octets from where a file stands, or all where fewer are left.
fn read_some(alloc: Global, file: &mut File, octets: u32) -> io::Result<Vec<u8>> {
    let mut some = Vec::new(alloc);
    file.take(u64::from(octets)).read_to_end(&mut some)?;
    Ok(some)
}

fn read_beginning(rt: &HostRuntime, path: Path<'_>, octets: u32) -> io::Result<Vec<u8>> {
    let mut file = File::open(rt, path)?;
    read_some(rt.alloc(), &mut file, octets)
}

/// The last octets of a file, and how many it had by the time that they were read.
fn read_end(rt: &HostRuntime, path: Path<'_>, octets: u32) -> io::Result<FileEnd>
    ensures { IfOk result (λ end. length end.octets.items ≤ end.size) }
{
    let mut file = File::open(rt, path)?;
    let from = file
        .seek(SeekFrom::End(0))?
        .saturating_sub(u64::from(octets));
    file.seek(SeekFrom::Start(from))?;
    let last = read_some(rt.alloc(), &mut file, octets)?;
    match from.checked_add(last.len() as u64) {
        Some(size) => Ok(FileEnd { size, octets: last }),
        None => Err(Error::from(ErrorKind::FileTooLarge)),
    }
}

/// What a file of access records says.
fn read_access(rt: &HostRuntime, path: Path<'_>) -> Result<AccessText, Unreadable> {
    let content = fs::read(rt, path).map_err(|error| unreadable(&error))?;
    match access_records::read(rt.alloc(), &content) {
        Ok(text) => Ok(text),
        Err(AccessError::Memory) => Err(Unreadable::Memory),
        Err(_) => Err(Unreadable::Device),
    }
}

impl JournalFiles for JournalPaths<'_> {
    ghost had = { λ s file octets. ⊤ };

    ghost files = { λ s. length s.paths.items };

    fn count(&self) -> usize {
        self.paths.len()
    }

    fn read(&self, _alloc: Global, file: usize) -> Result<Vec<u8>, Unreadable> {
        let path = self.path(file).ok_or(Unreadable::Device)?;
        match fs::read(self.rt, path) {
            Ok(octets) => Ok(self.on_disk(file, octets)),
            Err(error) => Err(unreadable(&error)),
        }
    }

    fn beginning(&self, _alloc: Global, file: usize, octets: u32) -> Result<Vec<u8>, Unreadable> {
        let path = self.path(file).ok_or(Unreadable::Device)?;
        match read_beginning(self.rt, path, octets) {
            Ok(beginning) => Ok(beginning),
            Err(error) => Err(unreadable(&error)),
        }
    }

    #[tactic(auto, using(archive_files::proofs::AnyParts::any_end))]
    fn end(&self, _alloc: Global, file: usize, octets: u32) -> Result<FileEnd, Unreadable> {
        let path = self.path(file).ok_or(Unreadable::Device)?;
        match read_end(self.rt, path, octets) {
            Ok(end) => Ok(end),
            Err(error) => Err(unreadable(&error)),
        }
    }
}

impl AccessTexts for JournalPaths<'_> {
    ghost says = { λ s file text. ⊤ };

    fn beside(&self, alloc: Global, file: usize) -> Result<Option<AccessText>, AllocError> {
        let Some(path) = self.path(file) else {
            return Ok(None);
        };
        let path = path.with_extension(alloc, ACCESS)?;
        match read_access(self.rt, path.as_path()) {
            Ok(text) => Ok(Some(text)),
            Err(Unreadable::Memory) => Err(AllocError),
            Err(Unreadable::Device) => Ok(None),
        }
    }
}
