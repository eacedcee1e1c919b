//! The folder.

ghost use Rattle.std.specs.Prelude.{◌≡◌, ◌≤◌, [], ◌∷◌, length, IfOk, IfSome};
ghost use Rattle.disk_model.specs.Disk.{opened};
ghost use Rattle.disk_model.specs.Names.{held, names_after};
ghost use Rattle.disk_model.specs.Volumes.{AreLeftOf, IsFolderLeft};

use crate::calls::CallsLeft;
use crate::contents::Contents;
use crate::drawing::Draws;
use crate::error::DrawError;
use crate::file::TestFile;
use crate::names::NameState;
use call_trace::NameTrace;
use disk_model::{DeviceError, Folder};
use std::alloc::{AllocError, Global};
use std::marker::Model;

/// A folder in memory, and how many calls it and its files answer together before one fails. Clauses see the record of
/// its own calls.
#[derive(Drop)]
pub struct TestFolder {
    alloc: Global,
    names: NameState,
    /// No growth was refused so far.
    is_known: bool,
    calls_left: CallsLeft,
    noted: NameTrace,
}

impl Model for TestFolder {
    ghost use Rattle.std.specs.Prelude.{List};
    ghost use Rattle.disk_model.specs.Names.{NameCall};

    ghost Value = { List NameCall };

    ghost use Rattle.std.specs.Prelude.{IsTrue};
    ghost use Rattle.disk_model.specs.Names.{names_after};
    ghost use Rattle.test_support.specs.MirrorNames.{MirrorsNames};

    ghost view = { λ f. f.noted.calls };

    ghost invariant = { λ f. IsTrue f.is_known → MirrorsNames f.names (names_after f.noted.calls) };
}

/// Draws how many files a loss of power leaves, of which so many are given.
fn draw_count(draws: &mut Draws, names: &NameState, given: usize) -> Option<usize>
    ensures sure { IfSome result (λ count. names.now.sure ≤ count) }
    ensures most { IfSome result (λ count. count ≤ names.now.most) }
    ensures given { IfSome result (λ count. count ≤ given) }
{
    let most = names.most.min(given);
    if most < names.sure {
        return None;
    }
    match draws.next() {
        0..32 => Some(names.sure),
        _ => Some(most),
    }
}

/// Draws what is left of the first so many files.
fn draw_contents(
    alloc: Global,
    draws: &mut Draws,
    files: &[TestFile],
    count: usize,
) -> Result<Contents, DrawError>
    requires { count ≤ length files.now }
    ensures each { IfOk result (λ contents. AreLeftOf files.now contents) }
    ensures count { IfOk result (λ contents. length contents ≡ count) }
{
    let mut contents = Vec::new(alloc);
    while contents.len() < count {
        let left = files[contents.len()].left(draws.seed())?;
        contents.push(left)?;
    }
    Ok(Contents::new(contents))
}

impl TestFolder {
    /// Makes a folder that was opened and held so many files, whose names are all on the disk.
    pub fn new(alloc: Global, files: usize, calls_left: usize) -> Result<TestFolder, AllocError>
        ensures { IfOk result (λ f. f ≡ held files ∷ []) }
    {
        Ok(TestFolder {
            alloc,
            names: NameState::held(files),
            is_known: true,
            calls_left: CallsLeft::new(alloc, calls_left)?,
            noted: NameTrace::held(files),
        })
    }

    /// Opens one of its files, which held this content, all of it on the disk.
    pub fn open_file(&self, content: &[u8]) -> Result<TestFile, AllocError>
        ensures { IfOk result (λ f. f ≡ opened content.now ∷ []) }
    {
        TestFile::among(self.alloc, content, self.calls_left.share()?)
    }

    /// Draws what a loss of power leaves of the folder and of these files, which are its first ones, in order, from a
    /// seed. `Memory` where a growth is refused, or was earlier; `Missing` where fewer files are given than are there
    /// for certain.
    pub fn left(&self, files: &[TestFile], seed: u64) -> Result<Contents, DrawError>
        ensures { IfOk result (λ contents. IsFolderLeft (names_after self.now) files.now contents) }
    {
        if !self.is_known {
            return Err(DrawError::Memory);
        }
        let mut draws = Draws::new(seed);
        let count = draw_count(&mut draws, &self.names, files.len()).ok_or(DrawError::Missing)?;
        draw_contents(self.alloc, &mut draws, files, count)
    }

    /// Makes an empty file that counts its calls together with the folder.
    fn new_file(&self) -> Result<TestFile, DeviceError>
        ensures { IfOk result (λ f. f ≡ opened [] ∷ []) }
    {
        self.calls_left.answer()?;
        let file = self.open_file(&[])?;
        Ok(file)
    }
}

impl Folder for TestFolder {
    type File = TestFile;

    ghost calls = { λ f. f };

    fn make(&mut self) -> Result<TestFile, DeviceError> {
        let made = self.new_file();
        if self.names.make().is_err() {
            self.is_known = false;
            return self.noted.note_made(made);
        }
        self.noted.note_made(made)
    }

    fn remove(&mut self) -> Result<(), DeviceError> {
        self.names.remove();
        self.noted.note_removed(self.calls_left.answer())
    }

    fn sync(&mut self) -> Result<(), DeviceError> {
        match self.calls_left.answer() {
            Ok(()) => {
                self.names.settle();
                self.noted.note_sync(Ok(()))
            }
            Err(error) => self.noted.note_sync(Err(error)),
        }
    }
}
