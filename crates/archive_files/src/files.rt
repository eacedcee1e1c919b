//! Files that may be journals.

ghost use Rattle.std.specs.Prelude.{◌≡◌, ℕ, List, IfOk};
ghost use Rattle.archive_files.specs.Parts.{IsBeginning, IsEnd};

use journal_archive::FileEnd;
use std::alloc::Global;

/// Why a file wasn't read.
#[derive(Clone, Copy, Debug, PartialEq, Eq)]
pub enum Unreadable {
    /// The device refused.
    Device,
    /// A growth was refused.
    Memory,
}

/// Files that can be read whole or at their edges, by their counts from 0.
pub trait JournalFiles {
    /// That the file had these octets when it was read.
    ghost had: { Self → ℕ → List ℕ → Type 0 };

    /// How many files there are.
    ghost files: { Self → ℕ };

    /// Returns how many files there are.
    fn count(&self) -> usize
        ensures { result ≡ files self.now };

    /// All octets of a file, as it has them now. Where a server that still writes it says how much of it is on a disk,
    /// these alone.
    fn read(&self, alloc: Global, file: usize) -> Result<Vec<u8>, Unreadable>
        ensures { IfOk result (λ octets. had self.now file octets.items) };

    /// The first octets of a file, as it has them now: so many, or all where it has fewer.
    fn beginning(&self, alloc: Global, file: usize, octets: u32) -> Result<Vec<u8>, Unreadable>
        ensures { IfOk result (λ beginning. IsBeginning (had self.now file) beginning.items) };

    /// The last octets of a file, as it has them now: so many, or all where it has fewer.
    fn end(&self, alloc: Global, file: usize, octets: u32) -> Result<FileEnd, Unreadable>
        ensures { IfOk result (IsEnd (had self.now file)) };
}
