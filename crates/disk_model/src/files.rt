//! The files of a folder.

ghost use Rattle.std.specs.Prelude.{◌≡◌, ℕ, List, Some, length, slice_get, IfOk};

use std::alloc::Global;

/// A file couldn't be read.
#[derive(Clone, Copy, Debug, PartialEq, Eq)]
pub struct ReadFailed;

/// The files of a folder of volumes, the first volume's first, as far as a reader knows them.
pub trait Files {
    /// The files may have these contents, by all that is known of them.
    ghost may_have: { Self → List (List ℕ) → Type 0 };

    /// Returns how many files there are.
    fn count(&self) -> usize
        ensures { (contents : List (List ℕ)) → may_have self.now contents → result ≡ length contents };

    /// Returns what a file holds; files are counted from 0.
    fn read(&self, alloc: Global, place: usize) -> Result<Vec<u8>, ReadFailed>
        ensures { IfOk result (λ content. (contents : List (List ℕ)) → may_have self.now contents
            → slice_get contents place ≡ Some content.items) };

    /// There are contents that they may have.
    ghost has_some: { (files : Self) → (contents : List (List ℕ)) × may_have files contents };
}
