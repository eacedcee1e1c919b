//! The last files of a folder, as they were read.

ghost use Rattle.std.specs.Prelude.{◌≡◌, ◌+◌, ◌<◌, ◌≤◌, ◌^◌, length, map};
ghost use Rattle.disk_model.specs.LastFiles.{AreLast, some_are_last};

use crate::files::{Files, ReadFailed};
use std::alloc::Global;

/// The contents of the last files of a folder, and how many files stand before them.
#[derive(Drop)]
pub struct LastFiles {
    unread: usize,
    contents: Vec<Vec<u8>>,
    ghost few: { unread + length contents.items < 2 ^ 64 },
}

impl LastFiles {
    /// Takes what the last files hold of a folder that has so many.
    pub fn new(count: usize, contents: Vec<Vec<u8>>) -> LastFiles
        requires { length contents.items ≤ count }
        ensures count { result.unread + length contents.items ≡ count }
        ensures contents { result.contents ≡ contents }
    {
        let unread = count - contents.len();
        LastFiles { unread, contents }
    }
}

impl Files for LastFiles {
    ghost may_have = { λ files contents.
        AreLast files.unread (map (λ content. content.items) files.contents.items) contents };

    ghost has_some = { λ files. some_are_last files.unread (map (λ content. content.items) files.contents.items) };

    #[tactic(auto, using(crate::proofs::Known::as_many))]
    fn count(&self) -> usize {
        self.unread + self.contents.len()
    }

    fn read(&self, alloc: Global, place: usize) -> Result<Vec<u8>, ReadFailed> {
        if place < self.unread {
            return Err(ReadFailed);
        }
        let Some(content) = self.contents.get(place - self.unread) else {
            return Err(ReadFailed);
        };
        match content.to_vec(alloc) {
            Ok(content) => Ok(content),
            Err(_) => Err(ReadFailed),
        }
    }
}
