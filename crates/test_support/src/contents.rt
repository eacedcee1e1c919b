//! The contents that were left of a folder's files.

ghost use Rattle.std.specs.Prelude.{◌≡◌, refl};

use disk_model::{Files, ReadFailed};
use std::alloc::Global;
use std::marker::Model;

/// What a loss of power left of a folder: the content of each of its files. Clauses see the contents as lists.
#[derive(Debug, Drop)]
pub struct Contents {
    files: Vec<Vec<u8>>,
}

impl Model for Contents {
    ghost use Rattle.std.specs.Prelude.{ℕ, List, map};

    ghost Value = { List (List ℕ) };

    ghost view = { λ c. map (λ file. file.items) c.files.items };
}

impl Contents {
    ghost use Rattle.std.specs.Prelude.{◌≡◌, length, map};

    /// Takes the contents of a folder's files.
    pub fn new(files: Vec<Vec<u8>>) -> Contents
        ensures { result ≡ map (λ file. file.items) files.items }
    {
        Contents { files }
    }

    /// Returns the contents.
    pub fn as_slice(&self) -> &[Vec<u8>]
        ensures { map (λ file. file.items) result.now ≡ self.now }
    {
        &self.files
    }
}

impl Files for Contents {
    ghost may_have = { λ c contents. contents ≡ c };

    ghost has_some = { λ c. (c, refl) };

    fn count(&self) -> usize {
        self.files.len()
    }

    fn read(&self, alloc: Global, place: usize) -> Result<Vec<u8>, ReadFailed> {
        let Some(content) = self.files.get(place) else {
            return Err(ReadFailed);
        };
        match content.to_vec(alloc) {
            Ok(content) => Ok(content),
            Err(_) => Err(ReadFailed),
        }
    }
}
