//! A folder whose files can be read.

ghost use Rattle.std.specs.Prelude.{◌≡◌, ⊤, [], ◌∷◌, IfOk};
ghost use Rattle.disk_model.specs.Disk.{opened};

use disk_files::{OpenedFile, RealVolumes};
use disk_model::{Folder, LastFiles};
use std::io;

/// The folder of a server's volumes, whose files can be read.
pub trait VolumeFiles: Folder {
    ghost use Rattle.disk_model.specs.declared.last_files.LastFiles.{LastFiles as LastFilesValue};

    /// A call of `last_files` may have given these. Nothing else says so: a contract that promises it of files, and has
    /// none before, wants a call.
    ghost has_last: { Self → LastFilesValue → Type 0 };

    /// Reads the last two files, or as many as there are.
    fn last_files(&self) -> io::Result<LastFiles>
        ensures { IfOk result (has_last self.now) };

    /// Reads all of a volume's file, by its number from 1.
    fn read_volume(&self, number: usize) -> io::Result<Vec<u8>>;

    /// Opens the last file, to go on with it, and reads all of it.
    fn open_last(&self) -> io::Result<(Self::File, Vec<u8>)>
        ensures { IfOk result (λ found. Self.File.calls found.0 ≡ opened found.1.items ∷ []) };
}

impl VolumeFiles for RealVolumes {
    ghost has_last = { λ _ _. ⊤ };

    fn last_files(&self) -> io::Result<LastFiles> {
        self.last_files()
    }

    fn read_volume(&self, number: usize) -> io::Result<Vec<u8>> {
        self.read_volume(number)
    }

    fn open_last(&self) -> io::Result<(Self::File, Vec<u8>)> {
        let OpenedFile { file, content } = self.open_last()?;
        Ok((file, content))
    }
}
