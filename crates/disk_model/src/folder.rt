//! The calls that a server makes to the folder of its volumes.

ghost use Rattle.std.specs.Prelude.{◌≡◌, ◌<◌, [], ◌∷◌, List, IfOk, IsTrue};
ghost use Rattle.disk_model.specs.Disk.{opened};
ghost use Rattle.disk_model.specs.Names.{NameCall, made, removed, names_after, AreSettled, NotesName, NotesNameSync};

use crate::device::{Device, DeviceError};

/// A folder that notes its calls. After one that failed nothing more may be asked of it: it has to be opened again.
pub trait Folder {
    /// A file of the folder.
    type File: Device;

    /// The calls that were made so far, the last one first.
    ghost calls: { Self → List NameCall };

    /// Makes a file behind all others, empty.
    fn make(&mut self) -> Result<Self::File, DeviceError>
        requires { AreSettled (calls self.old) }
        ensures noted { NotesName result made (calls self.old) (calls self.new) }
        ensures empty { IfOk result (λ file. Self.File.calls file ≡ opened [] ∷ []) };

    /// Removes the last file.
    fn remove(&mut self) -> Result<(), DeviceError>
        requires settled { AreSettled (calls self.old) }
        requires some { 0 < (names_after (calls self.old)).files }
        ensures { NotesName result removed (calls self.old) (calls self.new) };

    /// Waits until all names are on the disk.
    fn sync(&mut self) -> Result<(), DeviceError>
        requires { IsTrue (names_after (calls self.old)).is_usable }
        ensures { NotesNameSync result (calls self.old) (calls self.new) };
}
