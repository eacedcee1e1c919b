//! Start of a server from its directory: it reads the last volumes, applies the decision of `server_start`, repairs
//! the torn end of the last file, and returns a running `ServerCore`. It opens no socket.
//!
//! [`read_folder`] reads the last files of a folder and what they lead to (`volume_store`), and of the volumes before
//! the messages that the partner may lack. [`start`] then takes the time, and goes on with that if a server of these
//! settings may (`server_start`): with a first volume, the last one, or the one that follows it. It has no file to read,
//! so each line that it writes has a reading of after the last file was read. Whatever a loss of power left of a
//! server's volumes, the server starts with these (specs/Keeping); its first line is `restart`, but for a server that is
//! alone (specs/Started).
//!
//! ```text
//! let count = volumes.count();
//! let read = read_folder(alloc, volumes, count, &settings, Pairing::Paired, &clocks)?;
//! let Started { running, began, torn } = start(alloc, read, &settings, floor, Pairing::Paired, &clocks)?;
//! ```
#![tactic(auto)]

mod failing;
mod older;
mod pairing;
mod reached;
mod reading;
mod starting;
mod volume_files;

pub use failing::{RollFailure, StartFailure};
pub use pairing::{Pairing, is_survivor};
pub use reading::{FolderRead, LastVolume, read_folder};
pub use starting::{StartMode, Started, start};
pub use volume_files::VolumeFiles;
