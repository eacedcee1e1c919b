//! The decision at a server's start, without I/O: given the settings, the clock and what recovery found, begin the
//! first volume, go on with the open one, end it, or begin the next; or refuse, with the reason. `folder_start`
//! carries it out.
//!
//! A folder leads to a step (`volume_store`). A first volume is begun only by settings that have a transit. Of a book
//! [`start_with`] asks that the settings are those that it was opened with ([`DifferingSettings`] names each that
//! isn't), then that the clock doesn't read more than twice the skew below the book's last line ([`is_behind`], which a
//! server also asks while it runs). A book that goes on gets one line, `restart`. What needs a disk is a step of
//! [`StartAction`], which a caller takes by `volume_store`; the book of the next volume then gets its `restart` by
//! [`restart`], since the partner may have taken this server for down meanwhile. Of a server that nobody can have taken
//! for down [`may_start`] asks the same, and its book goes on as it is. [`may_begin`] asks the same of each step,
//! before anything is changed.
//!
//! ```text
//! match start_with(alloc, recover_folder(alloc, role, &files)?.step, &settings, now)? {
//!     StartAction::GoOn(book) => ..,                        // its last line is put to the file
//!     StartAction::Next(book) => ..,                        // begin_next, then restart
//!     ..
//! }
//! ```
#![tactic(auto)]

mod clock;
mod error;
mod opened_settings;
mod setting;
mod starting;

pub use clock::is_behind;
pub use error::StartError;
pub use opened_settings::{OpenedSettings, opening_of};
pub use setting::{DifferingSettings, FixedSetting};
pub use starting::{StartAction, may_begin, may_start, restart, start_with};
