//! The file `clock` of a server's directory, in which a [`ClockRecord`](clock_watch::ClockRecord) is kept, and what the
//! system says of its boot and of how long it has run.
//!
//! Where the file can't be read or written, or the system doesn't say it, nothing is known: a server goes on without it.
//!
//! ```text
//! let mut store = ClockFile::new(&rt, "/var/lib/node")?;
//! if let Some(present) = store.present(now) { store.keep(&present); }
//! ```
#![tactic(auto)]

mod file;

pub use file::ClockFile;
