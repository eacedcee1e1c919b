//! Ghost traces of the calls made to a file or a folder: lists that contracts read and that take no memory at run
//! time. A device notes each call with its outcome in a `CallTrace` or `NameTrace`. Nothing proves that the noted call
//! was really made, so the few methods that note one must be reviewed by hand.
//!
//! The record of a device's calls: a list that clauses read and no memory holds.
//!
//! A device keeps a [`CallTrace`] beside its file and notes each call with what came of it. What it notes is what its
//! contract says of it, so **each method that notes a call has to be read**: a body that notes a sync and makes none
//! proves as well. The two proofs by hand of this crate (the private `CallTrace::new` and `CallTrace::note`) set the
//! list; no other proof by hand may be written over a `CallTrace`. It may go to another thread (`Send`, proved), and so
//! may a device that keeps one.
//!
//! ```text
//! let outcome = self.file.sync_data();   // the call
//! self.noted.note_sync(outcome)          // its note: flushed, or failed
//! ```
//!
//! The record of a folder's calls: a list that clauses read and no memory holds.
//!
//! A folder of volumes keeps a [`NameTrace`] beside its files and notes each call with what came of it, as a device
//! does by its own record (`call_trace`). What it notes is what its contract says of it, so **each method that notes
//! a call has to be read**: a body that notes that it made a file and makes none proves as well. The two proofs by hand
//! of this crate (the private `NameTrace::new` and `NameTrace::note`) set the list; no other proof by hand may be
//! written over a `NameTrace`. It may go to another thread (`Send`, proved), and so may a folder that keeps one.
//!
//! ```text
//! let outcome = self.handle.sync_all();  // the call
//! self.noted.note_sync(told(outcome))    // its note: settled, or refused
//! ```
#![tactic(auto)]

mod kind;
mod name_kind;
mod name_record;
mod record;

pub use name_record::NameTrace;
pub use record::CallTrace;
