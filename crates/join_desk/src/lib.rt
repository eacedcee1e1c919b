//! The desk's `join`: the volumes of a side in files, put together as one journal; and its `copy`: their text up to a
//! line.
//!
//! [`join_files`] says which of the files are volumes of the side (`archive_files`), chooses those that are asked for
//! by their numbers (specs/Choosing), reads one after the other and puts them together (`volume_join`, specs/Joined).
//! What is told is the journal's text, or why the volumes aren't one (specs/Telling; `joined_rulings` has the words).
//!
//! [`copy_files`] gives the text of a side's volumes up to a line, as an answer used them (`journal_copies`,
//! specs/Copying).
//!
//! ```text
//! let told = join_files(alloc, &files, names, &query)?;
//! writer.write_all(&told.text)?; // a journal's text, as a file of the first volume's number
//! ```
#![tactic(auto)]

mod choosing;
mod copying;
mod joining;
mod outcome;
mod putting;
mod telling;
mod text;

pub use choosing::VolumeChoice;
pub use copying::copy_files;
pub use joining::join_files;
pub use outcome::JoinOutcome;
pub use volume_spans::JoinRefusal;
