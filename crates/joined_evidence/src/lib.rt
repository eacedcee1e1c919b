//! The evidence of an interval, over the volumes that show its stretches and earlier ones.
//!
//! `find` over files cuts an interval into stretches, each of the pair of volumes that shows where it begins
//! (`archive_desk`). Where that pair finds nothing, [`find_widest`] searches again over the spans that `who` takes at
//! the stretch's beginning (`joined_answers`): the volumes that show it, and one more in front of each side for as long
//! as a lease of the prefix is carried there from earlier ones, within the reach of the volumes' settings. The first
//! spans over which evidence is found are the stretch's reply; else the reply of its own pair stands. Spans that aren't
//! one journal, or against which something stands, end the search, and hide no reply (specs/Searches, Walking,
//! Stretches).
//!
//! Whatever certificate is found over spans is true in every run of the pair that leaves the volumes
//! ([`found_is_true`]).
//!
//! ```text
//! let answer = find_widest(rt, alloc, &files, names, &query)?;
//! let told = answer.told(alloc, names, NoteDetail::Brief)?; // `volumes A40-48 B39-47` where a reply is over several
//! ```
#![tactic(auto)]

mod asking;
mod laws;
mod own_evidence;
mod searched;
mod span_searching;
mod stretches;
mod telling;
mod trying;
mod walking;

pub use laws::found_is_true;
pub use span_searching::SpanEvidence;
pub use stretches::{SpannedEvidence, SpannedStretch, find_widest};
