//! The desk: a command line and standard input to one verdict line.
//!
//! `invocation_of` gives the [`Invocation`] of the words (`desk_args`), `run` carries out a command between a reader
//! and a writer, and `judge` answers an input that is at hand. The input is journal A, journal B and the certificate,
//! one after the other (`attribution_desk`). `search_pair`, `timeline_of`, `judge_journals` and `judge_certificates`
//! answer over two journals that were read already, as one [`IndexedPair`]; what a search answers is a value, a
//! [`SearchAnswer`]. specs/Answer says what is answered, specs/Judgements what is ruled on texts, specs/Find, Who and
//! Clocks what searches answer.
//!
//! ```text
//! let outcome = run(rt, alloc, &command, &mut reader, &mut writer)?; // status 0: accepted
//! ```
//!
//! What the desk reads: journal A, journal B and what follows, one after the other, in chunks that may end anywhere.
//!
//! The input is never held whole. `take_all` hands all that a [`Watched`] reader gives to what takes it
//! ([`ChunkSink`]): an [`Intake`], which gives two journals and the octets behind them, or a [`PairIntake`], where
//! journal B's text is all that follows A's. A reader that is well is never blamed ([`DeskError`]). specs/Input says
//! where a text ends.
//!
//! ```text
//! let intake = take_all(rt, alloc, &mut Watched::new(stdin), Intake::new(alloc))?;
//! let input = intake.finish(); // two journals or their first faults, and the certificate's text
//! ```
#![tactic(auto)]

mod answer;
mod audit;
mod batch;
mod certificates;
mod chunk_sink;
mod clocks;
mod end_line;
mod error;
mod evidence;
mod finding;
mod holding;
mod indexed_pair;
mod intake;
mod journal_intake;
mod judging;
mod laws;
mod outcome;
mod pair_intake;
mod reading_again;
mod running;
mod search;
mod search_answer;
mod searching;
mod timelines;
mod watched;

pub use answer::DeskAnswer;
pub use audit::judge;
pub use batch::judge_certificates;
pub use certificates::{CertificateText, texts_in};
pub use chunk_sink::{ChunkSink, halvings_for, take_all};
pub use desk_args::{Command, DeskRequest, InputSource, Invocation, UsageError, invocation_of};
pub use end_line::end_in;
pub use error::DeskError;
pub use finding::{Finding, none_line, over_limits};
pub use holding::held_text;
pub use indexed_pair::IndexedPair;
pub use intake::{Intake, ReadInput};
pub use judging::{judge_journals, judge_parsed};
pub use laws::accepted_rulings_are_true;
pub use outcome::{DeskOutcome, warnings_on};
pub use pair_intake::{PairIntake, ReadPair};
pub use running::run;
pub use search::Search;
pub use search_answer::SearchAnswer;
pub use searching::{search_journals, search_open, search_pair};
pub use timelines::{timeline, timeline_of};
pub use watched::Watched;
