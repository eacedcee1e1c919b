//! The desk's questions over the journals of files.
//!
//! `answer` says which of the files are volumes of the two servers, finds the pair of volumes that shows what is asked
//! of, and answers what the desk answers over the journals that these two show (`attribution_desk`, `holder_answers`);
//! where no pair does it says what is lacking. Who held a prefix it asks earlier volumes too, where a lease may have begun
//! there (`joined_answers`). An answer is a value ([`FilesAnswer`]); what is told of it names the
//! files by `names`, one for each file. specs/Who, Stretches, Newest and Judging say what is answered, specs/Telling,
//! Certificates and Failing how it is told.
//!
//! ```text
//! let answer = answer(rt, alloc, &files, names, &ArchiveQuestion::Who(query, settings))?;
//! let told = answer.told(alloc, names, NoteDetail::Brief)?; // for standard output, as over standard input, and for standard error
//! ```
#![tactic(auto)]

mod answering;
mod asking;
mod certificates;
mod command_output;
mod coverage_gaps;
mod evidence_telling;
mod failing;
mod holder_telling;
mod holding;
mod judged_telling;
mod judging;
mod names;
mod newest;
mod passing;
mod stretches;
mod timeline_telling;
mod unread;
mod waiting;

pub use answering::{ArchiveAnswer, ArchiveQuestion, FilesAnswer, answer};
pub use asking::{ends_of, expect_lines};
pub use certificates::{JudgedAnswer, judged_over};
pub use command_output::CommandOutput;
pub use coverage_gaps::{TimingBounds, gap_line, push_gap_name};
pub use failing::{FilesFailure, failure};
pub use holding::{HolderReply, WhoAnswer, access_over};
pub use judged_telling::warned_all;
pub use judging::{ArchiveJudgement, PairWarnings};
pub use names::{name_of, push_journals, push_volumes};
pub use newest::{TimelineAnswer, TimelineReply};
pub use passing::passed_over;
pub use stretches::{EvidenceReply, FindAnswer, FoundStretch};
pub use unread::expect_read;
