//! Who held a prefix at a moment, over the volumes of both servers that show it and earlier ones.
//!
//! A lease that may last at a moment may have begun in a volume before those that show the moment: the head of a volume
//! carries it, and when it began isn't shown there. [`holder_over_spans`] asks the volumes that show the moment first, of
//! each side one, or the two of a roll; where nobody is named and such a lease is near the moment it takes one volume
//! more in front of each side, reading no file again, and asks the journals that these are together. It takes them as
//! far as the settings of the volumes let a lease reach, and as long as nothing stands against them: a refusal further
//! back hides no answer (specs/Widening).
//!
//! Who is named held the prefix in every run of the pair that leaves the volumes of the answer ([`named_is_true`]).
//!
//! ```text
//! match holder_over_spans(rt, alloc, &files, &archive, &query, SettingsCheck::MustAgree)? {
//!     SpanReply::Answered(answer) => .., // over the volumes of answer.spans
//!     SpanReply::Lacking(side, gap) => .., // no volumes show the moment
//!     SpanReply::Refused(refusal) => .., // the two volumes of a roll aren't one journal
//! }
//! ```
#![tactic(auto)]

mod answer;
mod laws;
mod reach;
mod starting;
mod widening;

pub use answer::{SpannedAnswer, has_carried};
pub use laws::named_is_true;
pub use reach::{LeaseBounds, may_begin_earlier, reach_over};
pub use starting::{MomentSpans, lasting_gap, read_both, spans_at};
pub use widening::{SpanReply, both_widened, holder_over_spans, may_widen};
