//! The checks on two journals before any certificate: broken rules, messages that don't match, clocks that no skew
//! explains, heads that no legal volume leaves, settings that differ. `judge_pair` returns the merged order or the
//! `Judgement` that refuses the pair. It looks at no certificate.
//!
//! `judge_pair` asks what `check_pair` of `auditor` asks, and then whether clocks within the stated skew can have
//! written the two journals at all (K1): where a take reads more than twice the skew below its send, no run leaves
//! them, and an answer over them would say nothing. At last it asks whether a volume begins with a lease that lasts
//! longer than a legal volume leaves any (K4). A [`Judgement`] is a verdict or one of K1 to K4. `clock_pair` tells the
//! least skew with which the two could have been written. `objection` tells whether the two are of one pair (K2) and
//! whether the question allows for the skew and transit that they say themselves (K3), and `warnings` spells both as
//! notes. specs/PairJudgements, specs/Carrying, specs/Clocked and specs/Ties say what is ruled, told and doubted,
//! specs/Judgements how a ruling is spelled.
//!
//! ```text
//! let merged = match judge_pair(alloc, &journal_a, &journal_b, skew)? {
//!     PairJudgement::Fit(merged) => merged,
//!     PairJudgement::Refused(ruling) => return judgement_line(alloc, &ruling), // refused K1 Clocks B3
//! };
//! ```
//!
//! What the desk rules on two journals, found by threads.
//!
//! `judge_pair_by` answers what `judge_pair` of `pair_judgement` answers. The rules of both journals, and the notes of
//! their lines behind them, are found side by side; then one thread merges the two and looks for the first take that is
//! early. The first refusal in the order of `judge_pair` counts, whatever the others came to.
//!
//! ```text
//! let merged = match judge_pair_by(rt, alloc, &journal_a, &journal_b, skew)? {
//!     PairJudgement::Fit(merged) => merged,
//!     PairJudgement::Refused(ruling) => return judgement_line(alloc, &ruling), // refused K1 Clocks B3
//! };
//! ```
#![tactic(auto)]

mod carrying;
mod clocks;
mod finding;
mod judging;
mod pair;
mod parallel_judgement;
mod ties;

pub use clocks::{ClockJudgement, clock_pair, least_text};
pub use judging::{Judgement, judgement_line, judgements, status_of};
pub use pair::{PairJudgement, judge_pair};
pub use parallel_judgement::judge_pair_by;
pub use ties::{objection, warnings};
