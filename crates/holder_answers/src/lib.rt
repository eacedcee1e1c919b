//! Who held a prefix at a moment, as the desk answers it: one value, whose writers are a text, a report and an object.
//!
//! [`holder_answer`] asks two journals, over one index of their lines: it names the client, with the certificate that
//! shows it; or says what stands against the journals; or why nobody is named, with the delegations near the moment.
//! [`HolderAnswer`] writes what `who` prints. specs/HolderAnswers says what is answered, and specs/Searching of
//! `attribution_desk` how it is written.
//!
//! ```text
//! let answer = holder_answer(rt, alloc, &pair, &query, SettingsCheck::MustAgree, VolumeEnds::CLOSED)?;
//! let text = answer.text(alloc)?; // status 0: a client is named
//! ```
#![tactic(auto)]

mod answer;
mod asking;

pub use answer::{HolderAnswer, NoHolder};
pub use asking::{holder_answer, holder_answer_in, holder_answer_over};
pub use candidate_leases::{CandidateLease, NoHolderReason, VolumeEnd, VolumeEnds};
