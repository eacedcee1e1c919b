//! Certificates, ruled over the volumes that show their moments and earlier ones, or over given volumes.
//!
//! A certificate is ruled over the pair of volumes that shows where its interval begins (`archive_desk`). Where that
//! doesn't accept it, [`audit_widest`] and [`batch_widest`] try it over the spans that `who` takes at the moment where
//! the interval begins, and then over those that it takes at the interval's last moment (`joined_answers`): each time
//! the volumes that show the moment, and one more in front of each side for as long as a lease of the certificate's
//! prefix is carried there from earlier ones, within the reach of the volumes' settings. Last it tries the volumes from
//! the first moment's to the last's. The first spans that accept it are the ruling; else the ruling over its own pair
//! stands. Spans that aren't one journal, or against which something stands, end a search, and hide no ruling
//! (specs/Trials, Walking, Between, Rulings).
//!
//! [`audit_spans`] and [`batch_spans`] rule over given volumes of both sides alone (specs/Given): those that standard
//! error names where a ruling is over several.
//!
//! Whatever is accepted is true in every run of the pair that leaves the volumes ([`accepted_is_true`]).
//!
//! ```text
//! let audit = audit_widest(rt, alloc, &files, names, text, &bounds)?;
//! let told = audit.told(alloc, names, NoteDetail::Brief)?; // `volumes A40-48 B39-47` where a ruling is over several
//! ```
#![tactic(auto)]

mod between;
mod given;
mod given_telling;
mod judged;
mod lacks;
mod laws;
mod telling;
mod trial;
mod trying;
mod walking;
mod widest;

pub use given::{GivenAudit, GivenReply, GivenRulings, audit_spans, batch_spans};
pub use lacks::{lack_words, missing_told, no_volume_told, none_told, refusal_told};
pub use laws::accepted_is_true;
pub use trial::{SpanAcceptance, SpanRuling};
pub use trying::tried_over_spans;
pub use widest::{CertificateRuling, SpannedAudit, audit_widest, batch_widest};
