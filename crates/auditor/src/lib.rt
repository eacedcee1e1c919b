//! The checker: it accepts a certificate over two journals, or returns the first condition that fails. `audit` works
//! over any `LineSource`, `audit_bytes` over three texts. It trusts neither the certificate nor whoever made it, and
//! it never searches for evidence.
//!
//! `audit` judges over any [`LineSource`], `audit_bytes` over three texts. Their clause `verdict` is the definition of
//! the verdict, their clause `headline` the theorem: what is accepted is true in every run of the pair that leaves
//! these journals; clause `snapshots` of `audit` says it of journals that are still being written. `audit_knowing` is
//! `audit` where `others_of` has found, once for many certificates, what other clients had of the prefix.
//! `reason_holds` is one foreign entry's reason, `check_pair` what two journals come to before any certificate: whether
//! they keep the rules and can both be true. [`PlainSource`] is two journals, looked through at each question.
//! specs/Pair is what refuses two journals, specs/Texts the verdict on texts, with that before the certificate's
//! conditions; specs/Closing is what a source owes, specs/Known what is known of other clients; specs/Bounds, Opened,
//! Passing and Refusals are for bodies only.
//!
//! ```text
//! let verdict = audit_bytes(alloc, journal_a, journal_b, certificate, skew, Transit::ZERO)?;
//! let is_shown = verdict == Verdict::Accepted;
//! ```
#![tactic(auto)]

mod auditing;
mod error;
mod foreign;
mod grants;
mod knowing;
mod laws;
mod opened;
mod order;
mod pair;
mod pieces;
mod plain;
mod question;
mod releases;
mod source;
mod texts;
mod walk;

pub use auditing::audit;
pub use error::AuditError;
pub use grants::reason_holds;
pub use knowing::{audit_knowing, others_of};
pub use laws::{
    accepted_texts_are_true, pair_is_checked_once, text_verdict_is_one, unbroken_is_short,
};
pub use pair::{Checked, broken_rule, check_pair, ordered};
pub use plain::PlainSource;
pub use source::LineSource;
pub use texts::{audit_bytes, audit_read};
pub use walk::Walk;
