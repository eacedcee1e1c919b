//! The desk's reports and objects: what it rules on a certificate over two journals and what that rests on, who held a
//! prefix and why, or why nobody is named.
//!
//! [`explain_journals`] rules as `attribution_desk` does, and says what the certificate shows (`evidence_report`);
//! [`explain_read`] does it over texts that were read, each of which may be at fault. specs/Explaining says both.
//! [`explain_told`] and [`holder_told`] write it in the form that is asked for: sentences, a page or one JSON object.
//! [`who_data`] and those beside it write an answer without a report as one JSON object (`answer_data`; specs/Answers), and
//! [`failed_told`] that there is none. What is written is taken of the answers' values, and of no text.
//!
//! ```text
//! let told = explain_told(rt, alloc, &pair, certificate, skew, transit, &style)?; // status 0: accepted
//! ```
#![tactic(auto)]

mod answers;
mod claims;
mod explaining;
mod files;
mod holders;
mod laws;
mod pages;
mod sourcing;
mod style;
mod telling;
mod unanswered;

pub use answer_data::{found_data, holder_data, refused_data, ruling_data};
pub use answers::{audit_data, find_data, given_audit_data, who_data};
pub use candidate_leases::VolumeEnds;
pub use claims::{explain_files, explain_spans};
pub use explaining::{explain_journals, explain_read};
pub use files::holder_in_files;
pub use holders::{holder_told, reply_told};
pub use laws::{accepted_reports_are_true, volume_reports_are_true, who_objects_are_true};
pub use style::{ReportSource, ReportStyle, StatedFacts};
pub use telling::explain_told;
pub use unanswered::{ReportQuestion, failed_told, fault_data, line_page};
