//! A report on a ruling, in words.
//!
//! [`document_of`] tells of a ruling, and of what a certificate shows over two journals, as a [`Document`]: headings,
//! paragraphs, items and cited lines, each of which is a list of [`ReportWord`]s. A word is prose, or a value of the
//! report: a line, a reading, a moment, a client. A writer spells them, and adds no number of its own. The contracts
//! say, block by block, which values stand there and in which order, with each sum; specs/Telling and the files beside
//! it have them. The prose is what nothing but a reader judges. [`push_block`] and [`push_sum`] append sentences of
//! one's own, and [`with_both`] is how a sum ends that adds the skew and the transit.
//!
//! ```text
//! let explanation = Explanation { ruling, report: Some(report), failure };
//! let document = document_of(alloc, &explanation)?;
//! ```
//!
//! Why a search for a holder names nobody, in words.
//!
//! [`why_blocks`] tells it as blocks of a report (`report_document`): what was asked, why nobody is named, and of each
//! delegation near the moment from when to when it can be shown, from when to when it may have been, and what is
//! missing at the moment. Each number stands there with the sum that it comes from. [`refusal_blocks`] tells what stands
//! against the journals instead, and of no delegation.
//!
//! ```text
//! let blocks = why_blocks(alloc, &query, &why, &leases)?;
//! ```
#![tactic(auto)]

mod block;
mod chains;
mod document;
mod failures;
mod foreign;
mod leases;
mod moments;
mod orders;
mod pieces;
mod question;
mod releases;
mod rule_words;
mod rulings;
mod sums;
mod whole;
mod word;

pub use block::{Block, BlockKind, Document, SentencePart, push_block, push_sum};
pub use document::{Explanation, document_of};
pub use sums::with_both;
pub use whole::{refusal_blocks, why_blocks};
pub use word::ReportWord;
