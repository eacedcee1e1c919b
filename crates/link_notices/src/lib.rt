//! What partners say beside the frames: notices.
//!
//! Over a link with notices a stream is frames and notices. A [`StreamSplitter`] parts it as it comes, in chunks of
//! any length, into the octets that go to the frames and the texts of the notices; [`encode_notice`] gives the octets of
//! a notice. Two ends talk so where [`understand_notices`] says it of their nonces. A text spells a [`Notice`]:
//! [`read_notice`] reads it and [`push_notice_text`] writes it, and a text whose first word isn't known is passed over.
//!
//! What notices tell is judged here too, and nothing follows of itself: a [`ClockExchange`] has a verdict on the two
//! clocks, and [`differences`] says in what the settings of two partners differ, and which of that keeps them apart.
//!
//! What is promised stands at these calls and at the laws: frames and notices that were written are given back, in
//! order, however the stream was cut (specs/Laws.antt); a notice has one spelling (specs/Spelling.antt), and
//! its text is short enough for a link; two right clocks are never held to be too far off, and the range that an
//! exchange shows holds by how much the partner's clock is ahead (specs/Clocks.antt). Only bodies cite specs/Parsing.antt and
//! specs/Gathering.antt.
//!
//! ```text
//! let mut splitter = StreamSplitter::new(alloc);
//! for part in splitter.feed(&chunk)?.as_slice() {
//!     match part {
//!         StreamPart::Frames(octets) => take(feed.feed(octets.as_slice())?),
//!         StreamPart::Notice(text) => hear(read_notice(alloc, text.as_slice())?),
//!     }
//! }
//! ```
#![tactic(auto)]

mod clocks;
mod comparing;
mod error;
mod laws;
mod nonce;
mod notice;
mod reading;
mod splitter;
mod stage;
mod stream_part;
mod words;
mod writing;

pub use clocks::{ClockExchange, ClockRange, ClockVerdict, LEAST_SKEW, judged_skew};
pub use comparing::{SettingsDifference, begin_alike, differences};
pub use error::NoticeError;
pub use laws::{ranges_hold, right_clocks_are_never_off, texts_fit, written_is_given_back};
pub use nonce::{NONCE_END, understand_notices};
pub use notice::{MOST_POOLS, MOST_WORD, Notice, PairSettings, PoolList, ProgramWord, UnitPool};
pub use reading::read_notice;
pub use splitter::StreamSplitter;
pub use stage::MOST_OCTETS;
pub use stream_part::StreamPart;
pub use writing::{encode_notice, push_notice, push_notice_text};
