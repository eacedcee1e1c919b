//! The control protocol of a running server: parsing a `ControlRequest`, formatting a `ControlReply`, and the server's
//! status as text, JSON and OpenMetrics. It doesn't touch the socket, and it doesn't carry the request out.
//!
//! A [`ServerStatus`] is filled in by the server, and written in a form that a person asks for: lines to read, JSON, or
//! the text of OpenMetrics that a monitor scrapes. [`UnitCounts`], [`Traffic`] and [`SyncTimes`] count what it says;
//! [`serving_of`] decides whether clients are served, and why not (specs/Serving); of a server whose disk failed
//! [`failed_status`] is all that is said. [`PartnerNotices`] is what its
//! partner told beside the frames.
//!
//! ```text
//! status.text(alloc, StatusFormat::Json)
//! ```
//!
//! The words by which a person tells a running server something, and what it answers.
//!
//! Over the control socket a [`ControlRequest`] is one line, and a [`ControlReply`] is a line, `ok` or `refused` with
//! its reason, and then a text up to the end: both sides read and write them here (specs/Words).
//!
//! ```text
//! let Some(request) = ControlRequest::read(line) else { .. };
//! match request {
//!     ControlRequest::Roll => .., // and then ControlVerdict::Done, or ControlVerdict::Refused("its partner is down")
//!     ..
//! }
//! ```
#![tactic(auto)]

mod control_reply;
mod control_request;
mod failed;
mod json;
mod lines;
mod metrics;
mod notices;
mod partner_refusal;
mod serving;
mod status;
mod sync_times;
mod traffic;
mod units;
mod writing;

pub use control_reply::{ControlReply, ControlVerdict};
pub use control_request::{
    CLOCK_RIGHT, ControlRequest, PARTNER_STOPPED, ShutdownMode, StatusFormat,
};
pub use failed::failed_status;
pub use notices::{NoticeState, PartnerNotices};
pub use partner_refusal::{LastRefusal, PartnerRefusal};
pub use serving::{
    JournalShortage, JournalState, NotServing, ServingInput, ServingState, serving_of,
};
pub use status::{ClockState, LinkState, PartnerState, ServerStatus, VolumeStatus};
pub use sync_times::{SyncSummary, SyncTime, SyncTimes};
pub use traffic::{AnswerCounts, FaultCounts, MessageCounts, Traffic};
pub use units::UnitCounts;
