//! A codec for the failover link: frames to octets and back. `encode` and `decode` handle one whole frame; a `Feed`
//! reassembles frames from a byte stream that arrives in chunks of any length. It doesn't decide what a frame means or
//! when one is sent.
//!
//! `encode` writes a `Frame`, `decode` takes one apart, and a `Feed` gives the frames of a stream that comes in
//! chunks of any length. A `Frame` says one thing, its `FrameKind`; octets that are none have a `LinkError`.
//!
//! What is promised stands at these calls and at the laws: a frame has one spelling (specs/Frames.antt), and other
//! octets are refused for their first fault (specs/Faults.antt); a feed gives the frames of the whole stream, however
//! it was cut (specs/Stream.antt, specs/Laws.antt). Only bodies cite specs/Parsing.antt.
//!
//! ```text
//! let octets = encode(alloc, &frame)?;
//! let mut feed = Feed::new(alloc);
//! let frames = feed.feed(octets.as_slice())?; // this one frame
//! ```
#![tactic(auto)]

mod bodies;
mod codes;
mod decoding;
mod error;
mod feed;
mod fields;
mod frame;
mod laws;
mod octets;
mod writing;

pub use binding_rules::{Body, ServerState};
pub use decoding::decode;
pub use error::LinkError;
pub use feed::Feed;
pub use frame::{Frame, FrameKind};
pub use laws::{chunks_join, frames_stand_apart};
pub use writing::encode;
