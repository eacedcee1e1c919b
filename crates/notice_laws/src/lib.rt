//! Frames and notices on one link: what the other end reads is what was said.
//!
//! An end says frames (`failover_message`) and notices (`link_notices`), one behind another. The other end parts what
//! comes by a `StreamSplitter`, and feeds the octets that this gives for frames to a `Feed`. Here stand the laws of both
//! together: the frames that are read are those that were said, in order, and so are the texts of the notices, however
//! the stream was cut into chunks.
#![tactic(auto)]

mod laws;

pub use laws::{all_is_read, what_is_read_was_said};
