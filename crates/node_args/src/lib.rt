//! The words of a node's command line.
//!
//! [`command_of`] gives the [`NodeCommand`] that clap finds in the words, or says why there is none.
//!
//! ```text
//! // of `node roll --dir DIR`: NodeCommand::Ask { directory, request: Request::Roll }
//! let command = command_of(alloc, &words)?;
//! ```
#![tactic(auto)]

mod advice;
mod command;
mod error;

pub use advice::advice_of;
pub use command::{CheckCommand, NodeCommand, RunCommand, ServeCommand, command_of};
pub use error::ArgsError;
