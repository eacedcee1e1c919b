//! Why nobody can be heard any more.

use std::io;
use thiserror::Error;

/// Why nobody can be heard any more.
#[derive(Debug, Drop, Error)]
pub enum ReceiveError {
    /// No datagram can be heard any more.
    #[error("datagrams can't be heard: {0}")]
    Datagrams(io::Error),
    /// A clock tells no time.
    #[error("the clock tells no time")]
    Clock,
}
