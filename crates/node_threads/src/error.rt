//! Why an engine ends.

ghost use Rattle.std.specs.Prelude.{◌≡◌};
ghost use Rattle.node_threads.specs.declared.error.NodeError.TheVariants.{Net, Memory};
ghost use Rattle.node_threads.specs.Ending.{fault_of};

use failover_session::SessionError;
use locked_book::ServeError;
use std::alloc::{AllocError, AllocFailed};
use thiserror::Error;

/// A socket or a clock failed.
#[derive(Clone, Copy, Debug, PartialEq, Eq, Error)]
#[error("fault Net")]
pub struct NetFault;

/// Why an engine ended.
#[derive(Clone, Copy, Debug, PartialEq, Eq, Error)]
pub enum NodeError {
    /// A call of the datagrams or of the clock failed.
    #[error("fault Net")]
    Net,
    /// A read of the wire failed, or brought what is no frame.
    #[error("fault Read")]
    Read,
    /// A write to the wire failed.
    #[error("fault Write")]
    Write,
    /// A growth was refused.
    #[error("fault Memory")]
    Memory,
    /// The pass is a stranger to the book, or the book refuses a message of the partner's.
    #[error("fault Book")]
    Serve(ServeError),
}

impl From<NetFault> for NodeError {
    ghost from_gives = { λ _ e. e ≡ Net };

    fn from(_fault: NetFault) -> NodeError {
        NodeError::Net
    }
}

impl From<AllocError> for NodeError {
    ghost from_gives = { λ _ e. e ≡ Memory };

    fn from(_error: AllocError) -> NodeError {
        NodeError::Memory
    }
}

impl<T: Drop> From<AllocFailed<T>> for NodeError {
    ghost from_gives = { λ _ e. e ≡ Memory };

    fn from(_error: AllocFailed<T>) -> NodeError {
        NodeError::Memory
    }
}

impl From<SessionError> for NodeError {
    ghost from_gives = { λ error e. e ≡ fault_of error };

    fn from(error: SessionError) -> NodeError {
        match error {
            SessionError::Frame => NodeError::Read,
            SessionError::Serve(refusal) => NodeError::Serve(refusal),
            SessionError::Memory => NodeError::Memory,
        }
    }
}
