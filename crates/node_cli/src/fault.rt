//! Why the program has no answer.

ghost use Rattle.std.specs.Prelude.{◌≡◌};
ghost use Rattle.node_cli.specs.declared.fault.NodeFault.TheVariants.{Words, Run, Memory};

use node_args::ArgsError;
use node_run::RunError;
use node_threads::NodeError;
use std::alloc::AllocError;
use thiserror::Error;

/// Why the program has no answer.
#[derive(Clone, Copy, Debug, PartialEq, Eq, Error)]
pub enum NodeFault {
    /// The words are none of its commands.
    #[error("{0}")]
    Words(ArgsError),
    /// Standard input can't be read.
    #[error("fault Read")]
    Read,
    /// Standard output can't be written.
    #[error("fault Write")]
    Write,
    /// A growth was refused.
    #[error("fault Memory")]
    Memory,
    /// No server answers.
    #[error("no server answers in this directory")]
    Silent,
    /// The server's user alone may ask it, and root.
    #[error("no permission to ask the server in this directory: its user may, and root")]
    NotPermitted,
    /// The run has no journal.
    #[error("{0}")]
    Run(RunError),
    /// A worker has ended.
    #[error("{0}")]
    Node(NodeError),
}

impl From<ArgsError> for NodeFault {
    ghost from_gives = { λ error e. e ≡ Words error };

    fn from(error: ArgsError) -> NodeFault {
        NodeFault::Words(error)
    }
}

impl From<RunError> for NodeFault {
    ghost from_gives = { λ error e. e ≡ Run error };

    fn from(error: RunError) -> NodeFault {
        NodeFault::Run(error)
    }
}

impl From<AllocError> for NodeFault {
    ghost from_gives = { λ _ e. e ≡ Memory };

    fn from(_error: AllocError) -> NodeFault {
        NodeFault::Memory
    }
}
