//! Frames of the link between the partners.

use binding_rules::{BindReply, Counter, Role, ServerState, Update};

/// The fewest octets behind a frame's length field: its kind, term and serial.
pub const MIN_LENGTH: u32 = 13;

/// The most octets behind a frame's length field.
pub const MAX_LENGTH: u32 = 512;

/// The most octets of a frame: the 4 of its length field, and those behind it.
pub const MAX_OCTETS: usize = 516;

/// What a frame says. The names are those of RFC 8156, section 5.
#[derive(Clone, Copy, Debug, PartialEq, Eq)]
pub enum FrameKind {
    /// BNDUPD: what a unit became.
    BindingUpdate(Update),
    /// BNDREPLY: whether an update was taken over.
    BindingReply(BindReply),
    /// POOLREQ: the secondary asks for units of its own.
    PoolRequest,
    /// POOLRESP: how many units the primary moved.
    PoolResponse { moved: u32 },
    /// UPDREQ: asks for every due update again.
    UpdateRequest,
    /// UPDREQALL: asks for every due update again.
    UpdateRequestAll,
    /// UPDDONE: the updates that were asked for were sent.
    UpdateDone,
    /// CONNECT: the first frame of the server that connected; the serial of the last frame that it took.
    Connect { role: Role, last: Counter },
    /// CONNECTREPLY: the answer to it.
    ConnectReply { role: Role, last: Counter },
    /// DISCONNECT: no frame follows.
    Disconnect,
    /// STATE: what the sender takes the receiver for.
    State(ServerState),
    /// CONTACT: after a restart, the number that the partner is to answer; and the answer to the partner's
    /// last number. Each is 0 where there is none.
    Contact { ask: Counter, answer: Counter },
}

/// A frame of the link.
#[derive(Clone, Copy, Debug, PartialEq, Eq)]
pub struct Frame {
    pub term: u32,
    /// The sender's binding updates, binding replies and contacts are counted from 1, as in its journal. The
    /// other frames have serial 0 and no journal line.
    pub serial: Counter,
    pub kind: FrameKind,
}
