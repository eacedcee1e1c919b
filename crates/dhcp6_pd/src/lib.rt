//! A codec for DHCPv6 messages with prefix delegation (RFC 8415). `decode` turns a datagram into a `ClientMessage`
//! addressed to this server, or returns the first fault; `encode` turns a `ServerMessage` into the octets that go back
//! through the same relays. It keeps no state and makes no decision about leases.
//!
//! `decode` takes a datagram to a `ClientMessage` for this server, or names the first fault from the front;
//! `decode_information` takes one to a request for options alone; `encode` takes a `ServerMessage` to the octets that
//! go back by the same relays. None of them decides anything.
//!
//! What they promise stands at their calls: which octets are which message in specs/Grammar, why a message is refused
//! for its type, its relays or its identifiers in specs/Refusals, the first fault of any octets in specs/Faults, the
//! octets of an answer in specs/Layout.
//!
//! ```text
//! match decode(alloc, octets, &own) {
//!     Ok(message) => send(encode(alloc, &answer(message))?),
//!     Err(PdError::Fault(fault)) => dropped(fault),
//!     Err(e) => return Err(e),
//! }
//! ```
#![tactic(auto)]

mod client_options;
mod decoding;
mod error;
mod ia;
mod information;
mod keeping;
mod message;
mod message_class;
mod message_lists;
mod numbers;
mod option_code;
mod options;
mod relay_options;
mod requested_items;
mod size;
mod unvalidated;
mod writing;

pub use decoding::decode;
pub use error::{PdError, PdFault};
pub use information::decode_information;
pub use message::{
    ClientKind, ClientMessage, IaPart, IaPd, IaReply, IaReplyAnswer, InformationRequest, Relay,
    ServerKind, ServerMessage,
};
pub use message_lists::{
    IaPdList, IaReplyList, IaidList, InterfaceId, RelayId, RelayList, RemoteId, RequestList,
};
pub use writing::encode;
