//! What messages say (RFC 8415): those of clients that are read, and those of the server that are written.

ghost use Rattle.std.specs.Prelude.{◌≡◌};
ghost use Rattle.dhcp6_pd.specs.Associations.{by_prefix};

use crate::message_lists::{
    IaPdList, IaReplyList, IaidList, InterfaceId, RelayList, RemoteId, RequestList,
};
use client_id::{Duid, Iaid};
use prefix_range::Prefix;
use router_options::OptionList;

/// The types of clients' messages that are read (RFC 8415, section 7.3).
#[derive(Clone, Copy, Debug, PartialEq, Eq)]
pub enum ClientKind {
    Solicit,
    Request,
    Renew,
    Rebind,
    Release,
}

/// A client's message to this server, and the relays that it came by.
#[derive(Debug, Drop)]
pub struct ClientMessage {
    /// The relay nearest to the server first; none for a client on the link.
    pub relays: RelayList,
    pub kind: ClientKind,
    /// The transaction identifier.
    pub xid: [u8; 3],
    pub client: Duid,
    pub ias: IaPdList,
    /// Its IA_PDs once for each of their prefixes, in its order: those of the IAPREFIXes that can be read.
    pub prefixes: IaPdList,
    /// The codes of the options that it asks for (RFC 8415, section 21.7), in its order.
    pub requested: RequestList,
    /// The IA_NAs by which it asks for addresses (RFC 8415, section 21.4), in its order.
    pub addresses: IaidList,
    /// The IA_TAs by which it does (RFC 8415, section 21.5).
    pub temporaries: IaidList,
}

impl ClientMessage {
    /// Returns a RELEASE whose IA_PDs stand once for each of their prefixes, since each is one to give back; any other
    /// message as it is.
    pub fn by_prefix(self) -> ClientMessage
        ensures { result ≡ by_prefix self }
    {
        match self.kind {
            ClientKind::Release => ClientMessage {
                ias: self.prefixes,
                prefixes: self.ias,
                ..self
            },
            _ => self,
        }
    }
}

/// A client's request for options alone, and the relays that it came by (RFC 8415, section 18.2.6).
#[derive(Drop)]
pub struct InformationRequest {
    /// The relay nearest to the server first; none for a client on the link.
    pub relays: RelayList,
    /// The transaction identifier.
    pub xid: [u8; 3],
    /// Who asks, where it says so.
    pub client: Option<Duid>,
    /// The codes of the options that it asks for, in its order.
    pub requested: RequestList,
}

/// A relay agent that forwarded a message (RFC 8415, section 9). All but the remote identifier goes back to it.
#[derive(Debug, Drop)]
pub struct Relay {
    /// The hop count.
    pub hops: u8,
    /// The link address.
    pub link: [u8; 16],
    /// The peer address.
    pub peer: [u8; 16],
    pub interface: Option<InterfaceId>,
    pub remote: Option<RemoteId>,
}

/// An identity association for prefix delegation that a client asks about (RFC 8415, section 21.21).
#[derive(Clone, Copy, Debug, PartialEq, Eq)]
pub struct IaPd {
    pub iaid: Iaid,
    /// The prefix of its first IAPREFIX, or of a further one.
    pub hint: Option<Prefix>,
    pub part: IaPart,
}

/// Which of an IA_PD's prefixes is asked about.
#[derive(Clone, Copy, Debug, PartialEq, Eq)]
pub enum IaPart {
    /// The first, or none where it names none.
    First,
    /// One behind the first: it goes with the one before it.
    Further,
}

/// The types of the server's messages (RFC 8415, section 7.3).
#[derive(Clone, Copy, Debug, PartialEq, Eq)]
pub enum ServerKind {
    Advertise,
    Reply,
}

/// The server's answer to a client, and the relays that it goes by.
#[derive(Debug, Drop)]
pub struct ServerMessage {
    /// The relays of the client's message, in its order.
    pub relays: RelayList,
    pub kind: ServerKind,
    /// The transaction identifier of the client's message.
    pub xid: [u8; 3],
    /// The identifier of the client, where it gave one.
    pub client: Option<Duid>,
    pub server: Duid,
    /// What it hands out beside prefixes, in the order in which that is written.
    pub options: OptionList,
    /// Whether a status option says Success, as in the answer to a RELEASE.
    pub success: bool,
    /// The IA_NAs that are told NoAddrsAvail.
    pub no_addresses: IaidList,
    pub ias: IaReplyList,
}

/// The answer to one IA_PD.
#[derive(Clone, Copy, Debug, PartialEq, Eq)]
pub struct IaReply {
    pub iaid: Iaid,
    pub answer: IaReplyAnswer,
}

/// What an IA_PD of an answer says.
#[derive(Clone, Copy, Debug, PartialEq, Eq)]
pub enum IaReplyAnswer {
    /// A prefix, with its preferred and valid lifetime in seconds, which are equal.
    Given { prefix: Prefix, valid: u32 },
    /// Status NoPrefixAvail.
    NoPrefix,
    /// Status NoBinding.
    NoBinding,
}
