//! The numbers of RFC 8415 that messages are spelled with, and the limits of what is read and written.

/// Option codes (section 21).
pub const CLIENT_ID: u16 = 1;

pub const SERVER_ID: u16 = 2;

pub const IA_NA: u16 = 3;

pub const IA_TA: u16 = 4;

pub const OPTION_REQUEST: u16 = 6;

pub const RELAY_MESSAGE: u16 = 9;

pub const STATUS_CODE: u16 = 13;

pub const INTERFACE_ID: u16 = 18;

pub const IA_PD: u16 = 25;

pub const IA_PREFIX: u16 = 26;

/// The option code of a remote identifier (RFC 4649, section 3).
pub const REMOTE_ID: u16 = 37;

/// Status codes (section 21.13).
pub const SUCCESS: u16 = 0;

pub const NO_ADDRESSES: u16 = 2;

pub const NO_BINDING: u16 = 3;

pub const NO_PREFIX_AVAILABLE: u16 = 6;

/// The types of clients' messages that are read (section 7.3).
pub const SOLICIT: u8 = 1;

pub const REQUEST: u8 = 3;

pub const RENEW: u8 = 5;

pub const REBIND: u8 = 6;

pub const RELEASE: u8 = 8;

pub const INFORMATION_REQUEST: u8 = 11;

/// The types of the server's messages (section 7.3).
pub const ADVERTISE: u8 = 2;

pub const REPLY: u8 = 7;

/// The types of relays' messages (section 7.3).
pub const RELAY_FORWARD: u8 = 12;

pub const RELAY_REPLY: u8 = 13;

/// The octets of an option before its data: code and length (section 21.1).
pub const OPTION_HEAD: usize = 4;

/// The octets of an IA_NA that is told NoAddrsAvail: its head, IAID, T1, T2, and a status.
pub const NO_ADDRESS_SIZE: usize = 22;

/// The most octets of a datagram.
pub const MAX_OCTETS: usize = 65535;

/// The most IA_PDs of a message.
pub const MAX_IAS: usize = 16;

/// The most relays that a message comes by.
pub const MAX_RELAYS: usize = 32;
