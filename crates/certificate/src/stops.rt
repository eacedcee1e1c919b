//! The octets between the parts of a certificate's text.

/// Behind each line.
pub const LINE_FEED: u8 = b'\n';

/// Between the references of a chain.
pub const LINK: u8 = b'>';
