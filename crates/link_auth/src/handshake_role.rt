//! The two ends of a connection.

ghost use Rattle.std.specs.Prelude.{◌≡◌};
ghost use Rattle.link_auth.specs.Handshake.{side_octet, other_side};

/// An end of a connection.
#[derive(Clone, Copy, Debug, PartialEq, Eq)]
pub enum HandshakeRole {
    /// The end that called.
    Initiator,
    /// The end that was called.
    Responder,
}

impl HandshakeRole {
    /// What stands for it in what is proved.
    pub(crate) fn octet(self) -> u8
        ensures { result ≡ side_octet self }
    {
        match self {
            HandshakeRole::Initiator => 1,
            HandshakeRole::Responder => 2,
        }
    }

    /// The end that isn't this one.
    pub(crate) fn other(self) -> HandshakeRole
        ensures { result ≡ other_side self }
    {
        match self {
            HandshakeRole::Initiator => HandshakeRole::Responder,
            HandshakeRole::Responder => HandshakeRole::Initiator,
        }
    }
}
