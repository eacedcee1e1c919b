//! What two ends make of their key and their nonces.

ghost use Rattle.std.specs.Prelude.{◌≡◌};
ghost use Rattle.link_auth.specs.Handshake.{label_of, derived};

use crate::coder::HmacState;
use crate::handshake_role::HandshakeRole;
use crate::key::LinkKey;

/// What the octets of an end are for.
#[derive(Clone, Copy)]
pub(crate) enum Purpose {
    /// It has the key.
    Proof,
    /// The key of the records that it sends.
    Records,
}

impl Purpose {
    fn label(self) -> &'static [u8]
        ensures { result.now ≡ label_of self }
    {
        match self {
            Purpose::Proof => b"fengtuyas link: proof",
            Purpose::Records => b"fengtuyas link: records",
        }
    }
}

/// The octets of this end for a purpose, by the key, its own nonce and the other end's.
#[tactic(auto, unfolding(crate::specs::Handshake::derived))]
pub(crate) fn derived(
    key: &LinkKey,
    purpose: Purpose,
    side: HandshakeRole,
    own: &[u8; 32],
    other: &[u8; 32],
) -> [u8; 32]
    ensures { result ≡ derived key.now purpose side own.now other.now }
{
    let mut coder = HmacState::new(key.block());
    coder.update(purpose.label());
    coder.update(&[side.octet()]);
    coder.update(own);
    coder.update(other);
    coder.code()
}
