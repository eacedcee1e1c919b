//! HMAC-SHA-256 (RFC 2104).

ghost use Rattle.std.specs.Prelude.{◌≡◌, ◌≤◌, ◌++◌, ℕ, List, [], length, map, bit_xor};
ghost use Rattle.link_auth.specs.Hmac.{hmac, block_of, with_pad, Codes};

use sha2::{Digest, Sha256};

/// The octets of a block of SHA-256.
pub(crate) const BLOCK: usize = 64;

/// What each octet of the key's block is combined with before the message.
const INNER: u8 = 0x36;

/// What each octet of the key's block is combined with before the message's digest.
const OUTER: u8 = 0x5c;

/// A key as a block: its octets, or its digest where they are more than a block, filled up with zeros.
#[tactic(auto, using(crate::proofs::HmacLaws::filled_zeros))]
fn block_of(key: &[u8]) -> [u8; BLOCK]
    ensures { result ≡ block_of key.now }
{
    let mut block = [0u8; BLOCK];
    if key.len() > BLOCK {
        block[..32].copy_from_slice(&Sha256::digest(key));
    } else {
        block[..key.len()].copy_from_slice(key);
    }
    block
}

/// The block, each octet of it combined with `pad`.
fn with_pad(block: &[u8; BLOCK], pad: u8) -> [u8; BLOCK]
    ensures { result ≡ with_pad pad block.now }
{
    let mut combined = [0u8; BLOCK];
    for i in 0..BLOCK {
        combined[i] = block[i] ^ pad;
    }
    combined
}

/// The code of a message under a key, by HMAC-SHA-256 (RFC 2104).
pub fn hmac(key: &[u8], message: &[u8]) -> [u8; 32]
    ensures { result ≡ hmac key.now message.now }
{
    let mut coder = HmacState::new(key);
    coder.update(message);
    coder.code()
}

/// The code of a message under a key, while the message still comes.
#[derive(Drop)]
pub(crate) struct HmacState {
    inner: Sha256,
    outer: Sha256,
}

impl HmacState {
    /// The code of the empty message under this key, of any length.
    #[tactic(auto, unfolding(crate::specs::Hmac::Codes))]
    pub(crate) fn new(key: &[u8]) -> HmacState
        ensures { Codes result key.now [] }
    {
        let block = block_of(key);
        let mut inner = Sha256::new();
        inner.update(with_pad(&block, INNER));
        let mut outer = Sha256::new();
        outer.update(with_pad(&block, OUTER));
        HmacState { inner, outer }
    }

    /// Adds octets to the message.
    #[tactic(auto, unfolding(crate::specs::Hmac::Codes))]
    pub(crate) fn update(&mut self, octets: &[u8])
        ensures { (key message : List ℕ) → Codes self.old key message → Codes self.new key (message ++ octets.now) }
    {
        self.inner.update(octets);
    }

    /// The code of the message.
    #[tactic(auto, unfolding(crate::specs::Hmac::Codes, crate::specs::Hmac::hmac))]
    pub(crate) fn code(self) -> [u8; 32]
        ensures { (key message : List ℕ) → Codes self key message → result ≡ hmac key message }
    {
        let mut outer = self.outer;
        outer.update(self.inner.finalize());
        outer.finalize()
    }
}
