//! The code of a record.

ghost use Rattle.std.specs.Prelude.{◌≡◌, ◌≤◌, length};
ghost use Rattle.link_auth.specs.Records.{code_of};

use crate::coder::HmacState;

/// The most octets of a record, its length and its code left out.
pub(crate) const MOST: usize = 16_384;

/// The octets of a record's code.
pub(crate) const CODE: usize = 16;

/// The code of a record: of its number, its length and its octets, under the key of its direction.
#[tactic(auto, unfolding(crate::specs::Records::code_of))]
pub(crate) fn record_mac(key: &[u8; 32], number: u64, octets: &[u8]) -> [u8; CODE]
    requires { length octets.now ≤ MOST }
    ensures { result ≡ code_of key.now number octets.now }
{
    let mut coder = HmacState::new(key);
    coder.update(&number.to_be_bytes());
    coder.update(&(octets.len() as u16).to_be_bytes());
    coder.update(octets);
    let whole = coder.code();
    let mut code = [0u8; CODE];
    code.copy_from_slice(&whole[..CODE]);
    code
}
