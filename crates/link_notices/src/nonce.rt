//! Which ends of a connection understand notices.

ghost use Rattle.std.specs.Prelude.{◌≡◌, ◌≤◌, ◌↔◌, IsTrue, codes, length};
ghost use Rattle.std.specs.Str.{bytes_eq};
ghost use Rattle.link_notices.specs.Nonces.{EndsSo};

/// The last 8 octets of the nonce of an end that understands notices. The 24 before them are drawn.
pub const NONCE_END: [u8; 8] = *b"fengtnk2";

fn is_end(octets: &[u8]) -> bool
    ensures { result ≡ bytes_eq octets.now (codes "fengtnk2") }
{
    octets == b"fengtnk2".as_slice()
}

/// Returns whether a nonce ends so.
fn ends_so(nonce: &[u8]) -> bool
    requires { 24 ≤ length nonce.now }
    ensures { IsTrue result ↔ EndsSo nonce.now }
{
    let (_drawn, end) = nonce.split_at(24);
    is_end(end)
}

/// Returns whether both ends of a connection understand notices, by the 32 octets of each one's nonce. Only then do
/// notices go over it.
pub fn understand_notices(own: &[u8; 32], other: &[u8; 32]) -> bool
    ensures { IsTrue result ↔ (EndsSo own.now × EndsSo other.now) }
{
    ends_so(own) && ends_so(other)
}
