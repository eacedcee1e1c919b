//! Codes compared in the same time wherever they differ.

ghost use Rattle.std.specs.Prelude.{◌≡◌, ◌↔◌, length, IsTrue};

/// Returns whether two codes are the same. Each octet is looked at, so that the time doesn't tell a stranger how many
/// octets of a made-up code were right.
pub(crate) fn equal_in_constant_time<const N: usize>(one: &[u8; N], other: &[u8; N]) -> bool
    ensures { IsTrue result ↔ (one.now ≡ other.now) }
{
    let mut difference = 0u8;
    for i in 0..N {
        difference |= one[i] ^ other[i];
    }
    difference == 0
}
