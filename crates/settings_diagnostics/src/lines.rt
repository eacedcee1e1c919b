//! Lines of a text.

ghost use Rattle.std.specs.Prelude.{◌≡◌, ◌≤◌, ◌==◌, length};
ghost use Rattle.std.specs.List.{count_by};

/// Returns how many lines end in a text.
pub fn line_ends(text: &[u8]) -> usize
    ensures count { result ≡ count_by (λ octet. octet == 10) text.now }
    ensures few { result ≤ length text.now }
{
    let mut count = 0usize;
    for octet in text {
        if *octet == b'\n' {
            count += 1;
        }
    }
    count
}
