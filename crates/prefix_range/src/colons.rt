//! Two colons in an address.

ghost use Rattle.std.specs.Prelude.{◌≡◌, ◌+◌, ◌≤◌, Some, None, length, take, drop, MatchOption};
ghost use Rattle.prefix_range.specs.Parsing.{cut};

/// Where two colons that are neighbours first stand in a text.
pub(crate) fn two_colons(text: &[u8]) -> Option<usize>
    ensures { MatchOption result (cut text.now ≡ None)
        (λ i. (i + 2 ≤ length text.now) × (cut text.now ≡ Some (take i text.now, drop (i + 2) text.now))) }
{
    for next in 1..text.len() {
        if text[next - 1] == b':' && text[next] == b':' {
            return Some(next - 1);
        }
    }
    None
}
