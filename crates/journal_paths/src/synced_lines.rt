//! The first lines of a text.

ghost use Rattle.std.specs.Prelude.{◌≡◌, ◌-◌, ◌<◌, ◌==◌, if◌then◌else◌};
ghost use Rattle.journal_paths.specs.Lines.{first_lines};

/// The octet that ends a line.
const LINE_FEED: u8 = b'\n';

/// How many lines are left behind an octet of one.
fn left_behind(octet: u8, left: u64) -> u64
    requires { 0 < left }
    ensures { result ≡ (if octet == 10 then left - 1 else left) }
{
    if octet == LINE_FEED { left - 1 } else { left }
}

/// The first lines of a text, so many, each with its line feed, or all of the text where it has no more.
pub fn first_lines(text: &[u8], count: u64) -> &[u8]
    ensures { result.now ≡ first_lines count text.now }
{
    let mut left = count;
    let mut end = 0;
    while end < text.len() {
        if left == 0 {
            return &text[..end];
        }
        left = left_behind(text[end], left);
        end += 1;
    }
    text
}
