//! Parts of a volume's text.

ghost use Rattle.disk_model.specs.Lines.{IsWholeLines};

use disk_model::extent_of;

/// Returns the first so many lines of a text, and the rest.
pub(crate) fn split_lines(text: &[u8], lines: usize) -> (&[u8], &[u8]) {
    let mut left = lines;
    let mut octets = 0usize;
    for octet in text {
        if left == 0 {
            break;
        }
        octets = octets.saturating_add(1);
        if *octet == b'\n' {
            left -= 1;
        }
    }
    text.split_at(octets.min(text.len()))
}

/// Returns the whole lines of a text, which has no other octets.
#[tactic(auto, using(crate::proofs::WholeTexts::front_fits, crate::proofs::WholeTexts::front_is_whole))]
pub(crate) fn whole(text: &[u8]) -> &[u8]
    ensures { IsWholeLines result.now }
{
    &text[..extent_of(text).octets]
}
