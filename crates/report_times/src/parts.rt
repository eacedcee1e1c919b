//! Parts of texts.

ghost use Rattle.std.specs.Prelude.{◌≡◌, take, drop};
ghost use Rattle.report_times.specs.Parts.{is_of, run_of, front_run, behind_run};

/// The first octets of a text, so many of them; all where it has fewer.
pub(crate) fn first(text: &[u8], count: usize) -> &[u8]
    ensures { result.now ≡ take count text.now }
{
    match text.split_at_checked(count) {
        Some((front, _)) => front,
        None => text,
    }
}

/// A text without so many of its first octets; nothing where it has fewer.
pub(crate) fn behind(text: &[u8], count: usize) -> &[u8]
    ensures { result.now ≡ drop count text.now }
{
    match text.split_at_checked(count) {
        Some((_, back)) => back,
        None => &[],
    }
}

/// Kinds of octets.
#[derive(Clone, Copy, Debug, PartialEq, Eq)]
pub(crate) enum OctetKind {
    Digit,
    /// Whitespace of ASCII.
    Space,
    /// None of that.
    Word,
    /// No colon.
    NoColon,
}

/// Returns whether an octet is of a kind.
fn is_of(kind: OctetKind, octet: u8) -> bool
    ensures { result ≡ is_of kind octet }
{
    match kind {
        OctetKind::Digit => octet.is_ascii_digit(),
        OctetKind::Space => octet.is_ascii_whitespace(),
        OctetKind::Word => !octet.is_ascii_whitespace(),
        OctetKind::NoColon => octet != b':',
    }
}

/// With how many octets of a kind a text begins.
pub(crate) fn run_of(kind: OctetKind, text: &[u8]) -> usize
    ensures { result ≡ run_of kind text.now }
{
    let mut count = 0;
    while count < text.len() && is_of(kind, text[count]) {
        count += 1;
    }
    count
}

/// The octets of a kind with which a text begins.
pub(crate) fn front_run(kind: OctetKind, text: &[u8]) -> &[u8]
    ensures { result.now ≡ front_run kind text.now }
{
    first(text, run_of(kind, text))
}

/// What stands behind them.
pub(crate) fn behind_run(kind: OctetKind, text: &[u8]) -> &[u8]
    ensures { result.now ≡ behind_run kind text.now }
{
    behind(text, run_of(kind, text))
}
