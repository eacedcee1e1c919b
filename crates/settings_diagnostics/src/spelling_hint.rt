//! The known key that an unknown one was likely meant for.

ghost use Rattle.std.specs.Prelude.{◌≡◌, ◌≤◌, true, false, length, MatchOption};
ghost use Rattle.settings_diagnostics.specs.Keys.{key_name};
ghost use Rattle.settings_diagnostics.specs.Nearest.{is_known, lacking, apart, IsNearest};

use crate::key::Key;

/// Counts the octets of a word that don't stand in another.
fn lacking(word: &[u8], other: &[u8]) -> usize
    ensures count { result ≡ lacking other.now word.now }
    ensures few { result ≤ length word.now }
{
    let mut count = 0usize;
    for octet in word {
        if !other.contains(octet) {
            count += 1;
        }
    }
    count
}

/// Returns how far a word is from a key: how many octets of each don't stand in the other.
fn apart(word: &[u8], key: &Key) -> usize
    ensures { result ≡ apart word.now (key_name key.now) }
{
    let name = key.name().as_bytes();
    lacking(word, name).saturating_add(lacking(name, word))
}

/// Returns a known key than which none is nearer to a word: an octet counts that stands in one of the two alone.
fn nearest(known: &[Key], word: &[u8]) -> Key
    requires { 1 ≤ length known.now }
    ensures { IsNearest known.now word.now result }
{
    let mut best = known[0];
    for key in known {
        if apart(word, &best) <= apart(word, key) {
            continue;
        }
        best = *key;
    }
    best
}

/// Returns whether a word is one of the known keys.
fn is_known(known: &[Key], word: &str) -> bool
    ensures { result ≡ is_known known.now word.now }
{
    known.iter().any(|key| key.name() == word)
}

/// Returns the known key that a word was likely meant for: one than which none is nearer, where the word is none of
/// them.
pub fn suggested_key(known: &[Key], word: &str) -> Option<Key>
    requires { 1 ≤ length known.now }
    ensures { MatchOption result (is_known known.now word.now ≡ true)
        (λ key. (is_known known.now word.now ≡ false) × IsNearest known.now word.now key) }
{
    if is_known(known, word) {
        return None;
    }
    Some(nearest(known, word.as_bytes()))
}
