//! The name of a boot of the system.

ghost use Rattle.std.specs.Prelude.{◌≡◌, ◌↔◌, IfSome, IsNone};
ghost use Rattle.std.specs.List.{list_all};
ghost use Rattle.text_fields.specs.Parsing.{Finds};
ghost use Rattle.clock_watch.specs.Boots.{is_visible, IsBootId, boot_of};

use std::marker::Model;

/// How many octets the name of a boot has.
pub const BOOT_LENGTH: usize = 36;

/// The name of a boot of the system: 36 visible ASCII characters (33 to 126). Contracts see the list of its octets.
#[derive(Clone, Copy, Debug, PartialEq, Eq)]
pub struct BootId([u8; 36]);

impl Model for BootId {
    ghost use Rattle.std.specs.Prelude.{List, ℕ};
    ghost use Rattle.clock_watch.specs.Boots.{IsBootId};

    ghost Value = { List ℕ };

    ghost view = { λ b. b.0 };

    ghost invariant = { λ b. IsBootId b.0 };

    ghost inverse = { λ octets. record { 0 = octets } };
}

fn are_visible(octets: &[u8]) -> bool
    ensures { result ≡ list_all is_visible octets.now }
{
    octets.iter().all(|b| 33 <= *b && *b <= 126)
}

impl BootId {
    /// The boot that a word names.
    #[tactic(auto, unfolding(crate::specs::Boots::boot_of))]
    pub(crate) fn of_word(word: &[u8]) -> Option<BootId>
        ensures { Finds (λ b. b) result (boot_of word.now) }
    {
        if word.len() != BOOT_LENGTH || !are_visible(word) {
            return None;
        }
        let mut name = [0u8; 36];
        name.copy_from_slice(word);
        Some(BootId(name))
    }

    /// The boot of this name; `None` where it hasn't 36 octets, or one is no visible ASCII character.
    #[tactic(auto, using(crate::proofs::RecordLaws::boot_found, crate::proofs::RecordLaws::boot_none))]
    pub fn new(octets: &[u8]) -> Option<BootId>
        ensures made { IfSome result (λ b. b ≡ octets.now) }
        ensures none { IsNone result ↔ (IsBootId octets.now → ⊥) }
    {
        BootId::of_word(octets)
    }

    /// Its octets.
    pub fn as_bytes(&self) -> &[u8]
        ensures octets { result.now ≡ self.now }
        ensures whole { IsBootId result.now }
    {
        &self.0
    }
}
