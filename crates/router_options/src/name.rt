//! Domain names, as a search list has them.

ghost use Rattle.std.specs.Prelude.{◌≡◌, ◌++◌, ◌∷◌, [], ◌≤◌, ℕ, List, length, IfOk, OnOk, Ok};
ghost use Rattle.text_fields.specs.Cuts.{split};
ghost use Rattle.router_options.specs.Names.{is_name_octet, are_name_octets, with_label, labels_on, name_in, IsNameOf};
ghost use Rattle.router_options.specs.Names.{Gives};

use crate::error::NameError;
use std::alloc::{AllocError, Global};
use std::marker::Model;
use text_fields::Cuts;

/// The most octets of a label.
const MAX_LABEL: usize = 63;

/// The most octets of a name, the root's empty label included.
const MAX_NAME: usize = 255;

/// A domain name in the form of RFC 1035, section 3.1, without compression: each label behind its length, the root's
/// empty one last. Contracts see these octets. Only [`DomainName::of_text`] makes one.
#[derive(Debug, Drop)]
pub struct DomainName {
    octets: Vec<u8>,
}

impl Model for DomainName {
    ghost use Rattle.std.specs.Prelude.{List, ℕ, length, ◌≤◌};

    ghost Value = { List ℕ };

    ghost view = { λ n. n.octets.items };

    ghost invariant = { λ n. length n.octets.items ≤ 255 };
}

/// Returns whether an octet may stand in a label: letters, digits, hyphens and underscores may.
fn is_name_octet(octet: u8) -> bool
    ensures { result ≡ is_name_octet octet }
{
    matches!(octet, b'a'..=b'z' | b'A'..=b'Z' | b'0'..=b'9' | b'-' | b'_')
}

fn are_name_octets(label: &[u8]) -> bool
    ensures { result ≡ are_name_octets label.now }
{
    label.iter().all(|octet| is_name_octet(*octet))
}

/// Appends a label behind its length.
#[tactic(auto, unfolding(crate::specs::Names::with_label))]
fn push_label(out: &mut Vec<u8>, label: &[u8]) -> Result<(), NameError>
    ensures { Gives (λ _. out.new.items) result (with_label out.old.items label.now) }
{
    if label.is_empty() {
        return Err(NameError::EmptyLabel);
    }
    if label.len() > MAX_LABEL {
        return Err(NameError::LongLabel);
    }
    if !are_name_octets(label) {
        return Err(NameError::Character);
    }
    out.push(label.len() as u8)?;
    out.extend_from_slice(label)?;
    Ok(())
}

/// Appends each of the labels, up to the first fault.
fn push_labels(out: &mut Vec<u8>, text: &[u8]) -> Result<(), NameError>
    ensures { Gives (λ _. out.new.items) result (labels_on out.old.items (split 46 text.now)) }
{
    let mut labels = Cuts::new(text, b'.');
    while let Some(label) = labels.next_cut() {
        push_label(out, label)?;
    }
    Ok(())
}

/// The octets of the name that a text spells.
#[tactic(auto, unfolding(crate::specs::Names::name_in))]
fn name_in(alloc: Global, text: &[u8]) -> Result<Vec<u8>, NameError>
    ensures { Gives (λ v. v.items) result (name_in text.now) }
{
    let mut octets = Vec::new(alloc);
    push_labels(&mut octets, text)?;
    if octets.len() >= MAX_NAME {
        return Err(NameError::TooLong);
    }
    octets.push(0)?;
    Ok(octets)
}

impl DomainName {
    /// The name that a text spells, its labels between dots and none behind the last: the first fault of its labels
    /// from the front, then `TooLong`; or `Memory` where a growth was refused.
    pub fn of_text(alloc: Global, text: &[u8]) -> Result<DomainName, NameError>
        // What is read is spelled so.
        ensures found { IfOk result (λ n. IsNameOf (split 46 text.now) n) }
        // What is spelled so is read, unless memory runs out.
        ensures only { (n : List ℕ) → IsNameOf (split 46 text.now) n → Gives (λ x. x) result (Ok n) }
        // Which fault it is.
        ensures exact { Gives (λ n. n) result (name_in text.now) }
    {
        let octets = name_in(alloc, text)?;
        Ok(DomainName { octets })
    }

    /// Its octets: at most 255.
    pub fn as_bytes(&self) -> &[u8]
        ensures octets { result.now ≡ self.now }
        ensures most { length result.now ≤ 255 }
    {
        &self.octets
    }
}
