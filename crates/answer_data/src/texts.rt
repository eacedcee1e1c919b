//! Texts and their lines, as objects have them.

ghost use Rattle.std.specs.Prelude.{◌≡◌, ◌∷◌, ◌++◌, [], IfOk, OnOk};
ghost use Rattle.serde_json.specs.View.{view};
ghost use Rattle.text_fields.specs.Cuts.{split};
ghost use Rattle.answer_data.specs.Texts.{AreTexts, lines_in, octets_of, without_feed};

use report_data::text_of;
use serde_json::Value;
use std::alloc::{AllocError, Global};
use text_fields::Cuts;

/// A text without the line feed that it ends with, if it does.
#[tactic(auto, using(crate::proofs::Feeds::feed_goes, crate::proofs::Feeds::none_goes, crate::proofs::Feeds::none_of))]
pub(crate) fn without_feed(text: &[u8]) -> &[u8]
    ensures { result.now ≡ without_feed text.now }
{
    let Some((last, line)) = text.split_last() else {
        return text;
    };
    if *last == b'\n' { line } else { text }
}

/// The cuts of a text between line feeds, as an array. `AllocError` where a growth was refused.
#[tactic(auto, using(crate::proofs::Lists::cuts_begun, crate::proofs::Lists::cut_more, crate::proofs::Lists::all_cut))]
fn cuts_of(alloc: Global, text: &[u8]) -> Result<Value, AllocError>
    ensures { IfOk result (λ v. AreTexts (split 10 text.now) (view v)) }
{
    let mut values = Vec::new(alloc);
    let mut lines = Cuts::new(text, b'\n');
    while let Some(line) = lines.next_cut() {
        values.push(text_of(alloc, line)?)?;
    }
    Ok(Value::Array(values))
}

/// The lines of a text, as an array. `AllocError` where a growth was refused.
pub(crate) fn lines_of(alloc: Global, text: &[u8]) -> Result<Value, AllocError>
    ensures { IfOk result (λ v. AreTexts (lines_in text.now) (view v)) }
{
    let text = without_feed(text);
    if text.is_empty() {
        return Ok(Value::Array(Vec::new(alloc)));
    }
    cuts_of(alloc, text)
}

/// Texts as an array. `AllocError` where a growth was refused.
#[tactic(auto, using(crate::proofs::Lists::texts_step, crate::proofs::Lists::is_array))]
pub(crate) fn texts_of(alloc: Global, texts: &[Vec<u8>]) -> Result<Value, AllocError>
    ensures { IfOk result (λ v. AreTexts (octets_of texts.now) (view v)) }
{
    let mut values = Vec::new(alloc);
    for text in texts {
        values.push(text_of(alloc, text)?)?;
    }
    Ok(Value::Array(values))
}

/// Adds a text behind others. `AllocError` where a growth was refused.
#[tactic(auto, using(crate::proofs::Lists::octets_more))]
pub(crate) fn add_text(texts: &mut Vec<Vec<u8>>, text: Vec<u8>) -> Result<(), AllocError>
    ensures { OnOk result (octets_of texts.new.items ≡ octets_of texts.old.items ++ text.items ∷ []) }
{
    texts.push(text)?;
    Ok(())
}
