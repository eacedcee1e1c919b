//! Over which volumes an answer is, as an object names them.

ghost use Rattle.std.specs.Prelude.{◌≡◌, IfOk};
ghost use Rattle.std.specs.Option.{option_map};
ghost use Rattle.serde_json.specs.View.{view};
ghost use Rattle.answer_data.specs.Volumes.{is_single, IsSpanData, IsVolumesData};

use report_data::text_of;
use serde_json::Value;
use std::alloc::{AllocError, Global};
use volume_spans::SpanPair;

/// Returns whether spans are one volume of each side.
fn are_single(spans: &SpanPair) -> bool
    ensures { result ≡ is_single spans.now }
{
    spans.primary.first == spans.primary.last && spans.secondary.first == spans.secondary.last
}

/// The volumes of both sides, as `A40-48 B39-47`; null where they are one of each, or the texts of journals were given.
/// `AllocError` where a growth was refused.
pub fn volumes_value(alloc: Global, volumes: Option<&SpanPair>) -> Result<Value, AllocError>
    ensures { IfOk result (λ v. IsVolumesData (option_map (λ s. s.now) volumes.entry) (view v)) }
{
    match volumes {
        Some(spans) => spans_value(alloc, spans),
        None => Ok(Value::Null),
    }
}

/// The same of spans.
fn spans_value(alloc: Global, spans: &SpanPair) -> Result<Value, AllocError>
    ensures { IfOk result (λ v. IsSpanData spans.now (view v)) }
{
    if are_single(spans) {
        return Ok(Value::Null);
    }
    let mut text = Vec::new(alloc);
    spans.push(&mut text)?;
    text_of(alloc, &text)
}
