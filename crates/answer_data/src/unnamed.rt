//! Why nobody is named, as JSON.

ghost use Rattle.std.specs.Prelude.{◌≡◌, IfOk, string_bytes};
ghost use Rattle.std.specs.Option.{option_map};
ghost use Rattle.serde_json.specs.View.{view};
ghost use Rattle.answer_data.specs.Unnamed.{IsUnnamedLine, IsLineData, IsReasonData, IsWhyData};

use crate::lease_data::leases_of;
use crate::reason_data::reason_of;
use crate::texts::without_feed;
use crate::volumes::volumes_value;
use holder_answers::{HolderAnswer, NoHolder};
use plain_search::HolderQuery;
use report_data::{Object, prefix_of, text_of, time_of};
use serde_json::Value;
use std::alloc::{AllocError, Global};
use volume_spans::SpanPair;

/// What was asked, the text that answers it, and these values of why, of leases and of volumes.
fn written(
    alloc: Global,
    query: &HolderQuery,
    answer: &[u8],
    why: Value,
    leases: Value,
    volumes: Value,
) -> Result<String, AllocError>
    ensures { IfOk result (λ text. IsUnnamedLine query.now answer.now (view why) (view leases) (view volumes)
        (string_bytes text)) }
{
    Object::answer(alloc)
        .with_made("answer", text_of(alloc, answer))
        .with_made("prefix", prefix_of(alloc, &query.prefix))
        .with_made("at", time_of(alloc, query.at.milliseconds()))
        .with("skew_ms", query.skew.milliseconds())
        .with("transit_ms", query.transit.milliseconds())
        .with_made("why", Ok(why))
        .with_made("leases", Ok(leases))
        .with_made("volumes", Ok(volumes))
        .into_line()
}

/// Writes a line that says that nobody is named over these volumes, without a reason, as one JSON object and a line
/// feed. `AllocError` where a growth was refused.
pub fn line_data(
    alloc: Global,
    query: &HolderQuery,
    line: &[u8],
    volumes: Option<&SpanPair>,
) -> Result<Vec<u8>, AllocError>
    ensures { IfOk result
        (λ text. IsLineData query.now line.now (option_map (λ s. s.now) volumes.entry) text.items) }
{
    let answer = without_feed(line);
    let volumes = volumes_value(alloc, volumes)?;
    let text = written(alloc, query, answer, Value::Null, Value::Null, volumes)?;
    Ok(text.into_bytes())
}

/// The same with why, and the delegations near the moment.
fn with_reason(
    alloc: Global,
    query: &HolderQuery,
    line: &[u8],
    none: &NoHolder,
    volumes: Option<&SpanPair>,
) -> Result<Vec<u8>, AllocError>
    ensures { IfOk result
        (λ text. IsReasonData query.now line.now none.now (option_map (λ s. s.now) volumes.entry) text.items) }
{
    let answer = without_feed(line);
    let why = reason_of(alloc, &none.why)?;
    let leases = leases_of(alloc, &none.leases, query)?;
    let volumes = volumes_value(alloc, volumes)?;
    let text = written(alloc, query, answer, why, leases, volumes)?;
    Ok(text.into_bytes())
}

/// Writes why nobody is named over these volumes as one JSON object, and a line feed. `AllocError` where a growth was
/// refused.
pub fn why_data(
    alloc: Global,
    query: &HolderQuery,
    line: &[u8],
    answer: &HolderAnswer,
    volumes: Option<&SpanPair>,
) -> Result<Vec<u8>, AllocError>
    ensures { IfOk result
        (λ text. IsWhyData query.now line.now answer.now (option_map (λ s. s.now) volumes.entry) text.items) }
{
    match answer {
        HolderAnswer::NotNamed(none) => with_reason(alloc, query, line, none, volumes),
        HolderAnswer::TooLong(none) => with_reason(alloc, query, line, none, volumes),
        HolderAnswer::Held(_) => line_data(alloc, query, line, volumes),
        HolderAnswer::Refused(_) => line_data(alloc, query, line, volumes),
    }
}
