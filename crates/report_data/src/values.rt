//! Values as JSON.

ghost use Rattle.std.specs.Prelude.{◌≡◌, codes, IfOk};
ghost use Rattle.text_fields.specs.Octets.{hex};
ghost use Rattle.client_id.specs.Duid.{iaid_text};
ghost use Rattle.prefix_range.specs.Text.{prefix_text};
ghost use Rattle.attribution.specs.VerdictText.{side_text, place_text};
ghost use Rattle.serde_json.specs.View.{view};
ghost use Rattle.std.specs.Fmt.{decimal};
ghost use Rattle.time_text.specs.Time.{IsTimeText};
ghost use Rattle.report_data.specs.Fields.{IsText};
ghost use Rattle.report_data.specs.Rulings.{IsTime, IsUtc};

use crate::object::Object;
use attribution::push_place;
use binding_rules::Role;
use causal_order::{Chain, Ref};
use client_id::{Duid, Iaid};
use evidence_report::{LineReading, OrderReport};
use lead_time::Reading;
use prefix_range::{Prefix, push_prefix};
use serde_json::Value;
use std::alloc::{AllocError, Global};
use std::str;
use text_fields::{push_number, push_octets};
use time_text::push_time;

/// A text of octets that are 7-bit characters; null where they are none of UTF-8. `AllocError` where a growth was
/// refused.
pub fn text_of(alloc: Global, octets: &[u8]) -> Result<Value, AllocError>
    ensures { IfOk result (λ v. IsText octets.now (view v)) }
{
    match str::from_utf8(octets) {
        Ok(text) => Ok(Value::String(String::from_str(alloc, text)?)),
        Err(_) => Ok(Value::Null),
    }
}

/// What RFC 3339 writes for a moment. `AllocError` where a growth was refused.
fn moment_text(alloc: Global, moment: Reading) -> Result<Vec<u8>, AllocError>
    ensures { IfOk result (λ text. IsTimeText moment text.items) }
{
    let mut text = Vec::new(alloc);
    push_time(&mut text, moment)?;
    Ok(text)
}

/// A number's digits. `AllocError` where a growth was refused.
fn digits_of(alloc: Global, number: u64) -> Result<Vec<u8>, AllocError>
    ensures { IfOk result (λ text. text.items ≡ decimal number) }
{
    let mut text = Vec::new(alloc);
    push_number(&mut text, number)?;
    Ok(text)
}

/// What RFC 3339 writes for milliseconds since 1970 in UTC; the milliseconds from the year 10000 on. `AllocError` where a
/// growth was refused.
fn utc_text(alloc: Global, milliseconds: u64) -> Result<Vec<u8>, AllocError>
    ensures { IfOk result (λ text. IsTimeText milliseconds text.items) }
{
    match Reading::new(milliseconds) {
        Ok(moment) => moment_text(alloc, moment),
        Err(_) => digits_of(alloc, milliseconds),
    }
}

/// The same as a value. `AllocError` where a growth was refused.
fn utc_of(alloc: Global, milliseconds: u64) -> Result<Value, AllocError>
    ensures { IfOk result (λ v. IsUtc milliseconds (view v)) }
{
    let text = utc_text(alloc, milliseconds)?;
    text_of(alloc, &text)
}

/// A moment or a reading, in milliseconds since 1970: an object of these, and of what RFC 3339 writes for them in UTC.
/// `AllocError` where a growth was refused.
pub fn time_of(alloc: Global, milliseconds: u64) -> Result<Value, AllocError>
    ensures { IfOk result (λ v. IsTime milliseconds (view v)) }
{
    Object::new(alloc)
        .with("ms", milliseconds)
        .with_made("utc", utc_of(alloc, milliseconds))
        .into_value()
}

/// A side of the pair.
pub fn side_of(side: Role) -> &'static str
    ensures { result.now ≡ side_text side }
{
    match side {
        Role::Primary => "A",
        Role::Secondary => "B",
    }
}

/// A line, as `A3`. `AllocError` where a growth was refused.
pub fn line_of(alloc: Global, at: Ref) -> Result<Value, AllocError>
    ensures { IfOk result (λ v. IsText (place_text at.side at.number) (view v)) }
{
    let mut text = Vec::new(alloc);
    push_place(&mut text, at.side, at.number)?;
    text_of(alloc, &text)
}

/// A client's identifier, in hexadecimal. `AllocError` where a growth was refused.
pub fn client_of(alloc: Global, client: &Duid) -> Result<Value, AllocError>
    ensures { IfOk result (λ v. IsText (hex client.now) (view v)) }
{
    let mut text = Vec::new(alloc);
    push_octets(&mut text, client.as_bytes())?;
    text_of(alloc, &text)
}

/// An identity association's identifier, in hexadecimal. `AllocError` where a growth was refused.
pub fn association_of(alloc: Global, iaid: Iaid) -> Result<Value, AllocError>
    ensures { IfOk result (λ v. IsText (iaid_text iaid) (view v)) }
{
    let mut text = Vec::new(alloc);
    push_octets(&mut text, &iaid.0.to_be_bytes())?;
    text_of(alloc, &text)
}

/// A prefix in canonical form. `AllocError` where a growth was refused.
pub fn prefix_of(alloc: Global, prefix: &Prefix) -> Result<Value, AllocError>
    ensures { IfOk result (λ v. IsText (prefix_text prefix.now) (view v)) }
{
    let mut text = Vec::new(alloc);
    push_prefix(&mut text, prefix)?;
    text_of(alloc, &text)
}

/// The lines of a chain, in order.
pub(crate) fn chain_of(alloc: Global, chain: &Chain) -> Result<Value, AllocError> {
    let mut lines = Vec::new(alloc);
    for at in chain.as_slice() {
        lines.push(line_of(alloc, *at)?)?;
    }
    Ok(Value::Array(lines))
}

fn marked_of(alloc: Global, mark: &LineReading) -> Result<Value, AllocError> {
    Object::new(alloc)
        .with_made("line", line_of(alloc, mark.at))
        .with_made("reading", time_of(alloc, mark.reading.milliseconds()))
        .into_value()
}

/// A line with its reading, or null.
pub(crate) fn mark_of(alloc: Global, mark: &Option<LineReading>) -> Result<Value, AllocError> {
    match mark {
        Some(mark) => marked_of(alloc, mark),
        None => Ok(Value::Null),
    }
}

fn chain_order(alloc: Global, chain: &Chain, leads: bool) -> Result<Value, AllocError> {
    Object::new(alloc)
        .with("by", "chain")
        .with_made("chain", chain_of(alloc, chain))
        .with("leads", leads)
        .into_value()
}

fn clock_order(
    alloc: Global,
    before: &Chain,
    latest: &Option<LineReading>,
    after: &Chain,
    earliest: &Option<LineReading>,
) -> Result<Value, AllocError> {
    Object::new(alloc)
        .with("by", "clocks")
        .with_made("from_first", chain_of(alloc, before))
        .with_made("first_by", mark_of(alloc, latest))
        .with_made("to_second", chain_of(alloc, after))
        .with_made("second_from", mark_of(alloc, earliest))
        .into_value()
}

/// Why one line was written before another.
pub(crate) fn order_of(alloc: Global, order: &OrderReport<'_>) -> Result<Value, AllocError> {
    match order {
        OrderReport::Chain { chain, leads } => chain_order(alloc, chain, *leads),
        OrderReport::Clock {
            before,
            latest,
            after,
            earliest,
        } => clock_order(alloc, before, latest, after, earliest),
    }
}
