//! Dates with a time and an offset.

ghost use Rattle.std.specs.Prelude.{◌≡◌, ◌≤◌, ◌++◌, ℕ, None, IfOk, IfSome, OnOk};
ghost use Rattle.report_times.specs.DateTimes.{front_of, decimals_of, offset_in, whole_offset, normal_form};
ghost use Rattle.report_times.specs.DateTimes.{IsDateTime, IsLocalTime};

use crate::parts::{OctetKind, behind, behind_run, first, front_run};
use lead_time::Reading;
use std::alloc::{AllocError, Global};
use time_text::read_time;

/// Appends the date and the time, with T between them.
fn push_front(out: &mut Vec<u8>, text: &[u8]) -> Result<(), AllocError>
    ensures { OnOk result (out.new.items ≡ out.old.items ++ front_of text.now) }
{
    out.extend_from_slice(first(text, 10))?;
    let between = first(behind(text, 10), 1);
    out.extend_from_slice(match between {
        b" " => b"T",
        _ => between
    })?;
    out.extend_from_slice(first(behind(text, 11), 8))
}

/// Appends the point and three decimals at most.
fn push_decimals(out: &mut Vec<u8>, tail: &[u8]) -> Result<(), AllocError>
    ensures { OnOk result (out.new.items ≡ out.old.items ++ decimals_of tail.now) }
{
    let Some(decimals) = tail.strip_prefix(b".") else {
        return Ok(());
    };
    out.push(b'.')?;
    out.extend_from_slice(first(front_run(OctetKind::Digit, decimals), 3))
}

/// The offset behind the decimals.
fn offset_in(tail: &[u8]) -> &[u8]
    ensures { result.now ≡ offset_in tail.now }
{
    match tail.strip_prefix(b".") {
        Some(decimals) => behind_run(OctetKind::Digit, decimals),
        None => tail,
    }
}

/// Appends the offset with its colon and minutes.
fn push_offset(out: &mut Vec<u8>, offset: &[u8]) -> Result<(), AllocError>
    ensures { OnOk result (out.new.items ≡ out.old.items ++ whole_offset offset.now) }
{
    match offset.len() {
        3 => {
            out.extend_from_slice(offset)?;
            out.extend_from_slice(b":00")
        }
        5 => {
            out.extend_from_slice(first(offset, 3))?;
            out.push(b':')?;
            out.extend_from_slice(behind(offset, 3))
        }
        _ => out.extend_from_slice(offset),
    }
}

/// The text in the form of RFC 3339.
fn normal_form(alloc: Global, text: &[u8]) -> Result<Vec<u8>, AllocError>
    ensures { IfOk result (λ v. v.items ≡ normal_form text.now) }
{
    let mut normal = Vec::new(alloc);
    push_front(&mut normal, text)?;
    let tail = behind(text, 19);
    push_decimals(&mut normal, tail)?;
    push_offset(&mut normal, offset_in(tail))?;
    Ok(normal)
}

/// The moment of a date with a time and an offset. `AllocError` where a growth was refused.
pub(crate) fn date_time(alloc: Global, text: &[u8]) -> Result<Option<Reading>, AllocError>
    ensures given { IfOk result (λ o. IfSome o (IsDateTime text.now)) }
    ensures none { IfOk result (λ o. o ≡ None → (m : ℕ) → m ≤ 281474976710656 → IsDateTime text.now m → ⊥) }
{
    let normal = normal_form(alloc, text)?;
    Ok(read_time(&normal))
}

/// The moment of a date with a time and no offset, were it one of UTC. `AllocError` where a growth was refused.
pub(crate) fn local_time(alloc: Global, text: &[u8]) -> Result<Option<Reading>, AllocError>
    ensures given { IfOk result (λ o. IfSome o (IsLocalTime text.now)) }
    ensures none { IfOk result (λ o. o ≡ None → (m : ℕ) → m ≤ 281474976710656 → IsLocalTime text.now m → ⊥) }
{
    let mut normal = normal_form(alloc, text)?;
    normal.push(b'Z')?;
    Ok(read_time(&normal))
}
