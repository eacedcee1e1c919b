//! What is written of a client that held a prefix.

ghost use Rattle.std.specs.Prelude.{◌≡◌, ◌++◌, ◌∷◌, [], IfOk, IfErr, OnOk};
ghost use Rattle.text_fields.specs.Cuts.{with_stops};
ghost use Rattle.certificate.specs.Spelling.{line_text, holder_words, interval_words};
ghost use Rattle.time_text.specs.Time.{IsTimeText};
ghost use Rattle.attribution_desk.specs.Who.{times_words, held_lines, IsHeldText};

use crate::error::DeskError;
use causal_order::Certificate;
use client_id::Duid;
use lead_time::Reading;
use line_words::{add_duid, add_number, add_word};
use std::alloc::{AllocError, Global};
use time_text::push_time;

/// `holder HEX`.
fn add_holder(out: &mut Vec<u8>, holder: &Duid) -> Result<(), AllocError>
    ensures { OnOk result (out.new.items ≡ out.old.items ++ (line_text (holder_words holder.now) ++ 10 ∷ [])) }
{
    out.extend_from_slice(b"holder")?;
    add_duid(out, holder)?;
    out.push(b'\n')?;
    Ok(())
}

/// `interval FROM TO`, in milliseconds.
fn add_interval(out: &mut Vec<u8>, from: Reading, to: Reading) -> Result<(), AllocError>
    ensures { OnOk result (out.new.items ≡ out.old.items ++ (line_text (interval_words from to) ++ 10 ∷ [])) }
{
    out.extend_from_slice(b"interval")?;
    add_number(out, from.milliseconds())?;
    add_number(out, to.milliseconds())?;
    out.push(b'\n')?;
    Ok(())
}

/// `from TIME to TIME`.
fn add_times(out: &mut Vec<u8>, from: &[u8], to: &[u8]) -> Result<(), AllocError>
    ensures { OnOk result (out.new.items ≡ out.old.items ++ (line_text (times_words from.now to.now) ++ 10 ∷ [])) }
{
    out.extend_from_slice(b"from")?;
    add_word(out, from)?;
    add_word(out, b"to")?;
    add_word(out, to)?;
    out.push(b'\n')?;
    Ok(())
}

/// Who held the prefix and when, in three lines.
fn add_held(
    out: &mut Vec<u8>,
    certificate: &Certificate,
    from: &[u8],
    to: &[u8],
) -> Result<(), AllocError>
    ensures { OnOk result (out.new.items ≡ out.old.items ++ with_stops 10
        (held_lines certificate.now from.now to.now)) }
{
    add_holder(out, &certificate.holder)?;
    add_interval(out, certificate.from, certificate.to)?;
    add_times(out, from, to)
}

/// The moment as a time.
fn time_of(alloc: Global, moment: Reading) -> Result<Vec<u8>, AllocError>
    ensures { IfOk result (λ text. IsTimeText moment text.items) }
{
    let mut text = Vec::new(alloc);
    push_time(&mut text, moment)?;
    Ok(text)
}

/// Who held the prefix and when, in three lines, and the certificate's text behind them. `Memory` where a growth was
/// refused.
pub fn held_text(alloc: Global, certificate: &Certificate) -> Result<Vec<u8>, DeskError>
    ensures text { IfOk result (λ text. IsHeldText certificate.now text.items) }
    ensures refused { IfErr result (λ e. e ≡ DeskError.Memory) }
{
    let Ok(text) = certificate::write(alloc, certificate) else {
        return Err(DeskError::Memory);
    };
    let from = time_of(alloc, certificate.from)?;
    let to = time_of(alloc, certificate.to)?;
    let mut out = Vec::new(alloc);
    add_held(&mut out, certificate, &from, &to)?;
    out.extend_from_slice(&text)?;
    Ok(out)
}
