//! A certificate's text, as it is written: `push_` calls append a field, `add_` calls words behind the first, or lines.

ghost use Rattle.std.specs.Prelude.{◌≡◌, ◌++◌, ◌∷◌, [], map, OnOk, IfOk, IfErr, codes};
ghost use Rattle.text_fields.specs.Cuts.{behind, with_stops};
ghost use Rattle.certificate.specs.Spelling.{ref_text, chain_text, order_words, why_words, clear_words, latest_words};
ghost use Rattle.certificate.specs.Spelling.{reason_words, holder_words, prefix_words, interval_words, piece_words};
ghost use Rattle.certificate.specs.Spelling.{foreign_words, line_text, opening_lines, piece_lines, certificate_text};
ghost use Rattle.line_words.specs.declared.words.TheConstants.{SPACE};
ghost use Rattle.certificate.specs.declared.stops.TheConstants.{LINE_FEED, LINK};

use crate::error::CertificateError;
use crate::stops::{LINE_FEED, LINK};
use binding_rules::Role;
use causal_order::{Certificate, Chain, Clear, ClearReason, Foreign, Piece, Precedes, Reason, Ref};
use client_id::Duid;
use lead_time::Reading;
use line_words::{SPACE, add_duid, add_number, add_prefix, add_word};
use prefix_range::Prefix;
use std::alloc::{AllocError, Global};
use text_fields::push_number;

/// Appends a reference.
fn push_ref(out: &mut Vec<u8>, reference: Ref) -> Result<(), AllocError>
    ensures { OnOk result (out.new.items ≡ out.old.items ++ ref_text reference) }
{
    let letter = match reference.side {
        Role::Primary => b'A',
        Role::Secondary => b'B',
    };
    out.push(letter)?;
    push_number(out, u64::from(reference.number))
}

/// Appends references, each behind a `>`.
fn push_links(out: &mut Vec<u8>, links: &[Ref]) -> Result<(), AllocError>
    ensures { OnOk result (out.new.items ≡ out.old.items ++ behind LINK (map ref_text links.now)) }
{
    for link in links {
        out.push(LINK)?;
        push_ref(out, *link)?;
    }
    Ok(())
}

/// Appends a chain.
fn push_chain(out: &mut Vec<u8>, chain: &Chain) -> Result<(), AllocError>
    ensures { OnOk result (out.new.items ≡ out.old.items ++ chain_text chain.now) }
{
    match chain.as_slice().split_first() {
        None => Ok(()),
        Some((first, links)) => {
            push_ref(out, *first)?;
            push_links(out, links)
        }
    }
}

// Words behind the first, each behind a space.

fn add_ref(out: &mut Vec<u8>, reference: Ref) -> Result<(), AllocError>
    ensures { OnOk result (out.new.items ≡ out.old.items ++ SPACE ∷ ref_text reference) }
{
    out.push(SPACE)?;
    push_ref(out, reference)
}

fn add_chain(out: &mut Vec<u8>, chain: &Chain) -> Result<(), AllocError>
    ensures { OnOk result (out.new.items ≡ out.old.items ++ SPACE ∷ chain_text chain.now) }
{
    out.push(SPACE)?;
    push_chain(out, chain)
}

fn add_order(out: &mut Vec<u8>, order: &Precedes) -> Result<(), AllocError>
    ensures { OnOk result (out.new.items ≡ out.old.items ++ behind SPACE (order_words order.now)) }
{
    match order {
        Precedes::Chain(chain) => {
            add_word(out, b"chain")?;
            add_chain(out, chain)
        }
        Precedes::Clock(latest, earliest) => {
            add_word(out, b"clock")?;
            add_chain(out, latest)?;
            add_chain(out, earliest)
        }
    }
}

fn add_why(out: &mut Vec<u8>, why: &ClearReason) -> Result<(), AllocError>
    ensures { OnOk result (out.new.items ≡ out.old.items ++ behind SPACE (why_words why.now)) }
{
    match why {
        ClearReason::Before(order) => {
            add_word(out, b"before")?;
            add_order(out, order)
        }
        ClearReason::After(chain) => {
            add_word(out, b"after")?;
            add_chain(out, chain)
        }
    }
}

/// The words at the end of a released grant's line.
fn add_latest(out: &mut Vec<u8>, latest: &Chain) -> Result<(), AllocError>
    ensures { OnOk result (out.new.items ≡ out.old.items ++ behind SPACE (latest_words latest.now)) }
{
    add_word(out, b"latest")?;
    add_chain(out, latest)
}

/// The words of a release before the chain from it.
fn add_release(out: &mut Vec<u8>, release: Ref, order: &Precedes) -> Result<(), AllocError>
    ensures { OnOk result (out.new.items
        ≡ out.old.items ++ behind SPACE (codes "released" ∷ ref_text release ∷ order_words order.now)) }
{
    add_word(out, b"released")?;
    add_ref(out, release)?;
    add_order(out, order)
}

fn add_released(
    out: &mut Vec<u8>,
    release: Ref,
    order: &Precedes,
    latest: &Chain,
) -> Result<(), AllocError>
    ensures { OnOk result (out.new.items
        ≡ out.old.items ++ behind SPACE (reason_words (Reason.Released release order.now latest.now))) }
{
    add_release(out, release, order)?;
    add_latest(out, latest)
}

fn add_reason(out: &mut Vec<u8>, reason: &Reason) -> Result<(), AllocError>
    ensures { OnOk result (out.new.items ≡ out.old.items ++ behind SPACE (reason_words reason.now)) }
{
    match reason {
        Reason::Early(chain) => {
            add_word(out, b"early")?;
            add_chain(out, chain)
        }
        Reason::Late(chain) => {
            add_word(out, b"late")?;
            add_chain(out, chain)
        }
        Reason::Released {
            release,
            order,
            latest,
        } => add_released(out, *release, order, latest),
    }
}

// Lines, each with its line feed.

#[tactic(auto, using(crate::proofs::Texts::clear_spelled))]
fn add_clear(out: &mut Vec<u8>, clear: &Clear) -> Result<(), AllocError>
    ensures { OnOk result (out.new.items ≡ out.old.items ++ (line_text (clear_words clear.now) ++ LINE_FEED ∷ [])) }
{
    out.extend_from_slice(b"clear")?;
    add_ref(out, clear.release)?;
    add_why(out, &clear.why)?;
    out.push(LINE_FEED)?;
    Ok(())
}

/// The words at the end of a piece's line.
fn add_chains(out: &mut Vec<u8>, latest: &Chain, earliest: &Chain) -> Result<(), AllocError>
    ensures { OnOk result (out.new.items ≡ out.old.items
        ++ behind SPACE (latest_words latest.now ++ codes "earliest" ∷ chain_text earliest.now ∷ [])) }
{
    add_latest(out, latest)?;
    add_word(out, b"earliest")?;
    add_chain(out, earliest)
}

fn add_piece_line(out: &mut Vec<u8>, piece: &Piece) -> Result<(), AllocError>
    ensures { OnOk result (out.new.items ≡ out.old.items ++ (line_text (piece_words piece.now) ++ LINE_FEED ∷ [])) }
{
    out.extend_from_slice(b"piece")?;
    add_ref(out, piece.grant)?;
    add_number(out, piece.from.milliseconds())?;
    add_number(out, piece.to.milliseconds())?;
    add_chains(out, &piece.latest, &piece.earliest)?;
    out.push(LINE_FEED)?;
    Ok(())
}

/// A piece's line and the releases' behind it.
fn add_piece(out: &mut Vec<u8>, piece: &Piece) -> Result<(), AllocError>
    ensures { OnOk result (out.new.items ≡ out.old.items ++ with_stops LINE_FEED (piece_lines piece.now)) }
{
    add_piece_line(out, piece)?;
    for clear in piece.clear.as_slice() {
        add_clear(out, clear)?;
    }
    Ok(())
}

#[tactic(auto, using(crate::proofs::Texts::foreign_spelled))]
fn add_foreign(out: &mut Vec<u8>, foreign: &Foreign) -> Result<(), AllocError>
    ensures { OnOk result (out.new.items ≡ out.old.items ++ (line_text (foreign_words foreign.now) ++ LINE_FEED ∷ [])) }
{
    out.extend_from_slice(b"foreign")?;
    add_ref(out, foreign.grant)?;
    add_reason(out, &foreign.reason)?;
    out.push(LINE_FEED)?;
    Ok(())
}

fn add_holder(out: &mut Vec<u8>, holder: &Duid) -> Result<(), AllocError>
    ensures { OnOk result (out.new.items ≡ out.old.items ++ (line_text (holder_words holder.now) ++ LINE_FEED ∷ [])) }
{
    out.extend_from_slice(b"holder")?;
    add_duid(out, holder)?;
    out.push(LINE_FEED)?;
    Ok(())
}

fn add_prefix_line(out: &mut Vec<u8>, prefix: &Prefix) -> Result<(), AllocError>
    ensures { OnOk result (out.new.items ≡ out.old.items ++ (line_text (prefix_words prefix.now) ++ LINE_FEED ∷ [])) }
{
    out.extend_from_slice(b"prefix")?;
    add_prefix(out, prefix)?;
    out.push(LINE_FEED)?;
    Ok(())
}

fn add_interval(out: &mut Vec<u8>, from: Reading, to: Reading) -> Result<(), AllocError>
    ensures { OnOk result (out.new.items ≡ out.old.items ++ (line_text (interval_words from to) ++ LINE_FEED ∷ [])) }
{
    out.extend_from_slice(b"interval")?;
    add_number(out, from.milliseconds())?;
    add_number(out, to.milliseconds())?;
    out.push(LINE_FEED)?;
    Ok(())
}

/// The lines before the first piece.
fn add_opening(out: &mut Vec<u8>, certificate: &Certificate) -> Result<(), AllocError>
    ensures { OnOk result (out.new.items ≡ out.old.items ++ with_stops LINE_FEED (opening_lines certificate.now)) }
{
    out.extend_from_slice(b"pd-certificate 1\n")?;
    add_holder(out, &certificate.holder)?;
    add_prefix_line(out, &certificate.prefix)?;
    add_interval(out, certificate.from, certificate.to)
}

/// The one text of a certificate, which `read` gives back where the certificate is within the format's limits;
/// `Memory` where a growth was refused.
pub fn write(alloc: Global, certificate: &Certificate) -> Result<Vec<u8>, CertificateError>
    ensures text { IfOk result (λ text. text.items ≡ certificate_text certificate.now) }
    ensures memory { IfErr result (λ e. e ≡ CertificateError.Memory) }
{
    let mut out = Vec::new(alloc);
    add_opening(&mut out, certificate)?;
    for piece in certificate.pieces.as_slice() {
        add_piece(&mut out, piece)?;
    }
    for foreign in certificate.foreign.as_slice() {
        add_foreign(&mut out, foreign)?;
    }
    out.extend_from_slice(b"end\n")?;
    Ok(out)
}
