//! The title of a page: a sentence that says the answer.

ghost use Rattle.std.specs.Prelude.{◌≡◌, ◌++◌, OnOk, IfOk};
ghost use Rattle.prefix_range.specs.Text.{prefix_text};
ghost use Rattle.report_render.specs.Title.{client_held, IsTitleTime, IsAt, IsFromTo, IsTitle};

use client_id::Duid;
use lead_time::Reading;
use prefix_range::{Prefix, push_prefix};
use std::alloc::{AllocError, Global};
use text_fields::push_octets;
use time_text::push_time;
use zone_times::{ZoneFile, push_local};

/// What a certificate says: that a client held a prefix from one moment up to another.
#[derive(Clone, Copy, Debug)]
pub struct ClaimedDelegation {
    pub holder: Duid,
    pub prefix: Prefix,
    pub from: Reading,
    /// The first moment past the interval.
    pub to: Reading,
}

/// What the title of a page says, in a sentence.
#[derive(Clone, Copy, Debug)]
pub enum PageTitle {
    /// Of a question: this client held the prefix at the moment.
    HeldAt {
        holder: Duid,
        prefix: Prefix,
        at: Reading,
    },
    /// Of a certificate that is accepted.
    Held(ClaimedDelegation),
    /// Of a question that names nobody.
    NotShown {
        prefix: Prefix,
        at: Reading,
    },
    /// Of a certificate that is refused.
    NotAccepted(ClaimedDelegation),
    /// Nothing could be read of what was asked.
    Unread,
}

/// A moment in a zone's local time with its offset, or in UTC where no zone is given.
#[tactic(auto, using(crate::proofs::MoreTitles::utc_time, crate::proofs::MoreTitles::local_time))]
fn time_of(alloc: Global, zone: Option<&ZoneFile>, moment: Reading) -> Result<Vec<u8>, AllocError>
    ensures { IfOk result (λ time. IsTitleTime zone.entry moment time.items) }
{
    let mut time = Vec::new(alloc);
    match zone {
        Some(zone) => push_local(&mut time, alloc, zone, moment)?,
        None => push_time(&mut time, moment)?,
    }
    Ok(time)
}

/// Appends a client's identifier, and that it held a prefix.
fn push_held(out: &mut Vec<u8>, holder: &Duid, prefix: &Prefix) -> Result<(), AllocError>
    ensures { OnOk result (out.new.items ≡ out.old.items ++ client_held holder.now prefix.now) }
{
    push_octets(out, holder.as_bytes())?;
    out.extend_from_slice(b" held ")?;
    push_prefix(out, prefix)
}

/// A sentence's beginning, and a moment.
#[tactic(auto, using(crate::proofs::MoreTitles::at_moment))]
fn sentence_at(
    alloc: Global,
    front: Vec<u8>,
    zone: Option<&ZoneFile>,
    at: Reading,
) -> Result<Vec<u8>, AllocError>
    ensures { IfOk result (λ text. IsAt zone.entry front.items at text.items) }
{
    let time = time_of(alloc, zone, at)?;
    let mut out = front;
    out.extend_from_slice(b" at ")?;
    out.extend_from_slice(&time)?;
    Ok(out)
}

/// A sentence's beginning, and the moments of an interval.
#[tactic(auto, using(crate::proofs::MoreTitles::between_moments))]
fn sentence_between(
    alloc: Global,
    front: Vec<u8>,
    zone: Option<&ZoneFile>,
    from: Reading,
    to: Reading,
) -> Result<Vec<u8>, AllocError>
    ensures { IfOk result (λ text. IsFromTo zone.entry front.items from to text.items) }
{
    let begin = time_of(alloc, zone, from)?;
    let end = time_of(alloc, zone, to)?;
    let mut out = front;
    out.extend_from_slice(b" from ")?;
    out.extend_from_slice(&begin)?;
    out.extend_from_slice(b" to ")?;
    out.extend_from_slice(&end)?;
    Ok(out)
}

/// A word or words, and that a client held a prefix.
fn front_held(
    alloc: Global,
    word: &[u8],
    holder: &Duid,
    prefix: &Prefix,
) -> Result<Vec<u8>, AllocError>
    ensures { IfOk result (λ text. text.items ≡ word.now ++ client_held holder.now prefix.now) }
{
    let mut out = Vec::new(alloc);
    out.extend_from_slice(word)?;
    push_held(&mut out, holder, prefix)?;
    Ok(out)
}

/// A word or words, and a prefix.
fn front_prefix(alloc: Global, word: &[u8], prefix: &Prefix) -> Result<Vec<u8>, AllocError>
    ensures { IfOk result (λ text. text.items ≡ word.now ++ prefix_text prefix.now) }
{
    let mut out = Vec::new(alloc);
    out.extend_from_slice(word)?;
    push_prefix(&mut out, prefix)?;
    Ok(out)
}

/// The sentence of a title. `AllocError` where a growth was refused.
pub(crate) fn title_of(
    alloc: Global,
    title: &PageTitle,
    zone: Option<&ZoneFile>,
) -> Result<Vec<u8>, AllocError>
    ensures { IfOk result (λ text. IsTitle zone.entry title.now text.items) }
{
    match title {
        PageTitle::HeldAt { holder, prefix, at } => {
            let front = front_held(alloc, b"Client ", holder, prefix)?;
            sentence_at(alloc, front, zone, *at)
        }
        PageTitle::Held(claim) => {
            let front = front_held(alloc, b"Client ", &claim.holder, &claim.prefix)?;
            sentence_between(alloc, front, zone, claim.from, claim.to)
        }
        PageTitle::NotShown { prefix, at } => {
            let front = front_prefix(alloc, b"Not shown of anybody: ", prefix)?;
            sentence_at(alloc, front, zone, *at)
        }
        PageTitle::NotAccepted(claim) => {
            let front = front_held(
                alloc,
                b"Not accepted: that client ",
                &claim.holder,
                &claim.prefix,
            )?;
            sentence_between(alloc, front, zone, claim.from, claim.to)
        }
        PageTitle::Unread => {
            let mut out = Vec::new(alloc);
            out.extend_from_slice(b"Nothing could be read of what was asked")?;
            Ok(out)
        }
    }
}
