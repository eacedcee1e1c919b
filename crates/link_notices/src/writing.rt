//! Texts of notices, written; and their octets on a link.

ghost use Rattle.std.specs.Prelude.{◌≡◌, ◌<◌, ◌≤◌, ◌↔◌, ◌⊎◌, ◌++◌, length, OnOk, IfOk, IsErrOf, IfErr};
ghost use Rattle.std.specs.List.{flat_map};
ghost use Rattle.link_notices.specs.Items.{notice_octets};
ghost use Rattle.link_notices.specs.Words.{AddsWords};
ghost use Rattle.link_notices.specs.Spelling.{pool_words, settings_words, notice_name, notice_values, notice_text};
ghost use Rattle.link_notices.specs.Spelling.{IsNotice};
ghost use Rattle.link_notices.specs.declared.error.NoticeError.TheVariants.{Length, Memory};

use crate::error::NoticeError;
use crate::notice::{Notice, PairSettings, UnitPool};
use crate::stage::{MOST_OCTETS, NOTICE};
use crate::words::{add_number, add_prefix, add_word};
use std::alloc::{AllocError, Global};

fn add_pool(out: &mut Vec<u8>, pool: &UnitPool) -> Result<(), AllocError>
    ensures { OnOk result (AddsWords (pool_words pool.now) out.old.items out.new.items) }
{
    add_prefix(out, &pool.prefix)?;
    add_number(out, u64::from(pool.unit_length))
}

fn add_pools(out: &mut Vec<u8>, pools: &[UnitPool]) -> Result<(), AllocError>
    ensures { OnOk result (AddsWords (flat_map pool_words pools.now) out.old.items out.new.items) }
{
    for pool in pools {
        add_pool(out, pool)?;
    }
    Ok(())
}

fn add_settings(out: &mut Vec<u8>, settings: &PairSettings) -> Result<(), AllocError>
    ensures { OnOk result (AddsWords (settings_words settings.now) out.old.items out.new.items) }
{
    add_number(out, settings.skew.milliseconds())?;
    add_number(out, u64::from(settings.mclt))?;
    add_number(out, u64::from(settings.life))?;
    add_number(out, settings.transit.milliseconds())?;
    add_pools(out, settings.pools.as_slice())
}

/// The word that says what a notice is about.
fn notice_name(notice: &Notice) -> &'static [u8]
    ensures { result.now ≡ notice_name notice.now }
{
    match notice {
        Notice::Program { .. } => b"program",
        Notice::Settings(_) => b"settings",
        Notice::Clock { .. } => b"clock",
        Notice::ClockReply { .. } => b"clock-reply",
    }
}

/// The words behind the first.
fn add_values(out: &mut Vec<u8>, notice: &Notice) -> Result<(), AllocError>
    ensures { OnOk result (AddsWords (notice_values notice.now) out.old.items out.new.items) }
{
    match notice {
        Notice::Program { name, version } => {
            add_word(out, name.as_bytes())?;
            add_word(out, version.as_bytes())
        }
        Notice::Settings(settings) => add_settings(out, settings),
        Notice::Clock { number, asked } => {
            add_number(out, *number)?;
            add_number(out, asked.milliseconds())
        }
        Notice::ClockReply {
            number,
            asked,
            answered,
        } => {
            add_number(out, *number)?;
            add_number(out, asked.milliseconds())?;
            add_number(out, answered.milliseconds())
        }
    }
}

/// Appends the text of a notice.
#[tactic(auto, using(crate::proofs::Joining::joined_is))]
pub fn push_notice_text(out: &mut Vec<u8>, notice: &Notice) -> Result<(), AllocError>
    ensures { OnOk result (out.new.items ≡ out.old.items ++ notice_text notice.now) }
{
    out.extend_from_slice(notice_name(notice))?;
    add_values(out, notice)
}

/// Appends what goes over a link of a notice with this text: octet 1, its length, the text. `Length` where the text has
/// no octet, or more than 4,096.
pub fn push_notice(out: &mut Vec<u8>, text: &[u8]) -> Result<(), NoticeError>
    ensures written { OnOk result (out.new.items ≡ out.old.items ++ notice_octets text.now) }
    ensures length { IsErrOf result NoticeError.Length ↔ ((length text.now ≡ 0) ⊎ (4096 < length text.now)) }
    ensures faults { IfErr result (λ e. (e ≡ Length) ⊎ (e ≡ Memory)) }
{
    let octets = text.len();
    if octets == 0 || octets > MOST_OCTETS {
        return Err(NoticeError::Length);
    }
    out.extend_from_slice(&[NOTICE, (octets / 256) as u8, (octets % 256) as u8])?;
    out.extend_from_slice(text)?;
    Ok(())
}

/// What goes over a link of a notice. `Length` where its text has more than 4,096 octets: it has fewer where the notice
/// is one that is read ([`crate::read_notice`]), and so has each that asks for a clock or answers.
#[tactic(auto, using(crate::proofs::TextLengths::never_long))]
pub fn encode_notice(alloc: Global, notice: &Notice) -> Result<Vec<u8>, NoticeError>
    ensures written { IfOk result (λ octets. octets.items ≡ notice_octets (notice_text notice.now)) }
    ensures fits { IfOk result (λ octets. length (notice_text notice.now) ≤ 4096) }
    ensures length { IsErrOf result NoticeError.Length → 4096 < length (notice_text notice.now) }
    ensures sent { IsNotice notice.now → IsErrOf result NoticeError.Length → ⊥ }
    ensures faults { IfErr result (λ e. (e ≡ Length) ⊎ (e ≡ Memory)) }
{
    let mut text = Vec::new(alloc);
    push_notice_text(&mut text, notice)?;
    let mut octets = Vec::new(alloc);
    push_notice(&mut octets, text.as_slice())?;
    Ok(octets)
}
