//! A server's manner, by a document.

ghost use Rattle.std.specs.Prelude.{◌≡◌, MatchResult};
ghost use Rattle.toml.specs.View.{view, table_view};
ghost use Rattle.text_fields.specs.Parsing.{Finds};
ghost use Rattle.reply_settings.specs.Keys.{rebind_word, rebind_in, address_rule_of, address_rule_in, IsReplyPolicy};
ghost use Rattle.reply_settings.specs.Keys.{IsReplyPolicyFault};

use crate::error::ReplyPolicyError;
use crate::options::options_in;
use crate::values::value_at;
use router_options::OptionsError;
use server_book::{AddressRule, RebindUnknown, ReplyPolicy};
use std::alloc::Global;
use toml::{Table, Value};

/// What a word says of a REBIND that a server has no binding for.
fn rebind_word(value: &Value) -> Option<RebindUnknown>
    ensures { Finds (λ r. r) result (rebind_word (view value.now)) }
{
    let word = value.as_str()?;
    if word == "silent" {
        Some(RebindUnknown::Silent)
    } else if word == "no-binding" {
        Some(RebindUnknown::NoBinding)
    } else {
        None
    }
}

/// What a server says of a REBIND that it has no binding for: where nothing is said, one that has a partner is silent.
#[tactic(auto, unfolding(crate::specs::Keys::rebind_in))]
fn rebind_in(table: &Table, is_alone: bool) -> Option<RebindUnknown>
    ensures { Finds (λ r. r) result (rebind_in is_alone (table_view table.now)) }
{
    match value_at(table, "rebind_unknown") {
        Some(value) => rebind_word(value),
        None => {
            if is_alone {
                Some(RebindUnknown::NoBinding)
            } else {
                Some(RebindUnknown::Silent)
            }
        }
    }
}

fn address_rule_of(value: &Value) -> Option<AddressRule>
    ensures { Finds (λ r. r) result (address_rule_of (view value.now)) }
{
    if value.as_str()? == "refuse" {
        Some(AddressRule::Refuse)
    } else {
        None
    }
}

/// What a server says of an IA_NA: nothing, where nothing is said.
#[tactic(auto, unfolding(crate::specs::Keys::address_rule_in))]
fn address_rule_in(table: &Table) -> Option<AddressRule>
    ensures { Finds (λ r. r) result (address_rule_in (table_view table.now)) }
{
    match value_at(table, "ia_na") {
        Some(value) => address_rule_of(value),
        None => Some(AddressRule::Ignore),
    }
}

/// The manner of a server that is alone or not, by a document. `Dns`, `Search`, `Sntp`, `InformationRefresh`,
/// `Preference`, `Unicast`, `RebindUnknown` or `IaNa`, in this order, where that key has nothing within its limits;
/// `Memory` where a growth was refused.
pub fn reply_policy_in(
    alloc: Global,
    table: &Table,
    is_alone: bool,
) -> Result<ReplyPolicy, ReplyPolicyError>
    ensures { MatchResult result (IsReplyPolicy is_alone (table_view table.now)) (IsReplyPolicyFault is_alone (table_view
        table.now)) }
{
    let given = options_in(alloc, table)?;
    let options = match given.ready(alloc) {
        Ok(options) => options,
        Err(OptionsError::TooLong | OptionsError::Memory) => return Err(ReplyPolicyError::Memory),
    };
    let Some(rebind_unknown) = rebind_in(table, is_alone) else {
        return Err(ReplyPolicyError::RebindUnknown);
    };
    let Some(addresses) = address_rule_in(table) else {
        return Err(ReplyPolicyError::IaNa);
    };
    Ok(ReplyPolicy {
        options,
        rebind_unknown,
        addresses,
    })
}
