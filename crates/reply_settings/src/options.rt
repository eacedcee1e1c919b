//! What a document hands out beside prefixes.

ghost use Rattle.std.specs.Prelude.{◌≡◌, MatchResult};
ghost use Rattle.toml.specs.View.{table_view};
ghost use Rattle.reply_settings.specs.Keys.{octet_of, HandsOut, IsOptionFault};

use crate::error::ReplyPolicyError;
use crate::values::{address_at, addresses_at, names_at, number_at};
use router_options::RouterOptions;
use std::alloc::Global;
use toml::Table;

/// The least seconds until a client asks anew (RFC 8415, section 7.6: IRT_MINIMUM).
const LEAST_REFRESH: u32 = 600;

/// A preference, which is a number up to 255.
fn octet_of(number: Option<u32>) -> Option<u8>
    ensures { result ≡ octet_of number }
{
    match number {
        Some(number) => u8::try_from(number).ok(),
        None => None,
    }
}

/// What a document hands out beside prefixes: each key may be left out. `Dns`, `Search`, `Sntp`, `InformationRefresh`,
/// `Preference` or `Unicast`, in this order, where that key has nothing within its limits; `Memory` where a growth was
/// refused.
pub(crate) fn options_in(alloc: Global, table: &Table) -> Result<RouterOptions, ReplyPolicyError>
    ensures { MatchResult result (HandsOut (table_view table.now)) (IsOptionFault (table_view table.now)) }
{
    let dns = addresses_at(alloc, table, "dns", ReplyPolicyError::Dns)?;
    let search = names_at(alloc, table, "search", ReplyPolicyError::Search)?;
    let sntp = addresses_at(alloc, table, "sntp", ReplyPolicyError::Sntp)?;
    let refresh = number_at(
        table,
        "information_refresh",
        LEAST_REFRESH,
        u32::MAX,
        ReplyPolicyError::InformationRefresh,
    )?;
    let preference = number_at(table, "preference", 0, 255, ReplyPolicyError::Preference)?;
    let unicast = address_at(alloc, table, "unicast", ReplyPolicyError::Unicast)?;
    Ok(RouterOptions {
        preference: octet_of(preference),
        unicast,
        dns,
        search,
        sntp,
        information_refresh: refresh,
    })
}
