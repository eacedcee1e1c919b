//! The TOML keys that set a server's `ReplyPolicy`: the options it hands out besides prefixes, and how it answers a
//! REBIND for an unknown binding or a request for addresses. `reply_policy_in` reads them from a parsed table. It
//! doesn't build replies; `server_book` does.
//!
//! The keys may each be left out: `dns`, `sntp` (lists of IPv6 addresses), `search` (a list of domain names),
//! `information_refresh` (seconds), `preference`, `unicast` (an IPv6 address), `rebind_unknown` (`"silent"` or
//! `"no-binding"`) and `ia_na` (`"refuse"`). What they say is in specs/Keys.
//!
//! ```text
//! let manner = reply_policy_in(alloc, &table, is_alone)?;
//! ```
#![tactic(auto)]

mod error;
mod options;
mod reply_policy;
mod values;

pub use error::ReplyPolicyError;
pub use reply_policy::reply_policy_in;
