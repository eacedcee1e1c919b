//! Why a document says nothing of a server's manner.

use thiserror::Error;

/// Why a document says nothing of a server's manner: what is at a key isn't what it wants, or a growth was refused.
#[derive(Clone, Copy, Debug, PartialEq, Eq, Error)]
pub enum ReplyPolicyError {
    /// What is at `dns` is no list of at most 16 addresses.
    #[error("dns: wants a list of at most 16 IPv6 addresses")]
    Dns,
    /// What is at `search` is no list of at most 16 domain names.
    #[error("search: wants a list of at most 16 domain names, each of labels of 1 to 63 letters, digits, hyphens or underscores, and of at most 253 characters")]
    Search,
    /// What is at `sntp` is no list of at most 16 addresses.
    #[error("sntp: wants a list of at most 16 IPv6 addresses")]
    Sntp,
    /// What is at `information_refresh` is no number within its limits.
    #[error("information_refresh: wants a whole number of seconds, 600 to 4294967295 (the greatest for never)")]
    InformationRefresh,
    /// What is at `preference` is no number within its limits.
    #[error("preference: wants a whole number, 0 to 255")]
    Preference,
    /// What is at `unicast` is no address.
    #[error("unicast: wants an IPv6 address")]
    Unicast,
    /// What is at `rebind_unknown` is no word of its own.
    #[error("rebind_unknown: wants \"silent\" or \"no-binding\"")]
    RebindUnknown,
    /// What is at `ia_na` is no word of its own.
    #[error("ia_na: wants \"refuse\"")]
    IaNa,
    /// A growth was refused.
    #[error("out of memory")]
    Memory,
}
