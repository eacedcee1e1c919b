//! Settings that are read, and are odd.

ghost use Rattle.std.specs.Prelude.{◌≡◌, ◌≤◌, ◌%◌, ◌↔◌, IsTrue, MatchOption};
ghost use Rattle.prefix_range.specs.Prefix.{size_of, Overlaps};
ghost use Rattle.settings_diagnostics.specs.Warnings.{HasNoWarning, IsPoolWarning, IsLongLead};

use prefix_range::Prefix;
use server_settings::Settings;
use std::fmt;
use std::fmt::Write;
use std::net::SocketAddr;

/// A doubt about settings that are read.
#[derive(Clone, Copy, Debug, PartialEq, Eq)]
pub enum SettingsWarning {
    /// A pool has multicast addresses (RFC 4291, section 2.7).
    Multicast,
    /// A pool has link-local addresses (RFC 4291, section 2.5.6).
    LinkLocal,
    /// `mclt` is above `life`, and there is no `link`.
    LongLead,
    /// `link` is `listen`.
    SameAddress,
}

/// Returns whether a prefix has addresses of another, which begins at an address and has a length in bits.
fn meets(prefix: &Prefix, address: u128, length: u8) -> bool
    requires short { length ≤ 128 }
    requires host_bits { address % size_of length ≡ 0 }
    ensures { IsTrue result ↔ Overlaps prefix.now (record { address = address; length = length }) }
{
    match Prefix::new(address, length) {
        Ok(range) => prefix.overlaps(&range),
        Err(_) => false,
    }
}

/// Returns the doubt about a pool of this prefix, if there is one.
pub fn pool_warning(prefix: &Prefix) -> Option<SettingsWarning>
    ensures { MatchOption result (HasNoWarning prefix.now) (IsPoolWarning prefix.now) }
{
    if meets(prefix, 0xff << 120, 8) {
        Some(SettingsWarning::Multicast)
    } else if meets(prefix, 0xfe80 << 112, 10) {
        Some(SettingsWarning::LinkLocal)
    } else {
        None
    }
}

/// Returns the doubt about a server's `mclt`, which bounds its leases only where it has a partner.
pub fn lead_time_warning(settings: &Settings, link: Option<SocketAddr>) -> Option<SettingsWarning>
    ensures { MatchOption result (IsLongLead settings.now link → ⊥)
        (λ doubt. (doubt ≡ SettingsWarning.LongLead) × IsLongLead settings.now link) }
{
    if link.is_none() && settings.mclt() > settings.life() {
        Some(SettingsWarning::LongLead)
    } else {
        None
    }
}

/// Returns the doubt about where a node hears its partner.
pub fn link_warning(listen: SocketAddr, link: Option<SocketAddr>) -> Option<SettingsWarning>
    ensures { MatchOption result (link ≡ Some listen → ⊥)
        (λ doubt. (doubt ≡ SettingsWarning.SameAddress) × (link ≡ Some listen)) }
{
    match link {
        Some(link) if link == listen => Some(SettingsWarning::SameAddress),
        _ => None,
    }
}

impl fmt::Display for SettingsWarning {
    fn fmt<W: Write>(&self, f: &mut fmt::Formatter<W>) -> fmt::Result {
        f.write_str(match self {
            SettingsWarning::Multicast => "prefix: has multicast addresses, which are ff00::/8",
            SettingsWarning::LinkLocal => "prefix: has link-local addresses, which are fe80::/10",
            SettingsWarning::LongLead => "mclt: is above life, and without link it bounds no lease",
            SettingsWarning::SameAddress => "link: is the address and port of listen",
        })
    }
}
