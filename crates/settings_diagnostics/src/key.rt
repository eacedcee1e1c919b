//! The keys of a node's settings.

ghost use Rattle.std.specs.Prelude.{◌≡◌};
ghost use Rattle.settings_diagnostics.specs.Keys.{key_name};

use std::fmt;
use std::fmt::Write;

/// A key of a node's settings, or of one of its pools.
#[derive(Clone, Copy, Debug, PartialEq, Eq)]
pub enum Key {
    Role,
    Duid,
    SkewMs,
    Mclt,
    Life,
    TransitMs,
    Listen,
    Link,
    LinkKey,
    Workers,
    Heartbeat,
    VolumeLines,
    VolumeHours,
    RenewFloor,
    IasPerMessage,
    UnitsPerClient,
    UnitsPerPort,
    ClientRate,
    BindToPort,
    Dns,
    Search,
    Sntp,
    InformationRefresh,
    Preference,
    Unicast,
    RebindUnknown,
    IaNa,
    Alone,
    Pool,
    /// Of a pool.
    Prefix,
    /// Of a pool.
    Unit,
}

/// The keys of a node's settings. `link_key`, `alone`, and those from `heartbeat` to `ia_na` are read by a server
/// that goes on for years, and passed over by all others: no value there is a reason to refuse settings.
pub const KEYS: [Key; 29] = [
    Key::Role,
    Key::Duid,
    Key::SkewMs,
    Key::Mclt,
    Key::Life,
    Key::TransitMs,
    Key::Listen,
    Key::Link,
    Key::LinkKey,
    Key::Workers,
    Key::Heartbeat,
    Key::VolumeLines,
    Key::VolumeHours,
    Key::RenewFloor,
    Key::IasPerMessage,
    Key::UnitsPerClient,
    Key::UnitsPerPort,
    Key::ClientRate,
    Key::BindToPort,
    Key::Dns,
    Key::Search,
    Key::Sntp,
    Key::InformationRefresh,
    Key::Preference,
    Key::Unicast,
    Key::RebindUnknown,
    Key::IaNa,
    Key::Alone,
    Key::Pool,
];

/// The keys of a pool.
pub const POOL_KEYS: [Key; 2] = [Key::Prefix, Key::Unit];

impl Key {
    /// Returns how the key is written.
    pub fn name(&self) -> &'static str
        ensures { result.now ≡ key_name self.now }
    {
        match self {
            Key::Role => "role",
            Key::Duid => "duid",
            Key::SkewMs => "skew_ms",
            Key::Mclt => "mclt",
            Key::Life => "life",
            Key::TransitMs => "transit_ms",
            Key::Listen => "listen",
            Key::Link => "link",
            Key::LinkKey => "link_key",
            Key::Workers => "workers",
            Key::Heartbeat => "heartbeat",
            Key::VolumeLines => "volume_lines",
            Key::VolumeHours => "volume_hours",
            Key::RenewFloor => "renew_floor",
            Key::IasPerMessage => "ias_per_message",
            Key::UnitsPerClient => "units_per_client",
            Key::UnitsPerPort => "units_per_port",
            Key::ClientRate => "client_rate",
            Key::BindToPort => "bind_to_port",
            Key::Dns => "dns",
            Key::Search => "search",
            Key::Sntp => "sntp",
            Key::InformationRefresh => "information_refresh",
            Key::Preference => "preference",
            Key::Unicast => "unicast",
            Key::RebindUnknown => "rebind_unknown",
            Key::IaNa => "ia_na",
            Key::Alone => "alone",
            Key::Pool => "pool",
            Key::Prefix => "prefix",
            Key::Unit => "unit",
        }
    }
}

impl fmt::Display for Key {
    fn fmt<W: Write>(&self, f: &mut fmt::Formatter<W>) -> fmt::Result {
        f.write_str(self.name())
    }
}
