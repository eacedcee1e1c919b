//! Why settings are refused.

use reply_settings::ReplyPolicyError;
use server_settings::OpenError;
use thiserror::Error;

/// Why a server that goes on for years doesn't run by settings.
#[derive(Clone, Copy, Debug, PartialEq, Eq, Error)]
pub enum ServeSettingsError {
    /// No node does, or a growth was refused.
    #[error("{0}")]
    Node(OpenError),
    /// What is at `heartbeat` is no number within its limits.
    #[error("heartbeat: wants a whole number of seconds, 1 to 31536000")]
    Heartbeat,
    /// What is at `volume_lines` is no number within its limits.
    #[error("volume_lines: wants a whole number of lines, 1 to 1048575")]
    VolumeLines,
    /// What is at `volume_hours` is no number within its limits.
    #[error("volume_hours: wants a whole number of hours, 1 to 8760")]
    VolumeHours,
    /// What is at `renew_floor` is no number within its limits.
    #[error("renew_floor: wants a whole number of seconds, 0 to 31536000")]
    RenewFloor,
    /// What is at `ias_per_message` is no number within its limits.
    #[error("ias_per_message: wants a whole number, 0 to 65535 (0 for no limit)")]
    IasPerMessage,
    /// What is at `units_per_client` is no number within its limits.
    #[error("units_per_client: wants a whole number of prefixes, 0 to 65536 (0 for no limit)")]
    UnitsPerClient,
    /// What is at `units_per_port` is no number within its limits.
    #[error("units_per_port: wants a whole number of prefixes, 0 to 65536 (0 for no limit)")]
    UnitsPerPort,
    /// What is at `client_rate` is no number within its limits.
    #[error("client_rate: wants a whole number of messages a second, 0 to 1000000 (0 for no limit)")]
    ClientRate,
    /// What is at `bind_to_port` is no truth value.
    #[error("bind_to_port: wants true or false")]
    BindToPort,
    /// What is at `alone` is no truth value.
    #[error("alone: wants true or false")]
    Alone,
    /// There is no `link`, and no `alone = true`.
    #[error("link: is missing: name the partner's address, or write alone = true for trials without one")]
    NoPartner,
    /// There are both.
    #[error("alone: is true, and link names a partner: leave one of them out")]
    PartnerOfAlone,
    /// There is a partner, and no `link_key`.
    #[error("link_key: is missing: name a file with a key (openssl rand -hex 32 makes one, the same for both servers), or write link_key = \"none\" where another layer lets nobody but the partner reach the port")]
    NoLinkKey,
    /// The keys of how the server answers have something else than they want, or a growth was refused.
    #[error("{0}")]
    ReplyPolicy(ReplyPolicyError),
    /// What is at `link_key` is no text, or an empty one.
    #[error("link_key: wants the name of a file, or \"none\"")]
    LinkKey,
}
