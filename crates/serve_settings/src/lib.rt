//! What a server that goes on for years runs by.
//!
//! The document is that of a node (`node_threads`), with keys more, which may each be left out: `heartbeat` (seconds),
//! `volume_lines`, `volume_hours`, `renew_floor` (seconds) and `alone`; and how much clients may take:
//! `ias_per_message`, `units_per_client`, `units_per_port`, `client_rate` (a second) and `bind_to_port`. A server has a
//! partner, which `link` names, or its settings say `alone = true`: so a mistyped key never makes a second server alone
//! on one pool. Where there is a partner, `link_key` says what protects the link: a file with a key, or `none`, so that
//! nobody leaves it open without a word. Which documents are refused, and by what, is in specs/Serving.
//!
//! ```text
//! let settings = ServeSettings::read(alloc, text)?;
//! let owed = settings.upkeep.owed(&growth, now, bar, told);
//! ```
#![tactic(auto)]

mod error;
mod limits;
mod protection;
mod quotas;
mod settings;

pub use error::ServeSettingsError;
pub use protection::LinkProtection;
pub use settings::ServeSettings;
