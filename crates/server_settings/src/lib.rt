//! A server's settings as a validated value, and their TOML form. `read_settings` parses a document, `Settings::new`
//! checks limits and that no two pools overlap. It doesn't read files, and says only *that* settings are invalid:
//! `settings_diagnostics` says why.
//!
//! [`Settings`] are made by `new`, of parts that are within their limits (`AreWithin` of specs/Settings) and of pools
//! that have no address in common. `opening` there is the journal that a server of such settings begins with.
//!
//! ```text
//! let settings = Settings::new(Role::Primary, duid, skew, 3_600, 7_200, Transit::ZERO, pools)?;
//! let life = settings.life(); // 7200
//! ```
//!
//! A server's settings as a TOML document names them.
//!
//! `read_settings` reads a text; `settings_in` reads a table that was read already, so that who wants other keys of the
//! same document parses it once; `role_of`, `duid_of` and `prefix_of` read the words of single keys. Which settings a
//! document names is defined in specs/Document, whatever other keys it has.
//!
//! ```text
//! let settings = read_settings(alloc, text)?;
//! ```
#![tactic(auto)]

mod document;
mod error;
mod settings;

pub use document::{duid_of, prefix_of, read_settings, role_of, settings_in};
pub use error::OpenError;
pub use settings::Settings;
