//! What protects the partners' link.

ghost use Rattle.std.specs.Prelude.{◌≡◌, ◌↔◌, codes, IsTrue, MatchResult};
ghost use Rattle.toml.specs.View.{view, table_view};
ghost use Rattle.serve_settings.specs.Serving.{Says, IsWord, IsNoWord, IsProtection, IsKeyFault};

use crate::error::ServeSettingsError;
use crate::limits::value_at;
use server_settings::OpenError;
use std::alloc::Global;
use toml::{Table, Value};

/// What protects the partners' link from strangers.
#[derive(Debug, Drop)]
pub enum LinkProtection {
    /// A key that both servers have: this file spells it (`link_auth`). The path goes from the settings' directory
    /// on.
    KeyFile(String),
    /// Another layer lets nobody but the partner reach the port.
    OtherLayer,
}

/// The word by which a document says that another layer protects the link.
const NONE: &str = "none";

/// The text of a value that says what protects the link.
fn word_of(value: &Value) -> Result<&str, ServeSettingsError>
    ensures { MatchResult result (λ word. IsWord (view value.now) word.now) (λ e. IsNoWord (view value.now) e) }
{
    match value.as_str() {
        Some(word) if !word.is_empty() => Ok(word),
        _ => Err(ServeSettingsError::LinkKey),
    }
}

/// What a word says.
fn said_by(alloc: Global, word: &str) -> Result<LinkProtection, ServeSettingsError>
    ensures { MatchResult result (λ p. Says word.now p) (λ e. e ≡ ServeSettingsError.Node OpenError.Memory) }
{
    if word == NONE {
        return Ok(LinkProtection::OtherLayer);
    }
    match word.to_string(alloc) {
        Ok(file) => Ok(LinkProtection::KeyFile(file)),
        Err(_) => Err(ServeSettingsError::Node(OpenError::Memory)),
    }
}

/// What protects the link of a server that has a partner. `NoLinkKey` where the document doesn't say it, `LinkKey`
/// where what is there is no text or an empty one; or a growth was refused.
pub(crate) fn protection_in(
    alloc: Global,
    table: &Table,
) -> Result<LinkProtection, ServeSettingsError>
    ensures { MatchResult result (IsProtection (table_view table.now)) (IsKeyFault (table_view table.now)) }
{
    let Some(value) = value_at(table, "link_key") else {
        return Err(ServeSettingsError::NoLinkKey);
    };
    said_by(alloc, word_of(value)?)
}
