//! Settings out of a TOML document.

ghost use Rattle.std.specs.Prelude.{◌≡◌, ◌⊎◌, IfOk, IfErr, MatchResult};
ghost use Rattle.toml.specs.Data.{Members};
ghost use Rattle.toml.specs.View.{table_view};
ghost use Rattle.server_settings.specs.Document.{IsDocument};
ghost use Rattle.serve_settings.specs.Serving.{IsServed, IsNodeRefusal, IsRefusal};
ghost use Rattle.serve_settings.specs.Serving.{HasPartnerOrIsAlone, IsProtected, IsPartnerFault, IsKeyFault, has_none};
ghost use Rattle.reply_settings.specs.Keys.{IsReplyPolicy};

use crate::error::ServeSettingsError;
use crate::limits::{is_alone, renew_floor_in, upkeep_in};
use crate::protection::{LinkProtection, protection_in};
use crate::quotas::quotas_in;
use client_limits::Limits;
use node_threads::NodeSettings;
use reply_settings::reply_policy_in;
use server_book::ReplyPolicy;
use server_settings::OpenError;
use server_timers::Timers;
use std::alloc::Global;
use toml::Table;

/// What a server that goes on for years runs by. It is alone where its ways have no link.
#[derive(Drop)]
pub struct ServeSettings {
    pub node: NodeSettings,
    /// Where a key isn't there, what [`Timers::DEFAULT`] has.
    pub upkeep: Timers,
    /// The age, in seconds, from which on a grant isn't told again: with 0 none is. Where the key isn't there, a tenth
    /// of the desired lifetime, and 10 at least.
    pub renew_floor: u32,
    /// How much clients may take. Where a key isn't there, 4 IA_PDs of a message, 8 units of a client, 64 of those
    /// behind a relay port, 20 messages of a client in a second; an identity association may come from any port.
    pub quotas: Limits,
    /// What protects the link with the partner; none where there is no partner.
    pub protection: Option<LinkProtection>,
    /// How it answers beside what its book says. Where no key is there, nothing is handed out beside prefixes, an IA_NA
    /// is passed over, and a server that has a partner says nothing of a REBIND that it has no binding for.
    pub reply_policy: ReplyPolicy,
}

/// What protects the link, where the server has a partner.
fn protection(alloc: Global, table: &Table) -> Result<Option<LinkProtection>, ServeSettingsError>
    ensures { MatchResult result (λ p. HasPartnerOrIsAlone (table_view table.now) × IsProtected (table_view table.now)
        p)
        (λ e. IsPartnerFault (table_view table.now) e ⊎ IsKeyFault (table_view table.now) e) }
{
    if is_alone(table)? {
        return Ok(None);
    }
    Ok(Some(protection_in(alloc, table)?))
}

/// Returns whether nothing protects a link: the server has none.
fn has_none(protection: &Option<LinkProtection>) -> bool
    ensures { result ≡ has_none protection.now }
{
    match protection {
        Some(_) => false,
        None => true,
    }
}

/// The table of a TOML document.
fn table_of(alloc: Global, text: &[u8]) -> Result<Table, OpenError>
    ensures table { IfOk result (λ t. IsDocument text.now (table_view t)) }
    ensures refused { IfErr result (IsNodeRefusal text.now) }
{
    match toml::table_from_slice(alloc, text) {
        Ok(table) => Ok(table),
        Err(e) if e.is_memory() => Err(OpenError::Memory),
        Err(_) => Err(OpenError::Settings),
    }
}

impl ServeSettings {
    /// The settings that a TOML document names: those of a node, `link_key` where there is a `link`, and the others,
    /// which may each be left out. `Node` where no node runs by it, or a growth was refused; else `Alone`, `NoPartner`
    /// or `PartnerOfAlone`; else `NoLinkKey` or `LinkKey`; else `Heartbeat`, `VolumeLines` or `VolumeHours`; else
    /// `RenewFloor`; else `IasPerMessage`, `UnitsPerClient`, `UnitsPerPort`, `ClientRate` or `BindToPort`; else
    /// `ReplyPolicy`.
    pub fn read(alloc: Global, text: &[u8]) -> Result<ServeSettings, ServeSettingsError>
        ensures served { IfOk result (λ s. (members : Members) × IsDocument text.now members
            × IsServed members s.node.server s.upkeep s.renew_floor s.quotas s.protection
            × IsReplyPolicy (has_none s.protection) members s.reply_policy) }
        ensures refused { IfErr result (IsRefusal text.now) }
    {
        let node = match NodeSettings::read(alloc, text) {
            Ok(node) => node,
            Err(error) => return Err(ServeSettingsError::Node(error)),
        };
        let table = match table_of(alloc, text) {
            Ok(table) => table,
            Err(error) => return Err(ServeSettingsError::Node(error)),
        };
        let protection = match protection(alloc, &table) {
            Ok(protection) => protection,
            Err(error) => return Err(error),
        };
        let upkeep = upkeep_in(&table)?;
        let renew_floor = renew_floor_in(&table, node.server.life())?;
        let quotas = quotas_in(&table)?;
        let manner = match reply_policy_in(alloc, &table, has_none(&protection)) {
            Ok(manner) => manner,
            Err(error) => return Err(ServeSettingsError::ReplyPolicy(error)),
        };
        Ok(ServeSettings {
            node,
            upkeep,
            renew_floor,
            quotas,
            protection,
            reply_policy: manner,
        })
    }
}
