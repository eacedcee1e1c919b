//! What in the settings of two partners doesn't go together, and whether it keeps them apart.

ghost use Rattle.std.specs.Prelude.{◌≡◌, ◌↔◌, ◌++◌, IsTrue, IfOk, OnOk, map, bytes_eq};
ghost use Rattle.toml.specs.View.{table_view};
ghost use Rattle.settings_diagnostics.specs.declared.pairing.PairConflict.TheVariants.{Setting as SettingConflict};
ghost use Rattle.settings_diagnostics.specs.Pairing.{says_alone, has_link, is_same_role, found_if, partner_conflicts};
ghost use Rattle.settings_diagnostics.specs.Pairing.{settings_conflicts, pair_conflicts, PartsThem, MayJoin};

use crate::key_rules::value_at;
use binding_rules::Role;
use client_id::Duid;
use link_notices::{SettingsDifference, differences};
use notice_exchange::pair_settings;
use server_log::{DisconnectReason, LogEvent};
use server_settings::Settings;
use std::alloc::{AllocError, Global};
use std::fmt;
use std::fmt::Write;
use toml::Table;

/// One of two servers, as one of them sees both.
#[derive(Clone, Copy, Debug, PartialEq, Eq)]
pub enum PairEnd {
    /// The server itself.
    Own,
    /// Its partner.
    Partner,
}

/// Something in the settings of two servers that doesn't go together.
#[derive(Clone, Copy, Debug, PartialEq, Eq)]
pub enum PairConflict {
    /// The settings of one say that it is alone.
    IsAlone(PairEnd),
    /// Those of one name no link to a partner.
    HasNoLink(PairEnd),
    /// Both have this role.
    SameRole(Role),
    /// Both have the same identifier.
    SameDuid,
    /// They differ in a setting that partners tell each other at each connection.
    Setting(SettingsDifference),
}

/// A server's settings, and the document that names them.
#[derive(Clone, Copy)]
pub struct PairDocument<'a> {
    pub table: &'a Table,
    pub settings: &'a Settings,
}

impl PairConflict {
    /// Returns whether two servers of such settings don't join: for a setting in which they differ as the link has it.
    /// Of any other conflict a person is warned.
    pub fn keeps_apart(&self) -> bool
        ensures { IsTrue result ↔ PartsThem self.now }
    {
        match self {
            PairConflict::IsAlone(_) | PairConflict::HasNoLink(_) | PairConflict::SameRole(_) =>
                true,
            PairConflict::SameDuid => false,
            PairConflict::Setting(difference) => difference.keeps_apart(),
        }
    }
}

/// Returns whether a document says that its server is alone.
fn says_alone(table: &Table) -> bool
    ensures { result ≡ says_alone (table_view table.now) }
{
    match value_at(table, "alone") {
        Some(value) => value.as_bool().unwrap_or(false),
        None => false,
    }
}

/// Returns whether a document names a link to a partner.
fn has_link(table: &Table) -> bool
    ensures { result ≡ has_link (table_view table.now) }
{
    match value_at(table, "link") {
        Some(_) => true,
        None => false,
    }
}

fn is_same_role(own: Role, other: Role) -> bool
    ensures { result ≡ is_same_role own other }
{
    match (own, other) {
        (Role::Primary, Role::Primary) | (Role::Secondary, Role::Secondary) => true,
        _ => false,
    }
}

fn is_same_duid(own: &Duid, other: &Duid) -> bool
    ensures { result ≡ bytes_eq own.now other.now }
{
    own.as_bytes() == other.as_bytes()
}

/// Puts a conflict behind those before it, where it is found.
fn push_found(
    conflicts: &mut Vec<PairConflict>,
    is_found: bool,
    conflict: PairConflict,
) -> Result<(), AllocError>
    ensures { OnOk result (conflicts.new.items ≡ conflicts.old.items ++ found_if is_found conflict) }
{
    if is_found {
        conflicts.extend_from_slice(&[conflict])?;
    }
    Ok(())
}

/// Puts behind the conflicts before it why the server of a document has no partner, if it has none.
fn push_of_partner(
    conflicts: &mut Vec<PairConflict>,
    end: PairEnd,
    table: &Table,
) -> Result<(), AllocError>
    ensures { OnOk result (conflicts.new.items
        ≡ conflicts.old.items ++ partner_conflicts end (table_view table.now)) }
{
    if says_alone(table) {
        push_found(conflicts, true, PairConflict::IsAlone(end))
    } else {
        push_found(conflicts, !has_link(table), PairConflict::HasNoLink(end))
    }
}

/// Puts each of some differences behind the conflicts before them.
fn push_differences(
    conflicts: &mut Vec<PairConflict>,
    differences: &[SettingsDifference],
) -> Result<(), AllocError>
    ensures { OnOk result (conflicts.new.items ≡ conflicts.old.items ++ map SettingConflict differences.now) }
{
    for difference in differences {
        conflicts.push(PairConflict::Setting(*difference))?;
    }
    Ok(())
}

/// Puts in what the settings of two servers differ behind the conflicts before it.
fn push_settings(
    alloc: Global,
    conflicts: &mut Vec<PairConflict>,
    own: &Settings,
    other: &Settings,
) -> Result<(), AllocError>
    ensures { OnOk result (conflicts.new.items ≡ conflicts.old.items ++ settings_conflicts own.now other.now) }
{
    let own = pair_settings(alloc, own)?;
    let other = pair_settings(alloc, other)?;
    let found = differences(alloc, &own, &other)?;
    push_differences(conflicts, found.as_slice())
}

/// Returns what in the settings of a server and its partner doesn't go together: what keeps them from being partners,
/// then in what they differ. `AllocError` where a growth was refused.
pub fn pair_conflicts(
    alloc: Global,
    own: &PairDocument<'_>,
    other: &PairDocument<'_>,
) -> Result<Vec<PairConflict>, AllocError>
    ensures { IfOk result (λ found. found.items
        ≡ pair_conflicts (table_view own.now.table.now) own.now.settings.now (table_view other.now.table.now)
        other.now.settings.now) }
{
    let mut found = Vec::new(alloc);
    push_of_partner(&mut found, PairEnd::Own, own.table)?;
    push_of_partner(&mut found, PairEnd::Partner, other.table)?;
    let (own, other) = (own.settings, other.settings);
    let role = own.role();
    push_found(
        &mut found,
        is_same_role(role, other.role()),
        PairConflict::SameRole(role),
    )?;
    let is_same = is_same_duid(own.duid(), other.duid());
    push_found(&mut found, is_same, PairConflict::SameDuid)?;
    push_settings(alloc, &mut found, own, other)?;
    Ok(found)
}

/// Returns whether two servers join by their settings, in which these conflicts were found.
pub fn may_join(conflicts: &[PairConflict]) -> bool
    ensures { IsTrue result ↔ MayJoin conflicts.now }
{
    match conflicts {
        [first, rest @ ..] => !first.keeps_apart() && may_join(rest),
        [] => true,
    }
}

/// The word by which settings name a role.
fn role_word(role: Role) -> &'static str {
    match role {
        Role::Primary => "primary",
        Role::Secondary => "secondary",
    }
}

impl fmt::Display for PairEnd {
    fn fmt<W: Write>(&self, f: &mut fmt::Formatter<W>) -> fmt::Result {
        f.write_str(match self {
            PairEnd::Own => "its settings",
            PairEnd::Partner => "its partner's settings",
        })
    }
}

impl fmt::Display for PairConflict {
    /// A sentence: of a setting the one that a server says of it at a connection.
    fn fmt<W: Write>(&self, f: &mut fmt::Formatter<W>) -> fmt::Result {
        match self {
            PairConflict::IsAlone(end) => {
                write!(
                    f,
                    "{end} say alone = true: a server that is alone joins no other"
                )
            }
            PairConflict::HasNoLink(end) => {
                write!(f, "{end} have no link: without one a server joins no other")
            }
            PairConflict::SameRole(role) => {
                let word = role_word(*role);
                write!(
                    f,
                    "role is {word:?} in both settings: two of one role never join"
                )
            }
            PairConflict::SameDuid => {
                f.write_str("duid is the same in both settings: give each server its own")
            }
            PairConflict::Setting(difference) if difference.keeps_apart() => {
                let reason = DisconnectReason::SettingsDiffer(*difference);
                write!(f, "{reason}")
            }
            PairConflict::Setting(difference) => {
                let event = LogEvent::PartnerSettings(*difference);
                write!(f, "{event}")
            }
        }
    }
}
