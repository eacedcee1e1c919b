//! Why settings are refused.

ghost use Rattle.std.specs.Prelude.{◌≡◌, [], None, IfOk, IfSome, MatchOption};
ghost use Rattle.toml.specs.View.{table_view};
ghost use Rattle.settings_diagnostics.specs.Refusing.{AreAll, AreNamed, IsClash, AreRead};

use crate::key_diagnostic::{KeyDiagnostic, KeyTable};
use crate::key_rules::{add_diagnostics, wishes};
use crate::pools::add_of_pools;
use server_settings::{OpenError, settings_in};
use std::alloc::{AllocError, Global};
use std::fmt;
use std::fmt::Write;
use toml::Table;

/// What pools that are each as wanted lack together.
#[derive(Clone, Copy, Debug, PartialEq, Eq)]
pub enum PoolConflict {
    /// They have too many units in all.
    Units,
    /// Two have an address in common.
    Overlap,
}

/// Why settings are refused.
#[derive(Debug, Drop)]
pub struct RefusalReasons {
    /// The complaints about single keys: those of the document, then those of each pool.
    pub keys: Vec<KeyDiagnostic>,
    /// What the pools lack together, where each key is as wanted.
    pub pools: Option<PoolConflict>,
}

/// Returns a complaint for each key of a node's settings that isn't as wanted.
fn diagnostics(alloc: Global, table: &Table) -> Result<Vec<KeyDiagnostic>, AllocError>
    ensures { IfOk result (λ v. AreAll (table_view table.now) v.items) }
{
    let mut out = Vec::new(alloc);
    add_diagnostics(&mut out, table, KeyTable::Top, &wishes())?;
    add_of_pools(alloc, &mut out, table)?;
    Ok(out)
}

/// Returns what the pools lack together, where each key is as wanted.
fn clash_of(alloc: Global, table: &Table) -> Result<Option<PoolConflict>, AllocError>
    requires { AreAll (table_view table.now) [] }
    ensures { IfOk result (λ clash. MatchOption clash (AreNamed (table_view table.now))
        (IsClash (table_view table.now))) }
{
    match settings_in(alloc, table) {
        Ok(settings) => {
            // from this call the proof learns what all settings keep
            let _pools = settings.pools();
            Ok(None)
        }
        Err(OpenError::Settings) => Ok(Some(PoolConflict::Units)),
        Err(OpenError::Overlap) => Ok(Some(PoolConflict::Overlap)),
        Err(OpenError::Memory) => Err(AllocError),
    }
}

/// Returns why a node's settings are refused, whatever unknown keys the document has: without a reason they are read.
/// `AllocError` where a growth was refused.
pub fn reasons_of(alloc: Global, table: &Table) -> Result<RefusalReasons, AllocError>
    ensures keys { IfOk result (λ r. AreAll (table_view table.now) r.keys.items) }
    ensures pools { IfOk result (λ r. IfSome r.pools (IsClash (table_view table.now))) }
    ensures none { IfOk result (λ r. r.keys.items ≡ [] → r.pools ≡ None → AreRead (table_view table.now)) }
{
    let keys = diagnostics(alloc, table)?;
    let pools = match keys.as_slice() {
        [] => clash_of(alloc, table)?,
        _ => None,
    };
    Ok(RefusalReasons { keys, pools })
}

impl fmt::Display for PoolConflict {
    fn fmt<W: Write>(&self, f: &mut fmt::Formatter<W>) -> fmt::Result {
        f.write_str(match self {
            PoolConflict::Units => "pool: wants at most 65536 units in all, has more",
            PoolConflict::Overlap => "pool: wants no address in two pools, has one",
        })
    }
}
