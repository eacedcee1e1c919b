//! A book's table, and what finds its units.

ghost use Rattle.std.specs.Prelude.{◌≡◌, IfOk, IfErr, OnOk};
ghost use Rattle.book_state.specs.Effects.{after};
ghost use Rattle.book_rules.specs.Rules.{IsStep};
ghost use Rattle.book_rules.specs.State.{state};
ghost use Rattle.unit_index.specs.Units.{IsBoundTo, IsLeastOf};
ghost use Rattle.unit_index.specs.Leases.{AreLeases};
ghost use Rattle.unit_index.specs.PoolTrees.{AreTreesOf};
ghost use Rattle.unit_index.specs.Subjects.{KeepsPools};

use crate::leasing::LeaseKey;
use crate::leasing::leases::{enter, leases_of, lowest_leased};
use crate::pool_tree::PoolTree;
use crate::pool_tree::building::{follow, trees_of};
use crate::subject::subject_of;
use book_rules::Table;
use client_id::{Duid, Iaid};
use journal_lines::Line;
use prefix_range::Prefix;
use std::alloc::{AllocError, Global};
use std::collections::BTreeSet;

/// A table, the kinds of its units, by which one of a kind is found in few steps, and what each client has.
#[derive(Drop)]
pub struct UnitIndex {
    /// The table.
    pub table: Table,
    pub(crate) charts: Vec<PoolTree>,
    pub(crate) leases: BTreeSet<LeaseKey>,
    ghost followed: { AreTreesOf (state table) charts.items },
    ghost held: { AreLeases (state table) leases },
}

impl UnitIndex {
    /// The register of a table.
    pub fn of(alloc: Global, table: Table) -> Result<UnitIndex, AllocError>
        ensures { IfOk result (λ r. r.table ≡ table) }
    {
        let charts = trees_of(alloc, &table)?;
        let leases = leases_of(alloc, &table)?;
        Ok(UnitIndex {
            table,
            charts,
            leases,
        })
    }

    /// Enters a line that breaks no rule and adds no pool. Where the memory is refused nothing has changed.
    pub fn enter(&mut self, line: &Line) -> Result<(), AllocError>
        requires step { IsStep (state self.old.table) line.now }
        requires pools { KeepsPools line.now.event }
        ensures entered { OnOk result (state self.new.table ≡ after (state self.old.table) line.now) }
        ensures refused { IfErr result (λ _. state self.new.table ≡ state self.old.table) }
    {
        enter(&mut self.table, &mut self.leases, line)?;
        if let Some(prefix) = subject_of(&line.event) {
            let unit = self.table.unit_or_fresh(&prefix);
            follow(&mut self.charts, self.table.role(), &prefix, &unit);
        }
        Ok(())
    }

    /// The lowest unit that a client has under an identity association.
    pub fn lowest_bound(&self, client: &Duid, iaid: Iaid) -> Option<Prefix>
        ensures { IsLeastOf (IsBoundTo (state self.now.table) client.now iaid) result }
    {
        lowest_leased(&self.leases, client, iaid)
    }
}
