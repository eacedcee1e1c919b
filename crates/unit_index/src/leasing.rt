//! Which units each client has.

ghost use Rattle.std.specs.Prelude.{◌≡◌, IsTrue, IfErr, OnOk, ◌⊎◌, MatchOption};
ghost use Rattle.std.specs.Cmp.{partial_equiv_from_equiv, eq_by_cmp_equiv, partial_order_from_total};
ghost use Rattle.std.specs.Ordering.{eq_by_cmp, as_partial_cmp};
ghost use Rattle.std.specs.Cmp.Rules.{comparing};
ghost use Rattle.std.proofs.Common.{rules, refl};
ghost use Rattle.unit_index.specs.Leases.{by_lease, by_prefix, leased_cmp, leased_total};

pub(crate) mod leases;

use client_id::{Duid, Iaid};
use prefix_range::Prefix;
use std::cmp::Ordering;

/// A unit that a client has under an identity association; in the order in which it is looked for.
#[derive(Clone, Copy)]
pub(crate) struct LeaseKey {
    pub(crate) iaid: Iaid,
    pub(crate) client: Duid,
    pub(crate) prefix: Prefix,
}

impl PartialEq for LeaseKey {
    ghost eq = { eq_by_cmp leased_cmp };

    ghost laws = { partial_equiv_from_equiv (eq_by_cmp_equiv leased_total) };

    fn eq(&self, other: &LeaseKey) -> bool {
        self.cmp(other) == Ordering::Equal
    }
}

impl Eq for LeaseKey {
    ghost laws = { eq_by_cmp_equiv leased_total };
}

impl PartialOrd for LeaseKey {
    ghost partial_cmp = { as_partial_cmp leased_cmp };

    ghost laws = { partial_order_from_total leased_total };

    fn partial_cmp(&self, other: &LeaseKey) -> Option<Ordering> {
        Some(self.cmp(other))
    }
}

impl Ord for LeaseKey {
    ghost cmp = { leased_cmp };

    ghost total = { leased_total };

    ghost matches_partial_cmp = { λ x y. refl };

    ghost matches_eq = { Prim.search (comparing, rules) };

    fn cmp(&self, other: &LeaseKey) -> Ordering {
        match self.lease_cmp(other) {
            Ordering::Equal => self.prefix_cmp(other),
            order => order,
        }
    }
}

impl LeaseKey {
    /// By the identity association and its client.
    fn lease_cmp(&self, other: &LeaseKey) -> Ordering
        ensures { result ≡ by_lease self.now other.now }
    {
        match self.iaid.0.cmp(&other.iaid.0) {
            Ordering::Equal => self.client.as_bytes().cmp(other.client.as_bytes()),
            order => order,
        }
    }

    fn prefix_cmp(&self, other: &LeaseKey) -> Ordering
        ensures { result ≡ by_prefix self.now other.now }
    {
        match self.prefix.first().cmp(&other.prefix.first()) {
            Ordering::Equal => self.prefix.len().cmp(&other.prefix.len()),
            order => order,
        }
    }
}
