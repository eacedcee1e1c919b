//! What a client has.

ghost use Rattle.std.specs.Prelude.{◌≡◌};
ghost use Rattle.std.specs.Cmp.{partial_equiv_from_equiv, eq_by_cmp_equiv, partial_order_from_total};
ghost use Rattle.std.specs.Ordering.{eq_by_cmp, as_partial_cmp};
ghost use Rattle.std.specs.Cmp.Rules.{comparing};
ghost use Rattle.std.proofs.Common.{rules, refl};
ghost use Rattle.order_book.specs.CarryLines.{holding_cmp, holding_total, carried_up_to};

use client_id::{Duid, Iaid};
use journal_lines::Carried;
use lead_time::End;
use prefix_range::Prefix;
use std::cmp::Ordering;

/// A prefix, and the client and identity association that it is delegated to; in the order of carry lines.
#[derive(Clone, Copy, Debug)]
pub(crate) struct CarryKey {
    pub(crate) prefix: Prefix,
    pub(crate) client: Duid,
    pub(crate) iaid: Iaid,
}

impl PartialEq for CarryKey {
    ghost eq = { eq_by_cmp holding_cmp };

    ghost laws = { partial_equiv_from_equiv (eq_by_cmp_equiv holding_total) };

    fn eq(&self, other: &CarryKey) -> bool {
        self.cmp(other) == Ordering::Equal
    }
}

impl Eq for CarryKey {
    ghost laws = { eq_by_cmp_equiv holding_total };
}

impl PartialOrd for CarryKey {
    ghost partial_cmp = { as_partial_cmp holding_cmp };

    ghost laws = { partial_order_from_total holding_total };

    fn partial_cmp(&self, other: &CarryKey) -> Option<Ordering> {
        Some(self.cmp(other))
    }
}

impl Ord for CarryKey {
    ghost cmp = { holding_cmp };

    ghost total = { holding_total };

    ghost matches_partial_cmp = { λ x y. refl };

    ghost matches_eq = { Prim.search (comparing, rules) };

    fn cmp(&self, other: &CarryKey) -> Ordering {
        let by_address = self.prefix.first().cmp(&other.prefix.first());
        let by_length = self.prefix.len().cmp(&other.prefix.len());
        let by_client = self.client.as_bytes().cmp(other.client.as_bytes());
        let by_iaid = self.iaid.0.cmp(&other.iaid.0);
        by_address.then(by_length.then(by_client.then(by_iaid)))
    }
}

impl CarryKey {
    /// Returns what is carried of it up to an end.
    pub(crate) fn up_to(&self, end: End) -> Carried
        ensures { result ≡ carried_up_to self.now end }
    {
        Carried {
            client: self.client,
            iaid: self.iaid,
            prefix: self.prefix,
            end,
        }
    }
}
