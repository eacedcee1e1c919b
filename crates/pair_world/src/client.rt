//! Clients in the order of their octets.

ghost use Rattle.std.specs.Prelude.{◌≡◌};
ghost use Rattle.std.specs.Cmp.{partial_equiv_from_equiv, eq_by_cmp_equiv, partial_order_from_total};
ghost use Rattle.std.specs.Ordering.{eq_by_cmp, as_partial_cmp};
ghost use Rattle.std.specs.Cmp.Rules.{comparing};
ghost use Rattle.std.proofs.Common.{rules, refl};
ghost use Rattle.pair_world.specs.Holders.{client_cmp, client_total};

use client_id::Duid;
use std::cmp::Ordering;
use std::marker::Model;

/// A client, which contracts see as its octets.
#[derive(Clone, Copy, Debug)]
pub(crate) struct Client(pub(crate) Duid);

impl Model for Client {
    ghost use Rattle.std.specs.Prelude.{List, ℕ};

    ghost Value = { List ℕ };

    ghost view = { λ c. c.0 };

    ghost inverse = { λ octets. record { 0 = octets } };
}

impl PartialEq for Client {
    ghost eq = { eq_by_cmp client_cmp };

    ghost laws = { partial_equiv_from_equiv (eq_by_cmp_equiv client_total) };

    fn eq(&self, other: &Client) -> bool {
        self.cmp(other) == Ordering::Equal
    }
}

impl Eq for Client {
    ghost laws = { eq_by_cmp_equiv client_total };
}

impl PartialOrd for Client {
    ghost partial_cmp = { as_partial_cmp client_cmp };

    ghost laws = { partial_order_from_total client_total };

    fn partial_cmp(&self, other: &Client) -> Option<Ordering> {
        Some(self.cmp(other))
    }
}

impl Ord for Client {
    ghost cmp = { client_cmp };

    ghost total = { client_total };

    ghost matches_partial_cmp = { λ x y. refl };

    ghost matches_eq = { Prim.search (comparing, rules) };

    fn cmp(&self, other: &Client) -> Ordering {
        self.0.as_bytes().cmp(other.0.as_bytes())
    }
}
