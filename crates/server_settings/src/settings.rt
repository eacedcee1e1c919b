//! A server's settings.

ghost use Rattle.std.specs.Prelude.{◌≡◌, ◌≤◌, ◌↔◌, IsTrue, IfOk, IsErrOf, All, length};
ghost use Rattle.std.specs.List.{sum_by};
ghost use Rattle.book_state.specs.Book.{units_in};
ghost use Rattle.book_state.specs.Places.{IsPool, AreDisjoint};
ghost use Rattle.book_rules.specs.VolumeRules.{AreApart};
ghost use Rattle.server_settings.specs.Settings.{settings_of, AreWithin, AreFit};

use crate::error::OpenError;
use binding_rules::Role;
use book_rules::are_apart;
use book_state::{MOST_POOLS, MOST_UNITS, Pool, YEAR};
use client_id::Duid;
use lead_time::{Skew, Transit};
use std::marker::Model;

/// A server's settings: its role, its identifier and the pools that it delegates of, within all limits, of pools that
/// have no address in common. Contracts see the record of specs/Settings.
#[derive(Drop)]
pub struct Settings {
    role: Role,
    duid: Duid,
    skew: Skew,
    mclt: u32,
    life: u32,
    transit: Transit,
    pools: Vec<Pool>,
}

impl Model for Settings {
    ghost use Rattle.server_settings.specs.Settings.{ServerSettings, AreFit};

    ghost Value = { ServerSettings };

    ghost view = { λ s. record {
      role = s.role;
      duid = s.duid;
      skew = s.skew;
      mclt = s.mclt;
      life = s.life;
      transit = s.transit;
      pools = s.pools.items;
    } };

    ghost invariant = { λ s. AreFit (record {
      role = s.role;
      duid = s.duid;
      skew = s.skew;
      mclt = s.mclt;
      life = s.life;
      transit = s.transit;
      pools = s.pools.items;
    }) };
}

/// Returns whether each unit is no longer than its pool and no shorter than an address.
fn are_pools(pools: &[Pool]) -> bool
    ensures { IsTrue result ↔ All IsPool pools.now }
{
    for pool in pools {
        if pool.prefix.len() > pool.unit_length || pool.unit_length > 128 {
            return false;
        }
    }
    true
}

/// Returns whether the pools have at most 65,536 units in all.
fn have_few_units(pools: &[Pool]) -> bool
    requires { All IsPool pools.now }
    ensures { IsTrue result ↔ (sum_by units_in pools.now ≤ 65536) }
{
    let mut units = 0usize;
    for pool in pools {
        if !pool.is_small() {
            return false;
        }
        units += pool.count();
        if units > MOST_UNITS {
            return false;
        }
    }
    true
}

/// Returns whether no two pools have an address in common.
fn are_disjoint(pools: &[Pool]) -> bool
    ensures { IsTrue result ↔ AreDisjoint pools.now }
{
    for (index, pool) in pools.iter().enumerate() {
        if !are_apart(&pools[index + 1..], &pool.prefix) {
            return false;
        }
    }
    true
}

/// Returns whether a number of seconds is from one to a year.
fn is_span(seconds: u32) -> bool
    ensures { IsTrue result ↔ ((1 ≤ seconds) × (seconds ≤ 31536000)) }
{
    1 <= seconds && seconds <= YEAR
}

/// Returns whether there are from one to sixteen pools, each with units, of which there are few enough.
fn are_whole(pools: &[Pool]) -> bool
    ensures { IsTrue result ↔ ((1 ≤ length pools.now) × (length pools.now ≤ 16) × All IsPool pools.now
        × (sum_by units_in pools.now ≤ 65536)) }
{
    if pools.is_empty() || pools.len() > MOST_POOLS {
        return false;
    }
    are_pools(pools) && have_few_units(pools)
}

impl Settings {
    /// Settings of these parts: `skew` and `transit` bound how far clocks and answers may be off, `mclt` and `life` are
    /// the maximum client lead time and the desired lifetime in seconds. `Settings` where one is out of its limits,
    /// then `Overlap` where two pools have an address in common.
    pub fn new(
        role: Role,
        duid: Duid,
        skew: Skew,
        mclt: u32,
        life: u32,
        transit: Transit,
        pools: Vec<Pool>,
    ) -> Result<Settings, OpenError>
        ensures made { IfOk result (λ s. s ≡ settings_of role duid skew mclt life transit pools.items) }
        ensures settings { IsErrOf result OpenError.Settings
            ↔ (AreWithin (settings_of role duid skew mclt life transit pools.items) → ⊥) }
        ensures overlap { IsErrOf result OpenError.Overlap
            ↔ (AreWithin (settings_of role duid skew mclt life transit pools.items) × (AreDisjoint pools.items → ⊥)) }
        ensures enough { IsErrOf result OpenError.Memory → ⊥ }
    {
        let _skew = skew.milliseconds();
        let _transit = transit.milliseconds();
        if !is_span(mclt) || !is_span(life) || !are_whole(&pools) {
            return Err(OpenError::Settings);
        }
        if !are_disjoint(&pools) {
            return Err(OpenError::Overlap);
        }
        Ok(Settings {
            role,
            duid,
            skew,
            mclt,
            life,
            transit,
            pools,
        })
    }

    /// Whose settings these are.
    pub fn role(&self) -> Role
        ensures { result ≡ self.now.role }
    {
        self.role
    }

    /// The server's own identifier.
    pub fn duid(&self) -> &Duid
        ensures { result.now ≡ self.now.duid }
    {
        &self.duid
    }

    /// The most by which the server's clock may be wrong.
    pub fn skew(&self) -> Skew
        ensures { result ≡ self.now.skew }
    {
        self.skew
    }

    /// The maximum client lead time, in seconds.
    pub fn mclt(&self) -> u32
        ensures { result ≡ self.now.mclt }
    {
        self.mclt
    }

    /// The desired lifetime, in seconds.
    pub fn life(&self) -> u32
        ensures { result ≡ self.now.life }
    {
        self.life
    }

    /// The most by which an answer may be under way.
    pub fn transit(&self) -> Transit
        ensures { result ≡ self.now.transit }
    {
        self.transit
    }

    /// The pools, in the order of their lines.
    pub fn pools(&self) -> &[Pool]
        ensures pools { result.now ≡ self.now.pools }
        ensures fit { AreFit self.now }
    {
        &self.pools
    }
}
