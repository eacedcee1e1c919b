//! In what the settings of two partners differ.

ghost use Rattle.std.specs.Prelude.{◌≡◌, ◌↔◌, ◌++◌, IsTrue, IfOk, OnOk, Some};
ghost use Rattle.link_notices.specs.Comparing.{is_same_pool, begin_alike, has_pool, are_among, pool_difference, told};
ghost use Rattle.link_notices.specs.Comparing.{differences, KeepsApart, difference_name, difference_values};
ghost use Rattle.link_notices.specs.Comparing.{difference_text};

use crate::notice::{PairSettings, UnitPool};
use lead_time::{Skew, Transit};
use std::alloc::{AllocError, Global};
use std::fmt;
use std::fmt::Write;

/// A setting in which this server and its partner differ.
#[derive(Clone, Copy, Debug, PartialEq, Eq)]
pub enum SettingsDifference {
    /// The maximum client lead times, in seconds.
    Mclt { own: u32, other: u32 },
    /// The pools: neither list begins with the other, nor is it an order of the other's pools.
    Pools,
    /// The order of the pools: both lists have the same ones, and neither begins with the other.
    PoolOrder,
    /// How far clocks may be off.
    Skew { own: Skew, other: Skew },
    /// How long answers may be under way.
    Transit { own: Transit, other: Transit },
    /// The desired lifetimes, in seconds.
    Life { own: u32, other: u32 },
}

impl SettingsDifference {
    /// Returns whether two servers that differ so don't join. Of any other difference each is warned: safety doesn't
    /// need that they agree in it.
    pub fn keeps_apart(&self) -> bool
        ensures { IsTrue result ↔ KeepsApart self.now }
    {
        match self {
            SettingsDifference::Mclt { .. }
            | SettingsDifference::Pools
            | SettingsDifference::PoolOrder => true,
            SettingsDifference::Skew { .. }
            | SettingsDifference::Transit { .. }
            | SettingsDifference::Life { .. } => false,
        }
    }

    /// The name of the setting, as a list of differing settings says it.
    pub fn name(&self) -> &'static str
        ensures { result.now ≡ difference_name self.now }
    {
        match self {
            SettingsDifference::Mclt { .. } => "mclt",
            SettingsDifference::Pools => "pools",
            SettingsDifference::PoolOrder => "pool_order",
            SettingsDifference::Skew { .. } => "skew_ms",
            SettingsDifference::Transit { .. } => "transit_ms",
            SettingsDifference::Life { .. } => "life",
        }
    }

    /// The values of the setting here and there, in its own unit: `None` of pools.
    fn values(&self) -> Option<(u64, u64)>
        ensures { result ≡ difference_values self.now }
    {
        match *self {
            SettingsDifference::Mclt { own, other } | SettingsDifference::Life { own, other } => {
                Some((u64::from(own), u64::from(other)))
            }
            SettingsDifference::Pools | SettingsDifference::PoolOrder => None,
            SettingsDifference::Skew { own, other } => Some((
                own.milliseconds(),
                other.milliseconds(),
            )),
            SettingsDifference::Transit { own, other } => Some((
                own.milliseconds(),
                other.milliseconds(),
            )),
        }
    }
}

impl fmt::Display for SettingsDifference {
    ghost output = { λ d. Some (difference_text d) };

    /// The name of the setting, and its values: `mclt: 3600 here, 7200 there`. Of pools the name alone.
    fn fmt<W: Write>(&self, f: &mut fmt::Formatter<W>) -> fmt::Result {
        f.write_str(self.name())?;
        if let Some((own, other)) = self.values() {
            write!(f, ": {own} here, {other} there")?;
        }
        Ok(())
    }
}

fn is_same(own: &UnitPool, other: &UnitPool) -> bool
    ensures { result ≡ is_same_pool own.now other.now }
{
    own.prefix.first() == other.prefix.first()
        && own.prefix.len() == other.prefix.len()
        && own.unit_length == other.unit_length
}

/// Returns whether one of two lists of pools begins with the other.
pub fn begin_alike(own: &[UnitPool], other: &[UnitPool]) -> bool
    ensures { result ≡ begin_alike own.now other.now }
{
    match own {
        [pool, own @ ..] => match other {
            [next, other @ ..] => is_same(pool, next) && begin_alike(own, other),
            [] => true,
        },
        [] => true,
    }
}

/// Returns whether a list has the pool.
fn has_pool(pools: &[UnitPool], pool: &UnitPool) -> bool
    ensures { result ≡ has_pool pools.now pool.now }
{
    pools.iter().any(|next| is_same(pool, next))
}

/// Returns whether a list has each of some pools.
fn are_among(some: &[UnitPool], pools: &[UnitPool]) -> bool
    ensures { result ≡ are_among some.now pools.now }
{
    some.iter().all(|pool| has_pool(pools, pool))
}

/// How two lists of pools differ of which neither begins with the other.
fn pool_difference(own: &[UnitPool], other: &[UnitPool]) -> SettingsDifference
    ensures { result ≡ pool_difference own.now other.now }
{
    if own.len() == other.len() && are_among(own, other) && are_among(other, own) {
        SettingsDifference::PoolOrder
    } else {
        SettingsDifference::Pools
    }
}

/// Puts a difference behind those before it, where two settings aren't the same.
fn tell(
    differences: &mut Vec<SettingsDifference>,
    is_same: bool,
    difference: SettingsDifference,
) -> Result<(), AllocError>
    ensures { OnOk result (differences.new.items ≡ differences.old.items ++ told is_same difference) }
{
    if is_same {
        return Ok(());
    }
    differences.push(difference)?;
    Ok(())
}

/// In what the settings of this server and its partner differ: what keeps them apart first.
pub fn differences(
    alloc: Global,
    own: &PairSettings,
    other: &PairSettings,
) -> Result<Vec<SettingsDifference>, AllocError>
    ensures { IfOk result (λ found. found.items ≡ differences own.now other.now) }
{
    let mut found = Vec::new(alloc);
    let mclt = SettingsDifference::Mclt {
        own: own.mclt,
        other: other.mclt,
    };
    tell(&mut found, own.mclt == other.mclt, mclt)?;
    let alike = begin_alike(own.pools.as_slice(), other.pools.as_slice());
    let pools = pool_difference(own.pools.as_slice(), other.pools.as_slice());
    tell(&mut found, alike, pools)?;
    let skew = SettingsDifference::Skew {
        own: own.skew,
        other: other.skew,
    };
    let is_same = own.skew.milliseconds() == other.skew.milliseconds();
    tell(&mut found, is_same, skew)?;
    let transit = SettingsDifference::Transit {
        own: own.transit,
        other: other.transit,
    };
    let is_same = own.transit.milliseconds() == other.transit.milliseconds();
    tell(&mut found, is_same, transit)?;
    let life = SettingsDifference::Life {
        own: own.life,
        other: other.life,
    };
    tell(&mut found, own.life == other.life, life)?;
    Ok(found)
}
