//! The settings of a server that concern its partner.

ghost use Rattle.std.specs.Prelude.{◌≡◌, IfOk, map};
ghost use Rattle.notice_exchange.specs.Exchanges.{shared_settings, unit_pool};

use book_state::Pool;
use link_notices::{PairSettings, UnitPool};
use server_settings::Settings;
use std::alloc::{AllocError, Global};
use text_fields::Listed;

/// A pool as a notice has it.
fn unit_pool(pool: &Pool) -> UnitPool
    ensures { result ≡ unit_pool pool.now }
{
    UnitPool {
        prefix: pool.prefix,
        unit_length: pool.unit_length,
    }
}

/// The pools as a notice has them.
fn unit_pools(alloc: Global, pools: &[Pool]) -> Result<Vec<UnitPool>, AllocError>
    ensures { IfOk result (λ units. units.items ≡ map unit_pool pools.now) }
{
    let mut units = Vec::new(alloc);
    for pool in pools {
        units.push(unit_pool(pool))?;
    }
    Ok(units)
}

/// The settings of a server that concern its partner. `AllocError` where a growth was refused.
pub fn pair_settings(alloc: Global, settings: &Settings) -> Result<PairSettings, AllocError>
    ensures { IfOk result (λ s. s ≡ shared_settings settings.now) }
{
    let pools = unit_pools(alloc, settings.pools())?;
    Ok(PairSettings {
        skew: settings.skew(),
        mclt: settings.mclt(),
        life: settings.life(),
        transit: settings.transit(),
        pools: Listed::new(pools),
    })
}
