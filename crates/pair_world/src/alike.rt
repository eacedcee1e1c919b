//! Settings that agree.

ghost use Rattle.std.specs.Prelude.{◌≡◌, ◌↔◌, IsTrue};
ghost use Rattle.pair_world.specs.PairWorld.{AreAlike};

use binding_rules::Role;
use book_rules::Pool;
use server_settings::Settings;

fn is_same(one: &[Pool], other: &[Pool]) -> bool
    ensures { IsTrue result ↔ (one.now ≡ other.now) }
{
    one == other
}

/// Returns whether the first are a primary's settings, the second a secondary's, and skew, lead time, lifetime, transit
/// and pools agree.
pub fn are_alike(first: &Settings, second: &Settings) -> bool
    ensures { IsTrue result ↔ AreAlike first.now second.now }
{
    if !matches!(first.role(), Role::Primary) || !matches!(second.role(), Role::Secondary) {
        return false;
    }
    if first.skew().milliseconds() != second.skew().milliseconds()
        || first.transit().milliseconds() != second.transit().milliseconds()
    {
        return false;
    }
    first.mclt() == second.mclt()
        && first.life() == second.life()
        && is_same(first.pools(), second.pools())
}
