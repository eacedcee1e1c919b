//! Settings of two partners, and in what they differ.

use crate::texts::{pool, settings};
use lead_time::{Skew, Transit};
use link_notices::{PairSettings, SettingsDifference, UnitPool, begin_alike, differences};
use std::alloc::Global;
use std::test::Fail;

/// Two pools.
fn pools() -> Result<[UnitPool; 2], Fail> {
    Ok([pool(b"2001:db8::/32", 56)?, pool(b"2001:db9::/32", 56)?])
}

/// Settings with two pools.
fn plain(alloc: Global) -> Result<PairSettings, Fail> {
    settings(alloc, &pools()?)
}

/// The differences as text, each with its name in front and whether it keeps two servers apart behind it.
fn told(alloc: Global, own: &PairSettings, other: &PairSettings) -> Result<String, Fail> {
    let mut text = String::new(alloc);
    for difference in differences(alloc, own, other)?.as_slice() {
        text.push_str(difference.name())?;
        text.push_str(" | ")?;
        text.push_str(difference.to_string(alloc)?.as_str())?;
        text.push_str(if difference.keeps_apart() {
            " | apart\n"
        } else {
            " | joined\n"
        })?;
    }
    Ok(text)
}

/// In what pools differ.
fn told_of_pools(
    alloc: Global,
    own: &[UnitPool],
    other: &[UnitPool],
) -> Result<Option<SettingsDifference>, Fail> {
    let found = differences(alloc, &settings(alloc, own)?, &settings(alloc, other)?)?;
    Ok(found.first().copied())
}

#[test]
fn that_agree(rt: HostRuntime) -> Result<(), Fail> {
    let alloc = rt.alloc();
    let found = told(alloc, &plain(alloc)?, &plain(alloc)?)?;
    assert_eq!(rt; found.as_str(), "");
    Ok(())
}

#[test]
fn by_each_number(rt: HostRuntime) -> Result<(), Fail> {
    let alloc = rt.alloc();
    let own = plain(alloc)?;
    let mut other = plain(alloc)?;
    other.mclt = 7200;
    other.skew = Skew::new(3000)?;
    other.transit = Transit::new(0)?;
    other.life = 7201;
    assert_eq!(rt;
        told(alloc, &own, &other)?.as_str(),
        "mclt | mclt: 3600 here, 7200 there | apart\n\
skew_ms | skew_ms: 2000 here, 3000 there | joined\n\
transit_ms | transit_ms: 1000 here, 0 there | joined\n\
life | life: 7200 here, 7201 there | joined\n"
    );
    Ok(())
}

#[test]
fn by_their_pools(rt: HostRuntime) -> Result<(), Fail> {
    let alloc = rt.alloc();
    let [first, second] = pools()?;
    let longer = pool(b"2001:db8::/32", 57)?;
    let both = [first, second];
    assert_eq!(rt; told_of_pools(alloc, &both, &[first])?, None);
    assert_eq!(rt; told_of_pools(alloc, &[first], &both)?, None);
    assert_eq!(rt;
        told_of_pools(alloc, &both, &[second])?,
        Some(SettingsDifference::Pools)
    );
    assert_eq!(rt;
        told_of_pools(alloc, &both, &[second, first])?,
        Some(SettingsDifference::PoolOrder)
    );
    assert_eq!(rt;
        told_of_pools(alloc, &both, &[longer, second])?,
        Some(SettingsDifference::Pools)
    );
    assert_eq!(rt;
        told_of_pools(alloc, &[first, first, second], &[second, second, first])?,
        Some(SettingsDifference::PoolOrder)
    );
    assert_eq!(rt;
        told_of_pools(alloc, &[first, first], &[second, first])?,
        Some(SettingsDifference::Pools)
    );
    assert!(&rt; begin_alike(&both, &both));
    Ok(())
}

#[test]
fn by_pools_in_words(rt: HostRuntime) -> Result<(), Fail> {
    let alloc = rt.alloc();
    let [first, second] = pools()?;
    let own = settings(alloc, &[first, second])?;
    let turned = told(alloc, &own, &settings(alloc, &[second, first])?)?;
    assert_eq!(rt; turned.as_str(), "pool_order | pool_order | apart\n");
    let shorter = told(alloc, &own, &settings(alloc, &[second])?)?;
    assert_eq!(rt; shorter.as_str(), "pools | pools | apart\n");
    Ok(())
}
