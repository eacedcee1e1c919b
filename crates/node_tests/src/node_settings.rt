//! How many workers settings name.

use node_threads::NodeSettings;
use std::test::Fail;

const TWO: &[u8] = b"role = \"primary\"
duid = \"00030001020000000009\"
skew_ms = 2000
mclt = 3600
life = 3600
listen = \"127.0.0.1:5470\"
workers = 2
[[pool]]
prefix = \"2001:db8::/48\"
unit = 56
";

const MOST: &[u8] = b"role = \"primary\"
duid = \"00030001020000000009\"
skew_ms = 2000
mclt = 3600
life = 3600
listen = \"[::1]:5470\"
workers = 63
[[pool]]
prefix = \"2001:db8::/48\"
unit = 56
";

#[test]
fn settings_name_as_many_workers(rt: HostRuntime) -> Result<(), Fail> {
    for (text, workers) in [(TWO, 2), (MOST, 63)] {
        let settings = NodeSettings::read(rt.alloc(), text)?;
        assert_eq!(&rt; settings.ways.workers(), workers);
    }
    Ok(())
}
