//! Which fault a text has that spells no prefix.

use prefix_range::{PrefixError, read_text};

/// Texts that spell no prefix.
const NO_SPELLINGS: &[&[u8]] = &[
    b"",
    b"/",
    b"/64",
    b"::",
    b"::/",
    b"::/0128",
    b"::/+1",
    b"::/a",
    b"::/64/1",
    b"::/64 ",
    b":::/128",
    b":/128",
    b"1::2::3/64",
    b"1:2:3:4:5:6:7/128",
    b"1:2:3:4:5:6:7:8:9/128",
    b"::1:2:3:4:5:6:7:8/128",
    b"1:2:3:4:5:6:7:8:/128",
    b":1:2:3:4:5:6:7:8/128",
    b"10000::/16",
    b"g::/16",
    b"2001:db8::1.2.3.4/128",
    b"2001:0DB8:0:CD3/60",
];

/// Lengths over 128.
const LONG: &[&[u8]] = &[b"::/129", b"::1/999", b"2001:db8::1/256"];

/// Addresses with bits behind the length.
const WITH_HOST_BITS: &[&[u8]] = &[
    b"2001:db8::1/48",
    b"2001:0DB8::CD30/60",
    b"2001:0DB8::CD3/60",
    b"::1/0",
];

#[test]
fn names_faults(rt: HostRuntime) {
    let cases = [
        (NO_SPELLINGS, PrefixError::Text),
        (LONG, PrefixError::LengthOver128),
        (WITH_HOST_BITS, PrefixError::HostBits),
    ];
    for (texts, fault) in cases {
        for text in texts {
            assert_eq!(rt; read_text(text), Err(fault));
        }
    }
}
