//! Texts that spell a key, and texts that don't.

use link_auth::{KeyError, LinkKey};
use std::alloc::Global;
use std::test::Fail;

/// So many digits, and then `end`.
fn digits(alloc: Global, count: usize, end: &[u8]) -> Result<Vec<u8>, Fail> {
    let mut text = Vec::new(alloc);
    text.resize(count, b'7')?;
    text.extend_from_slice(end)?;
    Ok(text)
}

fn fault_of(text: &[u8]) -> Option<KeyError> {
    LinkKey::from_text(text).err()
}

#[test]
fn are_32_to_64_octets(rt: HostRuntime) -> Result<(), Fail> {
    let cases: [(usize, &[u8], Option<KeyError>); 9] = [
        (0, b"", Some(KeyError::TooShort)),
        (63, b"", Some(KeyError::TooShort)),
        (63, b"\n", Some(KeyError::TooShort)),
        (64, b"", None),
        (62, b"aF\n", None),
        (63, b"g", Some(KeyError::NotHexadecimal)),
        (65, b"\n", Some(KeyError::NotHexadecimal)),
        (128, b"\n", None),
        (129, b"\n", Some(KeyError::TooLong)),
    ];
    for (count, end, fault) in cases {
        let text = digits(rt.alloc(), count, end)?;
        assert_eq!(rt; fault_of(&text), fault);
    }
    Ok(())
}
