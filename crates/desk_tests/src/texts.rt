//! Texts of access records, written by hand.

use access_records::{AccessError, AccessText, RelayPort, push_head, push_record, read};
use binding_rules::Role;
use std::alloc::{AllocError, Global};
use std::test::Fail;

/// Records of the secondary's third volume: behind a relay with both identifiers, behind one with an empty interface
/// identifier, without a relay, and without a source.
pub(crate) const TEXT: &[u8] = b"pd-access 1 B 3
7 2001:0db8:0000:0000:0000:0000:0000:0001 65746830 0a0b fe80:0000:0000:0000:0000:0000:0000:0002
7 2001:0db8:0000:0000:0000:0000:0000:0001 empty - -
12 - - - fe80:0000:0000:0000:0000:0000:0000:0003
4294967295 0000:0000:0000:0000:0000:0000:0000:0000 - 00 -
";

/// The one text of what was read.
fn written(alloc: Global, text: &AccessText) -> Result<Vec<u8>, AllocError> {
    let mut out = Vec::new(alloc);
    push_head(&mut out, text.head)?;
    for record in &text.records {
        push_record(&mut out, record)?;
    }
    Ok(out)
}

/// The interface identifier of a port.
fn interface(port: &Option<RelayPort>) -> Option<&[u8]> {
    match port {
        Some(port) => match &port.interface {
            Some(name) => Some(name.as_bytes()),
            None => None,
        },
        None => None,
    }
}

#[test]
fn says_what_it_spells(rt: HostRuntime) -> Result<(), Fail> {
    let text = read(rt.alloc(), TEXT)?;
    assert!(rt; text.head.side == Role::Secondary);
    assert_eq!(rt; text.head.volume, 3);
    assert_eq!(rt; text.records.len(), 4);
    assert_eq!(rt; text.records[0].number, 7);
    assert!(rt; interface(&text.records[0].port) == Some(b"eth0".as_slice()));
    assert!(rt; interface(&text.records[1].port) == Some(b"".as_slice()));
    assert!(rt; text.records[2].port.is_none());
    assert!(rt; text.records[1].source.is_none());
    assert!(rt; interface(&text.records[3].port).is_none());
    assert!(rt; written(rt.alloc(), &text)?.as_slice() == TEXT);
    Ok(())
}

/// Each of these stands for a line behind the head line, and spells no record: two spaces, a leading zero, a number of
/// 33 bits, an upper-case digit, half an octet, no word, a name without a link address, a short address, a sixth word,
/// a carriage return.
const NO_LINES: [&[u8]; 10] = [
    b"7  - - - -",
    b"07 - - - -",
    b"4294967296 - - - -",
    b"7 2001:0DB8:0000:0000:0000:0000:0000:0001 - - -",
    b"7 2001:0db8:0000:0000:0000:0000:0000:0001 657 - -",
    b"7 2001:0db8:0000:0000:0000:0000:0000:0001  - -",
    b"7 - 65 - -",
    b"7 2001:db8::1 - - -",
    b"7 - - - - -",
    b"7 - - - -\r",
];

/// What stands before each of these.
const BEFORE: &[u8] = b"pd-access 1 A 12\n1 - - - -\n";

#[test]
fn takes_no_other_spelling(rt: HostRuntime) -> Result<(), Fail> {
    for line in &NO_LINES {
        let text = [BEFORE, *line, b"\n".as_slice()].concat(rt.alloc())?;
        assert!(rt; matches!(read(rt.alloc(), &text), Err(AccessError::Line { line: 2 })));
    }
    Ok(())
}

/// Texts whose head line is torn or another.
const NO_HEADS: [&[u8]; 4] = [
    b"",
    b"pd-access 1 A 12",
    b"pd-access 2 A 12\n",
    b"pd-journal 1 A\n",
];

/// How many records a text has.
fn count_of(alloc: Global, text: &[u8]) -> Result<usize, AccessError> {
    Ok(read(alloc, text)?.records.len())
}

#[test]
fn leaves_out_what_was_torn(rt: HostRuntime) -> Result<(), Fail> {
    let whole = TEXT.len() - 1;
    assert_eq!(rt; count_of(rt.alloc(), &TEXT[..whole])?, 3);
    assert_eq!(rt; count_of(rt.alloc(), b"pd-access 1 A 12\n")?, 0);
    for text in &NO_HEADS {
        assert!(rt; matches!(read(rt.alloc(), text), Err(AccessError::Head)));
    }
    Ok(())
}
