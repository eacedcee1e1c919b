//! What is said of an answer's pieces.

use crate::texts::TEXT;
use access_records::{access_lines, read};
use std::alloc::Global;
use std::test::Fail;

const ANSWER: &[u8] = b"holder 00030001020000000001
interval 1000 9000
pd-certificate 1
holder 00030001020000000001
piece B12 1000 2000 latest B12 earliest B12
piece A7 1500 2500 latest A7 earliest A7
clear B7 after B12>B7
piece B7 2000 9000 latest B7 earliest B7
piece B8 2000 9000 latest B8 earliest B8
foreign B7 early B7
end
";

/// Of each piece that has a record of its own side, the last one.
const SAID: &[u8] = b"access B12 - - -
access B7 2001:0db8:0000:0000:0000:0000:0000:0001 empty -
";

/// Answers, and what is said of each by the records of the secondary.
const ANSWERS: [(&[u8], &[u8]); 2] = [(ANSWER, SAID), (b"none\n", b"")];

/// What is said of an answer's pieces.
fn said(alloc: Global, answer: &[u8]) -> Result<Vec<u8>, Fail> {
    let secondary = read(alloc, TEXT)?.records;
    Ok(access_lines(alloc, answer, &[], &secondary)?)
}

#[test]
fn are_said_with_their_ports(rt: HostRuntime) -> Result<(), Fail> {
    for (answer, lines) in &ANSWERS {
        let said = said(rt.alloc(), answer)?;
        assert!(rt; said.as_slice() == *lines);
    }
    Ok(())
}
