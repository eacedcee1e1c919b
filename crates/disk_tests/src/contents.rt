//! What files come to that were cut, have zeros, or were changed.

use binding_rules::Role;
use journal_lines::Head;
use std::alloc::{AllocError, Global};
use std::process::Abort;
use std::test::Fail;
use volume_store::{RecoveredBook, RecoveryError, recover};

/// A first volume of the primary's, to its end line: 117 octets to the end of the first line behind its head lines,
/// then 13 of its close line and 6 of its end line.
const VOLUME: &[u8] = b"pd-journal 1 A
1 1000 open 500 3600 3600
2 1000 pool 2001:0db8:0000:0000:0000:0000:0000:0000/48 56
3 2000 state down
4 3000 close
end 4
";

/// Other contents, and what each comes to.
const CONTENTS: [(&[u8], &str); 10] = [
    (b"", "never told"),
    (b"\0\0", "never told"),
    (
        b"pd-journal 1 A
1 1000 open 500 3600 3600
2 1000 pool 2001:0db8:0000:0000:0000:0000:0000:0000/48 56
3 2000 state down
\0\0\0\0",
        "open 3",
    ),
    (
        b"pd-journal 1 A
1 1000 open 500 3600 3600
2 1000 pool 2001:0db8:0000:0000:0000:0000:0000:0000/48 56
3 2000 st\0te down
4 3000 close
",
        "never told",
    ),
    (b"pd-journal 1 B\n", "the file has another volume"),
    (b"pd-journal 2 A 2\n", "the file has another volume"),
    (b"pd-journal 3 A\n", "the first line is no head line"),
    (
        b"pd-journal 1 A\n1 1000 open 500 3600 3600\n3 1000 close\n",
        "line 2 has another number",
    ),
    (
        b"pd-journal 1 A\n1 1000 open 500 3600 3600\n2 1000 close\n3 1000 close\n",
        "the text doesn't end in a close line and an end line with the count of lines",
    ),
    (
        b"pd-journal 1 A\n1 1000 open 500 3600 3600\n2 1000 close\n",
        "line 2 breaks rule 3",
    ),
];

/// What was found, in words.
fn said(alloc: Global, found: Result<RecoveredBook, RecoveryError>) -> Result<String, AllocError> {
    match found {
        Ok(RecoveredBook::Unpublished) => format!(in alloc; "never told"),
        Ok(RecoveredBook::Open(book)) => format!(in alloc; "open {}", book.journal().len()),
        Ok(RecoveredBook::Closed(book)) => format!(in alloc; "closed {}", book.journal().len()),
        Ok(RecoveredBook::Ended(book)) => format!(in alloc; "ended {}", book.journal().len()),
        Err(error) => format!(in alloc; "{error}"),
    }
}

/// What a file comes to that was cut off behind so many octets of the volume.
fn said_of_cut(octets: usize) -> &'static str {
    match octets {
        0..=116 => "never told",
        117..=129 => "open 3",
        130..=135 => "closed 4",
        _ => "ended 4",
    }
}

#[test]
fn finds_what_a_cut_leaves(rt: HostRuntime) -> Result<(), Fail> {
    for octets in 0..=VOLUME.len() {
        let found = recover(rt.alloc(), Role::Primary, Head::One, &VOLUME[..octets]);
        assert_eq!(rt; said(rt.alloc(), found)?.as_str(), said_of_cut(octets));
    }
    Ok(())
}

#[test]
fn finds_and_refuses(rt: HostRuntime) -> Result<(), Fail> {
    for (content, words) in CONTENTS {
        let found = recover(rt.alloc(), Role::Primary, Head::One, content);
        assert_eq!(rt; said(rt.alloc(), found)?.as_str(), words);
    }
    Ok(())
}
