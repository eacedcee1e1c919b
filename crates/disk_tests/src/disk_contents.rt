//! Files as they are found.

use disk_model::JournalFile;
use std::test::Fail;
use test_support::TestFile;

/// Contents, each with the lines that are kept of it.
const CONTENTS: [(&[u8], usize, &[u8]); 8] = [
    (b"", 0, b""),
    (b"\0\0\0", 0, b""),
    (b"aaaaa", 0, b""),
    (b"aaaaa\nbb", 1, b"aaaaa\n"),
    (b"aaaaa\nbbbbb\n\0\0", 2, b"aaaaa\nbbbbb\n"),
    (b"aaaaa\n\0\0\0\0\0\0ccccc\n", 1, b"aaaaa\n"),
    (b"aaaaa\nbb\0bb\nccccc\n", 1, b"aaaaa\n"),
    (b"\n\naa", 2, b"\n\n"),
];

#[test]
fn keeps_the_whole_lines_in_front_of_a_zero(rt: HostRuntime) -> Result<(), Fail> {
    for (content, count, kept) in CONTENTS {
        let file = TestFile::new(rt.alloc(), content, 2)?;
        match JournalFile::open(file, content) {
            Ok((file, lines)) => {
                assert_eq!(rt; lines, count);
                let left = file.into_device().left(0)?;
                assert_eq!(rt; &left[..kept.len().min(left.len())], kept);
                assert!(rt; left.iter().skip(kept.len()).all(|octet| *octet == 0));
            }
            Err(_) => panic!(rt; "two calls are answered"),
        }
    }
    Ok(())
}
