//! Books that are served, and octets that digits spell.

use journal_text::{read, write};
use lead_time::Reading;
use server_book::{Book, Order};
use std::alloc::Global;
use std::test::Fail;
use text_fields::{is_hex, octets_of};

/// The settings of the primary and of the secondary, which have a pool of 256 units.
pub const PRIMARY: &str = "role = \"primary\"
duid = \"00030001020000000009\"
skew_ms = 2000
mclt = 3600
life = 3600
[[pool]]
prefix = \"2001:db8::/48\"
unit = 56
";

pub const SECONDARY: &str = "role = \"secondary\"
duid = \"00030001020000000009\"
skew_ms = 2000
mclt = 3600
life = 3600
[[pool]]
prefix = \"2001:db8::/48\"
unit = 56
";

/// The primary's journal, opened at 9000 and closed at 10000.
pub const A_OPENED: &str = "pd-journal 1 A
1 9000 open 2000 3600 3600
2 9000 pool 2001:0db8:0000:0000:0000:0000:0000:0000/48 56
3 10000 close
end 3
";

/// The book that the lines of a journal's text lead to, but for its close line.
pub fn book_of(alloc: Global, text: &str) -> Result<Book, Fail> {
    let journal = read(alloc, text.as_bytes())?;
    match journal.lines.as_slice() {
        [lines @ .., _close] => Ok(Book::replay(alloc, journal.role, journal.head, lines)?),
        [] => Err(Fail::from("no lines")),
    }
}

/// Closes a book at a moment, and gives its text.
pub fn closed(alloc: Global, book: &mut Book, at: u64) -> Result<Vec<u8>, Fail> {
    if book.apply(Reading::new(at)?, &Order::Close).is_err() {
        return Err(Fail::from("not closed"));
    }
    Ok(write(alloc, book.role(), book.head(), book.journal())?)
}

/// The octets that digits spell; none where they are no digits, or memory lacks.
pub fn octets(alloc: Global, digits: &str) -> Option<Vec<u8>> {
    let digits = digits.as_bytes();
    if !is_hex(digits) {
        return None;
    }
    let mut octets = vec![in alloc; 0u8; digits.len() / 2].ok()?;
    octets_of(digits, &mut octets)?;
    Some(octets)
}
