//! What a server does at its start, by its settings and its clock, with what its folder has.

use crate::folders::HeldFiles;
use binding_rules::Role;
use journal_lines::{Event, Line};
use lead_time::Reading;
use order_book::Book;
use server_settings::read_settings;
use server_start::{StartAction, StartError, start_with};
use std::alloc::{AllocError, Global};
use std::process::Abort;
use std::test::Fail;
use test_support::settings;
use volume_store::recover_folder;

/// The primary's first volume: what it was opened with, and a last line at 10000.
const OPEN: &[u8] = b"pd-journal 1 A
1 1000 open 500 3600 7200
2 1000 pool 2001:0db8:0000:0000:0000:0000:0000:0000/48 56
3 1000 transit 250
4 10000 restart 1
";

/// The same volume, closed at 10000.
const CLOSED: &[u8] = b"pd-journal 1 A
1 1000 open 500 3600 7200
2 1000 pool 2001:0db8:0000:0000:0000:0000:0000:0000/48 56
3 1000 transit 250
4 10000 close
";

/// The same volume, which has ended.
const ENDED: &[u8] = b"pd-journal 1 A
1 1000 open 500 3600 7200
2 1000 pool 2001:0db8:0000:0000:0000:0000:0000:0000/48 56
3 1000 transit 250
4 10000 close
end 4
";

/// The same volume, closed while the partner is taken for down.
const CLOSED_WHILE_DOWN: &[u8] = b"pd-journal 1 A
1 1000 open 500 3600 7200
2 1000 pool 2001:0db8:0000:0000:0000:0000:0000:0000/48 56
3 1000 transit 250
4 9000 state down
5 10000 close
end 5
";

/// The settings that these volumes were opened with.
const SAME: &str =
    settings!("primary", skew 500, mclt 3600, life 7200, "transit_ms = 250\n", "2001:db8::/48");

/// Settings with another lifetime and no transit.
const OTHER: &str = settings!("primary", skew 500, mclt 3600, life 3600, "", "2001:db8::/48");

/// Settings of which nothing agrees but the units of the pool.
const NONE: &str =
    settings!("secondary", skew 501, mclt 3601, life 7201, "transit_ms = 251\n", "2001:db8:1::/48");

/// Settings with a pool more.
const MORE: &str =
    settings!("primary", skew 500, mclt 3600, life 7200, "transit_ms = 250\n", "2001:db8::/48",
    "2001:db8:1::/48");

/// Folders, settings and readings of the clock, and what a server does with them. The skew is 500 ms, so that a clock
/// may be 1000 ms behind the last line and no more.
const STARTS: [(&[&[u8]], &str, u64, &str); 13] = [
    (&[], NONE, 0, "the first book is opened"),
    (
        &[],
        OTHER,
        0,
        "transit_ms: wants 1 to 3600000 in a new directory, has 0",
    ),
    (&[OPEN], SAME, 12000, "goes on with 5 12000 restart 2"),
    (&[OPEN], SAME, 9000, "goes on with 5 10000 restart 2"),
    (
        &[OPEN],
        SAME,
        8999,
        "set the clock right: it reads 8999 ms, and the journal 10000 ms",
    ),
    (
        &[OPEN],
        OTHER,
        12000,
        "these settings differ from the journal's, and have to be as they were: life, transit_ms",
    ),
    // The settings are asked before the clock.
    (
        &[OPEN],
        NONE,
        0,
        "these settings differ from the journal's, and have to be as they were: role, pool, skew_ms, mclt, life, \
         transit_ms",
    ),
    (
        &[CLOSED],
        MORE,
        12000,
        "these settings differ from the journal's, and have to be as they were: pool",
    ),
    (
        &[CLOSED],
        SAME,
        12000,
        "ends the volume, and begins the next",
    ),
    (&[ENDED], SAME, 12000, "begins the next volume"),
    (
        &[ENDED],
        SAME,
        8999,
        "set the clock right: it reads 8999 ms, and the journal 10000 ms",
    ),
    (
        &[CLOSED_WHILE_DOWN],
        SAME,
        12000,
        "the last volume was closed while the partner was taken for down or had seized units to acknowledge: none may \
         follow it, and both servers need new books",
    ),
    // A volume that was cut within its head lines was told to nobody.
    (
        &[ENDED, b"pd-journal 2 A 2\n"],
        SAME,
        12000,
        "begins the next volume",
    ),
];

/// A line that says that the server began again, in words.
fn said_of_line(alloc: Global, line: &Line) -> Result<String, AllocError> {
    match line.event {
        Event::Restart(number) => format!(in alloc;
            "goes on with {} {} restart {}",
            line.number,
            line.reading.milliseconds(),
            number.number()
        ),
        _ => format!(in alloc; "goes on with another line"),
    }
}

/// The last line of the book that goes on, in words.
fn said_of_book(alloc: Global, book: &Book) -> Result<String, AllocError> {
    match book.journal().last() {
        Some(line) => said_of_line(alloc, line),
        None => format!(in alloc; "goes on with no line"),
    }
}

/// What is done, in words.
fn said(alloc: Global, start: Result<StartAction, StartError>) -> Result<String, AllocError> {
    match start {
        Ok(StartAction::First) => format!(in alloc; "the first book is opened"),
        Ok(StartAction::GoOn(book)) => said_of_book(alloc, &book),
        Ok(StartAction::End(_)) => format!(in alloc; "ends the volume, and begins the next"),
        Ok(StartAction::Next(_)) => format!(in alloc; "begins the next volume"),
        Err(error) => format!(in alloc; "{error}"),
    }
}

#[test]
fn starts_or_says_why_not(rt: HostRuntime) -> Result<(), Fail> {
    for (files, settings, now, words) in STARTS {
        let settings = read_settings(rt.alloc(), settings.as_bytes())?;
        let step = recover_folder(rt.alloc(), Role::Primary, &HeldFiles { files })?.step;
        let start = start_with(rt.alloc(), step, &settings, Reading::new(now)?);
        assert_eq!(rt; said(rt.alloc(), start)?.as_str(), words);
    }
    Ok(())
}
