//! Texts that several threads read.

use journal_text::{Journal, JournalError, JournalFault, Reader, write};
use std::alloc::{AllocError, Global};
use std::process::Abort;
use std::test::Fail;
use std::thread::Threads;
use text_fields::push_number;

/// How many lines a text has: enough for parts of several threads.
const LINES: u64 = 3000;

/// A journal line of this number, reading and event.
fn add_line(text: &mut Vec<u8>, number: u64, event: &[u8]) -> Result<(), AllocError> {
    push_number(text, number)?;
    text.push(b' ')?;
    text.extend_from_slice(event)?;
    text.push(b'\n')?;
    Ok(())
}

/// The text of a closed journal without the line of this number, if there is one.
fn text_without(alloc: Global, gone: u64) -> Result<Vec<u8>, Fail> {
    let mut text = Vec::new(alloc);
    text.extend_from_slice(b"pd-journal 1 A\n")?;
    for number in 1..LINES {
        if number != gone {
            add_line(
                &mut text,
                number,
                b"9000 expire 2001:0db8:0000:0000:0000:0000:0000:0000/56",
            )?;
        }
    }
    add_line(&mut text, LINES, b"9000 close")?;
    text.extend_from_slice(b"end 3000\n")?;
    Ok(text)
}

/// Returns what a reader finds that takes a text in two chunks, each cut into halves so often.
fn found_in(
    rt: &(impl Threads + Sync),
    alloc: Global,
    text: &[u8],
    cut: usize,
    halvings: u32,
) -> Result<Result<Journal, JournalFault>, Fail> {
    let mut reader = Reader::new(alloc);
    let (first, second) = text.split_at_checked(cut).ok_or("past the end")?;
    for chunk in [first, second] {
        if let Err(JournalError::Memory) = reader.feed_by(rt, chunk, halvings) {
            return Err(Fail::from("out of memory"));
        }
    }
    Ok(reader.finish())
}

/// That a text is read as the journal whose text it is.
fn check_whole(
    rt: &(impl Abort + Threads + Sync),
    alloc: Global,
    cut: usize,
    halvings: u32,
) -> Result<(), Fail> {
    let text = text_without(alloc, 0)?;
    match found_in(rt, alloc, &text, cut, halvings)? {
        Ok(journal) => {
            let again = write(alloc, journal.role, journal.head, journal.lines.as_slice())?;
            assert!(rt; again == text);
            Ok(())
        }
        Err(_) => Err(Fail::from("refused")),
    }
}

/// That a text has this fault.
fn check_fault(
    rt: &(impl Abort + Threads + Sync),
    alloc: Global,
    text: &[u8],
    halvings: u32,
    fault: JournalFault,
) -> Result<(), Fail> {
    match found_in(rt, alloc, text, 100, halvings)? {
        Ok(_) => Err(Fail::from("no fault")),
        Err(found) => {
            assert_eq!(rt; found, fault);
            Ok(())
        }
    }
}

#[test]
fn reads_chunks_of_many_lengths(rt: HostRuntime) -> Result<(), Fail> {
    for halvings in 0..4 {
        for cut in [0, 1, 15, 16, 40, 65_000, 90_000, 120_000] {
            check_whole(&rt, rt.alloc(), cut, halvings)?;
        }
    }
    Ok(())
}

#[test]
fn names_a_fault_of_any_part(rt: HostRuntime) -> Result<(), Fail> {
    let mut text = text_without(rt.alloc(), 0)?;
    let mut number = 0u32;
    for at in 0..text.len() {
        let octet = text[at];
        if octet == b'\n' {
            number = number.saturating_add(1);
        }
        if number > 0 && at % 9973 == 0 {
            let fault = JournalFault::Form { line: number };
            text[at] = b'#';
            check_fault(&rt, rt.alloc(), &text, 2, fault)?;
            text[at] = octet;
        }
    }
    Ok(())
}

#[test]
fn names_a_number_that_is_left_out(rt: HostRuntime) -> Result<(), Fail> {
    for line in [2, 700, 1500, 1501, 2200, 2999] {
        let text = text_without(rt.alloc(), u64::from(line))?;
        for halvings in 0..4 {
            check_fault(
                &rt,
                rt.alloc(),
                &text,
                halvings,
                JournalFault::Number { line },
            )?;
        }
    }
    Ok(())
}
