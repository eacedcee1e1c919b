//! Texts read and written back, octet for octet.

use crate::inputs::{
    AT_THE_PARTNER, EACH_KIND, END_TO_END, GIVEN_BACK, GIVEN_BACK_BY_ANOTHER, TAKEN_OTHERWISE,
};
use crate::three_texts::cut;
use std::alloc::Global;
use std::process::Abort;
use std::test::Fail;

/// That a journal is written as it was read.
fn check_journal(rt: &impl Abort, alloc: Global, text: &[u8]) -> Result<(), Fail> {
    let journal = journal_text::read(alloc, text)?;
    let written = journal_text::write(alloc, journal.role, journal.head, journal.lines.as_slice())?;
    assert_eq!(rt; written.as_slice(), text);
    Ok(())
}

/// That a certificate is written as it was read.
fn check_certificate(rt: &impl Abort, alloc: Global, text: &[u8]) -> Result<(), Fail> {
    let claim = certificate::read(alloc, text)?;
    let written = certificate::write(alloc, &claim)?;
    assert_eq!(rt; written.as_slice(), text);
    Ok(())
}

/// That the three texts of an input are written as they were read.
fn check_input(rt: &impl Abort, alloc: Global, input: &str) -> Result<(), Fail> {
    let texts = cut(input)?;
    check_journal(rt, alloc, texts.primary)?;
    check_journal(rt, alloc, texts.secondary)?;
    check_certificate(rt, alloc, texts.certificate)
}

const INPUTS: [&str; 6] = [
    GIVEN_BACK,
    END_TO_END,
    AT_THE_PARTNER,
    GIVEN_BACK_BY_ANOTHER,
    TAKEN_OTHERWISE,
    EACH_KIND,
];

#[test]
fn writes_what_it_read(rt: HostRuntime) -> Result<(), Fail> {
    for input in &INPUTS {
        check_input(&rt, rt.alloc(), input)?;
    }
    Ok(())
}
