//! What a search finds: the certificates of the examples, from their journals and what they claim.

ghost use Rattle.journal_text.specs.Closed.{IsClosed};

use crate::changes::SKEW;
use crate::inputs::{
    AT_THE_PARTNER, BEGAN_LATE, END_TO_END, ENDED_EARLY, GIVEN_BACK, GIVEN_BACK_BY_ANOTHER,
    WHOLE_HOUR,
};
use crate::pairs::{Pair, index_of, pair_of, plain_of};
use crate::three_texts::{ThreeTexts, cut};
use crate::volume_inputs::{CARRIED, GRANTED_LATER, GRANTED_WHEN_TOLD, RENEWED};
use attribution::Verdict;
use auditor::{LineSource, audit};
use causal_order::Certificate;
use evidence_search::{FindError, find_certificate};
use lead_time::{Skew, Transit};
use std::alloc::{AllocError, Global};
use std::process::Abort;
use std::test::Fail;
use std::thread::Threads;

/// What is told where nothing is found.
const NONE: &[u8] = b"none\n";

/// Searches for what another certificate claims.
fn search<S: LineSource>(
    alloc: Global,
    source: &S,
    claim: &Certificate,
    transit: u64,
) -> Result<Certificate, FindError> {
    let (Ok(skew), Ok(transit)) = (Skew::new(SKEW), Transit::new(transit)) else {
        return Err(FindError::NoneFound);
    };
    find_certificate(
        alloc,
        source,
        claim.holder,
        claim.prefix,
        claim.from,
        claim.to,
        skew,
        transit,
    )
}

/// The text of what a search finds.
fn told(alloc: Global, found: Result<Certificate, FindError>) -> Result<Vec<u8>, Fail> {
    match found {
        Ok(found) => Ok(certificate::write(alloc, &found)?),
        Err(FindError::NoneFound) => Ok(NONE.to_vec(alloc)?),
        Err(FindError::TooLong) => Err(Fail::from("too long")),
        Err(FindError::Memory) => Err(AllocError)?,
    }
}

/// The text of what a search over the journals finds for what the certificate claims.
fn text_found(alloc: Global, texts: &ThreeTexts<'_>, transit: u64) -> Result<Vec<u8>, Fail> {
    let pair = pair_of(alloc, texts.primary, texts.secondary)?;
    let claim = certificate::read(alloc, texts.certificate)?;
    told(alloc, search(alloc, &plain_of(&pair), &claim, transit))
}

/// That a search for what an input claims over its journals gives this text.
fn check_found(
    rt: &impl Abort,
    alloc: Global,
    input: &str,
    transit: u64,
    text: &[u8],
) -> Result<(), Fail> {
    let found = text_found(alloc, &cut(input)?, transit)?;
    assert_eq!(rt; found.as_slice(), text);
    Ok(())
}

/// That a search for what an input claims over its journals gives its own certificate.
fn check_found_itself(
    rt: &impl Abort,
    alloc: Global,
    input: &str,
    transit: u64,
) -> Result<(), Fail> {
    let texts = cut(input)?;
    check_found(rt, alloc, input, transit, texts.certificate)
}

/// What a search over an index of a pair finds for what a certificate claims.
fn found_in_index(
    rt: &(impl Threads + Sync),
    alloc: Global,
    pair: &Pair,
    claim: &Certificate,
) -> Result<Certificate, Fail>
    requires primary_closed { IsClosed pair.now.primary.lines }
    requires secondary_closed { IsClosed pair.now.secondary.lines }
{
    let index = index_of(rt, alloc, pair)?;
    let found = search(alloc, &index, claim, 0)?;
    Ok(found)
}

/// The verdict by a walk over a pair on what a search over its index finds.
fn verdict_on_found(
    rt: &(impl Threads + Sync),
    alloc: Global,
    pair: &Pair,
    claim: &Certificate,
) -> Result<Verdict, Fail>
    requires primary_closed { IsClosed pair.now.primary.lines }
    requires secondary_closed { IsClosed pair.now.secondary.lines }
{
    let skew = Skew::new(SKEW)?;
    let found = found_in_index(rt, alloc, pair, claim)?;
    Ok(audit(&plain_of(pair), &found, skew, Transit::ZERO))
}

/// That a search over an index of an input's journals gives what a walk over them accepts.
fn check_found_in_index(
    rt: &(impl Abort + Threads + Sync),
    alloc: Global,
    input: &str,
) -> Result<(), Fail> {
    let texts = cut(input)?;
    let pair = pair_of(alloc, texts.primary, texts.secondary)?;
    let claim = certificate::read(alloc, texts.certificate)?;
    assert!(rt; verdict_on_found(rt, alloc, &pair, &claim)? == Verdict::Accepted);
    Ok(())
}

/// Whose certificates are what a search gives, letter by letter.
const EXAMPLES: [&str; 10] = [
    WHOLE_HOUR,
    ENDED_EARLY,
    BEGAN_LATE,
    GIVEN_BACK,
    GIVEN_BACK_BY_ANOTHER,
    RENEWED,
    CARRIED,
    GRANTED_LATER,
    AT_THE_PARTNER,
    GRANTED_WHEN_TOLD,
];

/// Two pieces, each of the grant that reaches farthest, with all releases in the order of the journals.
const TWO_PIECES: &[u8] = b"pd-certificate 1
holder 00030001020000000001
prefix 2001:0db8:0000:0000:0000:0000:0000:0000/56
interval 12000 23000
piece A5 12000 18000 latest A5 earliest A5
clear A4 before chain A4>A5
clear A7 after A7
clear B3 before clock B3 A5
piece A6 18000 23000 latest A6 earliest A6
clear A4 before chain A4>A6
clear A7 after A7
clear B3 before clock B3 A6
end
";

#[test]
fn finds_the_examples(rt: HostRuntime) -> Result<(), Fail> {
    for input in &EXAMPLES {
        check_found_itself(&rt, rt.alloc(), input, 0)?;
        check_found_in_index(&rt, rt.alloc(), input)?;
    }
    check_found(&rt, rt.alloc(), END_TO_END, 0, TWO_PIECES)?;
    check_found_in_index(&rt, rt.alloc(), END_TO_END)
}

/// An input, a part of what it claims and what is claimed instead: what nobody can show.
const UNSHOWN: [(&str, &str, &str); 12] = [
    (
        WHOLE_HOUR,
        "holder 00030001020000000001",
        "holder 00030001020000000002",
    ),
    (
        WHOLE_HOUR,
        "interval 12000 3608000",
        "interval 11999 3608000",
    ),
    (
        WHOLE_HOUR,
        "interval 12000 3608000",
        "interval 12000 3608001",
    ),
    (WHOLE_HOUR, "interval 12000 3608000", "interval 12000 12000"),
    (END_TO_END, "interval 12000 23000", "interval 11999 23000"),
    (END_TO_END, "interval 12000 23000", "interval 12000 23001"),
    (CARRIED, "interval 3622000", "interval 3611999"),
    (
        GIVEN_BACK_BY_ANOTHER,
        "interval 22000 40000",
        "interval 21999 40000",
    ),
    (GRANTED_LATER, "3 1004001 grant", "3 1004000 grant"),
    (AT_THE_PARTNER, "interval 12200", "interval 12199"),
    (AT_THE_PARTNER, "3 9500 take 0 1", "3 9500 take 0 2"),
    (GRANTED_WHEN_TOLD, "interval 1002000", "interval 1001999"),
];

/// Where an answer may be so long under way: the whole hour, half a second later, claimed as it stands or not at all.
const UNDER_WAY: [(&str, u64, bool); 3] = [
    (" 12000 ", 1, false),
    (" 12500 ", 500, true),
    (" 12500 ", 501, false),
];

/// That a search finds nothing for an input with a part of it changed.
fn check_unshown(
    rt: &impl Abort,
    alloc: Global,
    input: &str,
    old: &'static str,
    new: &'static str,
) -> Result<(), Fail> {
    let changed = input.replacen(alloc, old, new, 1)?;
    assert_ne!(rt; changed.as_str(), input);
    check_found(rt, alloc, changed.as_str(), 0, NONE)
}

/// That the whole hour, claimed from here on, is found as it stands or not at all.
fn check_under_way(
    rt: &impl Abort,
    alloc: Global,
    from: &'static str,
    transit: u64,
    is_shown: bool,
) -> Result<(), Fail> {
    let later = WHOLE_HOUR.replacen(alloc, " 12000 ", from, 2)?;
    if is_shown {
        check_found_itself(rt, alloc, later.as_str(), transit)
    } else {
        check_found(rt, alloc, later.as_str(), transit, NONE)
    }
}

#[test]
fn finds_only_what_is_shown(rt: HostRuntime) -> Result<(), Fail> {
    for (input, old, new) in &UNSHOWN {
        check_unshown(&rt, rt.alloc(), input, *old, *new)?;
    }
    for (from, transit, is_shown) in &UNDER_WAY {
        check_under_way(&rt, rt.alloc(), *from, *transit, *is_shown)?;
    }
    Ok(())
}
