//! Why a text is no moment, for a person.

use crate::when::{BareNumbers, when_in};
use lead_time::Reading;
use report_times::ReportTimeError;
use std::alloc::{AllocError, Global};
use time_text::push_time;
use zone_times::{ZoneFile, push_local};

/// Names of zones, and the offsets that they may mean.
const ZONES: [(&'static str, &'static str); 22] = [
    ("AST", "-0400 at the Atlantic or +0300 in Arabia"),
    ("BST", "+0100 in Britain or +0600 in Bangladesh"),
    ("CDT", "-0500 in America or -0400 in Cuba"),
    ("CEST", "+0200"),
    ("CET", "+0100"),
    ("CST", "-0600 in America, -0500 in Cuba or +0800 in China"),
    ("EDT", "-0400 in America or +1100 in Australia"),
    ("EEST", "+0300"),
    ("EET", "+0200"),
    ("EST", "-0500 in America or +1000 in Australia"),
    ("HST", "-1000"),
    ("IST", "+0530 in India, +0100 in Ireland or +0200 in Israel"),
    ("JST", "+0900"),
    ("KST", "+0900"),
    ("MDT", "-0600"),
    ("MSK", "+0300"),
    (
        "MST",
        "-0700 in America, +0800 in Malaysia or +0630 in Myanmar",
    ),
    ("PDT", "-0700"),
    ("PST", "-0800 in America or +0800 in the Philippines"),
    ("SST", "-1100 in Samoa or +0800 in Singapore"),
    ("WEST", "+0100"),
    ("WET", "+0000"),
];

/// The offsets that the zone at the end of a text may mean, if its name is known.
fn meaning_of(text: &str) -> Option<&'static str> {
    let name = text.trim_end().rsplit(' ').next()?;
    for (zone, meaning) in ZONES {
        if zone.eq_ignore_ascii_case(name) {
            return Some(meaning);
        }
    }
    None
}

/// The time of so many milliseconds since 1970, or none where no calendar has it.
fn time_of(alloc: Global, milliseconds: Option<u64>) -> Result<Vec<u8>, AllocError> {
    let mut out = Vec::new(alloc);
    if let Some(milliseconds) = milliseconds
        && let Ok(moment) = Reading::new(milliseconds)
    {
        push_time(&mut out, moment)?;
    }
    Ok(out)
}

/// A text that a person wrote for a time, and where it stands among the words.
#[derive(Clone, Copy)]
pub(crate) struct TimeText<'a> {
    /// As `--at`.
    pub(crate) label: &'a str,
    pub(crate) text: &'a str,
    pub(crate) numbers: BareNumbers,
    pub(crate) zone: Option<&'a ZoneFile>,
}

/// What a number may mean.
fn advice_on_number(alloc: Global, label: &str, number: u64) -> Result<String, AllocError> {
    let seconds = time_of(alloc, number.checked_mul(1000))?;
    let milliseconds = time_of(alloc, Some(number))?;
    let seconds = str::from_utf8(&seconds).unwrap_or("");
    let milliseconds = str::from_utf8(&milliseconds).unwrap_or("");
    format!(in alloc;
        "error: {label} has '{number}', which may be seconds or milliseconds since 1970: write {number}s for \
        {seconds}, or {number}ms for {milliseconds}"
    )
}

/// What the name of a zone may mean.
fn advice_on_zone(alloc: Global, label: &str, text: &str) -> Result<String, AllocError> {
    match meaning_of(text) {
        Some(meaning) => format!(in alloc;
            "error: {label} has '{text}', whose zone has a name: write its offset, which may be \
            {meaning}"
        ),
        None => format!(in alloc;
            "error: {label} has '{text}', whose zone has a name: write its offset, as +0100"
        ),
    }
}

/// What a time without an offset lacks.
fn advice_on_offset(alloc: Global, asked: &TimeText) -> Result<String, AllocError> {
    let label = asked.label;
    let text = asked.text;
    match asked.numbers {
        BareNumbers::AnyMilliseconds if label == "--at" => format!(in alloc;
            "error: {label} has '{text}', without its offset from UTC: add Z, or one as +01:00"
        ),
        _ => format!(in alloc;
            "error: {label} has '{text}', without its offset from UTC: add Z, or one as +01:00, or name the \
            zone of the clock that showed it, as --zone Europe/Paris"
        ),
    }
}

/// A moment as a clock of the zone shows it, with its offset.
fn local_of(
    alloc: Global,
    zone: Option<&ZoneFile>,
    moment: Reading,
) -> Result<Vec<u8>, AllocError> {
    let mut out = Vec::new(alloc);
    match zone {
        Some(zone) => push_local(&mut out, alloc, zone, moment)?,
        None => push_time(&mut out, moment)?,
    }
    Ok(out)
}

/// Which two moments a time may be that clocks of the zone show twice.
fn advice_on_twice(
    alloc: Global,
    asked: &TimeText,
    earlier: Reading,
    later: Reading,
) -> Result<String, AllocError> {
    let label = asked.label;
    let text = asked.text;
    let earlier = local_of(alloc, asked.zone, earlier)?;
    let later = local_of(alloc, asked.zone, later)?;
    let earlier = str::from_utf8(&earlier).unwrap_or("");
    let later = str::from_utf8(&later).unwrap_or("");
    format!(in alloc;
        "error: {label} has '{text}', which clocks of the zone show twice: write {earlier} for the first, or {later} \
        for the second"
    )
}

/// A text of none of the forms that are read.
fn advice_on_form(alloc: Global, asked: &TimeText, wish: &str) -> Result<String, AllocError> {
    let label = asked.label;
    let text = asked.text;
    format!(in alloc; "error: {label} wants {wish}, and has '{text}'")
}

/// What this fault of a text says to a person.
fn advice_on_fault(
    alloc: Global,
    asked: &TimeText,
    wish: &str,
    fault: ReportTimeError,
) -> Result<String, AllocError> {
    let label = asked.label;
    let text = asked.text;
    match fault {
        ReportTimeError::SecondsOrMilliseconds(number) => advice_on_number(alloc, label, number),
        ReportTimeError::ZoneName => advice_on_zone(alloc, label, text),
        ReportTimeError::NoOffset => advice_on_offset(alloc, asked),
        ReportTimeError::Twice(earlier, later) => advice_on_twice(alloc, asked, earlier, later),
        ReportTimeError::Never => format!(in alloc;
            "error: {label} has '{text}', which clocks of the zone never show: they are put forward over it"
        ),
        ReportTimeError::Memory => Err(AllocError),
        ReportTimeError::NoTime => advice_on_form(alloc, asked, wish),
    }
}

/// Why there is no moment in this text: a sentence for standard error.
pub(crate) fn advice_on_time(
    alloc: Global,
    asked: &TimeText,
    wish: &str,
) -> Result<String, AllocError> {
    match when_in(alloc, asked.zone, asked.numbers, asked.text) {
        Err(fault) => advice_on_fault(alloc, asked, wish, fault),
        Ok(_) => advice_on_form(alloc, asked, wish),
    }
}
