//! What is read before the words are judged: a time zone, and what the heads of the journals say.

use crate::fault::DeskFault;
use crate::over_files::files_at;
use attribution_desk::UsageError;
use desk_args::{
    AddressNote, BoundsSource, HeadBounds, InputSource, Invocation, Outline, ReportForm,
    Surroundings, advice_of, invocation_of,
};
use journal_heads::{HeadsFault, bounds_said};
use journal_paths::JournalPaths;
use std::net::Net;
use zone_times::ZoneFile;

/// The name of a file, by its count.
fn name_of<'a>(files: &'a JournalPaths, file: usize) -> &'a str {
    match files.path(file) {
        Some(path) => path.as_str(),
        None => "",
    }
}

/// Says the bounds that the heads say.
fn say_bounds(rt: &HostRuntime, bounds: &HeadBounds) {
    let skew = bounds.skew.milliseconds();
    let transit = bounds.transit.milliseconds();
    let _ = eprintln!(rt; "skew {skew} ms and transit {transit} ms, as the journals' heads say");
}

/// The bounds that the heads of the journals at these paths say, which is said.
fn heads_at(rt: &HostRuntime, net: &impl Net, paths: &[&str]) -> Result<HeadBounds, DeskFault> {
    let files = files_at(rt, net, paths)?;
    match bounds_said(rt.alloc(), &files) {
        Ok(bounds) => {
            say_bounds(rt, &bounds);
            Ok(bounds)
        }
        Err(HeadsFault::Differ { first, second }) => Err(DeskFault::differ(
            rt.alloc(),
            name_of(&files, first),
            name_of(&files, second),
        )),
        Err(HeadsFault::Silent) => Err(DeskFault::Silent),
        Err(HeadsFault::Memory) => Err(DeskFault::memory()),
    }
}

/// The bounds that the heads say, where the words leave them to these.
pub(crate) fn heads_asked(
    rt: &HostRuntime,
    net: &impl Net,
    outline: &Outline,
) -> Result<Option<HeadBounds>, DeskFault> {
    match (outline.bounds, &outline.source) {
        (BoundsSource::Words, _) | (BoundsSource::Heads, InputSource::Input) => Ok(None),
        (BoundsSource::Heads, InputSource::Journals(paths) | InputSource::Certified(paths, _)) => {
            Ok(Some(heads_at(rt, net, paths)?))
        }
    }
}

/// What stands around the words.
fn surroundings_of(zone: &Option<ZoneFile>, heads: Option<HeadBounds>) -> Surroundings<'_> {
    Surroundings {
        zone: zone.as_ref(),
        heads,
    }
}

/// The order of the words, with what was read before: the zone that they name, and what the heads say.
pub(crate) fn order_of<'a>(
    rt: &HostRuntime,
    words: &'a [String],
    zone: &Option<ZoneFile>,
    heads: Option<HeadBounds>,
) -> Result<Invocation<'a>, DeskFault> {
    let surroundings = surroundings_of(zone, heads);
    match invocation_of(rt.alloc(), words, &surroundings) {
        Ok(order) => Ok(order),
        Err(UsageError::Memory) => Err(DeskFault::memory()),
        Err(UsageError::Usage) => Err(no_order(rt, words, &surroundings)),
    }
}

/// Why words order nothing.
pub(crate) fn no_order(
    rt: &HostRuntime,
    words: &[String],
    surroundings: &Surroundings,
) -> DeskFault {
    match advice_of(rt.alloc(), words, surroundings) {
        Ok(advice) => DeskFault::Words(advice),
        Err(_) => DeskFault::memory(),
    }
}

/// The form in which words ask to be answered, before they are judged.
pub(crate) fn form_in(words: &[String]) -> ReportForm {
    for word in words {
        match word.as_str() {
            "--json" => return ReportForm::Json,
            "--html" => return ReportForm::Page,
            _ => {}
        }
    }
    ReportForm::Plain
}

/// Says what of an address was passed over.
pub(crate) fn say_note(rt: &HostRuntime, note: AddressNote) {
    let said = match note {
        AddressNote::Nothing => return,
        AddressNote::PortPassedOver => "asked of the address alone: its port is passed over",
        AddressNote::LengthPassedOver => {
            "asked of the address alone: it isn't the prefix of its length, which is passed over"
        }
    };
    let _ = eprintln!(rt; "{said}");
}
