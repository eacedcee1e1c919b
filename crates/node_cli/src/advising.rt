//! What a person is told of settings, on standard error: why they are refused, and what in them is odd.

ghost use Rattle.std.specs.Prelude.{◌≤◌, length};

use crate::MOST_OCTETS;
use node_threads::NodeSettings;
use serve_settings::{ServeSettings, ServeSettingsError};
use server_book::OpenError;
use settings_diagnostics::{
    KEYS, Key, KeyTable, POOL_KEYS, lead_time_warning, line_ends, link_warning, pool_warning,
    reasons_of, suggested_key,
};
use std::alloc::{AllocError, Global};
use std::fmt;
use std::fmt::Write;
use toml::Table;
use toml::de::Error as TomlError;

/// Whose settings a document has: what is told of others than the server's own names their file.
#[derive(Clone, Copy, Debug)]
pub enum DocumentName<'a> {
    Own,
    File(&'a str),
}

impl fmt::Display for DocumentName<'_> {
    fn fmt<W: Write>(&self, f: &mut fmt::Formatter<W>) -> fmt::Result {
        match self {
            DocumentName::Own => Ok(()),
            DocumentName::File(file) => write!(f, "{file}: "),
        }
    }
}

/// Says in which line a text is no TOML document, and why.
fn tell_syntax<P: Print>(notes: &P, whose: DocumentName<'_>, text: &[u8], error: &TomlError) {
    let Some(place) = error.span() else {
        return;
    };
    let before = text.get(..place.start).unwrap_or(text);
    let line = line_ends(before).saturating_add(1);
    let why = error.message();
    let _ = println!(notes; "node: settings: {whose}line {line}: {why}");
}

/// Says why settings are refused: each key that isn't as wanted, or what the pools lack together.
fn tell_reasons<P: Print>(
    notes: &P,
    alloc: Global,
    whose: DocumentName<'_>,
    table: &Table,
) -> Result<(), AllocError> {
    let reasons = reasons_of(alloc, table)?;
    for complaint in &reasons.keys {
        let _ = println!(notes; "node: settings: {whose}{complaint}");
    }
    if let Some(clash) = &reasons.pools {
        let _ = println!(notes; "node: settings: {whose}{clash}");
    }
    Ok(())
}

/// Warns of settings that are read, and are odd.
fn warn_of_doubts<P: Print>(notes: &P, whose: DocumentName<'_>, settings: &NodeSettings) {
    for (before, pool) in settings.server.pools().iter().enumerate() {
        if let Some(doubt) = pool_warning(&pool.prefix) {
            let place = KeyTable::Pool(before);
            let _ = println!(notes; "node: warning: {whose}{place}{doubt}");
        }
    }
    let (listen, link) = (settings.ways.listen, settings.ways.link);
    if let Some(doubt) = lead_time_warning(&settings.server, link) {
        let _ = println!(notes; "node: warning: {whose}{doubt}");
    }
    if let Some(doubt) = link_warning(listen, link) {
        let _ = println!(notes; "node: warning: {whose}{doubt}");
    }
}

/// Warns of each key of a table that is none of the known ones, with the one that it was likely meant for.
fn warn_of_strangers<P: Print>(
    notes: &P,
    whose: DocumentName<'_>,
    table: &Table,
    place: KeyTable,
    known: &[Key],
)
    requires { 1 ≤ length known.now }
{
    for (name, _) in table {
        if let Some(meant) = suggested_key(known, name.as_str()) {
            let _ = println!(notes;
                "node: warning: {whose}{place}{name:?} is no key: do you mean {meant}?"
            );
        }
    }
}

/// Warns of the unknown keys of a document and of its pools.
fn warn_of_keys<P: Print>(notes: &P, whose: DocumentName<'_>, table: &Table) {
    warn_of_strangers(notes, whose, table, KeyTable::Top, &KEYS);
    let Some(value) = table.get("pool") else {
        return;
    };
    let Some(pools) = value.as_array() else {
        return;
    };
    for (before, pool) in pools.iter().enumerate() {
        if let Some(table) = pool.as_table() {
            warn_of_strangers(notes, whose, table, KeyTable::Pool(before), &POOL_KEYS);
        }
    }
}

/// Tells a person, a line each, why settings were refused, and what in them is odd. What finds no memory isn't told.
pub fn advise<P: Print>(
    notes: &P,
    alloc: Global,
    whose: DocumentName<'_>,
    text: &[u8],
    read: Result<&NodeSettings, OpenError>,
) {
    if text.len() > MOST_OCTETS {
        let _ = println!(notes; "node: settings: {whose}are longer than {MOST_OCTETS} octets");
        return;
    }
    let table = match toml::table_from_slice(alloc, text) {
        Ok(table) => table,
        Err(error) => {
            tell_syntax(notes, whose, text, &error);
            return;
        }
    };
    match read {
        Ok(settings) => warn_of_doubts(notes, whose, settings),
        Err(_) => {
            let _ = tell_reasons(notes, alloc, whose, &table);
        }
    }
    warn_of_keys(notes, whose, &table);
}

/// Warns of settings without a transit: `serve` begins no new directory with them.
fn warn_of_transit<P: Print>(notes: &P, whose: DocumentName<'_>, settings: &NodeSettings) {
    if settings.server.transit().milliseconds() == 0 {
        let _ = println!(notes;
            "node: warning: {whose}serve refuses transit_ms: wants 1 to 3600000 in a new directory, has 0"
        );
    }
}

/// Tells a person what `serve` would refuse in settings that are fit for `run`, a missing partner or key of the link
/// apart, and whether its volumes are short. What finds no memory isn't told.
pub fn advise_to_serve<P: Print>(
    notes: &P,
    alloc: Global,
    whose: DocumentName<'_>,
    text: &[u8],
    settings: &NodeSettings,
) {
    warn_of_transit(notes, whose, settings);
    match ServeSettings::read(alloc, text) {
        Ok(settings) => {
            if settings.upkeep.is_short_for(settings.node.server.life()) {
                let _ = println!(notes;
                    "node: warning: {whose}volume_hours: a volume ends before the seventh renewal of a lease: where one volume of each server names nobody, desk join puts several together"
                );
            }
        }
        Err(
            ServeSettingsError::Node(_)
            | ServeSettingsError::NoPartner
            | ServeSettingsError::PartnerOfAlone
            | ServeSettingsError::NoLinkKey,
        ) => {}
        Err(error) => {
            let _ = println!(notes; "node: warning: {whose}serve refuses {error}");
        }
    }
}
