//! Saying what settings are worth: a server's, and where its partner's are named too, whether the two go together.

use crate::advising::{DocumentName, advise, advise_to_serve};
use crate::fault::NodeFault;
use crate::serving::content_of;
use crate::verdict::CheckVerdict;
use crate::{input_of, settings_in};
use node_args::CheckCommand;
use node_threads::NodeSettings;
use server_book::OpenError;
use settings_diagnostics::{PairDocument, may_join, pair_conflicts};
use std::alloc::Global;
use std::io::{self, Write};
use std::path::Path;
use toml::Table;

/// A document, and the settings that it names.
#[derive(Drop)]
struct SettingsDocument {
    table: Table,
    settings: NodeSettings,
}

/// Returns how many units a server of these settings has.
fn units_of(settings: &NodeSettings) -> usize {
    let mut units = 0usize;
    for pool in settings.server.pools() {
        let bits = pool.unit_length.saturating_sub(pool.prefix.len());
        units = units.saturating_add(1usize.checked_shl(u32::from(bits)).unwrap_or(0));
    }
    units
}

/// The table of a text.
fn table_in(alloc: Global, text: &[u8]) -> Result<Table, OpenError> {
    match toml::table_from_slice(alloc, text) {
        Ok(table) => Ok(table),
        Err(error) if error.is_memory() => Err(OpenError::Memory),
        Err(_) => Err(OpenError::Settings),
    }
}

/// The document that a text is; why it is refused, and what in it is odd, is said in notes.
fn document_in<P: Print>(
    notes: &P,
    alloc: Global,
    whose: DocumentName<'_>,
    text: &[u8],
) -> Result<SettingsDocument, OpenError> {
    let settings = settings_in(alloc, text);
    advise(
        notes,
        alloc,
        whose,
        text,
        settings.as_ref().map_err(|error| *error),
    );
    let settings = settings?;
    advise_to_serve(notes, alloc, whose, text, &settings);
    let table = table_in(alloc, text)?;
    Ok(SettingsDocument { table, settings })
}

/// What a file holds, as far as settings go; `None` where it can't be read, which is said.
fn content_or_word(rt: &HostRuntime, file: &str) -> Result<Option<Vec<u8>>, NodeFault> {
    match content_of(rt, rt.alloc(), Path::new(file)) {
        Ok(text) => Ok(Some(text)),
        Err(error) if error.kind() == io::ErrorKind::OutOfMemory => Err(NodeFault::Memory),
        Err(error) => {
            let _ = eprintln!(rt; "node: the settings can't be read: {file}: {error}");
            Ok(None)
        }
    }
}

/// Says in what the settings of a server and its partner don't go together; returns whether the two join by them.
fn compare<P: Print>(
    notes: &P,
    alloc: Global,
    own: &SettingsDocument,
    other: &SettingsDocument,
) -> Result<bool, NodeFault> {
    let own = PairDocument {
        table: &own.table,
        settings: &own.settings.server,
    };
    let other = PairDocument {
        table: &other.table,
        settings: &other.settings.server,
    };
    let conflicts = pair_conflicts(alloc, &own, &other)?;
    for conflict in &conflicts {
        let mark = if conflict.keeps_apart() {
            ""
        } else {
            "warning: "
        };
        let _ = println!(notes; "node: {mark}{conflict}");
    }
    let joins = may_join(&conflicts);
    let what = if joins { "join" } else { "stay apart" };
    let _ = println!(notes; "node: by their settings the two {what}");
    Ok(joins)
}

/// What settings that are fit are worth beside the partner's, which a file has.
fn verdict_beside(
    rt: &HostRuntime,
    own: &SettingsDocument,
    file: &str,
) -> Result<CheckVerdict, NodeFault> {
    let (alloc, notes) = (rt.alloc(), rt.stderr());
    let Some(text) = content_or_word(rt, file)? else {
        return Ok(CheckVerdict::PartnerRefused);
    };
    let other = match document_in(&notes, alloc, DocumentName::File(file), &text) {
        Ok(other) => other,
        Err(OpenError::Memory) => return Err(NodeFault::Memory),
        Err(_) => return Ok(CheckVerdict::PartnerRefused),
    };
    if compare(&notes, alloc, own, &other)? {
        Ok(CheckVerdict::Fit {
            units: units_of(&own.settings),
        })
    } else {
        Ok(CheckVerdict::Apart)
    }
}

/// What settings are worth, of which this is the text, and beside the partner's where a file is named that has them.
fn verdict_on(
    rt: &HostRuntime,
    text: &[u8],
    partner: &Option<String>,
) -> Result<CheckVerdict, NodeFault> {
    let own = match document_in(&rt.stderr(), rt.alloc(), DocumentName::Own, text) {
        Ok(own) => own,
        Err(OpenError::Memory) => return Err(NodeFault::Memory),
        Err(refusal) => return Ok(CheckVerdict::Refused(refusal)),
    };
    match partner {
        Some(file) => verdict_beside(rt, &own, file.as_str()),
        None => Ok(CheckVerdict::Fit {
            units: units_of(&own.settings),
        }),
    }
}

/// Says on standard output what settings are worth, and on standard error why. Gives the status: 0 where they are fit,
/// and go together with the partner's if these are named, else 1.
pub fn check_settings(rt: &HostRuntime, command: &CheckCommand) -> Result<u8, NodeFault> {
    let text = match &command.settings {
        Some(file) => content_or_word(rt, file.as_str())?,
        None => Some(input_of(rt)?),
    };
    let verdict = match text {
        Some(text) => verdict_on(rt, &text, &command.partner)?,
        None => CheckVerdict::Refused(OpenError::Settings),
    };
    let line = format!(in rt.alloc(); "{verdict}\n")?;
    match rt.stdout().write_all(line.as_bytes()) {
        Ok(()) => Ok(verdict.status()),
        Err(_) => Err(NodeFault::Write),
    }
}
