//! Evidence, searched over the journals of files.

use crate::fault::DeskFault;
use crate::over_files::{FilesAsked, files_asked, object_without, why_not};
use crate::writing::{write_both, write_out};
use attribution_desk::Command;
use desk_reports::find_data;
use joined_evidence::find_widest;
use plain_search::Query;
use std::net::Net;
use std::sync::Wait;
use std::thread::Threads;

/// The evidence of what is asked.
pub(crate) fn found(
    rt: &HostRuntime,
    handles: &(impl Threads + Wait + Net + Sync),
    query: &Query,
    asked: &FilesAsked,
) -> Result<u8, DeskFault> {
    let files = files_asked(rt, handles, asked)?;
    let (alloc, names) = (rt.alloc(), files.paths());
    match find_widest(handles, alloc, &files, names, query) {
        Ok(answer) => {
            let told = answer.told(alloc, names, asked.detail);
            write_out(rt, &told.map_err(|_| DeskFault::memory())?)
        }
        Err(error) => write_out(rt, &why_not(rt, &files, &error)?.told(alloc)),
    }
}

/// The same as one JSON object.
pub(crate) fn found_json(
    rt: &HostRuntime,
    handles: &(impl Threads + Wait + Net + Sync),
    query: &Query,
    asked: &FilesAsked,
) -> Result<u8, DeskFault> {
    let files = files_asked(rt, handles, asked)?;
    let (alloc, names) = (rt.alloc(), files.paths());
    let answer = match find_widest(handles, alloc, &files, names, query) {
        Ok(answer) => answer,
        Err(error) => {
            let failure = why_not(rt, &files, &error)?;
            return write_out(rt, &object_without(rt, &Command::Find(*query), failure)?);
        }
    };
    let told = answer
        .told(alloc, names, asked.detail)
        .map_err(|_| DeskFault::memory())?;
    let text = find_data(alloc, names, &answer, told.status, &told.notes).map_err(DeskFault::Desk)?;
    write_both(rt, &text, &told.notes)?;
    Ok(told.status)
}
