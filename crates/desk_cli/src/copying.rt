//! `copy`: the text of volumes up to a line.

use crate::fault::DeskFault;
use crate::over_files::{FilesAsked, files_asked, why_not};
use crate::writing::write_out;
use desk_args::CopyQuery;
use join_desk::copy_files;
use std::net::Net;

/// The text of volumes of a side up to a line.
pub(crate) fn copied(
    rt: &HostRuntime,
    net: &impl Net,
    query: &CopyQuery,
    asked: &FilesAsked,
) -> Result<u8, DeskFault> {
    let files = files_asked(rt, net, asked)?;
    let (alloc, names) = (rt.alloc(), files.paths());
    match copy_files(
        alloc,
        &files,
        names,
        &query.volumes,
        query.lines,
        asked.detail,
    ) {
        Ok(told) => write_out(rt, &told),
        Err(error) => write_out(rt, &why_not(rt, &files, &error)?.told(rt.alloc())),
    }
}
