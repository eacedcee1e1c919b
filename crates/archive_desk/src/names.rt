//! The names of files in an answer.

ghost use Rattle.std.specs.Prelude.{◌≡◌, ◌++◌, OnOk};
ghost use Rattle.archive_desk.specs.Names.{name_at, journals_line, is_single, volumes_note};

use journal_archive::VolumePair;
use std::alloc::AllocError;
use std::path::PathBuf;
use volume_spans::SpanPair;

/// The name of a file, by its count; none where there is no such file.
pub fn name_of(names: &[PathBuf], file: usize) -> &str
    ensures { result.now ≡ name_at names.now file }
{
    match names.get(file) {
        Some(name) => name.as_str(),
        None => "",
    }
}

/// Appends `journals FILE FILE`: the file of the primary's volume, and that of the secondary's.
pub fn push_journals(
    out: &mut Vec<u8>,
    names: &[PathBuf],
    pair: &VolumePair,
) -> Result<(), AllocError>
    ensures { OnOk result (out.new.items ≡ out.old.items ++ journals_line names.now pair.now) }
{
    out.extend_from_slice(b"journals ")?;
    out.extend_from_slice(name_of(names, pair.primary.file).as_bytes())?;
    out.push(b' ')?;
    out.extend_from_slice(name_of(names, pair.secondary.file).as_bytes())?;
    out.push(b'\n')?;
    Ok(())
}

/// Returns whether spans are one volume of each side.
pub(crate) fn is_single(spans: &SpanPair) -> bool
    ensures { result ≡ is_single spans.now }
{
    spans.primary.first == spans.primary.last && spans.secondary.first == spans.secondary.last
}

/// Appends `volumes A40-48 B39-47`: the volumes of both sides; nothing where they are one of each.
pub fn push_volumes(out: &mut Vec<u8>, spans: &SpanPair) -> Result<(), AllocError>
    ensures { OnOk result (out.new.items ≡ out.old.items ++ volumes_note spans.now) }
{
    if is_single(spans) {
        return Ok(());
    }
    out.extend_from_slice(b"volumes ")?;
    spans.push(out)?;
    out.push(b'\n')?;
    Ok(())
}
