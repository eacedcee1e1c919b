//! What the heads of all journals say.

ghost use Rattle.std.specs.Prelude.{◌≡◌, ◌<◌, ◌≢◌, IfOk, IfErr, IfSome};
ghost use Rattle.journal_heads.specs.Heads.{SaysBounds, IsSaid, IsWhyNot};

use crate::fault::HeadsFault;
use crate::head::said_by;
use archive_files::JournalFiles;
use desk_args::HeadBounds;
use std::alloc::Global;

/// The bounds that a file says, and which one.
#[derive(Clone, Copy, Debug, PartialEq, Eq)]
struct FileBounds {
    file: usize,
    bounds: HeadBounds,
}

/// What is known once one more file says bounds: the same. `Differ` where it says others.
fn agreed<F: JournalFiles>(
    files: &F,
    known: &Option<FileBounds>,
    said: &FileBounds,
) -> Result<FileBounds, HeadsFault>
    requires known { IfSome known.now (λ k. (k.file < F.files files.now) × SaysBounds (F.had files.now k.file) k.bounds) }
    requires within { said.now.file < F.files files.now }
    requires said { SaysBounds (F.had files.now said.now.file) said.now.bounds }
    ensures agreed { IfOk result (λ k. (k.file < F.files files.now) × SaysBounds (F.had files.now k.file) k.bounds) }
    ensures same { IfOk result (λ k. k.bounds ≡ said.now.bounds) }
    ensures why { IfErr result (IsWhyNot (F.had files.now) (F.files files.now)) }
{
    match known {
        Some(known) if known.bounds != said.bounds => Err(HeadsFault::Differ {
            first: known.file,
            second: said.file,
        }),
        Some(known) => Ok(*known),
        None => Ok(*said),
    }
}

/// The bounds that all journals of some files say alike. `Differ` where two say different ones, `Silent` where no file
/// says any, `Memory` where a growth was refused.
pub fn bounds_said<F: JournalFiles>(alloc: Global, files: &F) -> Result<HeadBounds, HeadsFault>
    ensures said { IfOk result (IsSaid (F.had files.now) (F.files files.now)) }
    ensures why { IfErr result (IsWhyNot (F.had files.now) (F.files files.now)) }
{
    let mut known = None;
    for file in 0..files.count() {
        if let Some(bounds) = said_by(alloc, files, file)? {
            known = Some(agreed(files, &known, &FileBounds { file, bounds })?);
        }
    }
    match known {
        Some(FileBounds { bounds, .. }) => Ok(bounds),
        None => Err(HeadsFault::Silent),
    }
}
