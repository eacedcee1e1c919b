//! The volumes of files, one behind the other.

ghost use Rattle.std.specs.Prelude.{◌≡◌, ◌∷◌, ◌↔◌, [], IsTrue, IfOk};
ghost use Rattle.volume_join.specs.Joined.{behind_head};
ghost use Rattle.join_desk.specs.Joined.{IsReadBefore, IsLeftOut, IsOutcomeFrom, IsOutcome};

use crate::outcome::{JoinOutcome, refused};
use archive_files::{FilesError, JournalFiles, read_again, read_untorn};
use journal_archive::FiledVolume;
use journal_lines::Line;
use open_volume::VolumeSoFar;
use std::alloc::Global;
use volume_join::{JoinedVolumes, is_published};

/// Returns whether no line stands behind the head lines of a volume.
#[tactic(auto, using(crate::proofs::Outcomes::not_told))]
fn has_nothing_behind(lines: &[Line]) -> bool
    ensures { IsTrue result ↔ (behind_head lines.now ≡ []) }
{
    !is_published(lines)
}

/// The volume that a file has now. Where further ones follow no line of it is still to come, and zero octets in their
/// place are a fault: `Torn`. `Changed` or `Faulty` where it isn't what the archive knows of it.
#[tactic(auto, using(crate::proofs::Outcomes::read_last, crate::proofs::Outcomes::read_before))]
fn read_of<F: JournalFiles>(
    alloc: Global,
    files: &F,
    filed: &FiledVolume,
    later: &[FiledVolume],
) -> Result<VolumeSoFar, FilesError>
    ensures { IfOk result (IsReadBefore (F.had files.now) later.now filed.now) }
{
    if later.is_empty() {
        return read_again(alloc, files, filed);
    }
    read_untorn(alloc, files, filed)
}

/// Returns whether nobody was told of the last volume: no line stands behind its head lines.
fn is_left_out(later: &[FiledVolume], volume: &VolumeSoFar) -> bool
    ensures { IsTrue result ↔ IsLeftOut later.now volume.now }
{
    later.is_empty() && has_nothing_behind(volume.journal.lines.as_slice())
}

/// What comes of a volume that stands alone so far, of this file, and of the further ones.
#[tactic(auto, using(crate::proofs::Outcomes::go_more, crate::proofs::Outcomes::go_begun, crate::proofs::Outcomes::end_left, crate::proofs::Outcomes::end_refused, crate::proofs::Outcomes::end_all))]
fn outcome_from<F: JournalFiles>(
    alloc: Global,
    files: &F,
    begun: JoinedVolumes,
    first: usize,
    later: &[FiledVolume],
) -> Result<JoinOutcome, FilesError>
    ensures { IfOk result (IsOutcomeFrom (F.had files.now) begun 1 first later.now) }
{
    let mut joined = begun;
    let mut count = 1;
    let mut before = first;
    let mut rest = later;
    while let [filed, behind @ ..] = rest {
        let volume = read_of(alloc, files, filed, behind)?;
        if is_left_out(behind, &volume) {
            return Ok(JoinOutcome::Joined(joined.into_journal(), count));
        }
        joined = match joined.followed_by(alloc, &volume.journal) {
            Ok(joined) => joined,
            Err(error) => return refused(before, filed.file, &error),
        };
        count += 1;
        before = filed.file;
        rest = behind;
    }
    Ok(JoinOutcome::Joined(joined.into_journal(), count))
}

/// What comes of the volumes of these files, in their order. `Changed` or `Faulty` where a file isn't what the archive
/// knows of it, `Memory` where a growth was refused.
#[tactic(auto, using(crate::proofs::Outcomes::alone, crate::proofs::Outcomes::alone_refused))]
pub(crate) fn outcome_of<F: JournalFiles>(
    alloc: Global,
    files: &F,
    first: &FiledVolume,
    later: &[FiledVolume],
) -> Result<JoinOutcome, FilesError>
    ensures { IfOk result (IsOutcome (F.had files.now) (first.now ∷ later.now)) }
{
    let volume = read_of(alloc, files, first, later)?;
    match JoinedVolumes::begin(alloc, &volume.journal) {
        Ok(begun) => outcome_from(alloc, files, begun, first.file, later),
        Err(error) => refused(first.file, first.file, &error),
    }
}
