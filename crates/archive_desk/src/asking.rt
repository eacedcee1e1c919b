//! The journals that two volumes show, before anything is asked of them.

ghost use Rattle.std.specs.Prelude.{◌≡◌, ◌≢◌, ◌↔◌, [], IsTrue, OnOk};
ghost use Rattle.journal_text.specs.Closed.{IsClosed};
ghost use Rattle.archive_files.specs.Showing.{AreClosed};
ghost use Rattle.archive_desk.specs.Asking.{volume_end, ends_of};

use archive_files::FilesError;
use holder_answers::{VolumeEnd, VolumeEnds};
use journal_archive::{FiledVolume, PairJournals, VolumeEnding, VolumePair};
use journal_lines::Journal;

fn has_lines(journal: &Journal) -> bool
    ensures { IsTrue result ↔ (journal.now.lines ≢ []) }
{
    !journal.lines.as_slice().is_empty()
}

/// Sees that both journals that two volumes show have lines. `Changed` where one of them has none any longer.
pub fn expect_lines(pair: &VolumePair, shown: &PairJournals) -> Result<(), FilesError>
    requires { AreClosed shown.now }
    ensures primary { OnOk result (IsClosed shown.now.primary.lines) }
    ensures secondary { OnOk result (IsClosed shown.now.secondary.lines) }
{
    if !has_lines(&shown.primary) {
        return Err(FilesError::Changed {
            file: pair.primary.file,
        });
    }
    if !has_lines(&shown.secondary) {
        return Err(FilesError::Changed {
            file: pair.secondary.file,
        });
    }
    Ok(())
}

fn volume_end(volume: &FiledVolume) -> VolumeEnd
    ensures { result ≡ volume_end volume.now }
{
    match volume.outline.ending {
        VolumeEnding::Closed => VolumeEnd::Closed,
        VolumeEnding::GoesOn => VolumeEnd::Open,
    }
}

/// Which of two volumes their servers still write.
pub fn ends_of(pair: &VolumePair) -> VolumeEnds
    ensures { result ≡ ends_of pair.now }
{
    VolumeEnds {
        primary: volume_end(&pair.primary),
        secondary: volume_end(&pair.secondary),
    }
}
