//! Copies of journals whose servers go on.

ghost use Rattle.std.specs.Prelude.{⊤, length};

use archive_files::{
    FileContent, FileEnd, FilesError, JournalFiles, SettingsScope, ShownJournals, Unreadable,
    catalogue_of, shown_at,
};
use journal_archive::{Archive, ArchiveError, PairJournals};
use journal_lines::Journal;
use journal_text::write;
use lead_time::{Skew, Transit};
use std::alloc::Global;
use std::process::Abort;
use std::test::Fail;

/// Files that are texts in memory.
#[derive(Drop)]
struct Texts<'a> {
    texts: &'a [&'a str],
}

impl Texts<'_> {
    /// All octets of a file.
    fn octets(&self, alloc: Global, file: usize) -> Result<Vec<u8>, Unreadable> {
        let text = self.texts.get(file).ok_or(Unreadable::Device)?;
        Vec::from_slice(alloc, text.as_bytes()).map_err(|_| Unreadable::Memory)
    }
}

impl JournalFiles for Texts<'_> {
    ghost had = { λ s file octets. ⊤ };

    ghost files = { λ s. length s.texts.now };

    fn count(&self) -> usize {
        self.texts.len()
    }

    fn read(&self, alloc: Global, file: usize) -> Result<Vec<u8>, Unreadable> {
        self.octets(alloc, file)
    }

    #[tactic(auto, using(archive_files::proofs::AnyParts::any_beginning))]
    fn beginning(&self, alloc: Global, file: usize, _octets: u32) -> Result<Vec<u8>, Unreadable> {
        self.octets(alloc, file)
    }

    #[tactic(auto, using(archive_files::proofs::AnyParts::any_end))]
    fn end(&self, alloc: Global, file: usize, _octets: u32) -> Result<FileEnd, Unreadable> {
        let octets = self.octets(alloc, file)?;
        let size = octets.len() as u64;
        Ok(FileEnd { size, octets })
    }
}

/// The primary took a message that its partner's copy has, and the copy stops within a line.
const PRIMARY: &str = "\
pd-journal 1 A
1 1000 open 500 3600 3600
2 9000 take 0 1 contact 0 0
3 9500 state normal
4 96";

/// As many octets, and the same lines at both ends: it took another message.
const PRIMARY_ALTERED: &str = "\
pd-journal 1 A
1 1000 open 500 3600 3600
2 9000 take 0 2 contact 0 0
3 9500 state normal
4 96";

/// The secondary took a message that the primary's copy doesn't have yet.
const SECONDARY: &str = "\
pd-journal 1 B
1 1000 open 500 3600 3600
2 8000 send 0 1 contact 0 0
3 9900 take 0 7 contact 0 0
\0\0\0";

/// Both are closed: the primary's behind its last whole line, its partner's behind the last that it bears out.
const PRIMARY_SHOWN: &str = "\
pd-journal 1 A
1 1000 open 500 3600 3600
2 9000 take 0 1 contact 0 0
3 9500 state normal
4 9500 close
end 4
";

const SECONDARY_SHOWN: &str = "\
pd-journal 1 B
1 1000 open 500 3600 3600
2 8000 send 0 1 contact 0 0
3 8000 close
end 3
";

/// The journals that the copies show of 5000.
fn shown_of(alloc: Global, texts: &Texts<'_>, archive: &Archive) -> Result<PairJournals, Fail> {
    let skew = Skew::new(500)?;
    match shown_at(alloc, texts, archive, 5000, skew, Transit::ZERO)? {
        ShownJournals::Journals(_pair, shown) => Ok(shown),
        ShownJournals::Lacking(..) => Err(Fail::from("no pair shows it")),
    }
}

/// That a journal has this text.
fn check_text(rt: &impl Abort, alloc: Global, journal: &Journal, text: &str) -> Result<(), Fail> {
    let written = write(alloc, journal.role, journal.head, journal.lines.as_slice())?;
    assert_eq!(rt; written.as_slice(), text.as_bytes());
    Ok(())
}

#[test]
fn shows_two_copies_as_far_as_each_bears_out_the_other(rt: HostRuntime) -> Result<(), Fail> {
    let texts = Texts {
        texts: &["", SECONDARY, "no journal\n", PRIMARY],
    };
    let catalogue = catalogue_of(rt.alloc(), &texts, SettingsScope::OfBoth)?;
    assert_eq!(rt; catalogue.passed_over.len(), 2);
    assert!(rt; matches!(catalogue.passed_over[1].found, FileContent::NoJournal));
    let shown = shown_of(rt.alloc(), &texts, &catalogue.archive)?;
    check_text(&rt, rt.alloc(), &shown.primary, PRIMARY_SHOWN)?;
    check_text(&rt, rt.alloc(), &shown.secondary, SECONDARY_SHOWN)
}

#[test]
fn refuses_two_copies_of_one_volume_that_differ_within(rt: HostRuntime) -> Result<(), Fail> {
    let same = Texts {
        texts: &[PRIMARY, SECONDARY, PRIMARY],
    };
    let catalogue = catalogue_of(rt.alloc(), &same, SettingsScope::OfBoth)?;
    assert_eq!(rt; catalogue.archive.primary.volumes().len(), 1);
    let altered = Texts {
        texts: &[PRIMARY, SECONDARY, PRIMARY_ALTERED],
    };
    let refused = catalogue_of(rt.alloc(), &altered, SettingsScope::OfBoth);
    assert!(rt;
        matches!(
            refused,
            Err(FilesError::Archive(ArchiveError::Differ {
                first: 0,
                second: 2
            }))
        )
    );
    Ok(())
}
