//! Which journals of some files answer a question, whatever device has the files.
//!
//! [`catalogue_of`] looks at the edges of each file and says what it is: the outline of a volume, for the archive, or
//! why it's passed over. Only where the edges don't tell, or two files have one volume, is a file read whole.
//! [`shown_at`] chooses the pair of volumes that shows a moment, reads these two whole, and gives the two journals that
//! they show, or says what is lacking; a file with another volume than its edges said is refused there, and so is a
//! volume that begins otherwise than the one before it names, where that lies beside (specs/Showing). The contracts
//! speak of octets that a file had when it was read (`had` of [`JournalFiles`]): a file that a server writes on may
//! have others each time.
//!
//! All volumes of one server begin with the same settings, and so do its partner's where the two are set up alike:
//! where they differ the files are of two pairs (`FilesError::OtherPair`). [`SettingsScope`] says whether the partner's
//! are asked.
//!
//! Two files with one volume of a side count once where they are copies. Where their outlines differ (first and last
//! reading, octets, and whether it's closed) nothing is answered: `ArchiveError::Differ`. Where these are the same both
//! are read whole and compared when the catalogue is made, as far as both go and no farther than they were outlined:
//! where they differ nothing is answered either.
//!
//! [`read_untorn`] reads a volume that a further one follows: zero octets before its close line are a fault of its file
//! (specs/Torn).
//!
//! ```text
//! let catalogue = catalogue_of(alloc, &files, SettingsScope::OfBoth)?;
//! match shown_at(alloc, &files, &catalogue.archive, moment, skew, transit)? {
//!     ShownJournals::Journals(pair, shown) => .., // two closed journals, and which files they are of
//!     ShownJournals::Lacking(side, lack) => ..,
//! }
//! ```
#![tactic(auto)]

mod cataloguing;
mod copies;
mod error;
mod file_content;
mod files;
mod laws;
mod neighbours;
mod reaching;
mod settings_check;
mod showing;

pub use cataloguing::{Catalogue, SkippedFile, catalogue_of};
pub use error::FilesError;
pub use file_content::FileContent;
pub use files::{JournalFiles, Unreadable};
pub use journal_archive::FileEnd;
pub use laws::what_is_shown_is_what_is_asked;
pub use reaching::shown_until;
pub use settings_check::SettingsScope;
pub use showing::{ShownJournals, read_again, read_untorn, shown_at, shown_by};
