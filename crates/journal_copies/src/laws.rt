//! What copies have to do with what was shown.

ghost use Rattle.journal_copies.specs.Laws.{CopiesAreWhatWasShown};

use open_volume::text_gives_the_volume_it_spells;
use volume_join::joined_is_legal;

/// The text of volumes, up to the lines that are used of what they showed, is the same text of what was shown; read
/// again, it is a volume so far that the desk closes to the journal that was shown.
pub fn copies_are_what_was_shown()
    ensures { CopiesAreWhatWasShown }
{
    joined_is_legal();
    text_gives_the_volume_it_spells();
}
