//! What is so of checks and verdicts, for any journals and texts.

ghost use Rattle.auditor.specs.Pair.{CheckedOnce, UnbrokenIsShort};
ghost use Rattle.auditor.specs.Texts.{TextsAcceptTheAccepted, OneTextVerdict, AcceptedTextsAreTrue};

use attribution::verdict_is_one;
use book_rules::first_broken_is_one;
use certificate::certificates_are_spelled;
use journal_merge::{one_answer, placing_holds};
use journal_text::text_gives_what_it_spells;

/// Two journals have one answer of `check_pair`, but where a growth is refused.
pub fn pair_is_checked_once()
    ensures { CheckedOnce }
{
    first_broken_is_one();
    one_answer();
    placing_holds();
}

/// Three texts have one verdict, which is that they are accepted exactly where they are.
pub fn text_verdict_is_one()
    ensures accepts { TextsAcceptTheAccepted }
    ensures one { OneTextVerdict }
{
    text_gives_what_it_spells();
    certificates_are_spelled();
    verdict_is_one();
    first_broken_is_one();
    one_answer();
    placing_holds();
}

/// A journal that keeps the rules is short enough to be merged.
pub fn unbroken_is_short()
    ensures { UnbrokenIsShort }
{}

/// What is accepted of three texts is true in every run of the pair that leaves the journals that they spell: the
/// clause
/// `headline` of `audit_bytes`, for whoever reaches the same verdict by another way.
pub fn accepted_texts_are_true()
    ensures { AcceptedTextsAreTrue }
{
    text_gives_what_it_spells();
    certificates_are_spelled();
}
