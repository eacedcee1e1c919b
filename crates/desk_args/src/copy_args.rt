//! The words of `copy`.

ghost use Rattle.std.specs.Prelude.{◌≡◌, ℕ, codes, IfSome, None};
ghost use Rattle.clap.specs.Words.{first_of, rows_of, found_of};
ghost use Rattle.desk_args.specs.declared.copy_args.CopyQuery.{CopyQuery as CopyQueryValue};
ghost use Rattle.desk_args.specs.Copies.{IsLineCount, IsCopyQuery};

use crate::command::number_given;
use crate::join_args::{JoinQuery, join_query_given};
use clap::ArgMatches;

/// The most lines of a journal.
const MOST_LINES: u64 = 281_474_976_710_656;

/// Which text is copied.
#[derive(Clone, Copy, Debug, PartialEq, Eq)]
pub struct CopyQuery {
    /// Of which volumes.
    pub volumes: JoinQuery,
    /// Up to this line of the journal that they are together: 1 is the first.
    pub lines: u64,
}

/// Returns how many lines, 1 to 2^48.
pub(crate) fn line_count_given(options: &ArgMatches) -> Option<u64>
    ensures given { IfSome result (IsLineCount (first_of (codes "lines") (rows_of (found_of options.now)))) }
    ensures none { result ≡ None
        → (lines : ℕ) → IsLineCount (first_of (codes "lines") (rows_of (found_of options.now))) lines → ⊥ }
{
    let lines = number_given(options, "lines", MOST_LINES)?;
    if lines == 0 {
        return None;
    }
    Some(lines)
}

/// Returns which text is to be copied.
pub(crate) fn copy_query_given(options: &ArgMatches) -> Option<CopyQuery>
    ensures given { IfSome result (IsCopyQuery (rows_of (found_of options.now))) }
    ensures none { result ≡ None → (query : CopyQueryValue) → IsCopyQuery (rows_of (found_of options.now)) query → ⊥ }
{
    let volumes = join_query_given(options)?;
    let lines = line_count_given(options)?;
    Some(CopyQuery { volumes, lines })
}
