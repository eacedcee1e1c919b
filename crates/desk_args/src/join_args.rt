//! The words of `join`.

ghost use Rattle.std.specs.Prelude.{◌≡◌, ◌↔◌, ℕ, Option, codes, IfSome, IsTrue, Some, None};
ghost use Rattle.clap.specs.Words.{first_of, rows_of, found_of};
ghost use Rattle.binding_rules.specs.declared.role.Role.{Role as RoleValue};
ghost use Rattle.desk_args.specs.declared.join_args.JoinQuery.{JoinQuery as JoinQueryValue};
ghost use Rattle.desk_args.specs.Joins.{IsSide, IsVolumeOrNone, AreInOrder, IsJoinQuery};

use crate::command::number_in;
use binding_rules::Role;
use clap::ArgMatches;

/// The greatest number of a volume.
const MOST_VOLUMES: u64 = 1_048_576;

/// Which volumes are put together.
#[derive(Clone, Copy, Debug, PartialEq, Eq)]
pub struct JoinQuery {
    /// Whose.
    pub side: Role,
    /// The number of the first, if it is named.
    pub from: Option<u32>,
    /// The number of the last, if it is named.
    pub to: Option<u32>,
}

fn side_in(text: &str) -> Option<Role>
    ensures given { IfSome result (IsSide (Some text.now)) }
    ensures none { result ≡ None → (side : RoleValue) → IsSide (Some text.now) side → ⊥ }
{
    if text == "A" {
        Some(Role::Primary)
    } else if text == "B" {
        Some(Role::Secondary)
    } else {
        None
    }
}

/// The side, `A` or `B`.
pub(crate) fn side_given(options: &ArgMatches) -> Option<Role>
    ensures given { IfSome result (IsSide (first_of (codes "side") (rows_of (found_of options.now)))) }
    ensures none { result ≡ None
        → (side : RoleValue) → IsSide (first_of (codes "side") (rows_of (found_of options.now))) side → ⊥ }
{
    side_in(options.get_str("side")?)
}

fn volume_in(text: &str) -> Option<u32>
    ensures given { IfSome result (λ n. IsVolumeOrNone (Some text.now) (Some n)) }
    ensures none { result ≡ None → (n : Option ℕ) → IsVolumeOrNone (Some text.now) n → ⊥ }
{
    let number = number_in(text, MOST_VOLUMES)?;
    if number == 0 {
        return None;
    }
    Some(number as u32)
}

/// The number of a volume, or none where it isn't named. `None` where it is no volume's.
pub(crate) fn volume_given(options: &ArgMatches, name: &str) -> Option<Option<u32>>
    ensures given { IfSome result (IsVolumeOrNone (first_of name.now (rows_of (found_of options.now)))) }
    ensures none { result ≡ None
        → (n : Option ℕ) → IsVolumeOrNone (first_of name.now (rows_of (found_of options.now))) n → ⊥ }
{
    match options.get_str(name) {
        Some(text) => {
            let volume = volume_in(text)?;
            Some(Some(volume))
        }
        None => Some(None),
    }
}

fn are_in_order(from: Option<u32>, to: Option<u32>) -> bool
    ensures { IsTrue result ↔ AreInOrder from to }
{
    match (from, to) {
        (Some(from), Some(to)) => from <= to,
        _ => true,
    }
}

/// Returns which volumes are to be put together.
pub(crate) fn join_query_given(options: &ArgMatches) -> Option<JoinQuery>
    ensures given { IfSome result (IsJoinQuery (rows_of (found_of options.now))) }
    ensures none { result ≡ None → (query : JoinQueryValue) → IsJoinQuery (rows_of (found_of options.now)) query → ⊥ }
{
    let side = side_given(options)?;
    let from = volume_given(options, "from")?;
    let to = volume_given(options, "to")?;
    if !are_in_order(from, to) {
        return None;
    }
    Some(JoinQuery { side, from, to })
}
