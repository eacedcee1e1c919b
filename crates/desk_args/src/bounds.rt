//! The bounds on clocks and answers.

ghost use Rattle.std.specs.Prelude.{◌≡◌, ℕ, IfSome, Some, None, codes};
ghost use Rattle.std.specs.Option.{option_map};
ghost use Rattle.clap.specs.Words.{first_of, rows_of, found_of};
ghost use Rattle.desk_args.specs.Given.{IsSkew, IsTransit};

use crate::command::number_in;
use crate::texts::text_given;
use clap::ArgMatches;
use lead_time::{Skew, Transit};

/// What the heads of journals say of their servers' clocks and answers.
#[derive(Clone, Copy, Debug, PartialEq, Eq)]
pub struct HeadBounds {
    pub skew: Skew,
    pub transit: Transit,
}

/// The skew of a text.
fn skew_in(text: &str) -> Option<Skew>
    ensures given { IfSome result (IsSkew None (Some text.now)) }
    ensures none { result ≡ None → (skew : ℕ) → IsSkew None (Some text.now) skew → ⊥ }
{
    Skew::new(number_in(text, Skew::MAX)?).ok()
}

/// The skew of a text, or where none is given of the heads.
fn skew_by(heads: Option<HeadBounds>, text: Option<&str>) -> Option<Skew>
    ensures given { IfSome result (IsSkew heads (option_map (λ s. s.now) text.entry)) }
    ensures none { result ≡ None → (skew : ℕ) → IsSkew heads (option_map (λ s. s.now) text.entry) skew → ⊥ }
{
    match (text, heads) {
        (Some(text), _) => skew_in(text),
        (None, Some(heads)) => Some(heads.skew),
        (None, None) => None,
    }
}

/// The skew, in milliseconds, of at most a day.
pub(crate) fn skew_given(options: &ArgMatches, heads: Option<HeadBounds>) -> Option<Skew>
    ensures given { IfSome result (IsSkew heads (first_of (codes "skew-ms") (rows_of (found_of options.now)))) }
    ensures none { result ≡ None
        → (skew : ℕ) → IsSkew heads (first_of (codes "skew-ms") (rows_of (found_of options.now))) skew → ⊥ }
{
    skew_by(heads, text_given(options, "skew-ms"))
}

/// The transit of a text.
fn transit_in(text: &str) -> Option<Transit>
    ensures given { IfSome result (IsTransit None (Some text.now)) }
    ensures none { result ≡ None → (transit : ℕ) → IsTransit None (Some text.now) transit → ⊥ }
{
    Transit::new(number_in(text, Transit::MAX)?).ok()
}

/// The transit of a text, or where none is given of the heads, or none.
fn transit_by(heads: Option<HeadBounds>, text: Option<&str>) -> Option<Transit>
    ensures given { IfSome result (IsTransit heads (option_map (λ s. s.now) text.entry)) }
    ensures none { result ≡ None → (transit : ℕ) → IsTransit heads (option_map (λ s. s.now) text.entry) transit → ⊥ }
{
    match (text, heads) {
        (Some(text), _) => transit_in(text),
        (None, Some(heads)) => Some(heads.transit),
        (None, None) => Some(Transit::ZERO),
    }
}

/// The transit, in milliseconds, of at most an hour.
pub(crate) fn transit_given(options: &ArgMatches, heads: Option<HeadBounds>) -> Option<Transit>
    ensures given { IfSome result (IsTransit heads (first_of (codes "transit-ms") (rows_of (found_of options.now)))) }
    ensures none { result ≡ None → (transit : ℕ)
        → IsTransit heads (first_of (codes "transit-ms") (rows_of (found_of options.now))) transit → ⊥ }
{
    transit_by(heads, text_given(options, "transit-ms"))
}
