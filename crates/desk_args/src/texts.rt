//! Texts of options.

ghost use Rattle.std.specs.Prelude.{◌≡◌, ◌≢◌, ◌↔◌, IsTrue, Some, None, codes};
ghost use Rattle.std.specs.Option.{option_map};
ghost use Rattle.clap.specs.Words.{first_of, rows_of, found_of};
ghost use Rattle.desk_args.specs.Given.{one_of_two, address_text, time_text};
ghost use Rattle.desk_args.specs.Requests.{IsSet};

use clap::ArgMatches;

/// The text of an option, if it is given.
pub(crate) fn text_given<'a>(options: &ArgMatches<'a>, name: &str) -> Option<&'a str>
    ensures { option_map (λ s. s.now) result ≡ first_of name.now (rows_of (found_of options.now)) }
{
    options.get_str(name)
}

/// Returns whether a text is given.
pub(crate) fn is_some(text: Option<&str>) -> bool
    ensures { IsTrue result ↔ (option_map (λ s. s.now) text.entry ≢ None) }
{
    match text {
        Some(_) => true,
        None => false,
    }
}

/// Returns whether a flag's value says that it stands.
fn says_so(word: Option<&str>) -> bool
    ensures { IsTrue result ↔ (option_map (λ s. s.now) word.entry ≡ Some (codes "true")) }
{
    match word {
        Some(word) => word == "true",
        None => false,
    }
}

/// Returns whether a flag stands among the words.
pub(crate) fn is_set(options: &ArgMatches, name: &str) -> bool
    ensures { IsTrue result ↔ IsSet name.now (rows_of (found_of options.now)) }
{
    says_so(text_given(options, name))
}

/// The one of two texts that is given.
fn one_of_two<'a>(first: Option<&'a str>, second: Option<&'a str>) -> Option<&'a str>
    ensures { option_map (λ s. s.now) result
        ≡ one_of_two (option_map (λ s. s.now) first.entry) (option_map (λ s. s.now) second.entry) }
{
    match (first, second) {
        (Some(text), None) => Some(text),
        (None, Some(text)) => Some(text),
        (Some(_), Some(_)) => None,
        (None, None) => None,
    }
}

/// The address of `who`, by its option or its place.
pub(crate) fn address_text<'a>(options: &ArgMatches<'a>) -> Option<&'a str>
    ensures { option_map (λ s. s.now) result ≡ address_text (rows_of (found_of options.now)) }
{
    one_of_two(
        text_given(options, "prefix"),
        text_given(options, "address"),
    )
}

/// The time of `who`, by its option or its place.
pub(crate) fn time_text<'a>(options: &ArgMatches<'a>) -> Option<&'a str>
    ensures { option_map (λ s. s.now) result ≡ time_text (rows_of (found_of options.now)) }
{
    one_of_two(text_given(options, "at"), text_given(options, "time"))
}
