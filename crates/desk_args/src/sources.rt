//! Where the journals and certificates of a question come from.

ghost use Rattle.std.specs.Prelude.{◌≡◌, ◌↔◌, IsTrue, IfOk, IsErrOf, map, option_map};
ghost use Rattle.clap.specs.Words.{rows_of, found_of};
ghost use Rattle.desk_args.specs.declared.sources.InputSource.{InputSource as SourceValue};
ghost use Rattle.desk_args.specs.Sources.{Judges, IsSourceBy, IsFrom, IsFromNowhere};

use crate::error::UsageError;
use clap::ArgMatches;
use std::alloc::Global;

/// Where the texts of a question come from.
#[derive(Debug, Drop)]
pub enum InputSource<'a> {
    /// All of them from standard input, one after the other.
    Input,
    /// The journals from files at these paths, or in these directories.
    Journals(Vec<&'a str>),
    /// The journals in the same way, and the certificates from the file at this path.
    Certified(Vec<&'a str>, &'a str),
}

/// Returns whether the command of this name judges certificates.
fn judges(name: &str) -> bool
    ensures { IsTrue result ↔ Judges name.now }
{
    name == "audit" || name == "batch" || name == "explain"
}

/// The paths of an option.
fn paths_in<'a>(alloc: Global, paths: &[&'a str]) -> Result<Vec<&'a str>, UsageError>
    ensures paths { IfOk result (λ v. v.items ≡ paths.now) }
    ensures refused { IsErrOf result UsageError.Usage → ⊥ }
{
    match Vec::from_slice(alloc, paths) {
        Ok(paths) => Ok(paths),
        Err(_) => Err(UsageError::Memory),
    }
}

/// The source that these paths of journals and this path of certificates are, for the command of this name.
fn source_of<'a>(
    alloc: Global,
    name: &str,
    journals: Option<&[&'a str]>,
    certificate: Option<&'a str>,
) -> Result<InputSource<'a>, UsageError>
    ensures given { IfOk result (IsSourceBy (Judges name.now) (option_map (λ s. map (λ p. p.now) s.now) journals.entry)
        (option_map (λ s. s.now) certificate.entry)) }
    ensures refused { IsErrOf result UsageError.Usage → (source : SourceValue)
        → IsSourceBy (Judges name.now) (option_map (λ s. map (λ p. p.now) s.now) journals.entry)
        (option_map (λ s. s.now) certificate.entry) source → ⊥ }
{
    match (journals, certificate) {
        (None, None) => Ok(InputSource::Input),
        (None, Some(_)) => Err(UsageError::Usage),
        (Some(paths), None) => {
            if judges(name) {
                return Err(UsageError::Usage);
            }
            Ok(InputSource::Journals(paths_in(alloc, paths)?))
        }
        (Some(paths), Some(certificate)) => {
            if !judges(name) {
                return Err(UsageError::Usage);
            }
            Ok(InputSource::Certified(paths_in(alloc, paths)?, certificate))
        }
    }
}

/// Where a command with these options finds its texts: `Usage` where certificates are named without journals, or the
/// other way round; `Memory` where a growth was refused.
pub(crate) fn source_given<'a>(
    alloc: Global,
    name: &str,
    options: &ArgMatches<'a>,
) -> Result<InputSource<'a>, UsageError>
    ensures given { IfOk result (IsFrom (name.now, rows_of (found_of options.now))) }
    ensures refused { IsErrOf result UsageError.Usage → IsFromNowhere (name.now, rows_of (found_of options.now)) }
{
    source_of(
        alloc,
        name,
        options.get_strs("journals"),
        options.get_str("certificate"),
    )
}
