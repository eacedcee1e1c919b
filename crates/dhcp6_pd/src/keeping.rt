//! Keeping what options say, one after the other.

ghost use Rattle.std.specs.Prelude.{Result};
ghost use Rattle.dhcp6_pd.specs.declared.error.PdFault.{PdFault as PdFaultValue};
ghost use Rattle.dhcp6_pd.specs.Options.{DhcpOption};
ghost use Rattle.dhcp6_pd.specs.Rows.{row_of, folded};
ghost use Rattle.dhcp6_pd.specs.Answers.{Gives};
ghost use Rattle.dhcp6_pd.specs.Parsing.{plain};

use crate::error::PdError;
use crate::options::{Options, RawOption};
use std::alloc::Global;

/// What is known of a message, by the options that were parsed.
pub trait OptionSink {
    ghost step: { Self → DhcpOption → Result Self PdFaultValue };

    /// Keeps what an option says.
    fn store_option(&mut self, alloc: Global, option: &RawOption<'_>) -> Result<(), PdError>
        ensures { Gives (λ _. self.new) result (step self.old (plain option.now)) };
}

/// Keeps what all options say that are left, or gives the first fault.
pub fn store_options<K: OptionSink>(
    kept: &mut K,
    alloc: Global,
    options: Options<'_>,
) -> Result<(), PdError>
    ensures { Gives (λ _. kept.new) result (folded K.step kept.old (row_of options.entry.rest.now)) }
{
    let mut options = options;
    while let Some(option) = options.next_option()? {
        kept.store_option(alloc, &option)?;
    }
    Ok(())
}
