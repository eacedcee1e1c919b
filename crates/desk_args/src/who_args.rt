//! The words of `who`.

ghost use Rattle.std.specs.Prelude.{◌≡◌, IfOk, IsErrOf, Some, codes};
ghost use Rattle.std.specs.Option.{option_map};
ghost use Rattle.clap.specs.Words.{first_of, rows_of, found_of};
ghost use Rattle.report_addresses.specs.ReportAddresses.{fault_of};
ghost use Rattle.report_addresses.specs.declared.reading.ReportAddress.{ReportAddress as AddressValue};
ghost use Rattle.plain_search.specs.declared.query.HolderQuery.{HolderQuery as HolderQueryValue};
ghost use Rattle.desk_args.specs.Surrounding.{around};
ghost use Rattle.desk_args.specs.Given.{IsAddress, IsHolderQuery, address_text};

use crate::bounds::{skew_given, transit_given};
use crate::error::UsageError;
use crate::surroundings::Surroundings;
use crate::texts::address_text;
use crate::when::when_given;
use clap::ArgMatches;
use plain_search::HolderQuery;
use report_addresses::{ReportAddress, ReportAddressError, read_report_address};
use std::alloc::Global;

/// A text that is no address is no word of `who`.
fn usage_of(error: ReportAddressError) -> UsageError
    ensures { result ≡ UsageError.Usage → fault_of error ≡ Some error }
{
    match error {
        ReportAddressError::Memory => UsageError::Memory,
        ReportAddressError::Ipv4Mapped => UsageError::Usage,
        ReportAddressError::Dotted => UsageError::Usage,
        ReportAddressError::ZoneIndex => UsageError::Usage,
        ReportAddressError::Port => UsageError::Usage,
        ReportAddressError::Length => UsageError::Usage,
        ReportAddressError::NoAddress => UsageError::Usage,
    }
}

/// A prefix or an address as reports spell it.
pub(crate) fn address_in(alloc: Global, text: Option<&str>) -> Result<ReportAddress, UsageError>
    ensures given { IfOk result (IsAddress (option_map (λ s. s.now) text.entry)) }
    ensures none { IsErrOf result UsageError.Usage
        → (address : AddressValue) → IsAddress (option_map (λ s. s.now) text.entry) address → ⊥ }
{
    let Some(text) = text else {
        return Err(UsageError::Usage);
    };
    match read_report_address(alloc, text.as_bytes()) {
        Ok(address) => Ok(address),
        Err(error) => Err(usage_of(error)),
    }
}

/// The address that is asked of.
pub(crate) fn address_given(
    alloc: Global,
    options: &ArgMatches,
) -> Result<ReportAddress, UsageError>
    ensures given { IfOk result (IsAddress (address_text (rows_of (found_of options.now)))) }
    ensures none { IsErrOf result UsageError.Usage
        → (address : AddressValue) → IsAddress (address_text (rows_of (found_of options.now))) address → ⊥ }
{
    address_in(alloc, address_text(options))
}

/// Returns what is asked of the search for a holder.
pub(crate) fn holder_query_given(
    alloc: Global,
    options: &ArgMatches,
    surroundings: &Surroundings,
) -> Result<HolderQuery, UsageError>
    ensures given { IfOk result (IsHolderQuery (around surroundings.now) (rows_of (found_of options.now))) }
    ensures refused { IsErrOf result UsageError.Usage → (query : HolderQueryValue)
        → IsHolderQuery (around surroundings.now) (rows_of (found_of options.now)) query → ⊥ }
{
    let skew = skew_given(options, surroundings.heads).ok_or(UsageError::Usage)?;
    let transit = transit_given(options, surroundings.heads).ok_or(UsageError::Usage)?;
    let at = when_given(alloc, options, surroundings.zone)?;
    let address = address_given(alloc, options)?;
    Ok(HolderQuery {
        prefix: address.prefix,
        at,
        skew,
        transit,
    })
}
