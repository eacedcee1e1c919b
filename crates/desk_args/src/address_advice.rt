//! Why a text is no address of a report, for a person.

use report_addresses::{ReportAddressError, read_report_address};
use std::alloc::{AllocError, Global};

/// What is wrong with the text, and what would do; `None` where it's none of what is read.
fn fault_of(error: ReportAddressError) -> Option<&'static str> {
    match error {
        ReportAddressError::Ipv4Mapped => Some(
            "an IPv4 address mapped into IPv6: the desk is asked of IPv6 prefixes and addresses alone",
        ),
        ReportAddressError::Dotted => Some(
            "with a dot, as IPv4 addresses have: the desk is asked of IPv6 prefixes and addresses alone, in hexadecimal",
        ),
        ReportAddressError::ZoneIndex => Some(
            "with a zone index, as addresses of one link have: no such address is delegated; ask of the global one",
        ),
        ReportAddressError::Port => Some(
            "behind whose brackets no port stands: write [2001:db8::17]:443, or the address alone",
        ),
        ReportAddressError::Length => Some(
            "behind whose slash no length stands: write a number from 0 to 128, or the address alone",
        ),
        ReportAddressError::NoAddress | ReportAddressError::Memory => None,
    }
}

/// Why `who` has no address in this text, which the label names: a sentence for standard error.
pub(crate) fn advice_on_address(
    alloc: Global,
    label: &str,
    text: &str,
    wish: &str,
) -> Result<String, AllocError> {
    if let Err(error) = read_report_address(alloc, text.as_bytes())
        && let Some(fault) = fault_of(error)
    {
        return format!(in alloc; "error: {label} has '{text}', {fault}");
    }
    format!(in alloc; "error: {label} wants {wish}, and has '{text}'")
}
