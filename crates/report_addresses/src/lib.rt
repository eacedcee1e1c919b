//! Addresses as reports of abuse spell them.
//!
//! [`read_report_address`] finds the prefix that a text asks of: a prefix, an address (alone, with a port behind
//! brackets, or with a length past which it has bits), which is asked of alone. What of the text was passed over is
//! said ([`AddressNote`]); what no IPv6 address is, is refused by name ([`ReportAddressError`]).
//! specs/ReportAddresses says what spells what.
//!
//! ```text
//! let asked = read_report_address(alloc, b"2001:db8:0:100::/56")?; // the prefix
//! let asked = read_report_address(alloc, b"[2001:db8:0:142::17]:443")?; // 2001:db8:0:142::17/128, PortPassedOver
//! ```
#![tactic(auto)]

mod address;
mod error;
mod reading;

pub use error::ReportAddressError;
pub use reading::{AddressNote, ReportAddress, read_report_address};
