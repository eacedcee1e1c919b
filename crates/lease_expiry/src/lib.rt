//! When a running server ends leases that have ended: none that its partner may have renewed.
//!
//! A [`RenewalView`] says what a server knows of its partner's renewals: by what reading a lease has to have ended, so that
//! it may be ended now. [`end_leases`] ends those, the lowest first, and not more than 64 at once.
//!
//! ```text
//! let view = renewal_view(&running, is_alone, is_heard);
//! end_leases(&mut running, &settings, &view, now);
//! ```
#![tactic(auto)]

mod ending;
mod view;

pub use ending::end_leases;
pub use view::{RenewalView, renewal_view};
