//! The twenty rules: what each asks of a line.

mod checking;
pub(crate) mod message;
mod unit;
pub(crate) mod volume;
