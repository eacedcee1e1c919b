//! All that a book keeps but its pools and units.

use crate::place::Place;
use binding_rules::{Counter, Role};
use lead_time::{Reading, Skew, Transit};

/// The most seconds of a maximum client lead time and of a lifetime: a year of 365 days.
pub const YEAR: u32 = 31_536_000;

/// The greatest count that a later volume may begin with: 2^48.
pub const GREATEST_START: u64 = 281_474_976_710_656;

/// The numbers of a book; specs/Book says what each is.
#[derive(Clone, Copy, Debug)]
pub struct StateNumbers {
    pub role: Role,
    pub volume: u32,
    pub skew: Skew,
    pub mclt: u32,
    pub life: u32,
    pub transit: Transit,
    pub count: u32,
    pub opened: Reading,
    pub reading: Reading,
    pub closed: bool,
    pub place: Place,
    pub term: u32,
    pub serial: Counter,
    pub restart: Counter,
    pub waiting: bool,
    pub asked: Counter,
    pub down: Option<Reading>,
}
