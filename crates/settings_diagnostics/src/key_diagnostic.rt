//! A complaint about one key, in words for a person.

use crate::key_rule::{KeyRule, ValueFault};
use std::fmt;
use std::fmt::Write;

/// The table that has a key.
#[derive(Clone, Copy, Debug, PartialEq, Eq)]
pub enum KeyTable {
    /// The document's own.
    Top,
    /// That of the pool with so many before it.
    Pool(usize),
}

/// A key that isn't as wanted, and the fault of what is there.
#[derive(Clone, Copy, Debug, PartialEq, Eq)]
pub struct KeyDiagnostic {
    pub place: KeyTable,
    pub wanted: KeyRule,
    pub fault: ValueFault,
}

impl fmt::Display for KeyTable {
    fn fmt<W: Write>(&self, f: &mut fmt::Formatter<W>) -> fmt::Result {
        match self {
            KeyTable::Top => Ok(()),
            KeyTable::Pool(before) => {
                let number = before.saturating_add(1);
                write!(f, "pool {number}: ")
            }
        }
    }
}

impl fmt::Display for KeyDiagnostic {
    fn fmt<W: Write>(&self, f: &mut fmt::Formatter<W>) -> fmt::Result {
        let (place, key, wish) = (&self.place, &self.wanted.key, &self.wanted.wish);
        match self.fault {
            ValueFault::Missing => write!(f, "{place}{key}: is missing, wants {wish}"),
            ValueFault::Kind => write!(f, "{place}{key}: wants {wish}, has another kind of value"),
            ValueFault::Text => write!(f, "{place}{key}: wants {wish}, has another text"),
            ValueFault::Outside(found) => write!(f, "{place}{key}: wants {wish}, has {found}"),
            ValueFault::Count(found) => write!(f, "{place}{key}: wants {wish}, has {found}"),
        }
    }
}
