//! Lists inside records.
//!
//! A journal holds lines, a certificate pieces, a message relays: each such list is a `Listed`, which contracts see as
//! the list of its items in order. What it promises stands at its calls.
//!
//! ```text
//! let chain: Chain = Listed::new(vec![in alloc; first, second]?);
//! for line in chain.as_slice() { .. }
//! ```

ghost use Rattle.std.specs.Prelude.{◌≡◌, ◌∷◌, ◌++◌, [], IfErr, OnOk};

use std::alloc::AllocError;
use std::marker::Model;

/// Items in order, held by a record or a variant. Contracts see the list.
#[derive(Debug, Drop)]
pub struct Listed<T> {
    items: Vec<T>,
}

impl<T> Model for Listed<T> {
    ghost use Rattle.std.specs.Prelude.{List};

    ghost Value = { List T };

    ghost view = { λ l. l.items.items };
}

impl<T> Listed<T> {
    /// The items of a vector.
    pub fn new(items: Vec<T>) -> Listed<T>
        ensures { result ≡ items.items }
    {
        Listed { items }
    }

    /// The items, lent.
    pub fn as_slice(&self) -> &[T]
        ensures { result.now ≡ self.now }
    {
        &self.items
    }
}

impl<T: Drop> Listed<T> {
    /// Appends an item. Where the growth is refused the list is as it was.
    pub fn push(&mut self, item: T) -> Result<(), AllocError>
        ensures pushed { OnOk result (self.new ≡ self.old ++ item ∷ []) }
        ensures refused { IfErr result (λ _. self.new ≡ self.old) }
    {
        self.items.push(item)?;
        Ok(())
    }
}
