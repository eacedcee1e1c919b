//! No limits.

ghost use Rattle.std.specs.Prelude.{◌≡◌, []};

use crate::permit::{Admission, DropReason, Permit};
use dhcp6_pd::ClientMessage;
use lead_time::Reading;
use order_book::Book;
use std::alloc::Global;

/// Lets everything be ordered, and hears every message.
#[derive(Clone, Copy, Debug)]
pub struct AllowAll {
    pub alloc: Global,
}

impl Admission for AllowAll {
    ghost lets = { λ _ book now message permits. permits ≡ [] };

    ghost drops = { λ _ book now message why. ⊥ };

    fn permits(
        &mut self,
        _book: &Book,
        _now: Reading,
        _message: &ClientMessage,
    ) -> Result<Vec<Permit>, DropReason> {
        Ok(Vec::new(self.alloc))
    }

    fn record_outcome(&mut self, _book: &Book, _message: &ClientMessage) {}
}
