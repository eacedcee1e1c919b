//! Groups of an address, as they are read.

ghost use Rattle.std.specs.Prelude.{◌≡◌, ◌≤◌, [], length};
ghost use Rattle.text_fields.specs.Parsing.{Finds};
ghost use Rattle.prefix_range.specs.Parsing.{with_one, padded, whole};

use std::marker::Model;

/// Groups of 16 bits, at most the eight of an address, from the first on. Contracts see the list of them.
#[derive(Drop)]
pub(crate) struct Row {
    count: usize,
    address: u128,
}

impl Model for Row {
    ghost use Rattle.std.specs.Prelude.{List, ℕ};
    ghost use Rattle.prefix_range.specs.Text.{groups_of};
    ghost use Rattle.prefix_range.specs.RowOf.{IsRow};

    ghost Value = { List ℕ };

    ghost view = { λ r. groups_of r.count r.address };

    ghost invariant = { λ r. IsRow r.count r.address };
}

impl Row {
    #[tactic(auto, using(crate::proofs::Rows::none_row, crate::proofs::Rows::none_is))]
    pub(crate) fn none() -> Row
        ensures { result ≡ [] }
    {
        Row {
            count: 0,
            address: 0,
        }
    }

    #[tactic(auto, using(crate::proofs::Rows::count_is))]
    pub(crate) fn len(&self) -> usize
        ensures value { result ≡ length self.now }
        ensures few { result ≤ 8 }
    {
        self.count
    }

    /// With one group more, where there are fewer than eight.
    #[tactic(auto, using(crate::proofs::Rows::with_row, crate::proofs::Rows::with_is, crate::proofs::Rows::with_none, crate::proofs::Rows::with_fits,))]
    pub(crate) fn with(self, group: u16) -> Option<Row>
        ensures { Finds (λ r. r) result (with_one self group) }
    {
        if self.count >= 8 {
            return None;
        }
        Some(Row {
            count: self.count + 1,
            address: self.address * 65536 + u128::from(group),
        })
    }

    /// With so many groups of zeros.
    #[tactic(auto, using(crate::proofs::Rows::pad_step, crate::proofs::Rows::pad_end))]
    pub(crate) fn padded(self, zeros: usize) -> Option<Row>
        ensures { Finds (λ r. r) result (padded self zeros) }
    {
        let mut row = self;
        for _ in 0..zeros {
            row = row.with(0)?;
        }
        Some(row)
    }

    /// The address of eight groups.
    #[tactic(auto, using(crate::proofs::Rows::whole_is, crate::proofs::Rows::whole_none))]
    pub(crate) fn whole(self) -> Option<u128>
        ensures { Finds (λ a. a) result (whole self) }
    {
        if self.count == 8 {
            Some(self.address)
        } else {
            None
        }
    }
}
