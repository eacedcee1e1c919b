//! A certificate of which a part is known.

ghost use Rattle.std.specs.Prelude.{◌≡◌, ◌∷◌, ◌++◌, ◌==◌, [], length, ◌↔◌, IsTrue, OnOk, option_map};
ghost use Rattle.certificate.specs.Faults.{opened};
ghost use Rattle.certificate.specs.Lines.{with_cleared};
ghost use Rattle.certificate.specs.Parsing.{Fills};

use crate::fields::LineError;
use causal_order::{Certificate, Clear, Foreign, ForeignList, Piece, PieceList};
use client_id::Duid;
use lead_time::Reading;
use prefix_range::Prefix;
use std::alloc::{AllocError, Global};
use std::marker::Model;

/// A certificate whose pieces and other clients' grants are still being added. Contracts see the certificate
/// with those that were added.
#[derive(Drop)]
pub struct Draft {
    holder: Duid,
    prefix: Prefix,
    from: Reading,
    to: Reading,
    pieces: Vec<Piece>,
    foreign: ForeignList,
}

impl Model for Draft {
    ghost use Rattle.causal_order.specs.declared.certificate.Certificate.{Certificate as CertificateValue};

    ghost Value = { CertificateValue };

    ghost view = { λ d. record {
      holder = d.holder;
      prefix = d.prefix;
      from = d.from;
      to = d.to;
      pieces = d.pieces.items;
      foreign = d.foreign;
    } };
}

impl Draft {
    /// The certificate of this holder, prefix and interval, with no piece and no other client's grant yet.
    pub fn new(alloc: Global, holder: Duid, prefix: Prefix, from: Reading, to: Reading) -> Draft
        ensures { result ≡ opened holder prefix (from, to) }
    {
        Draft {
            holder,
            prefix,
            from,
            to,
            pieces: Vec::new(alloc),
            foreign: ForeignList::new(alloc),
        }
    }

    /// Returns whether a piece, or a release behind its piece, may be added: no other client's grant was.
    pub fn takes_pieces(&self) -> bool
        ensures { IsTrue result ↔ (self.now.foreign ≡ []) }
    {
        self.foreign.as_slice().is_empty()
    }

    /// Appends a piece.
    pub fn push_piece(&mut self, piece: Piece) -> Result<(), AllocError>
        ensures { OnOk result (self.new ≡ record self.old { pieces = self.old.pieces ++ piece ∷ [] }) }
    {
        self.pieces.push(piece)?;
        Ok(())
    }

    /// Appends a release to those that do not cut the last piece short: `Form` where there is no piece.
    #[tactic(auto, using(crate::proofs::Clearing::cleared_last), unfolding(crate::specs::Lines::with_cleared))]
    pub fn push_clear(&mut self, clear: Clear) -> Result<(), LineError>
        ensures { Fills (λ _. self.new) result
            (option_map (λ ps. record self.old { pieces = ps }) (with_cleared self.old.pieces clear)) }
    {
        let mut piece = self.pieces.pop().ok_or(LineError::Form)?;
        piece.clear.push(clear)?;
        self.pieces.push(piece)?;
        Ok(())
    }

    /// Appends another client's grant.
    pub fn push_foreign(&mut self, foreign: Foreign) -> Result<(), AllocError>
        ensures { OnOk result (self.new ≡ record self.old { foreign = self.old.foreign ++ foreign ∷ [] }) }
    {
        self.foreign.push(foreign)?;
        Ok(())
    }

    /// The certificate, as far as it is known.
    pub fn finish(self) -> Certificate
        ensures { result ≡ self }
    {
        Certificate {
            holder: self.holder,
            prefix: self.prefix,
            from: self.from,
            to: self.to,
            pieces: PieceList::new(self.pieces),
            foreign: self.foreign,
        }
    }
}
