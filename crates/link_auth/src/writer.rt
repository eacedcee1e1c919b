//! The sending end of a direction.

ghost use Rattle.std.specs.Prelude.{◌≡◌, ◌+◌, ◌^◌, ◌≤◌, ◌⊎◌, ◌++◌, [], length, IfOk, IfErr, OnOk, OnErr};
ghost use Rattle.link_auth.specs.Records.{record_of, Sends};
ghost use Rattle.link_auth.specs.Parsing.{Written};

use crate::code::{MOST, record_mac};
use crate::fault::LinkFault;
use std::alloc::{AllocError, Global};
use std::marker::Model;

/// Appends the record of a piece.
#[tactic(auto, unfolding(crate::specs::Records::record_of))]
fn put_record(
    key: &[u8; 32],
    number: u64,
    piece: &[u8],
    out: &mut Vec<u8>,
) -> Result<(), AllocError>
    requires { length piece.now ≤ MOST }
    ensures { OnOk result (out.new.items ≡ out.old.items ++ record_of key.now number piece.now) }
{
    out.extend_from_slice(&(piece.len() as u16).to_be_bytes())?;
    out.extend_from_slice(piece)?;
    out.extend_from_slice(&record_mac(key, number, piece))
}

/// Appends the records of octets, cut into pieces, from this number on. Answers the number of the next record.
fn put_records(
    key: &[u8; 32],
    mut number: u64,
    octets: &[u8],
    out: &mut Vec<u8>,
) -> Result<u64, LinkFault>
    requires { out.old.items ≡ [] }
    ensures written { IfOk result (λ next. Written key.now number octets.now out.new.items next []) }
    ensures fault { IfErr result (λ e. (e ≡ LinkFault.Memory)
        ⊎ ((e ≡ LinkFault.Spent) × (2 ^ 64 ≤ number + length octets.now))) }
{
    let mut rest = octets;
    while !rest.is_empty() {
        let Some(next) = number.checked_add(1) else {
            return Err(LinkFault::Spent);
        };
        let (piece, behind) = rest.split_at(rest.len().min(MOST));
        put_record(key, number, piece, out)?;
        number = next;
        rest = behind;
    }
    Ok(number)
}

/// The sending end of a direction. Contracts see its key and the number of the next record.
#[derive(Drop)]
pub struct RecordWriter {
    key: [u8; 32],
    number: u64,
    alloc: Global,
}

impl Model for RecordWriter {
    ghost use Rattle.link_auth.specs.Records.{Sender};

    ghost Value = { Sender };

    ghost view = { λ w. record { key = w.key; number = w.number } };
}

impl RecordWriter {
    /// The end of a direction with this key, over which nothing has gone yet.
    pub(crate) fn new(alloc: Global, key: [u8; 32]) -> RecordWriter
        ensures { result ≡ record { key = key; number = 0 } }
    {
        RecordWriter {
            key,
            number: 0,
            alloc,
        }
    }

    /// The records of octets, to be sent behind all others. `Spent` where no number is left, `Memory` where a growth
    /// was refused: then none is to be sent, and the next may have the same number.
    pub fn write(&mut self, octets: &[u8]) -> Result<Vec<u8>, LinkFault>
        ensures sent { IfOk result (λ records. Sends self.old octets.now records.items self.new) }
        ensures fault { IfErr result (λ e. (e ≡ LinkFault.Memory)
            ⊎ ((e ≡ LinkFault.Spent) × (2 ^ 64 ≤ self.old.number + length octets.now))) }
        ensures kept { OnErr result (self.new ≡ self.old) }
    {
        let mut out = Vec::new(self.alloc);
        self.number = put_records(&self.key, self.number, octets, &mut out)?;
        Ok(out)
    }
}
