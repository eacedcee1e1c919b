//! The receiving end of a direction.

ghost use Rattle.std.specs.Prelude.{◌≡◌, ◌+◌, ◌⊎◌, ◌++◌, ℕ, List, [], length, take, IfOk, IfErr, OnOk, OnErr};
ghost use Rattle.std.specs.List.{concat};
ghost use Rattle.link_auth.specs.Records.{Splits, Breaks, Receives, IsPartial};
ghost use Rattle.link_auth.specs.Parsing.{Taken};

use crate::cursor::Cursor;
use crate::fault::LinkFault;
use std::alloc::Global;
use std::marker::Model;

/// Takes the whole records in front, and puts the octets of their pieces behind `octets`.
fn take_records(
    key: &[u8; 32],
    cursor: &mut Cursor<'_>,
    octets: &mut Vec<u8>,
) -> Result<(), LinkFault>
    requires { octets.old.items ≡ [] }
    ensures taken { OnOk result (Taken key.now cursor.old octets.new.items cursor.new) }
    ensures partial { OnOk result (IsPartial cursor.new.rest) }
    ensures fault { IfErr result (λ e. (e ≡ LinkFault.Memory) ⊎ Breaks key.now cursor.old.number cursor.old.rest e) }
{
    while let Some(piece) = cursor.next_piece(key)? {
        octets.extend_from_slice(piece)?;
    }
    Ok(())
}

/// What a chunk completed.
#[derive(Drop)]
struct Completed {
    octets: Vec<u8>,
    /// The number of the next record.
    number: u64,
}

/// The octets of the records that the octets held and the chunk complete. At an `Err` octets may stand behind those
/// held.
fn take_chunk(
    alloc: Global,
    key: &[u8; 32],
    number: u64,
    held: &mut Vec<u8>,
    chunk: &[u8],
) -> Result<Completed, LinkFault>
    ensures ok { IfOk result (λ done. (pieces : List (List ℕ))
        × Splits key.now number (held.old.items ++ chunk.now) pieces held.new.items
        × (done.number ≡ number + length pieces) × (done.octets.items ≡ concat pieces)) }
    ensures fault { IfErr result (λ e.
        (e ≡ LinkFault.Memory) ⊎ Breaks key.now number (held.old.items ++ chunk.now) e) }
    ensures err { OnErr result (take (length held.old.items) held.new.items ≡ held.old.items) }
{
    held.extend_from_slice(chunk)?;
    let mut cursor = Cursor::new(number, held.as_slice());
    let mut octets = Vec::new(alloc);
    take_records(key, &mut cursor, &mut octets)?;
    let number = cursor.number();
    let used = held.len() - cursor.len();
    held.drain(..used);
    Ok(Completed { octets, number })
}

/// The receiving end of a direction. Between chunks it holds less than a whole record. Contracts see its key, the
/// number of the next record and the octets that it holds.
#[derive(Drop)]
pub struct RecordReader {
    key: [u8; 32],
    number: u64,
    held: Vec<u8>,
    alloc: Global,
}

impl Model for RecordReader {
    ghost use Rattle.link_auth.specs.Records.{Receiver};

    ghost Value = { Receiver };

    ghost view = { λ r. record { key = r.key; number = r.number; held = r.held.items } };
}

impl RecordReader {
    /// The end of a direction with this key, of which nothing has come yet.
    pub(crate) fn new(alloc: Global, key: [u8; 32]) -> RecordReader
        ensures { result ≡ record { key = key; number = 0; held = [] } }
    {
        RecordReader {
            key,
            number: 0,
            held: Vec::new(alloc),
            alloc,
        }
    }

    /// Takes the next chunk of the stream, of any length, and gives the octets of the records that it completes. A
    /// fault of the record that comes next: `TooLong` with the chunk that completes its length, `Forged` and `Spent`
    /// with the chunk that completes the record. A refusal, `Memory` where a growth was refused included, gives nothing
    /// of the chunk, and leaves the reader as it was before.
    pub fn feed(&mut self, chunk: &[u8]) -> Result<Vec<u8>, LinkFault>
        ensures read { IfOk result (λ octets. (pieces : List (List ℕ))
            × Receives self.old chunk.now pieces self.new × (octets.items ≡ concat pieces)) }
        ensures fault { IfErr result (λ e.
            (e ≡ LinkFault.Memory) ⊎ Breaks self.old.key self.old.number (self.old.held ++ chunk.now) e) }
        ensures kept { OnErr result (self.new ≡ self.old) }
    {
        let before = self.held.len();
        match take_chunk(self.alloc, &self.key, self.number, &mut self.held, chunk) {
            Ok(Completed { octets, number }) => {
                self.number = number;
                Ok(octets)
            }
            Err(fault) => {
                self.held.truncate(before);
                Err(fault)
            }
        }
    }
}
