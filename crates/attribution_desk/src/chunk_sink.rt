//! Taking all that a reader gives, in chunks that several threads may read.

ghost use Rattle.std.specs.Prelude.{◌≡◌, ◌⊎◌, ◌<◌, ℕ, List, true, length, IfOk, IfErr, IsErrOf};
ghost use Rattle.std.specs.Thread.{IsSync};
ghost use Rattle.attribution_desk.specs.Intake.{TakesOn, TakesAll};

use crate::error::DeskError;
use crate::watched::Watched;
use std::alloc::{AllocError, Global};
use std::io::Read;
use std::thread::{Threads, available_parallelism};

/// How many octets a reader is asked for at a time.
const READ_SIZE: usize = 65_536;

/// How many octets at least are taken at a time, but at the end.
const CHUNK_SIZE: usize = 1_048_576;

/// What takes an input in chunks, which may end anywhere.
pub trait ChunkSink: Sized + Drop {
    // it has taken this input
    ghost has_taken: { Self → List ℕ → Type 0 };

    /// Takes the next chunk, cut into halves so often for threads of their own; `Memory` where a growth was refused.
    fn take_chunk<H: Threads + Sync>(
        self,
        rt: &H,
        halvings: u32,
        chunk: &[u8],
    ) -> Result<Self, DeskError>
        requires { IsSync H.row }
        ensures taken { IfOk result (TakesOn has_taken self chunk.now) }
        ensures refused { IfErr result (λ e. e ≡ DeskError.Memory) };
}

fn buffer_of(alloc: Global) -> Result<Vec<u8>, AllocError>
    ensures { IfOk result (λ buffer. 0 < length buffer.items) }
{
    vec![in alloc; 0u8; READ_SIZE]
}

/// Returns how often a chunk is cut into halves, so that each processor has a part: eight parts at most.
pub fn halvings_for<H: Threads>(rt: &H) -> u32 {
    match available_parallelism(rt) {
        Ok(processors) => match processors.get() {
            0..=1 => 0,
            2..=3 => 1,
            4..=7 => 2,
            _ => 3,
        },
        Err(_) => 0,
    }
}

/// Hands on what a reader gives, a buffer's octets at a time, gathered into chunks.
fn take_chunks<H: Threads + Sync, R: Read, T: ChunkSink>(
    rt: &H,
    alloc: Global,
    reader: &mut Watched<R>,
    buffer: &mut [u8],
    taker: T,
) -> Result<T, DeskError>
    requires { 0 < length buffer.old }
    ensures taken { IfOk result (TakesAll T.has_taken taker (R.remaining reader.old.device)) }
    ensures read { IsErrOf result DeskError.Read → (reader.new.failed ≡ true) ⊎ (reader.new.turns ≡ 0) }
    ensures never { IsErrOf result DeskError.Write → ⊥ }
{
    let halvings = halvings_for(rt);
    let mut taker = taker;
    let mut gathered = Vec::new(alloc);
    loop {
        let count = reader.read(buffer)?;
        if count == 0 {
            return taker.take_chunk(rt, halvings, &gathered);
        }
        gathered.extend_from_slice(&buffer[..count])?;
        if gathered.len() >= CHUNK_SIZE {
            taker = taker.take_chunk(rt, halvings, &gathered)?;
            gathered.clear();
        }
    }
}

/// Hands on all that a reader gives: `Read` where a call fails or the reader still gives octets at its last turn,
/// `Memory` where a growth was refused.
pub fn take_all<H: Threads + Sync, R: Read, T: ChunkSink>(
    rt: &H,
    alloc: Global,
    reader: &mut Watched<R>,
    taker: T,
) -> Result<T, DeskError>
    ensures taken { IfOk result (TakesAll T.has_taken taker (R.remaining reader.old.device)) }
    ensures read { IsErrOf result DeskError.Read → (reader.new.failed ≡ true) ⊎ (reader.new.turns ≡ 0) }
    ensures never { IsErrOf result DeskError.Write → ⊥ }
{
    let mut buffer = buffer_of(alloc)?;
    take_chunks(rt, alloc, reader, &mut buffer, taker)
}
