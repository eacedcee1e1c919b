//! The verdicts on many certificates.

ghost use Rattle.std.specs.Prelude.{◌≡◌, ◌<◌, ◌⊎◌, length, IfOk, IsErrOf, ◌↔◌};
ghost use Rattle.parallel_check.specs.declared.error.CheckError.TheVariants.{Workers};
ghost use Rattle.parallel_check.specs.Drawing.{IsFresh};
ghost use Rattle.parallel_check.specs.Verdicts.{IsVerdictAt, AreVerdicts};
ghost use Rattle.parallel_check.specs.Findings.{IsDone};
ghost use Rattle.parallel_check.specs.Sharing.{AreKnown};

use crate::batch::Batch;
use crate::drawing::{WorkerResult, draw_all, seats_for};
use crate::error::CheckError;
use crate::gate::Gate;
use crate::settling::settled;
use crate::sharing::sharing_of;
use crate::word::{Ticket, closed, opened};
use attribution::Verdict;
use auditor::LineSource;
use causal_order::Certificate;
use lead_time::{Skew, Transit};
use std::alloc::Global;
use std::sync::Wait;
use std::thread;
use std::thread::Threads;

/// The most workers.
const MOST_WORKERS: usize = 64;

/// The verdict on each certificate, in order, by this many workers: each takes the next certificate that none has
/// taken, until none is left. What other clients had of a prefix is found once for those of one holder that ask of it.
/// Where no thread can be made the caller works. `Workers` where they aren't 1 to 64, `Memory` where a growth was
/// refused.
pub fn audit_all<S: LineSource + Sync, G: Gate, R: Threads + Wait + Sync>(
    rt: &R,
    alloc: Global,
    source: &S,
    certificates: &[Certificate],
    skew: Skew,
    transit: Transit,
    workers: usize,
    gate: &G,
) -> Result<Vec<Verdict>, CheckError>
    ensures verdicts { IfOk result (λ v.
        AreVerdicts (S.journals source.now) skew transit certificates.now v.items) }
    ensures workers { IsErrOf result CheckError.Workers ↔ ((workers ≡ 0) ⊎ (64 < workers)) }
{
    if workers == 0 || workers > MOST_WORKERS {
        return Err(CheckError::Workers);
    }
    let sharing = sharing_of(rt, alloc, source, certificates, workers)?;
    let batch = Batch {
        source,
        certificates,
        skew,
        transit,
        known: &sharing.known,
        places: &sharing.places,
    };
    let (claims, mut mine) = opened(alloc, certificates.len() as u64)?;
    let word = &claims.shared;
    let seats = seats_for(alloc, word, &mut mine, workers)?;
    let batch = &batch;
    let done = thread::map_vec(
        rt,
        seats,
        &|seat: Ticket| -> WorkerResult
            requires { (0 < word.now.table_id.words) × (word.now.key ≡ length batch.now.certificates.now)
                × (seat.table_id ≡ word.now.table_id) × IsFresh (length batch.now.certificates.now) seat.me
                × AreKnown (S.journals batch.now.source.now) batch.now.known.now }
            ensures { IsDone (IsVerdictAt (S.journals batch.entry.now.source.now) batch.entry.now.skew
                batch.entry.now.transit batch.entry.now.certificates.now)
                (length batch.entry.now.certificates.now) word.entry.now.table_id result }
        { draw_all(rt, alloc, batch, gate, word, seat) },
    )?;
    let verdicts = settled(alloc, batch, word, &mut mine, done)?;
    closed(claims, mine);
    Ok(verdicts)
}
