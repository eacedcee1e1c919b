//! What one worker does: it takes the next index, until none is left.

ghost use Rattle.std.specs.Prelude.{◌≡◌, ◌-◌, ◌<◌, ◌≤◌, [], All, length, IfOk, OnOk};
ghost use Rattle.parallel_check.specs.Drawing.{IsFresh, seat_of};
ghost use Rattle.parallel_check.specs.Verdicts.{IsVerdictAt};
ghost use Rattle.parallel_check.specs.Sharing.{AreKnown};
ghost use Rattle.parallel_check.specs.Findings.{IsDone};

use crate::batch::{Batch, verdict_at};
use crate::gate::Gate;
use crate::word::{Ticket, Word, another, draw};
use attribution::Verdict;
use auditor::LineSource;
use std::alloc::{AllocError, Global};
use std::sync::Wait;

/// The verdict on the certificate at an index.
#[derive(Clone, Copy, Debug, PartialEq, Eq)]
pub struct IndexedVerdict {
    pub index: usize,
    pub verdict: Verdict,
}

/// The return of a worker: its seat, and what it found unless a growth was refused.
#[derive(Drop)]
pub struct WorkerResult {
    pub seat: Ticket,
    pub found: Result<Vec<IndexedVerdict>, AllocError>,
}

/// Draws indexes and audits their certificates, until a number is no index.
pub fn draw_all<S: LineSource, G: Gate, R: Wait>(
    rt: &R,
    alloc: Global,
    batch: &Batch<S>,
    gate: &G,
    word: &Word,
    seat: Ticket,
) -> WorkerResult
    requires word { (0 < word.now.table_id.words) × (word.now.key ≡ length batch.now.certificates.now) }
    requires seat { (seat.table_id ≡ word.now.table_id) × IsFresh (length batch.now.certificates.now) seat.me }
    requires known { AreKnown (S.journals batch.now.source.now) batch.now.known.now }
    ensures { IsDone (IsVerdictAt (S.journals batch.now.source.now) batch.now.skew batch.now.transit
        batch.now.certificates.now) (length batch.now.certificates.now) word.now.table_id result }
{
    let mut seat = seat;
    let mut found = Vec::new(alloc);
    'draws: for _ in rt.forever() {
        let number = draw(word, &mut seat);
        if number >= batch.certificates.len() as u64 {
            return WorkerResult {
                seat,
                found: Ok(found),
            };
        }
        let index = number as usize;
        let verdict = verdict_at(batch, gate, index);
        if found.push(IndexedVerdict { index, verdict }).is_err() {
            return WorkerResult {
                seat,
                found: Err(AllocError),
            };
        }
    }
    unreachable!()
}

/// A seat for each worker.
pub fn seats_for(
    alloc: Global,
    word: &Word,
    mine: &mut Ticket,
    workers: usize,
) -> Result<Vec<Ticket>, AllocError>
    requires word { (mine.old.table_id ≡ word.now.table_id) × (0 < word.now.table_id.words) }
    requires mine { (mine.old.me ≡ (seat_of word.now.key 64 [], [])) × (workers ≤ 64) }
    ensures seats { IfOk result (λ v. (length v.items ≡ workers)
        × All (λ t. (t.table_id ≡ word.now.table_id) × IsFresh word.now.key t.me) v.items) }
    ensures mine { OnOk result ((mine.new.table_id ≡ word.now.table_id)
        × (mine.new.me ≡ (seat_of word.now.key (64 - workers) [], []))) }
{
    let mut seats = Vec::new(alloc);
    for _i in 0..workers {
        seats.push(another(word, mine))?;
    }
    Ok(seats)
}
