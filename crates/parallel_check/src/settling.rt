//! What all workers found, put where it belongs.

ghost use Rattle.std.specs.Prelude.{◌≡◌, ◌+◌, ◌<◌, ◌≤◌, ℕ, [], All, length, replicate, IfOk, OnOk};
ghost use Rattle.attribution.specs.declared.verdict.Verdict.TheVariants.{Accepted};
ghost use Rattle.parallel_check.specs.Counting.{times};
ghost use Rattle.parallel_check.specs.Verdicts.{IsVerdictAt};
ghost use Rattle.parallel_check.specs.Findings.{IsDone, Settled, placed};

use crate::batch::Batch;
use crate::drawing::{IndexedVerdict, WorkerResult};
use crate::word::{Ticket, Word, take_in};
use attribution::Verdict;
use auditor::LineSource;
use std::alloc::{AllocError, Global};

/// A verdict for each certificate, to be written over.
fn blank_verdicts(alloc: Global, count: usize) -> Result<Vec<Verdict>, AllocError>
    ensures { IfOk result (λ v. v.items ≡ replicate count Accepted) }
{
    vec![in alloc; Verdict::Accepted; count]
}

/// Writes each verdict that was found at its index.
#[tactic(auto, using(crate::proofs::Placing::placed_step, crate::proofs::Placing::placed_end))]
fn place(found: &[IndexedVerdict], verdicts: &mut [Verdict])
    requires { All (λ f. f.index < length verdicts.old) found.now }
    ensures { verdicts.new ≡ placed found.now verdicts.old }
{
    for f in found {
        verdicts[f.index] = f.verdict;
    }
}

/// The verdicts at the indexes that were drawn, with all seats taken in.
pub fn settled<S: LineSource>(
    alloc: Global,
    batch: &Batch<S>,
    word: &Word,
    mine: &mut Ticket,
    mut done: Vec<WorkerResult>,
) -> Result<Vec<Verdict>, AllocError>
    requires word { (mine.old.table_id ≡ word.now.table_id) × (0 < word.now.table_id.words)
        × (word.now.key ≡ length batch.now.certificates.now) }
    requires mine { (mine.old.me.0.limit ≡ word.now.key) × (mine.old.me.0.numbers ≡ []) }
    requires done { All (IsDone (IsVerdictAt (S.journals batch.now.source.now) batch.now.skew batch.now.transit
        batch.now.certificates.now) (length batch.now.certificates.now) word.now.table_id) done.items }
    ensures count { IfOk result (λ v. length v.items ≡ length batch.now.certificates.now) }
    ensures settled { IfOk result (λ v. Settled (IsVerdictAt (S.journals batch.now.source.now) batch.now.skew
        batch.now.transit batch.now.certificates.now) (length batch.now.certificates.now)
        mine.new.me.0.numbers v.items) }
    ensures mine { OnOk result ((mine.new.table_id ≡ word.now.table_id)
        × (mine.new.me.0.parts ≡ mine.old.me.0.parts + length done.items)) }
    ensures past { OnOk result (0 < length done.items
        → ((n : ℕ) × (length batch.now.certificates.now ≤ n) × (0 < times n mine.new.me.0.numbers))) }
{
    let mut given = blank_verdicts(alloc, batch.certificates.len())?;
    let verdicts = given.as_mut_slice();
    'seats: while let Some(WorkerResult { seat, found }) = done.pop() {
        let Ok(found) = found else {
            return Err(AllocError);
        };
        place(&found, verdicts);
        take_in(word, mine, seat);
    }
    Ok(given)
}
