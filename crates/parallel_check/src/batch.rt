//! What is to be judged.

ghost use Rattle.std.specs.Prelude.{◌<◌, length};
ghost use Rattle.parallel_check.specs.Verdicts.{IsVerdictAt};
ghost use Rattle.parallel_check.specs.Sharing.{AreKnown};

use crate::gate::Gate;
use crate::sharing::{SharedForeign, others_for};
use attribution::Verdict;
use auditor::{LineSource, audit, audit_knowing};
use causal_order::Certificate;
use lead_time::{Skew, Transit};

/// Certificates over one source, and what is known of other clients for them.
#[derive(Drop)]
pub struct Batch<'a, S> {
    pub source: &'a S,
    pub certificates: &'a [Certificate],
    pub skew: Skew,
    pub transit: Transit,
    pub known: &'a [SharedForeign],
    pub places: &'a [usize],
}

/// The verdict on the certificate at an index.
fn audit_at<S: LineSource>(batch: &Batch<S>, index: usize) -> Verdict
    requires index { index < length batch.now.certificates.now }
    requires known { AreKnown (S.journals batch.now.source.now) batch.now.known.now }
    ensures { IsVerdictAt (S.journals batch.now.source.now) batch.now.skew batch.now.transit
        batch.now.certificates.now index result }
{
    let certificate = &batch.certificates[index];
    match others_for(batch.known, batch.places, index, certificate) {
        Some(others) => {
            audit_knowing(batch.source, others, certificate, batch.skew, batch.transit)
        }
        None => audit(batch.source, certificate, batch.skew, batch.transit),
    }
}

/// The verdict on the certificate at an index, between the calls of the gate.
pub fn verdict_at<S: LineSource, G: Gate>(batch: &Batch<S>, gate: &G, index: usize) -> Verdict
    requires index { index < length batch.now.certificates.now }
    requires known { AreKnown (S.journals batch.now.source.now) batch.now.known.now }
    ensures { IsVerdictAt (S.journals batch.now.source.now) batch.now.skew batch.now.transit
        batch.now.certificates.now index result }
{
    gate.before(index);
    let verdict = audit_at(batch, index);
    gate.after(index, &verdict);
    verdict
}
