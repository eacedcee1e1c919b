//! A certificate, tried over spans that are widened one volume of each side at a time.

ghost use Rattle.std.specs.Prelude.{◌≡◌, ◌↔◌, ℕ, IsTrue, IfOk, MatchOption};
ghost use Rattle.volume_spans.specs.Spans.{ArePairRead};
ghost use Rattle.joined_answers.specs.Reach.{reach};
ghost use Rattle.joined_answers.specs.Widening.{AreWidenedWithin};
ghost use Rattle.joined_rulings.specs.Walking.{IsBarring, HasBarrier, IsCarried, accepted_of, IsWalk};

use crate::trial::{SpanAcceptance, SpanTrial, trial_over};
use archive_files::{FilesError, JournalFiles};
use causal_order::Certificate;
use joined_answers::{both_widened, may_widen};
use journal_archive::Archive;
use plain_search::HolderQuery;
use std::alloc::Global;
use std::thread::Threads;
use volume_spans::ReadSpans;

impl SpanTrial {
    /// Returns whether earlier volumes may say more: the certificate is refused, and a lease of its prefix is carried.
    fn is_carried(&self) -> bool
        ensures { IsTrue result ↔ IsCarried self.now }
    {
        match self {
            SpanTrial::Carried => true,
            SpanTrial::Accepted(_) => false,
            SpanTrial::Refused => false,
            SpanTrial::Barred => false,
        }
    }

    /// The spans that accept the certificate, if they do.
    pub(crate) fn into_accepted(self) -> Option<SpanAcceptance>
        ensures { result ≡ accepted_of self }
    {
        match self {
            SpanTrial::Accepted(accepted) => Some(accepted),
            SpanTrial::Carried => None,
            SpanTrial::Refused => None,
            SpanTrial::Barred => None,
        }
    }
}

/// Returns whether a reading was refused by what a file has: no further volumes are tried then. Else a file changed
/// while it was read, or memory was refused.
pub(crate) fn is_barring(error: &FilesError) -> bool
    ensures { IsTrue result ↔ IsBarring error.now }
{
    match error {
        FilesError::OtherHead { .. } => true,
        FilesError::Faulty { .. } => true,
        FilesError::Torn { .. } => true,
        _ => false,
    }
}

/// Takes one volume more in front of each side, where a lease may have begun before its span; none where a file stands
/// against that. `Changed` where a file isn't what the archive knows of it, `Memory` where a growth was refused.
fn widened<F: JournalFiles>(
    alloc: Global,
    files: &F,
    archive: &Archive,
    read: ReadSpans,
    query: &HolderQuery,
) -> Result<Option<ReadSpans>, FilesError>
    requires { ArePairRead (F.had files.now) archive.now read }
    ensures { IfOk result (λ wider. MatchOption wider (HasBarrier (F.had files.now))
        (λ s. AreWidenedWithin query.now.at (reach query.now read) read s
        × ArePairRead (F.had files.now) archive.now s)) }
{
    match both_widened(alloc, files, archive, read, query) {
        Ok(wider) => Ok(Some(wider)),
        Err(error) => {
            if is_barring(&error) {
                return Ok(None);
            }
            Err(error)
        }
    }
}

/// Tries a certificate over spans, and over wider ones for as long as it's refused and a lease of its prefix is carried
/// within reach of earlier volumes; returns the first spans that accept it. `Changed` where a file isn't what the
/// archive knows of it, `Memory` where a growth was refused.
pub(crate) fn walked<F: JournalFiles>(
    rt: &(impl Threads + Sync),
    alloc: Global,
    files: &F,
    archive: &Archive,
    begun: ReadSpans,
    query: &HolderQuery,
    claim: &Certificate,
) -> Result<Option<SpanAcceptance>, FilesError>
    requires { ArePairRead (F.had files.now) archive.now begun }
    ensures { IfOk result (λ end. (times : ℕ)
        × IsWalk (F.had files.now) archive.now query.now claim.now times begun end) }
{
    let mut read = begun;
    let mut trial = trial_over(rt, alloc, &read, query, claim)?;
    while trial.is_carried() && may_widen(query, &read) {
        let Some(wider) = widened(alloc, files, archive, read, query)? else {
            return Ok(None);
        };
        trial = trial_over(rt, alloc, &wider, query, claim)?;
        read = wider;
    }
    Ok(trial.into_accepted())
}
