//! Certificates that wait for their verdict, each with the pair of volumes that shows where its interval begins.

ghost use Rattle.std.specs.Prelude.{◌≡◌, ◌↔◌, IsTrue, IfOk};
ghost use Rattle.certificate.specs.Faults.{certificate_of};
ghost use Rattle.attribution_desk.specs.Claims.{texts_of};
ghost use Rattle.archive_desk.specs.declared.waiting.PendingState.TheVariants.{Shown};
ghost use Rattle.archive_desk.specs.Waiting.{IsPlacedAt, IsPlaced, ArePlaced, texts_waiting, AreMembers, texts_among};

use crate::coverage_gaps::TimingBounds;
use crate::judging::ArchiveJudgement;
use archive_files::FilesError;
use attribution::Verdict;
use attribution_desk::CertificateText;
use certificate::CertificateError;
use journal_archive::{Archive, PairLookup, VolumePair};
use pair_judgement::Judgement;
use std::alloc::{AllocError, Global};

/// What is known of a certificate so far.
#[derive(Clone, Copy, Debug)]
pub(crate) enum PendingState {
    /// These two volumes show where its interval begins.
    Shown(VolumePair),
    /// It's judged.
    Judged(ArchiveJudgement),
}

/// A certificate's text, and what is known of it so far.
#[derive(Clone, Copy, Debug)]
pub(crate) struct PendingCertificate<'a> {
    pub(crate) text: &'a [u8],
    pub(crate) pending: PendingState,
}

/// A certificate among others: where it stands, and its text.
#[derive(Clone, Copy, Debug)]
pub(crate) struct Member<'a> {
    pub(crate) place: usize,
    pub(crate) text: &'a [u8],
}

fn pending_at(archive: &Archive, moment: u64, bounds: &TimingBounds) -> PendingState
    ensures { IsPlacedAt archive.now bounds.now.skew bounds.now.transit moment result }
{
    match archive.at(moment, bounds.skew, bounds.transit) {
        PairLookup::Shown(pair) => PendingState::Shown(pair),
        PairLookup::Lacking(side, lack) => PendingState::Judged(ArchiveJudgement::Lacking(
            side, lack,
        )),
    }
}

/// What is known of a certificate's text before any file is read.
fn pending_of(
    alloc: Global,
    archive: &Archive,
    text: &[u8],
    bounds: &TimingBounds,
) -> Result<PendingState, FilesError>
    ensures { IfOk result
        (IsPlaced archive.now bounds.now.skew bounds.now.transit (certificate_of text.now)) }
{
    match certificate::read(alloc, text) {
        Ok(claim) => Ok(pending_at(archive, claim.from.milliseconds(), bounds)),
        Err(CertificateError::Fault(fault)) => Ok(PendingState::Judged(ArchiveJudgement::Faulty(
            Judgement::Verdict(Verdict::Certificate(fault)),
        ))),
        Err(CertificateError::Memory) => Err(FilesError::Memory),
    }
}

/// The certificates of texts, before any file is read.
pub(crate) fn waiting_of<'a>(
    alloc: Global,
    archive: &Archive,
    claims: &[CertificateText<'a>],
    bounds: &TimingBounds,
) -> Result<Vec<PendingCertificate<'a>>, FilesError>
    ensures texts { IfOk result (λ ws. texts_waiting ws.items ≡ texts_of claims.now) }
    ensures placed { IfOk result (λ ws. ArePlaced archive.now bounds.now.skew bounds.now.transit ws.items) }
{
    let mut waiting = Vec::new(alloc);
    for claim in claims {
        let text = claim.text;
        let pending = pending_of(alloc, archive, text, bounds)?;
        waiting.extend_from_slice(&[PendingCertificate { text, pending }])?;
    }
    Ok(waiting)
}

fn is_shown_by(pending: &PendingState, pair: &VolumePair) -> bool
    ensures { IsTrue result ↔ (pending.now ≡ Shown pair.now) }
{
    match pending {
        PendingState::Shown(by) => by == pair,
        PendingState::Judged(_) => false,
    }
}

/// Those of the certificates that this pair of volumes shows.
pub(crate) fn members_of<'a>(
    alloc: Global,
    waiting: &[PendingCertificate<'a>],
    pair: &VolumePair,
) -> Result<Vec<Member<'a>>, AllocError>
    ensures { IfOk result (λ ms. AreMembers waiting.now pair.now ms.items) }
{
    let mut members = Vec::new(alloc);
    for place in 0..waiting.len() {
        if is_shown_by(&waiting[place].pending, pair) {
            let text = waiting[place].text;
            members.extend_from_slice(&[Member { place, text }])?;
        }
    }
    Ok(members)
}

/// Their texts, to be read.
pub(crate) fn claims_of<'a>(
    alloc: Global,
    members: &[Member<'a>],
) -> Result<Vec<CertificateText<'a>>, AllocError>
    ensures { IfOk result (λ cs. texts_of cs.items ≡ texts_among members.now) }
{
    let mut claims = Vec::new(alloc);
    for member in members {
        let text = member.text;
        claims.push(CertificateText { text, parsed: None })?;
    }
    Ok(claims)
}
