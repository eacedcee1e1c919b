//! Who held a prefix at a moment.

ghost use Rattle.std.specs.Prelude.{◌≡◌, IfOk};
ghost use Rattle.archive_desk.specs.Who.{volume_of, reply_of, IsLackingAt, IsHolderAt, IsAccessBeside, IsAccessOver};
ghost use Rattle.archive_desk.specs.Who.{IsAccessOf, IsWho};

use crate::names::is_single;
use access_records::{AccessHead, AccessTexts, VolumeFile, said_beside};
use archive_files::{FilesError, JournalFiles};
use binding_rules::Role;
use causal_order::Certificate;
use certificate::write;
use desk_args::SettingsCheck;
use evidence_search::HolderQuery;
use holder_answers::HolderAnswer;
use joined_answers::{SpanReply, SpannedAnswer, holder_over_spans};
use journal_archive::{Archive, CoverageGap, FiledVolume, PairLookup, VolumePair};
use std::alloc::Global;
use std::thread::Threads;
use volume_spans::SpanPair;

/// What files answer to who held a prefix at a moment.
#[derive(Debug, Drop)]
pub enum HolderReply {
    /// What the desk answers over the journals that these volumes show, of each side one or several up to this last one,
    /// and the first moment of which those can't tell, in milliseconds of true time.
    Answered {
        pair: VolumePair,
        spans: SpanPair,
        answer: HolderAnswer,
        until: Option<u64>,
    },
    /// No volume of this side shows the moment, and why.
    Lacking(Role, CoverageGap),
}

/// The question, what files answer to it, and the lines of access records beside the two volumes that tell of grants
/// which show a holder.
#[derive(Debug, Drop)]
pub struct WhoAnswer {
    pub query: HolderQuery,
    pub reply: HolderReply,
    pub access: Vec<u8>,
}

/// A volume and its file, as access records name them.
fn volume_of(filed: &FiledVolume) -> VolumeFile
    ensures { result ≡ volume_of filed.now }
{
    VolumeFile {
        file: filed.file,
        volume: AccessHead {
            side: filed.outline.side,
            volume: filed.outline.number,
        },
    }
}

/// What the access records beside the two volumes say of the grants that a certificate names.
fn access_beside<F: AccessTexts>(
    alloc: Global,
    files: &F,
    pair: &VolumePair,
    certificate: &Certificate,
) -> Result<Vec<u8>, FilesError>
    ensures { IfOk result (λ text. IsAccessBeside (F.says files.now) pair.now certificate.now text.items) }
{
    let Ok(text) = write(alloc, certificate) else {
        return Err(FilesError::Memory);
    };
    let primary = volume_of(&pair.primary);
    let secondary = volume_of(&pair.secondary);
    let said = said_beside(alloc, files, &text, &primary, &secondary)?;
    Ok(said)
}

/// What the access records beside the last volumes of spans say of the grants that a certificate names: of more volumes
/// than one of a side nothing, since their lines are numbered otherwise than in their files. `Memory` where a growth was
/// refused.
pub fn access_over<F: AccessTexts>(
    alloc: Global,
    files: &F,
    pair: &VolumePair,
    spans: &SpanPair,
    certificate: &Certificate,
) -> Result<Vec<u8>, FilesError>
    ensures { IfOk result (λ text. IsAccessOver (F.says files.now) pair.now spans.now certificate.now text.items) }
{
    if !is_single(spans) {
        return Ok(Vec::new(alloc));
    }
    access_beside(alloc, files, pair, certificate)
}

/// What the access records beside the two volumes say of the grants that show a holder.
fn access_of<F: AccessTexts>(
    alloc: Global,
    files: &F,
    reply: &HolderReply,
) -> Result<Vec<u8>, FilesError>
    ensures { IfOk result (λ text. IsAccessOf (F.says files.now) reply.now text.items) }
{
    match reply {
        HolderReply::Answered {
            pair,
            spans,
            answer: HolderAnswer::Held(certificate),
            ..
        } => access_over(alloc, files, pair, spans, certificate),
        HolderReply::Answered { .. } => Ok(Vec::new(alloc)),
        HolderReply::Lacking(_, _) => Ok(Vec::new(alloc)),
    }
}

/// The reply that an answer over spans of volumes is.
fn reply_of(answer: SpannedAnswer) -> HolderReply
    ensures { result ≡ reply_of answer }
{
    HolderReply::Answered {
        pair: answer.pair,
        spans: answer.spans,
        answer: answer.answer,
        until: answer.until,
    }
}

/// What is lacking of a moment that lies in a roll, the two volumes of which aren't one journal.
fn lacking_at(archive: &Archive, query: &HolderQuery) -> Result<HolderReply, FilesError>
    ensures { IfOk result (IsLackingAt archive.now query.now) }
{
    match archive.at(query.at.milliseconds(), query.skew, query.transit) {
        PairLookup::Lacking(side, lack) => Ok(HolderReply::Lacking(side, lack)),
        PairLookup::Shown(pair) => Err(FilesError::Changed {
            file: pair.primary.file,
        }),
    }
}

/// Who held the prefix, over the volumes that show the moment, or over earlier ones too.
fn holder_at<F: JournalFiles>(
    rt: &(impl Threads + Sync),
    alloc: Global,
    files: &F,
    archive: &Archive,
    query: &HolderQuery,
    settings: SettingsCheck,
) -> Result<HolderReply, FilesError>
    ensures { IfOk result (IsHolderAt (F.had files.now) archive.now query.now settings) }
{
    match holder_over_spans(rt, alloc, files, archive, query, settings)? {
        SpanReply::Answered(answer) => Ok(reply_of(answer)),
        SpanReply::Lacking(side, lack) => Ok(HolderReply::Lacking(side, lack)),
        SpanReply::Refused(_) => lacking_at(archive, query),
    }
}

/// Who held the prefix at the moment, over the volumes that show it or over earlier ones too, and what access records say
/// of the grants that show it; or which side lacks it. `Changed` or `Faulty` where a file isn't what the archive knows of it, `Memory`
/// where a growth was refused.
pub(crate) fn who<F: JournalFiles + AccessTexts>(
    rt: &(impl Threads + Sync),
    alloc: Global,
    files: &F,
    archive: &Archive,
    query: &HolderQuery,
    settings: SettingsCheck,
) -> Result<WhoAnswer, FilesError>
    ensures { IfOk result (IsWho (F.had files.now) (F.says files.now) archive.now query.now settings) }
{
    let reply = holder_at(rt, alloc, files, archive, query, settings)?;
    let access = access_of(alloc, files, &reply)?;
    Ok(WhoAnswer {
        query: *query,
        reply,
        access,
    })
}
