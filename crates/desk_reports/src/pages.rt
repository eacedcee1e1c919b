//! Pages: what they say of the answer, and the texts that they were made of.

ghost use Rattle.std.specs.Prelude.{◌≡◌, IfOk, Ok, Some, None};
ghost use Rattle.desk_reports.specs.Pages.{claimed, rule_of, asked_by, certificate_of, question_of, moment_of, title_of, title_by};
ghost use Rattle.desk_reports.specs.Pages.{primary_span, secondary_span, IsCheckOf, IsUsedText, AreFactsOf};
ghost use Rattle.desk_reports.specs.Pages.{IsPageText};

use crate::style::{ReportSource, ReportStyle};
use archive_desk::TimingBounds;
use attribution_desk::DeskError;
use causal_order::Certificate;
use certificate::CertificateError;
use desk_args::SettingsCheck;
use evidence_report::{CitedLine, PieceReport};
use journal_copies::{lines_used, text_up_to};
use journal_lines::{Journal, JournalFault};
use journal_text::write;
use lead_time::Reading;
use pair_judgement::{Judgement, status_of};
use plain_search::HolderQuery;
use report_render::{
    ClaimedDelegation, CopiedVolumes, Page, PageCheck, PageFacts, PageQuestion, PageTitle,
    Provenance, RenderedText, SettingsRule, SourceText, TextOrigin, page_of,
};
use std::alloc::{AllocError, Global};
use volume_spans::{SpanPair, VolumeSpan};

/// The program that a page names.
pub const PROGRAM: &str = "fengtuyas-desk of 2026-12-01";

/// What a report is on.
#[derive(Clone, Copy)]
pub enum ReportSubject<'a> {
    /// A question, and the certificate of this text that names a client.
    Held(&'a HolderQuery, &'a Certificate, &'a [u8]),
    /// A question to which nobody is named.
    Nobody(&'a HolderQuery),
    /// A certificate's text that is accepted, and what it says.
    Accepted(&'a [u8], ClaimedDelegation),
    /// A certificate's text that is refused, and what it says.
    Refused(&'a [u8], ClaimedDelegation),
    /// A text that is no certificate.
    Unread(&'a [u8]),
}

/// The rule on the journals' settings, as a page says it.
fn rule_of(settings: SettingsCheck) -> SettingsRule
    ensures { result ≡ rule_of settings }
{
    match settings {
        SettingsCheck::MustAgree => SettingsRule::MustAgree,
        SettingsCheck::MayDiffer => SettingsRule::MayDiffer,
    }
}

/// What a certificate says.
fn claimed(certificate: &Certificate) -> ClaimedDelegation
    ensures { result ≡ claimed certificate.now }
{
    ClaimedDelegation {
        holder: certificate.holder,
        prefix: certificate.prefix,
        from: certificate.from,
        to: certificate.to,
    }
}

impl<'a> ReportSubject<'a> {
    /// A question, and the certificate of this text that names a client.
    pub fn held(
        query: &'a HolderQuery,
        certificate: &'a Certificate,
        text: &'a [u8],
    ) -> ReportSubject<'a>
        ensures title { title_of result ≡ PageTitle.HeldAt certificate.now.holder query.now.prefix query.now.at }
        ensures certificate { certificate_of result ≡ text.now }
        ensures question { question_of result ≡ Some (asked_by query.now) }
    {
        ReportSubject::Held(query, certificate, text)
    }

    /// A question to which nobody is named.
    pub fn nobody(query: &'a HolderQuery) -> ReportSubject<'a>
        ensures title { title_of result ≡ PageTitle.NotShown query.now.prefix query.now.at }
        ensures question { question_of result ≡ Some (asked_by query.now) }
    {
        ReportSubject::Nobody(query)
    }

    /// A certificate's text, what it was read to, and how it was ruled on.
    pub fn of_text(
        text: &'a [u8],
        claim: &Result<Certificate, CertificateError>,
        ruling: &Judgement,
    ) -> ReportSubject<'a>
        ensures title { title_of result ≡ title_by claim.now ruling.now }
        ensures certificate { certificate_of result ≡ text.now }
        ensures question { question_of result ≡ None }
    {
        match claim {
            Ok(certificate) => {
                let claimed = claimed(certificate);
                if status_of(ruling) == 0 {
                    ReportSubject::Accepted(text, claimed)
                } else {
                    ReportSubject::Refused(text, claimed)
                }
            }
            Err(_) => ReportSubject::Unread(text),
        }
    }

    /// The text of the certificate; nothing where there is none.
    pub fn certificate_text(&self) -> &'a [u8]
        ensures { result.now ≡ certificate_of self.now }
    {
        match self {
            ReportSubject::Held(_, _, text) => text,
            ReportSubject::Nobody(_) => b"",
            ReportSubject::Accepted(text, _) => text,
            ReportSubject::Refused(text, _) => text,
            ReportSubject::Unread(text) => text,
        }
    }

    /// The question, where who held a prefix was asked.
    fn question(&self) -> Option<PageQuestion>
        ensures { result ≡ question_of self.now }
    {
        match self {
            ReportSubject::Held(query, _, _) | ReportSubject::Nobody(query) => Some(PageQuestion {
                prefix: query.prefix,
                at: query.at,
            }),
            ReportSubject::Accepted(_, _)
            | ReportSubject::Refused(_, _)
            | ReportSubject::Unread(_) => None,
        }
    }

    /// The moment that was asked of.
    pub fn asked_at(&self) -> Option<Reading>
        ensures { result ≡ moment_of self.now }
    {
        match self.question() {
            Some(question) => Some(question.at),
            None => None,
        }
    }

    fn title(&self) -> PageTitle
        ensures { result ≡ title_of self.now }
    {
        match self {
            ReportSubject::Held(query, certificate, _) => PageTitle::HeldAt {
                holder: certificate.holder,
                prefix: query.prefix,
                at: query.at,
            },
            ReportSubject::Nobody(query) => PageTitle::NotShown {
                prefix: query.prefix,
                at: query.at,
            },
            ReportSubject::Accepted(_, claimed) => PageTitle::Held(*claimed),
            ReportSubject::Refused(_, claimed) => PageTitle::NotAccepted(*claimed),
            ReportSubject::Unread(_) => PageTitle::Unread,
        }
    }

    /// What shows the same answer again, by this rule on the journals' settings.
    fn check(&self, settings: SettingsCheck) -> PageCheck<'a>
        ensures { IsCheckOf self.now settings result }
    {
        match self {
            ReportSubject::Nobody(query) => {
                let question = PageQuestion {
                    prefix: query.prefix,
                    at: query.at,
                };
                PageCheck::Holder(question, rule_of(settings))
            }
            ReportSubject::Held(_, _, text) => PageCheck::Certificate(text),
            ReportSubject::Accepted(text, _) => PageCheck::Certificate(text),
            ReportSubject::Refused(text, _) => PageCheck::Certificate(text),
            ReportSubject::Unread(text) => PageCheck::Certificate(text),
        }
    }
}

/// The text that a page was made of, of one side.
#[derive(Drop)]
struct UsedText {
    text: Vec<u8>,
    origin: TextOrigin,
}

/// The text of volumes, as far as their server wrote what was used.
fn copied_text(alloc: Global, journal: &Journal, span: VolumeSpan) -> Result<UsedText, DeskError>
    ensures { IfOk result (λ used. IsUsedText (Ok journal.now) (Some span) used.text.items used.origin) }
{
    let lines = lines_used(journal);
    let text = text_up_to(alloc, journal, lines)?;
    let origin = TextOrigin::Copied(CopiedVolumes {
        first: span.first,
        last: span.last,
        lines,
    });
    Ok(UsedText { text, origin })
}

/// The text of a journal that was given.
fn input_text(alloc: Global, journal: &Journal) -> Result<UsedText, DeskError>
    ensures { IfOk result (λ used. IsUsedText (Ok journal.now) None used.text.items used.origin) }
{
    match write(alloc, journal.role, journal.head, journal.lines.as_slice()) {
        Ok(text) => Ok(UsedText {
            text,
            origin: TextOrigin::Input,
        }),
        Err(_) => Err(DeskError::Memory),
    }
}

/// The text that was used of a side: none where it was no journal.
fn used_text(
    alloc: Global,
    journal: &Result<Journal, JournalFault>,
    span: Option<VolumeSpan>,
) -> Result<UsedText, DeskError>
    ensures { IfOk result (λ used. IsUsedText journal.now span used.text.items used.origin) }
{
    match (journal, span) {
        (Ok(journal), Some(span)) => copied_text(alloc, journal, span),
        (Ok(journal), None) => input_text(alloc, journal),
        (Err(_), _) => Ok(UsedText {
            text: Vec::new(alloc),
            origin: TextOrigin::Input,
        }),
    }
}

/// What a page says of its question and its case.
fn facts_of<'a>(subject: &ReportSubject, style: &'a ReportStyle<'a>) -> PageFacts<'a>
    ensures { AreFactsOf subject.now style.now result }
{
    PageFacts {
        question: subject.question(),
        case: style.facts.case,
        asked_by: style.facts.asked_by,
        made: style.facts.made,
    }
}

/// A page's text, of these texts of journals.
fn page_over<'a, 'p>(
    alloc: Global,
    spelling: &'a RenderedText,
    picture: &'a [u8],
    pieces: &'a [PieceReport<'p>],
    cited: &'a [CitedLine],
    primary: &'a UsedText,
    secondary: &'a UsedText,
    source: &'a ReportSource<'a>,
    subject: &'a ReportSubject<'a>,
    bounds: &TimingBounds,
    style: &'a ReportStyle<'a>,
) -> Result<Vec<u8>, AllocError>
    requires primary { IsUsedText source.now.pair.now.primary (primary_span source.now.volumes) primary.now.text.items
        primary.now.origin }
    requires secondary { IsUsedText source.now.pair.now.secondary (secondary_span source.now.volumes)
        secondary.now.text.items secondary.now.origin }
    ensures { IfOk result
        (λ text. IsPageText source.now subject.now bounds.now style.now spelling.now picture.now pieces.now cited.now
        text.items) }
{
    let check = subject.check(source.settings);
    let first = SourceText {
        text: &primary.text,
        origin: primary.origin,
    };
    let second = SourceText {
        text: &secondary.text,
        origin: secondary.origin,
    };
    let origin = Provenance {
        program: PROGRAM,
        primary: first,
        secondary: second,
        check,
        skew: bounds.skew,
        transit: bounds.transit,
    };
    let facts = facts_of(subject, style);
    let page = Page {
        title: subject.title(),
        facts,
        spelling,
        picture,
        pieces,
        cited,
        origins: source.origins,
        access: source.access,
        origin,
    };
    page_of(alloc, &page, style.zone)
}

/// The span of the primary's volumes, where the journals are volumes.
fn primary_span(volumes: Option<SpanPair>) -> Option<VolumeSpan>
    ensures { result ≡ primary_span volumes }
{
    match volumes {
        Some(spans) => Some(spans.primary),
        None => None,
    }
}

/// The same of the secondary's.
fn secondary_span(volumes: Option<SpanPair>) -> Option<VolumeSpan>
    ensures { result ≡ secondary_span volumes }
{
    match volumes {
        Some(spans) => Some(spans.secondary),
        None => None,
    }
}

/// A report as one page, with this picture. `Memory` where a growth was refused.
pub fn page_told<'a, 'p>(
    alloc: Global,
    spelling: &'a RenderedText,
    picture: &'a [u8],
    pieces: &'a [PieceReport<'p>],
    cited: &'a [CitedLine],
    source: &'a ReportSource<'a>,
    subject: &'a ReportSubject<'a>,
    bounds: &TimingBounds,
    style: &'a ReportStyle<'a>,
) -> Result<Vec<u8>, DeskError>
    ensures { IfOk result
        (λ text. IsPageText source.now subject.now bounds.now style.now spelling.now picture.now pieces.now cited.now
        text.items) }
{
    let primary = used_text(alloc, &source.pair.primary, primary_span(source.volumes))?;
    let secondary = used_text(
        alloc,
        &source.pair.secondary,
        secondary_span(source.volumes),
    )?;
    let text = page_over(
        alloc, spelling, picture, pieces, cited, &primary, &secondary, source, subject, bounds,
        style,
    )?;
    Ok(text)
}
