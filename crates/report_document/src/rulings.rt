//! What a ruling says, in words.

ghost use Rattle.std.specs.Prelude.{◌≡◌, ◌∷◌, ◌++◌, [], OnOk};
ghost use Rattle.report_document.specs.Telling.{values_in, paragraph, AddsBlocks};
ghost use Rattle.report_document.specs.Refusing.{journal_values, certificate_values, verdict_values, ruling_told};
ghost use Rattle.report_document.specs.declared.word.ReportWord.TheVariants as word;

use crate::block::{Block, BlockKind, SentencePart, push_block};
use crate::rule_words::rule_words;
use crate::word::ReportWord;
use attribution::Verdict;
use binding_rules::Role;
use book_rules::Rule;
use causal_order::{CertificateFault, Ref};
use journal_lines::JournalFault;
use pair_judgement::Judgement;
use std::alloc::AllocError;

const NO_HEAD: &str = " doesn't begin with the head line of such a journal.";

const NO_END: &str = " doesn't end in a close line and an end line with the count of its lines.";

const NO_LINE: &str = ", counted behind the head line, isn't spelled as a line of a journal.";

const OTHER_NUMBER: &str = ", counted behind the head line, has another number than the next.";

const OTHER_READING: &str =
    ", counted behind the head line, has a reading below the one before, or over the limit.";

const NO_CERTIFICATE: &str =
    "The text given as the certificate doesn't begin with the head line of one.";

const NO_CERTIFICATE_LINE: &str =
    " of the certificate's text isn't spelled as a line that may stand there.";

const NO_CERTIFICATE_END: &str =
    "The certificate's text stops before its end line, or goes on behind it.";

const ACCEPTED: &str =
    "The answer to the question below is yes. In every run of the two servers that leaves these \
    two journals, with each clock and each answer as the premises say, this client had the whole prefix at each \
    moment asked about, and nobody else had any address of it.";

const CIRCULAR: &str =
    "Each order of both journals' lines has a message that is taken before it is sent, so no run \
    of the two servers leaves these journals.";

const EMPTY: &str = "The interval ends where it begins or before, so it has no moment.";

const BEFORE_OPEN: &str =
    "The interval, or the grant of a piece, isn't surely behind the earlier volumes of a server, \
    which these journals don't show.";

const UNSENT: &str = " takes a message that the other journal never sends.";

const DIFFERS: &str =
    " takes a message that the other journal sends with another term or other words.";

const PAST_END: &str = "The interval ends later than is shown by journal ";

const GAP: &str = " doesn't begin where it must, or has no moment.";

const NOT_CARRIED: &str = " isn't carried by the grant that it names.";

const NOT_DISCHARGED: &str =
    ", and no entry of the certificate shows that this was before the grant or after the piece.";

const UNCOVERED: &str =
    " tells of another client's delegation that touches the prefix, and no entry of the certificate \
    names it.";

const NO_REASON: &str =
    " is named by an entry whose reason why it doesn't touch the interval doesn't hold.";

/// What is so of a line.
fn push_line(out: &mut Vec<Block>, at: Ref, what: &'static str) -> Result<(), AllocError>
    ensures { OnOk result (AddsBlocks (paragraph (word.Line at ∷ []) ∷ []) out.old.items out.new.items) }
{
    push_block(
        out,
        BlockKind::Paragraph,
        &[("Line ", ReportWord::Line(at))],
        what,
    )
}

/// What is so of a piece.
fn push_piece(out: &mut Vec<Block>, number: u64, what: &'static str) -> Result<(), AllocError>
    ensures { OnOk result (AddsBlocks (paragraph (word.Number number ∷ []) ∷ []) out.old.items out.new.items) }
{
    push_block(
        out,
        BlockKind::Paragraph,
        &[("Piece ", ReportWord::Number(number))],
        what,
    )
}

/// What is wrong with a text that was given as a journal.
fn push_journal(out: &mut Vec<Block>, side: Role, fault: &JournalFault) -> Result<(), AllocError>
    ensures { OnOk result (AddsBlocks (paragraph (journal_values side fault.now) ∷ []) out.old.items out.new.items) }
{
    let text = [("The text given as journal ", ReportWord::Side(side))];
    match fault {
        JournalFault::Head => push_block(out, BlockKind::Paragraph, &text, NO_HEAD),
        JournalFault::Form { line } => push_line(
            out,
            Ref {
                side,
                number: *line,
            },
            NO_LINE,
        ),
        JournalFault::Number { line } => push_line(
            out,
            Ref {
                side,
                number: *line,
            },
            OTHER_NUMBER,
        ),
        JournalFault::Reading { line } => push_line(
            out,
            Ref {
                side,
                number: *line,
            },
            OTHER_READING,
        ),
        JournalFault::End => push_block(out, BlockKind::Paragraph, &text, NO_END),
    }
}

/// What is wrong with the certificate's text.
fn push_certificate(out: &mut Vec<Block>, fault: &CertificateFault) -> Result<(), AllocError>
    ensures { OnOk result (AddsBlocks (paragraph (certificate_values fault.now) ∷ []) out.old.items out.new.items) }
{
    match fault {
        CertificateFault::Head => push_block(out, BlockKind::Paragraph, &[], NO_CERTIFICATE),
        CertificateFault::Form { line } => {
            let line = [("Line ", ReportWord::Number(u64::from(*line)))];
            push_block(out, BlockKind::Paragraph, &line, NO_CERTIFICATE_LINE)
        }
        CertificateFault::End => push_block(out, BlockKind::Paragraph, &[], NO_CERTIFICATE_END),
    }
}

/// A rule that a line breaks.
fn rule_parts(side: Role, line: u32, rule: Rule) -> [SentencePart; 3]
    ensures { values_in result ≡ verdict_values (Verdict.Rule side line rule) }
{
    [
        ("Line ", ReportWord::Line(Ref { side, number: line })),
        (
            " breaks a rule of the pair's journals, so nothing is concluded from them. It is rule ",
            ReportWord::Number(u64::from(rule.number())),
        ),
        (": ", ReportWord::Prose(rule_words(rule))),
    ]
}

/// A release that no entry discharges.
fn release_parts(number: u64, release: Ref) -> [SentencePart; 2]
    ensures { values_in result ≡ verdict_values (Verdict.PieceRelease number release) }
{
    [
        ("What the grant of piece ", ReportWord::Number(number)),
        (" gave is given back by line ", ReportWord::Line(release)),
    ]
}

/// What a verdict says.
fn push_verdict(out: &mut Vec<Block>, verdict: &Verdict) -> Result<(), AllocError>
    ensures { OnOk result (AddsBlocks (paragraph (verdict_values verdict.now) ∷ []) out.old.items out.new.items) }
{
    let kind = BlockKind::Paragraph;
    match verdict {
        Verdict::Accepted => push_block(out, kind, &[], ACCEPTED),
        Verdict::Journal(side, fault) => push_journal(out, *side, fault),
        Verdict::Certificate(fault) => push_certificate(out, fault),
        Verdict::Rule(side, line, rule) => push_block(
            out,
            kind,
            &rule_parts(*side, *line, *rule),
            "",
        ),
        Verdict::Unsent(at) => push_line(out, *at, UNSENT),
        Verdict::Differs(at) => push_line(out, *at, DIFFERS),
        Verdict::Circular => push_block(out, kind, &[], CIRCULAR),
        Verdict::EmptyInterval => push_block(out, kind, &[], EMPTY),
        Verdict::PastEnd(side) => push_block(
            out,
            kind,
            &[(PAST_END, ReportWord::Side(*side))],
            ".",
        ),
        Verdict::PieceGap(number) => push_piece(out, *number, GAP),
        Verdict::PieceGrant(number) => push_piece(out, *number, NOT_CARRIED),
        Verdict::BeforeOpen => push_block(out, kind, &[], BEFORE_OPEN),
        Verdict::PieceRelease(number, release) => {
            push_block(out, kind, &release_parts(*number, *release), NOT_DISCHARGED)
        }
        Verdict::Uncovered(at) => push_line(out, *at, UNCOVERED),
        Verdict::Reason(at) => push_line(out, *at, NO_REASON),
    }
}

const PAIR: &str =
    "The journals' open, pool or transit lines differ, so they are hardly of one pair of servers.";

const SKEW: &str =
    "A journal's own line says a greater skew or transit than the question allows for.";

const CLOCKS: &str =
    " takes a message, and reads more than twice the skew below the line that sent it: no clocks within \
    the skew can have written both.";

const CARRIED: &str =
    " carries into its volume a lease that ends more than 10^11 milliseconds (three years) after the volume's open \
    line. No lease that a server may grant lasts so long, so this line is none that a volume before leaves.";

/// What a ruling says.
pub(crate) fn push_ruling(out: &mut Vec<Block>, ruling: &Judgement) -> Result<(), AllocError>
    ensures { OnOk result (AddsBlocks (ruling_told ruling.now) out.old.items out.new.items) }
{
    match ruling {
        Judgement::Verdict(verdict) => push_verdict(out, verdict),
        Judgement::Clocks(take) => push_line(out, *take, CLOCKS),
        Judgement::Pair => push_block(out, BlockKind::Paragraph, &[], PAIR),
        Judgement::Skew => push_block(out, BlockKind::Paragraph, &[], SKEW),
        Judgement::Carried(carrying) => push_line(out, *carrying, CARRIED),
    }
}
