//! Why nobody is named, in words.

ghost use Rattle.std.specs.Prelude.{◌≡◌, ◌∷◌, [], IfOk, OnOk, map};
ghost use Rattle.std.specs.List.{flat_map};
ghost use Rattle.report_document.specs.Telling.{told_of, paragraph, values_in, AddsBlocks};
ghost use Rattle.report_document.specs.Reasons.{question_told, reason_told, why_told, lease_told};
ghost use Rattle.report_document.specs.Reasons.{reasons_told, refusal_told};

use crate::block::{Block, BlockKind, SentencePart, push_block};
use crate::leases::push_lease;
use crate::rulings::push_ruling;
use crate::word::ReportWord;
use binding_rules::Role;
use candidate_leases::{CandidateLease, NoHolderReason};
use evidence_report::LineReading;
use lead_time::Reading;
use pair_judgement::Judgement;
use plain_search::HolderQuery;
use std::alloc::{AllocError, Global};

const NONE_SHOWN: &str = " (the transit)? No client is named: none is shown to have had it.";

const REFUSED: &str = " (the transit)? No client is named.";

/// What is asked, and by which bounds.
fn push_question(
    out: &mut Vec<Block>,
    query: &HolderQuery,
    answer: &'static str,
) -> Result<(), AllocError>
    ensures { OnOk result (AddsBlocks (question_told query.now) out.old.items out.new.items) }
{
    let (skew, transit) = (query.skew.milliseconds(), query.transit.milliseconds());
    push_block(out, BlockKind::Heading, &[], "The question")?;
    let asked = [
        (
            "Which client had all of prefix ",
            ReportWord::Prefix(query.prefix),
        ),
        (" at ", ReportWord::Moment(query.at.milliseconds())),
        (", with each clock within ", ReportWord::Milliseconds(skew)),
        (
            " of true time (the skew) and each answer at its client within ",
            ReportWord::Milliseconds(transit),
        ),
    ];
    push_block(out, BlockKind::Paragraph, &asked, answer)
}

/// What doesn't cover the moment.
const OUTSIDE: &str = "The moment is outside of what journal ";

const NEEDED: &str = ", and the moment's end with the skew is ";

/// A moment before both journals begin.
fn before_first(primary: Reading, secondary: Reading) -> [SentencePart; 2]
    ensures { paragraph (values_in result) ≡ reason_told (NoHolderReason.BeforeFirstVolume primary secondary) }
{
    [
        (
            "The moment is before the first volumes of both journals, A's, which begins at ",
            ReportWord::Reading(primary.milliseconds()),
        ),
        (
            ", and B's, which begins at ",
            ReportWord::Reading(secondary.milliseconds()),
        ),
    ]
}

/// A moment that isn't surely behind a server's earlier volumes.
fn before_open(side: Role, needed: u64) -> [SentencePart; 2]
    ensures { paragraph (values_in result) ≡ reason_told (NoHolderReason.BeforeOpen side needed) }
{
    let earlier = " covers: answers of its earlier volumes may have come up to ";
    [
        (OUTSIDE, ReportWord::Side(side)),
        (earlier, ReportWord::Moment(needed)),
    ]
}

/// A moment that a journal which is still being written doesn't show yet.
fn after_last_line(side: Role, needed: u64, last: Reading) -> [SentencePart; 3]
    ensures { paragraph (values_in result) ≡ reason_told (NoHolderReason.AfterLastLine side needed last) }
{
    let written = " is still being written: at its last line the clock showed ";
    [
        ("Journal ", ReportWord::Side(side)),
        (written, ReportWord::Reading(last.milliseconds())),
        (NEEDED, ReportWord::Reading(needed)),
    ]
}

/// A moment that a journal ends before.
fn past_end(side: Role, needed: u64, closed: Reading) -> [SentencePart; 3]
    ensures { paragraph (values_in result) ≡ reason_told (NoHolderReason.PastEnd side needed closed) }
{
    let closed = ReportWord::Reading(closed.milliseconds());
    [
        (OUTSIDE, ReportWord::Side(side)),
        (" covers: at its close line the clock showed ", closed),
        (NEEDED, ReportWord::Reading(needed)),
    ]
}

/// Leases of two clients.
fn several(first: &LineReading, other: &LineReading) -> [SentencePart; 2]
    ensures { paragraph (values_in result) ≡ reason_told (NoHolderReason.Several first.now other.now) }
{
    let lines = "Two clients or more may have had addresses of it, by the leases of line ";
    [
        (lines, ReportWord::Line(first.at)),
        (" and line ", ReportWord::Line(other.at)),
    ]
}

/// The length of what a customer has.
fn several_customers(unit_length: u8) -> [SentencePart; 1]
    ensures { paragraph (values_in result) ≡ reason_told (NoHolderReason.SeveralCustomers unit_length) }
{
    let units = "The prefix is several customers': each has a prefix of length ";
    [(units, ReportWord::Number(u64::from(unit_length)))]
}

/// The line of a lease that is carried.
fn carried(line: &LineReading) -> [SentencePart; 1]
    ensures { paragraph (values_in result) ≡ reason_told (NoHolderReason.Carried line.now) }
{
    let began =
        "A client may have had it by a lease that began in an earlier volume, which isn't here: line ";
    [(began, ReportWord::Line(line.at))]
}

const OUTSIDE_POOLS: &str = "No pool of these journals has an address of the prefix.";

const SEVERAL: &str = ": the moment is too near to where one's lease ended and another's began.";

const NOT_SHOWN: &str =
    "A client may have had it, but that isn't shown: the moment is too near to a beginning, an end \
    or a release for what the clocks showed, or a part of the prefix was its alone.";

const NOBODY: &str =
    "Nobody had it: by the lines of both journals no address of the prefix can have been a client's at \
    the moment.";

/// The reason, with what was compared.
fn push_reason(out: &mut Vec<Block>, why: &NoHolderReason) -> Result<(), AllocError>
    ensures { OnOk result (AddsBlocks (reason_told why.now ∷ []) out.old.items out.new.items) }
{
    let kind = BlockKind::Paragraph;
    match why {
        NoHolderReason::OutsidePools => push_block(out, kind, &[], OUTSIDE_POOLS),
        NoHolderReason::BeforeFirstVolume { primary, secondary } => {
            push_block(out, kind, &before_first(*primary, *secondary), ".")
        }
        NoHolderReason::BeforeOpen { side, needed } => {
            let parts = before_open(*side, *needed);
            push_block(out, kind, &parts, ". Ask the volume before it.")
        }
        NoHolderReason::AfterLastLine { side, needed, last } => {
            let parts = after_last_line(*side, *needed, *last);
            push_block(out, kind, &parts, ". Ask again later.")
        }
        NoHolderReason::PastEnd {
            side,
            needed,
            closed,
        } => push_block(out, kind, &past_end(*side, *needed, *closed), "."),
        NoHolderReason::SeveralCustomers { unit_length } => {
            push_block(out, kind, &several_customers(*unit_length), ".")
        }
        NoHolderReason::Several { first, other } => {
            push_block(out, kind, &several(first, other), SEVERAL)
        }
        NoHolderReason::Carried { line } => {
            let parts = carried(line);
            push_block(out, kind, &parts, ". desk join puts the volumes together.")
        }
        NoHolderReason::NotShown => push_block(out, kind, &[], NOT_SHOWN),
        NoHolderReason::Nobody => push_block(out, kind, &[], NOBODY),
    }
}

const NOBODY_NAMED: &str = "Why nobody is named";

/// Why nobody is named.
fn push_why(out: &mut Vec<Block>, why: &NoHolderReason) -> Result<(), AllocError>
    ensures { OnOk result (AddsBlocks (why_told why.now) out.old.items out.new.items) }
{
    push_block(out, BlockKind::Heading, &[], NOBODY_NAMED)?;
    push_reason(out, why)
}

/// Each delegation, in its order.
fn push_leases(
    out: &mut Vec<Block>,
    leases: &[CandidateLease],
    query: &HolderQuery,
) -> Result<(), AllocError>
    ensures { OnOk result (AddsBlocks (flat_map (lease_told query.now) leases.now) out.old.items out.new.items) }
{
    for lease in leases {
        push_lease(out, lease, query)?;
    }
    Ok(())
}

/// Why a search for a holder names nobody, as blocks of a report: the question, the reason, and each delegation near
/// the moment. `AllocError` where a growth was refused.
pub fn why_blocks(
    alloc: Global,
    query: &HolderQuery,
    why: &NoHolderReason,
    leases: &[CandidateLease],
) -> Result<Vec<Block>, AllocError>
    ensures { IfOk result (λ blocks. map told_of blocks.items ≡ reasons_told query.now why.now leases.now) }
{
    let mut out = Vec::new(alloc);
    push_question(&mut out, query, NONE_SHOWN)?;
    push_why(&mut out, why)?;
    push_leases(&mut out, leases, query)?;
    Ok(out)
}

/// What stands against the journals, or against asking this of them, as blocks of a report: the question and the
/// ruling. No lease is told of. `AllocError` where a growth was refused.
pub fn refusal_blocks(
    alloc: Global,
    query: &HolderQuery,
    ruling: &Judgement,
) -> Result<Vec<Block>, AllocError>
    ensures { IfOk result (λ blocks. map told_of blocks.items ≡ refusal_told query.now ruling.now) }
{
    let mut out = Vec::new(alloc);
    push_question(&mut out, query, REFUSED)?;
    push_block(&mut out, BlockKind::Heading, &[], NOBODY_NAMED)?;
    push_ruling(&mut out, ruling)?;
    Ok(out)
}
