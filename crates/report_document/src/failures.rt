//! The comparison that a refusal rests on.

ghost use Rattle.std.specs.Prelude.{◌≡◌, ◌∷◌, [], OnOk};
ghost use Rattle.report_document.specs.Telling.{values_in, paragraph, AddsBlocks};
ghost use Rattle.report_document.specs.Refusing.{piece_values, foreign_values, failure_values, failure_told};
ghost use Rattle.report_document.specs.declared.word.ReportWord.TheVariants as word;

use crate::block::{Block, BlockKind, SentencePart, push_block};
use crate::word::ReportWord;
use attribution::Delegation;
use binding_rules::Role;
use causal_order::Ref;
use evidence_report::{Failure, ForeignFault, PieceFault};
use lead_time::Reading;
use std::alloc::AllocError;

/// An interval without a moment.
fn empty_interval(from: Reading, to: Reading) -> [SentencePart; 2]
    ensures { values_in result ≡ failure_values (Failure.EmptyInterval from to) }
{
    [
        (
            "The interval begins at ",
            ReportWord::Moment(from.milliseconds()),
        ),
        (" and ends at ", ReportWord::Moment(to.milliseconds())),
    ]
}

/// An interval that ends past what a journal shows.
fn past_end(side: Role, needed: u64, closed: Reading) -> [SentencePart; 3]
    ensures { values_in result ≡ failure_values (Failure.PastEnd side needed closed) }
{
    let later = ", which is later than the clock showed at the close line of journal ";
    [
        (
            "The interval's end and the skew come to ",
            ReportWord::Reading(needed),
        ),
        (later, ReportWord::Side(side)),
        (", ", ReportWord::Reading(closed.milliseconds())),
    ]
}

/// A piece, and why it is out of place: where it has to begin, and where it begins and ends, if there is one.
fn push_gap(
    out: &mut Vec<Block>,
    number: u64,
    must: Reading,
    piece: &Option<(Reading, Reading)>,
) -> Result<(), AllocError>
    ensures { OnOk result
        (AddsBlocks (paragraph (failure_values (Failure.PieceGap number must piece.now)) ∷ []) out.old.items out.new.items) }
{
    let must = ReportWord::Moment(must.milliseconds());
    match piece {
        None => {
            let missing = [
                ("There is no piece ", ReportWord::Number(number)),
                (". The pieces reach up to ", must),
            ];
            push_block(
                out,
                BlockKind::Paragraph,
                &missing,
                ", and not to the interval's end.",
            )
        }
        Some((begins, ends)) => {
            let misplaced = [
                ("Piece ", ReportWord::Number(number)),
                (" must begin at ", must),
                (
                    " and end later. It begins at ",
                    ReportWord::Moment(begins.milliseconds()),
                ),
                (" and ends at ", ReportWord::Moment(ends.milliseconds())),
            ];
            push_block(out, BlockKind::Paragraph, &misplaced, ".")
        }
    }
}

/// A lease that isn't sure to have begun by the beginning of its piece.
fn begun_late(number: u64, begun: u64, from: u64) -> [SentencePart; 3]
    ensures { values_in result ≡ word.Number number ∷ piece_values (PieceFault.BegunLate begun from) }
{
    [
        ("The lease of piece ", ReportWord::Number(number)),
        (" is sure to have begun only by ", ReportWord::Moment(begun)),
        (
            ", which is later than the piece's beginning, ",
            ReportWord::Moment(from),
        ),
    ]
}

/// A lease that isn't sure to last to the end of its piece.
fn ends_early(number: u64, needed: u64, shown: u64) -> [SentencePart; 3]
    ensures { values_in result ≡ word.Number number ∷ piece_values (PieceFault.EndsEarly needed shown) }
{
    let later = ", which is later than the reading at its grant and the lifetime, ";
    [
        ("The end of piece ", ReportWord::Number(number)),
        (" and the skew come to ", ReportWord::Number(needed)),
        (later, ReportWord::Number(shown)),
    ]
}

const NO_GRANT: &str = " names a line that grants nothing.";

const NO_CHAIN_FROM: &str = ": what is named as a chain from it is none.";

const NO_CHAIN_TO: &str = ": what is named as a chain to it is none.";

/// Why a piece isn't carried by its grant.
fn push_piece_fault(out: &mut Vec<Block>, number: u64, fault: &PieceFault) -> Result<(), AllocError>
    ensures { OnOk result
        (AddsBlocks (paragraph (word.Number number ∷ piece_values fault.now) ∷ []) out.old.items out.new.items) }
{
    let kind = BlockKind::Paragraph;
    let grant = ("The grant of piece ", ReportWord::Number(number));
    match fault {
        PieceFault::NoGrant => push_block(out, kind, &[grant], NO_GRANT),
        PieceFault::OtherClient(client) => {
            let other = (" is to another client, ", ReportWord::Client(*client));
            push_block(out, kind, &[grant, other], ".")
        }
        PieceFault::OtherPrefix(prefix) => {
            let other = " is of a prefix that doesn't contain the one asked of, ";
            push_block(
                out,
                kind,
                &[grant, (other, ReportWord::Prefix(*prefix))],
                ".",
            )
        }
        PieceFault::NoChainFrom => push_block(out, kind, &[grant], NO_CHAIN_FROM),
        PieceFault::BegunLate { begun, from } => {
            push_block(out, kind, &begun_late(number, *begun, *from), ".")
        }
        PieceFault::NoChainTo => push_block(out, kind, &[grant], NO_CHAIN_TO),
        PieceFault::EndsEarly { needed, shown } => {
            push_block(out, kind, &ends_early(number, *needed, *shown), ".")
        }
    }
}

/// A moment of another client's delegation that is later than the interval's beginning.
fn too_late(at: Ref, what: &'static str, moment: u64, from: u64) -> [SentencePart; 3]
    ensures { values_in result ≡ word.Line at ∷ word.Moment moment ∷ word.Moment from ∷ [] }
{
    [
        ("What line ", ReportWord::Line(at)),
        (what, ReportWord::Moment(moment)),
        (
            ", which is later than the interval's beginning, ",
            ReportWord::Moment(from),
        ),
    ]
}

/// A delegation that isn't sure to begin behind the interval.
fn begins_early(at: Ref, needed: u64, shown: u64) -> [SentencePart; 3]
    ensures { values_in result ≡ word.Line at ∷ foreign_values (ForeignFault.BeginsEarly needed shown) }
{
    let later = ", which is later than the reading at the first line of the chain, ";
    [
        ("For line ", ReportWord::Line(at)),
        (
            " the interval's end and the skew come to ",
            ReportWord::Number(needed),
        ),
        (later, ReportWord::Number(shown)),
    ]
}

const NO_DELEGATION: &str = " names a line that tells of no delegation.";

const NOT_GIVEN_BACK: &str = " names a release of something else.";

const CARRIED: &str = " names a carry line, which doesn't show when what it tells of began.";

const NOT_BEHIND: &str = " doesn't show that the release came behind the grant.";

/// Why the reason of a foreign entry doesn't hold.
fn push_foreign_fault(out: &mut Vec<Block>, at: Ref, fault: &ForeignFault) -> Result<(), AllocError>
    ensures { OnOk result
        (AddsBlocks (paragraph (word.Line at ∷ foreign_values fault.now) ∷ []) out.old.items out.new.items) }
{
    let kind = BlockKind::Paragraph;
    let entry = [("The entry of line ", ReportWord::Line(at))];
    match fault {
        ForeignFault::NoDelegation => push_block(out, kind, &entry, NO_DELEGATION),
        ForeignFault::NoChain => push_block(out, kind, &entry, " has no chain where it names one."),
        ForeignFault::Endless => push_block(out, kind, &entry, " names a lease that never ends."),
        ForeignFault::EndsLate { ends, from } => {
            let late = too_late(at, " tells of may have lasted up to ", *ends, *from);
            push_block(out, kind, &late, ".")
        }
        ForeignFault::Carried => push_block(out, kind, &entry, CARRIED),
        ForeignFault::BeginsEarly { needed, shown } => {
            push_block(out, kind, &begins_early(at, *needed, *shown), ".")
        }
        ForeignFault::NotGivenBack => push_block(out, kind, &entry, NOT_GIVEN_BACK),
        ForeignFault::NotBehind => push_block(out, kind, &entry, NOT_BEHIND),
        ForeignFault::GivenBackLate { given, from } => {
            let late = too_late(at, " tells of was given back by ", *given, *from);
            push_block(out, kind, &late, ".")
        }
    }
}

/// An interval that isn't surely behind a server's earlier volumes.
fn before_open(side: Role, needed: u64, from: Reading) -> [SentencePart; 3]
    ensures { values_in result ≡ failure_values (Failure.BeforeOpen side needed from) }
{
    let later = ", which is later than the interval's beginning, ";
    [
        (
            "The answers of the earlier volumes of side ",
            ReportWord::Side(side),
        ),
        (
            " had surely reached their clients by ",
            ReportWord::Moment(needed),
        ),
        (later, ReportWord::Moment(from.milliseconds())),
    ]
}

/// A piece whose grant isn't shown to have come behind them.
fn piece_before_open(number: u64, side: Role) -> [SentencePart; 2]
    ensures { values_in result ≡ failure_values (Failure.PieceBeforeOpen number side) }
{
    let unshown = " isn't shown to have come behind the earlier volumes of side ";
    [
        ("The grant of piece ", ReportWord::Number(number)),
        (unshown, ReportWord::Side(side)),
    ]
}

/// A release that no entry discharges.
fn piece_release(number: u64, release: Ref) -> [SentencePart; 2]
    ensures { values_in result ≡ failure_values (Failure.PieceRelease number release) }
{
    let unnamed = " no clear entry that holds names the release, ";
    [
        ("In piece ", ReportWord::Number(number)),
        (unnamed, ReportWord::Line(release)),
    ]
}

/// Another client's delegation that no entry names.
fn uncovered(at: Ref, delegation: &Delegation) -> [SentencePart; 3]
    ensures { values_in result ≡ failure_values (Failure.Uncovered at delegation.now) }
{
    [
        ("Line ", ReportWord::Line(at)),
        (
            " tells of a delegation to client ",
            ReportWord::Client(delegation.client),
        ),
        (" of prefix ", ReportWord::Prefix(delegation.prefix)),
    ]
}

/// The condition that fails.
fn push_condition(out: &mut Vec<Block>, failure: &Failure) -> Result<(), AllocError>
    ensures { OnOk result (AddsBlocks (paragraph (failure_values failure.now) ∷ []) out.old.items out.new.items) }
{
    let kind = BlockKind::Paragraph;
    match failure {
        Failure::EmptyInterval { from, to } => {
            push_block(out, kind, &empty_interval(*from, *to), ".")
        }
        Failure::PastEnd {
            side,
            needed,
            closed,
        } => push_block(out, kind, &past_end(*side, *needed, *closed), "."),
        Failure::PieceGap {
            number,
            must,
            piece,
        } => push_gap(out, *number, *must, piece),
        Failure::PieceGrant { number, fault } => push_piece_fault(out, *number, fault),
        Failure::BeforeOpen { side, needed, from } => {
            push_block(out, kind, &before_open(*side, *needed, *from), ".")
        }
        Failure::PieceBeforeOpen { number, side } => {
            push_block(out, kind, &piece_before_open(*number, *side), ".")
        }
        Failure::PieceRelease { number, release } => {
            push_block(out, kind, &piece_release(*number, *release), ".")
        }
        Failure::Uncovered { at, delegation } => {
            push_block(out, kind, &uncovered(*at, delegation), ".")
        }
        Failure::Reason { at, fault } => push_foreign_fault(out, *at, fault),
    }
}

/// The comparison that a refusal rests on, with both its numbers; nothing where there is none.
pub(crate) fn push_failure(
    out: &mut Vec<Block>,
    failure: &Option<Failure>,
) -> Result<(), AllocError>
    ensures { OnOk result (AddsBlocks (failure_told failure.now) out.old.items out.new.items) }
{
    match failure {
        Some(failure) => push_condition(out, failure),
        None => Ok(()),
    }
}
