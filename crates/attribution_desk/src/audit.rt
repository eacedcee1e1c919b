//! Answering one certificate over two journals.

ghost use Rattle.std.specs.Prelude.{◌≡◌, ◌≢◌, ◌⊎◌, true, IfOk, IfSome, IfErr, IsErrOf};
ghost use Rattle.std.specs.Result.{ForOk};
ghost use Rattle.journal_text.specs.Closed.{IsClosed};
ghost use Rattle.auditor.specs.Texts.{ParsedIsTrueInEveryRun};
ghost use Rattle.attribution_desk.specs.Answer.{IsAnswerOf, IsDeskAnswer};
ghost use Rattle.attribution_desk.specs.Running.{IsWritten};
ghost use Rattle.attribution_desk.specs.Headline.{IsTrueOfTexts};
ghost use Rattle.attribution_desk.specs.Warnings.{IsJudgingWarning};

use crate::answer::DeskAnswer;
use crate::chunk_sink::{ChunkSink, halvings_for, take_all};
use crate::error::DeskError;
use crate::intake::{Intake, ReadInput};
use crate::judging::judge_parsed;
use crate::outcome::{DeskOutcome, warnings_on};
use crate::watched::Watched;
use auditor::accepted_texts_are_true;
use certificate::certificates_are_spelled;
use lead_time::{Skew, Transit};
use std::alloc::Global;
use std::io::{Read, Write};
use std::thread::Threads;

/// The answer to two journals and a certificate's text.
fn answer_to<T: Threads + Sync>(
    rt: &T,
    alloc: Global,
    input: ReadInput,
    skew: Skew,
    transit: Transit,
) -> Result<DeskAnswer, DeskError>
    requires primary_closed { ForOk input.primary (λ journal. IsClosed journal.lines) }
    requires secondary_closed { ForOk input.secondary (λ journal. IsClosed journal.lines) }
    ensures answer { IfOk result (λ answer. IsAnswerOf input.primary input.secondary input.rest.items skew transit
        answer.line.items answer.status) }
    // What is accepted is true in every run of the pair that leaves these journals.
    ensures headline { IfOk result (λ answer. answer.status ≡ 0
        → ParsedIsTrueInEveryRun input.primary input.secondary input.rest.items skew transit) }
    ensures refused { IfErr result (λ e. e ≡ DeskError.Memory) }
{
    certificates_are_spelled();
    let ruling = judge_parsed(
        rt,
        alloc,
        input.primary,
        input.secondary,
        &input.rest,
        skew,
        transit,
    )?;
    DeskAnswer::new(alloc, &ruling)
}

/// The ruling on the input's three texts, journal A, journal B and the certificate, as a line and a status;
/// `Memory` where a growth was refused.
pub fn judge<T: Threads + Sync>(
    rt: &T,
    alloc: Global,
    input: &[u8],
    skew: Skew,
    transit: Transit,
) -> Result<DeskAnswer, DeskError>
    ensures answer { IfOk result (λ answer. IsDeskAnswer input.now skew transit answer.line.items answer.status) }
    // What is accepted is true in every run of the pair that leaves these journals, with each clock within the skew of
    // true time and each answer within the transit.
    ensures headline { IfOk result (λ answer. answer.status ≡ 0 → IsTrueOfTexts input.now skew transit) }
    ensures refused { IfErr result (λ e. e ≡ DeskError.Memory) }
{
    accepted_texts_are_true();
    let intake = Intake::new(alloc).take_chunk(rt, halvings_for(rt), input)?;
    answer_to(rt, alloc, intake.finish(), skew, transit)
}

/// Writes the ruling on all that a reader gives.
pub(crate) fn audit_input<T: Threads + Sync, R: Read, W: Write>(
    rt: &T,
    alloc: Global,
    skew: Skew,
    transit: Transit,
    reader: &mut Watched<R>,
    writer: &mut Watched<W>,
) -> Result<DeskOutcome, DeskError>
    ensures written { IfOk result (λ outcome. IsWritten (λ input. IsDeskAnswer input skew transit)
        (R.remaining reader.old.device) (W.contents writer.old.device) (W.contents writer.new.device) outcome.status) }
    ensures warned { IfOk result (λ outcome. IfSome (R.remaining reader.old.device)
        (λ input. IsJudgingWarning input skew transit outcome.warnings.items)) }
    ensures read { IsErrOf result DeskError.Read → (reader.new.failed ≡ true) ⊎ (reader.new.turns ≡ 0) }
    ensures write { IsErrOf result DeskError.Write → writer.new.failed ≡ true }
    ensures kept { IfErr result (λ e. e ≢ DeskError.Write → writer.new ≡ writer.old) }
{
    let intake = take_all(rt, alloc, reader, Intake::new(alloc))?;
    let input = intake.finish();
    let warnings = warnings_on(alloc, &input.primary, &input.secondary, skew, transit)?;
    let answer = answer_to(rt, alloc, input, skew, transit)?;
    writer.write_out(&answer.line)?;
    Ok(DeskOutcome {
        status: answer.status,
        warnings,
    })
}
