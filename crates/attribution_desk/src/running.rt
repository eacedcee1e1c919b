//! Carrying out commands.

ghost use Rattle.std.specs.Prelude.{◌≡◌, ◌≢◌, ◌⊎◌, true, IfOk, IfSome, IsErrOf, IfErr};
ghost use Rattle.attribution_desk.specs.Running.{IsCommandOutput, IsWritten};
ghost use Rattle.attribution_desk.specs.Headline.{SaysTrue, WritesTrue};
ghost use Rattle.attribution_desk.specs.Warnings.{Warns};

use crate::audit::audit_input;
use crate::batch::batch_input;
use crate::clocks::clocks_input;
use crate::error::DeskError;
use crate::outcome::DeskOutcome;
use crate::search::Search;
use crate::searching::search_input;
use crate::timelines::timeline_input;
use crate::watched::Watched;
use auditor::accepted_texts_are_true;
use certificate::certificates_are_spelled;
use desk_args::Command;
use std::alloc::Global;
use std::io::{Read, Write};
use std::sync::Wait;
use std::thread::Threads;

/// Carries out a command: reads all of the input, writes the answer, and gives the status and what is to be warned of.
/// `Read` where the input fails or goes on for too long, `Write` where the output fails, `Memory` where a growth was
/// refused.
pub fn run<T: Threads + Wait + Sync, R: Read, W: Write>(
    rt: &T,
    alloc: Global,
    command: &Command,
    reader: &mut Watched<R>,
    writer: &mut Watched<W>,
) -> Result<DeskOutcome, DeskError>
    ensures written { IfOk result (λ outcome.
        IsWritten (λ input. IsCommandOutput command.now input outcome.warnings.items) (R.remaining reader.old.device)
        (W.contents writer.old.device) (W.contents writer.new.device) outcome.status) }
    ensures warned { IfOk result (λ outcome. IfSome (R.remaining reader.old.device)
        (λ input. Warns command.now input outcome.warnings.items)) }
    // Where it is known what the reader had to give, each certificate that status 0 is said of, and each that is found,
    // is true in every run of the pair that leaves the journals; so is the holder who is named with it.
    ensures headline { IfOk result (λ outcome. outcome.status ≡ 0
        → WritesTrue (SaysTrue command.now) (R.remaining reader.old.device) (W.contents writer.old.device)
        (W.contents writer.new.device)) }
    // A reader that is well and has turns left isn't blamed, nor is a writer that is well.
    ensures read { IsErrOf result DeskError.Read → (reader.new.failed ≡ true) ⊎ (reader.new.turns ≡ 0) }
    ensures write { IsErrOf result DeskError.Write → writer.new.failed ≡ true }
    // Nothing was written but by a write that failed.
    ensures kept { IfErr result (λ e. e ≢ DeskError.Write → writer.new ≡ writer.old) }
{
    accepted_texts_are_true();
    certificates_are_spelled();
    match command {
        Command::Audit { skew, transit } => audit_input(rt, alloc, *skew, *transit, reader, writer),
        Command::Batch {
            skew,
            transit,
            workers,
        } => batch_input(rt, alloc, *skew, *transit, *workers, reader, writer),
        Command::Timeline => {
            let status = timeline_input(rt, alloc, reader, writer)?;
            Ok(DeskOutcome::quiet(alloc, status))
        }
        Command::Clocks => {
            let status = clocks_input(rt, alloc, reader, writer)?;
            Ok(DeskOutcome::quiet(alloc, status))
        }
        Command::Find(query) => search_input(rt, alloc, &Search::Find(*query), reader, writer),
        Command::Who(query, settings) => {
            search_input(rt, alloc, &Search::Who(*query, *settings), reader, writer)
        }
    }
}
