//! All lines in one order, as they are written.

ghost use Rattle.std.specs.Prelude.{IfOk};
ghost use Rattle.archive_desk.specs.Telling.{IsTimelineTold};

use crate::command_output::CommandOutput;
use crate::coverage_gaps::gap_line;
use crate::names::push_journals;
use crate::newest::{TimelineAnswer, TimelineReply};
use attribution_desk::none_line;
use std::alloc::{AllocError, Global};
use std::path::PathBuf;

impl TimelineAnswer {
    /// What `timeline` tells: the lines behind that of the two files. `AllocError` where a growth was refused.
    pub fn told(&self, alloc: Global, names: &[PathBuf]) -> Result<CommandOutput, AllocError>
        ensures { IfOk result (IsTimelineTold names.now self.now.reply) }
    {
        match &self.reply {
            TimelineReply::Answered(pair, answer) => {
                let mut text = Vec::new(alloc);
                push_journals(&mut text, names, pair)?;
                text.extend_from_slice(&answer.line)?;
                Ok(CommandOutput {
                    text,
                    status: answer.status,
                    notes: Vec::new(alloc),
                })
            }
            TimelineReply::Lacking(side, lack) => Ok(CommandOutput {
                text: none_line(alloc)?,
                status: 1,
                notes: gap_line(alloc, names, *side, lack, &self.bounds)?,
            }),
        }
    }
}
