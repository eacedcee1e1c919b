//! Who held a prefix, as it is written.

ghost use Rattle.std.specs.Prelude.{◌≡◌, ◌++◌, IfOk, OnOk};
ghost use Rattle.archive_desk.specs.Telling.{TellsHolderReply, holder_status, holder_files, IsHolderNoted, IsWhoTold};

use crate::command_output::{CommandOutput, reach_line};
use crate::coverage_gaps::{TimingBounds, gap_line};
use crate::holding::{HolderReply, WhoAnswer};
use crate::names::{push_journals, push_volumes};
use archive_files::FilesError;
use attribution_desk::none_line;
use std::alloc::{AllocError, Global};
use std::path::PathBuf;

impl HolderReply {
    /// What the desk answers, or `none`. `Memory` where a growth was refused.
    pub fn text(&self, alloc: Global) -> Result<Vec<u8>, FilesError>
        ensures { IfOk result (λ text. TellsHolderReply self.now text.items) }
    {
        match self {
            HolderReply::Answered { answer, .. } => match answer.text(alloc) {
                Ok(text) => Ok(text),
                Err(_) => Err(FilesError::Memory),
            },
            HolderReply::Lacking(_, _) => Ok(none_line(alloc)?),
        }
    }

    /// 0 where a client is named, else 1.
    pub fn status(&self) -> u8
        ensures { result ≡ holder_status self.now }
    {
        match self {
            HolderReply::Answered { answer, .. } => answer.status(),
            HolderReply::Lacking(_, _) => 1,
        }
    }

    /// Appends the line that names the two files, if there are two, and of several volumes of a side which.
    fn push_files(&self, out: &mut Vec<u8>, names: &[PathBuf]) -> Result<(), AllocError>
        ensures { OnOk result (out.new.items ≡ out.old.items ++ holder_files names.now self.now) }
    {
        match self {
            HolderReply::Answered { pair, spans, .. } => {
                push_journals(out, names, pair)?;
                push_volumes(out, spans)
            }
            HolderReply::Lacking(_, _) => Ok(()),
        }
    }

    /// What is noted of the reply to a question that asks of nothing from `end` on: which moments are lacking, and why.
    fn noted(
        &self,
        alloc: Global,
        names: &[PathBuf],
        bounds: &TimingBounds,
        end: u64,
    ) -> Result<Vec<u8>, AllocError>
        ensures { IfOk result (λ notes. IsHolderNoted self.now notes.items) }
    {
        match self {
            HolderReply::Answered { answer, until, .. } => {
                let mut notes = Vec::new(alloc);
                notes.extend_from_slice(answer.note())?;
                notes.extend_from_slice(&reach_line(alloc, until, end)?)?;
                Ok(notes)
            }
            HolderReply::Lacking(side, lack) => gap_line(alloc, names, *side, lack, bounds),
        }
    }
}

impl WhoAnswer {
    /// What `who` tells: on standard error the two files, and what is noted. `Memory` where a growth was refused.
    pub fn told(&self, alloc: Global, names: &[PathBuf]) -> Result<CommandOutput, FilesError>
        ensures { IfOk result (IsWhoTold names.now self.now) }
    {
        let bounds = TimingBounds {
            skew: self.query.skew,
            transit: self.query.transit,
        };
        let end = self.query.at.milliseconds() + 1;
        let mut text = self.reply.text(alloc)?;
        text.extend_from_slice(&self.access)?;
        let mut notes = Vec::new(alloc);
        self.reply.push_files(&mut notes, names)?;
        notes.extend_from_slice(&self.reply.noted(alloc, names, &bounds, end)?)?;
        Ok(CommandOutput {
            text,
            status: self.reply.status(),
            notes,
        })
    }
}
