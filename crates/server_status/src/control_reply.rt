//! What a running server answers to a request.

ghost use Rattle.std.specs.Prelude.{◌≡◌, ◌++◌, OnOk, MatchOption};
ghost use Rattle.std.specs.String.{string_bytes};
ghost use Rattle.server_status.specs.declared.control_reply.ControlReply.{ControlReply as AnswerValue};
ghost use Rattle.server_status.specs.declared.control_reply.ControlVerdict.{ControlVerdict as VerdictValue};
ghost use Rattle.server_status.specs.Words.{verdict_words, answer_words, IsControlReply};

use std::alloc::AllocError;

/// What became of a request.
#[derive(Clone, Copy, Debug, PartialEq, Eq)]
pub enum ControlVerdict<'a> {
    Done,
    /// It was refused, and nothing was changed. The reason is one line.
    Refused(&'a str),
}

/// What a server answers to a request: a line, `ok` or `refused` with the reason, and then a text up to the end.
#[derive(Clone, Copy, Debug, PartialEq, Eq)]
pub struct ControlReply<'a> {
    pub verdict: ControlVerdict<'a>,
    pub text: &'a str,
}

/// Returns what a line, without its line feed, says of a request.
fn verdict_of<'a>(line: &'a str) -> Option<ControlVerdict<'a>>
    ensures { MatchOption result ((v : VerdictValue) → line.entry.now ≡ verdict_words v → ⊥)
        (λ v. line.entry.now ≡ verdict_words v) }
{
    if line == "ok" {
        return Some(ControlVerdict::Done);
    }
    match line.split_once(' ') {
        Some((word, reason)) if word == "refused" => Some(ControlVerdict::Refused(reason)),
        _ => None,
    }
}

impl<'a> ControlReply<'a> {
    /// Returns the answer that words are. `None` where they are no answer.
    pub fn read(words: &'a str) -> Option<ControlReply<'a>>
        ensures { MatchOption result ((a : AnswerValue) → IsControlReply words.entry.now a → ⊥)
            (λ a. IsControlReply words.entry.now a) }
    {
        let Some((line, text)) = words.split_once('\n') else {
            return None;
        };
        match verdict_of(line) {
            Some(verdict) => Some(ControlReply { verdict, text }),
            None => None,
        }
    }

    /// Appends the words of the answer.
    pub fn push(&self, out: &mut String) -> Result<(), AllocError>
        ensures { OnOk result (string_bytes out.new ≡ string_bytes out.old ++ answer_words self.now) }
    {
        match self.verdict {
            ControlVerdict::Done => out.push_str("ok")?,
            ControlVerdict::Refused(reason) => {
                out.push_str("refused ")?;
                out.push_str(reason)?;
            }
        }
        out.push('\n')?;
        out.push_str(self.text)
    }
}
