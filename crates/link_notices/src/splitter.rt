//! A stream of frames and notices, parted as it comes.

ghost use Rattle.std.specs.Prelude.{◌≡◌, ◌++◌, [], IfOk, OnOk, OnErr};
ghost use Rattle.link_notices.specs.Parting.{start, parted, behind_tokens, given, next_text, tokens_of};
ghost use Rattle.link_notices.specs.Gathering.{shown};

use crate::stage::{NOTICE, Stage, is_notice_length, next_stage, number_of_two};
use crate::stream_part::{Output, StreamPart};
use std::alloc::{AllocError, Global};
use std::marker::Model;
use std::mem::replace;

/// Takes an octet of a notice's text, of which so many octets are still to come.
fn take_of_text(
    alloc: Global,
    left: u16,
    text: &mut Vec<u8>,
    octet: u8,
    output: &mut Output,
) -> Result<(), AllocError>
    ensures text { OnOk result (text.new.items ≡ next_text (Stage.InNotice left) text.old.items octet) }
    ensures given { OnOk result
        (shown output.new ≡ shown output.old ++ given (Stage.InNotice left) text.old.items octet) }
{
    text.push(octet)?;
    if left <= 1 {
        return output.push_notice(replace(text, Vec::new(alloc)));
    }
    Ok(())
}

/// Hands on the octets of a notice's length that is out of its range.
fn take_of_length(high: u8, octet: u8, output: &mut Output) -> Result<(), AllocError>
    ensures { OnOk result (shown output.new ≡ shown output.old ++ given (Stage.NoticeLengthEnd high) [] octet) }
{
    if is_notice_length(number_of_two(high, octet)) {
        return Ok(());
    }
    output.push_octet(NOTICE)?;
    output.push_octet(high)?;
    output.push_octet(octet)
}

/// Takes an octet that stands here, and gives what it completes.
fn take_octet(
    alloc: Global,
    stage: Stage,
    text: &mut Vec<u8>,
    octet: u8,
    output: &mut Output,
) -> Result<(), AllocError>
    ensures text { OnOk result (text.new.items ≡ next_text stage text.old.items octet) }
    ensures given { OnOk result (shown output.new ≡ shown output.old ++ given stage text.old.items octet) }
{
    match stage {
        Stage::Between if octet == NOTICE => Ok(()),
        Stage::Between => output.push_octet(octet),
        Stage::NoticeLength => Ok(()),
        Stage::NoticeLengthEnd { high } => take_of_length(high, octet, output),
        Stage::InNotice { left } => take_of_text(alloc, left, text, octet, output),
        Stage::SecondOfLength
        | Stage::ThirdOfLength
        | Stage::FourthOfLength { .. }
        | Stage::InFrame { .. }
        | Stage::Foreign => output.push_octet(octet),
    }
}

/// Takes the octets of a chunk, of which the first stands here. Answers where the one behind the last stands.
fn take_octets(
    alloc: Global,
    stage: Stage,
    text: &mut Vec<u8>,
    chunk: &[u8],
    output: &mut Output,
) -> Result<Stage, AllocError>
    ensures { IfOk result (λ next.
        behind_tokens (shown output.old) (parted (record { stage = stage; text = text.old.items }) chunk.now)
        ≡ record { place = record { stage = next; text = text.new.items }; tokens = shown output.new }) }
{
    let mut next = stage;
    for octet in chunk {
        take_octet(alloc, next, text, *octet, output)?;
        next = next_stage(next, *octet);
    }
    Ok(next)
}

/// The receiving end of a stream of frames and notices. Between chunks it holds what has come of a notice that isn't
/// whole: at most 4,096 octets. Contracts see where the stream is, and what has come of the notice.
#[derive(Drop)]
pub struct StreamSplitter {
    stage: Stage,
    text: Vec<u8>,
    alloc: Global,
}

impl Model for StreamSplitter {
    ghost use Rattle.link_notices.specs.Parting.{Place};

    ghost Value = { Place };

    ghost view = { λ s. record { stage = s.stage; text = s.text.items } };
}

impl StreamSplitter {
    /// The end of a stream of which nothing has come yet.
    pub fn new(alloc: Global) -> StreamSplitter
        ensures { result ≡ start }
    {
        StreamSplitter {
            stage: Stage::Between,
            text: Vec::new(alloc),
            alloc,
        }
    }

    /// Takes the next chunk of the stream, of any length, and gives its parts in order: the octets that go to the
    /// frames, and each notice that it completes. What begins neither a frame nor a notice goes to the frames, and so
    /// does all behind it: a `failover_message::Feed` refuses it by its length. Where a growth was refused nothing is
    /// given, and the stream is where it was before the chunk.
    pub fn feed(&mut self, chunk: &[u8]) -> Result<Vec<StreamPart>, AllocError>
        ensures parts { IfOk result (λ parts.
            parted self.old chunk.now ≡ record { place = self.new; tokens = tokens_of parts.items }) }
        ensures kept { OnErr result (self.new ≡ self.old) }
    {
        let mut text = self.text.to_vec(self.alloc)?;
        let mut output = Output::new(self.alloc);
        let stage = take_octets(self.alloc, self.stage, &mut text, chunk, &mut output)?;
        let parts = output.into_parts()?;
        self.stage = stage;
        self.text = text;
        Ok(parts)
    }
}
