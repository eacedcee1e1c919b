//! The frames of a stream that comes in chunks.

ghost use Rattle.std.specs.Prelude.{◌≡◌, ◌≤◌, ◌<◌, ◌⊎◌, ◌++◌, ◌∷◌, ℕ, List, [], length, take, drop, IsOk, IfOk, IfErr};
ghost use Rattle.std.specs.Prelude.{OnOk, OnErr};
ghost use Rattle.std.specs.List.{AllByRecursion};
ghost use Rattle.text_fields.specs.Octets.{AreOctets};
ghost use Rattle.failover_message.specs.declared.error.LinkError.{LinkError as LinkErrorValue};
ghost use Rattle.failover_message.specs.declared.frame.Frame.{Frame as FrameValue};
ghost use Rattle.failover_message.specs.declared.frame.TheConstants.{MAX_OCTETS};
ghost use Rattle.failover_message.specs.Frames.{IsFrame};
ghost use Rattle.failover_message.specs.Parsing.{Next, First, next_of};
ghost use Rattle.failover_message.specs.Stream.{IsPartial, IsHeldBack, stream_of, Splits, Breaks};

use crate::decoding::{content_of, is_length};
use crate::error::LinkError;
use crate::frame::{Frame, MAX_OCTETS};
use crate::octets::Octets;
use bytes::BytesMut;
use std::alloc::Global;
use std::marker::Model;

/// The first frame of the octets, which are left behind it. `None` where it hasn't come whole: then nothing is
/// taken.
#[tactic(auto, unfolding(crate::specs::Parsing::octets_at))]
fn next_frame(octets: &mut Octets<'_>) -> Result<Option<Frame>, LinkError>
    ensures { Next result octets.new octets.old (next_of octets.old) }
{
    let mut ahead = octets.again();
    let Some(length) = ahead.u32() else {
        return Ok(None);
    };
    if !is_length(length) {
        return Err(LinkError::Length);
    }
    let Some(content) = ahead.octets(length as usize) else {
        return Ok(None);
    };
    match content_of(content) {
        Ok(frame) => {
            *octets = ahead;
            Ok(Some(frame))
        }
        Err(error) => Err(error),
    }
}

/// The first frame of a stream, and how many octets stand behind it.
fn first_frame(stream: &[u8]) -> Result<Option<(Frame, usize)>, LinkError>
    ensures { First result (next_of stream.now) }
{
    let mut octets = Octets::new(stream);
    match next_frame(&mut octets) {
        Ok(Some(frame)) => Ok(Some((frame, octets.len()))),
        Ok(None) => Ok(None),
        Err(error) => Err(error),
    }
}

/// Appends the frames in front of a stream to those before it. Answers how many octets they take.
fn push_frames(frames: &mut Vec<Frame>, stream: &[u8]) -> Result<usize, LinkError>
    requires { AllByRecursion IsFrame frames.old.items }
    ensures within { IfOk result (λ used. used ≤ length stream.now) }
    ensures split { IfOk result (λ used.
        Splits (stream_of frames.old.items stream.now) frames.new.items (drop used stream.now)) }
    ensures fault { IfErr result (λ e. (e ≡ LinkError.Memory) ⊎ Breaks (stream_of frames.old.items stream.now) e) }
{
    let mut rest = Octets::new(stream);
    while let Some(frame) = next_frame(&mut rest)? {
        frames.extend_from_slice(&[frame])?;
    }
    Ok(stream.len() - rest.len())
}

/// Holds these octets in place of those held.
fn hold(held: &mut BytesMut, octets: &[u8]) -> Result<(), LinkError>
    ensures ok { OnOk result (held.new.items ≡ octets.now) }
    ensures err { OnErr result (held.new.items ≡ held.old.items) }
    ensures memory { IfErr result (λ e. e ≡ LinkError.Memory) }
{
    held.reserve(octets.len())?;
    held.clear();
    held.extend_reserved(octets);
    Ok(())
}

/// The first frame and those behind it in the rest of a chunk. What is left of that is held.
fn frames_from(
    alloc: Global,
    held: &mut BytesMut,
    first: Frame,
    rest: &[u8],
) -> Result<Vec<Frame>, LinkError>
    requires { IsFrame first }
    ensures split { IfOk result (λ frames. Splits (stream_of (first ∷ []) rest.now) frames.items held.new.items) }
    ensures octets { OnOk result (AreOctets held.new.items) }
    ensures fault { IfErr result (λ e. (e ≡ LinkError.Memory) ⊎ Breaks (stream_of (first ∷ []) rest.now) e) }
    ensures err { OnErr result (held.new.items ≡ held.old.items) }
{
    let mut frames = Vec::new(alloc);
    frames.extend_from_slice(&[first])?;
    let used = push_frames(&mut frames, rest)?;
    hold(held, &rest[used..])?;
    Ok(frames)
}

/// The frames that the octets held and the chunk make. At an `Err` octets may stand behind those held.
fn take_chunk(alloc: Global, held: &mut BytesMut, chunk: &[u8]) -> Result<Vec<Frame>, LinkError>
    requires { IsHeldBack held.old.items }
    ensures split { IfOk result (λ frames. Splits (held.old.items ++ chunk.now) frames.items held.new.items) }
    ensures octets { OnOk result (AreOctets held.new.items) }
    ensures fault { IfErr result (λ e. (e ≡ LinkError.Memory) ⊎ Breaks (held.old.items ++ chunk.now) e) }
    ensures err { OnErr result (take (length held.old.items) held.new.items ≡ held.old.items) }
{
    let taken = (MAX_OCTETS - held.len()).min(chunk.len());
    held.extend_from_slice(&chunk[..taken])?;
    match first_frame(held.as_slice()) {
        Ok(None) => Ok(Vec::new(alloc)),
        Ok(Some((first, behind))) => frames_from(alloc, held, first, &chunk[taken - behind..]),
        Err(error) => Err(error),
    }
}

/// The receiving end of a link: between chunks it holds less than one frame's octets. Contracts see the octets
/// that it holds.
#[derive(Drop)]
pub struct Feed {
    held: BytesMut,
    alloc: Global,
}

impl Model for Feed {
    ghost use Rattle.std.specs.Prelude.{List, ℕ};
    ghost use Rattle.failover_message.specs.Stream.{IsHeldBack};

    ghost Value = { List ℕ };

    ghost view = { λ f. f.held.items };

    ghost invariant = { λ f. IsHeldBack f.held.items };
}

impl Feed {
    /// A feed of a stream of which nothing has come yet.
    pub fn new(alloc: Global) -> Feed
        ensures { result ≡ [] }
    {
        Feed {
            held: BytesMut::new(alloc),
            alloc,
        }
    }

    /// Takes the next chunk of the stream, of any length, and gives the frames that it completes. A fault of the
    /// frame that comes next: `Length` with the chunk that completes the length field, `Kind` and `Field` with
    /// the chunk that completes the frame. A refusal, `Memory` where a growth was refused included, leaves the
    /// feed as it was before the chunk.
    pub fn feed(&mut self, chunk: &[u8]) -> Result<Vec<Frame>, LinkError>
        // The octets held and the chunk are these frames, and then less than a whole one.
        ensures split { IfOk result (λ frames. Splits (self.old ++ chunk.now) frames.items self.new) }
        // No other frames are.
        ensures only { (frames : List FrameValue) → (rest : List ℕ) → Splits (self.old ++ chunk.now) frames rest
            → IfOk result (λ given. (given.items ≡ frames) × (self.new ≡ rest)) }
        // Where they are frames and less than a whole one, only memory is refused.
        ensures well { (frames : List FrameValue) → (rest : List ℕ) → Splits (self.old ++ chunk.now) frames rest
            → IfErr result (λ e. e ≡ LinkError.Memory) }
        // A fault is named only where a frame with this fault comes after whole ones.
        ensures fault { IfErr result (λ e. (e ≡ LinkError.Memory) ⊎ Breaks (self.old ++ chunk.now) e) }
        // Where one comes, no frames are given, and no other fault is named.
        ensures ill { (fault : LinkErrorValue) → Breaks (self.old ++ chunk.now) fault
            → IfErr result (λ e. (e ≡ fault) ⊎ (e ≡ LinkError.Memory)) × ¬ (IsOk result) }
        ensures kept { OnErr result (self.new ≡ self.old) }
        ensures partial { IsPartial self.new }
        ensures few { length self.new < MAX_OCTETS }
    {
        let before = self.held.len();
        match take_chunk(self.alloc, &mut self.held, chunk) {
            Ok(frames) => Ok(frames),
            Err(error) => {
                self.held.truncate(before);
                Err(error)
            }
        }
    }
}
