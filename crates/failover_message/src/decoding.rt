//! Octets as a frame.

ghost use Rattle.std.specs.Prelude.{◌≡◌, ◌≢◌, ◌↔◌, Ok, IfOk, IsErrOf};
ghost use Rattle.text_fields.specs.Parsing.{Finds};
ghost use Rattle.failover_message.specs.declared.frame.Frame.{Frame as FrameValue};
ghost use Rattle.failover_message.specs.Frames.{is_length, is_numbered, IsFrame, frame_octets};
ghost use Rattle.failover_message.specs.Faults.{HasLength, HasKind, IsNoFrame};
ghost use Rattle.failover_message.specs.Parsing.{is_kind, is_serial, fields_of, content_of, frame_of};

use crate::bodies;
use crate::error::LinkError;
use crate::frame::{Frame, FrameKind, MAX_LENGTH, MIN_LENGTH};
use crate::octets::Octets;
use binding_rules::Counter;

/// Returns whether this many octets may follow a frame's length field.
pub fn is_length(length: u32) -> bool
    ensures { result ≡ is_length length }
{
    MIN_LENGTH <= length && length <= MAX_LENGTH
}

/// Returns whether this is the code of a kind.
fn is_kind(code: u8) -> bool
    ensures { result ≡ is_kind code }
{
    1 <= code && code <= 12
}

/// Returns whether frames of this kind are counted, as the journal lines that they are.
fn is_numbered(kind: &FrameKind) -> bool
    ensures { result ≡ is_numbered kind.now }
{
    matches!(
        kind,
        FrameKind::BindingUpdate(_) | FrameKind::BindingReply(_) | FrameKind::Contact { .. }
    )
}

/// Returns whether the serial is of a frame that is counted, or not counted.
fn is_serial(numbered: bool, serial: Counter) -> bool
    ensures { result ≡ is_serial numbered serial }
{
    if numbered {
        1 <= serial.number()
    } else {
        serial.number() == 0
    }
}

/// The frame of this kind in the octets behind its kind.
#[tactic(auto, unfolding(crate::specs::Parsing::fields_of))]
fn fields_of(octets: &[u8], code: u8) -> Option<Frame>
    ensures { Finds (λ f. f) result (fields_of code octets.now) }
{
    let mut octets = Octets::new(octets);
    let term = octets.u32()?;
    let serial = octets.count()?;
    let kind = bodies::kind(&mut octets, code)?;
    if is_serial(is_numbered(&kind), serial) && octets.len() == 0 {
        Some(Frame { term, serial, kind })
    } else {
        None
    }
}

/// The frame in the octets behind its length field.
pub fn content_of(octets: &[u8]) -> Result<Frame, LinkError>
    ensures { result ≡ content_of octets.now }
{
    let Some((code, octets)) = octets.split_first() else {
        return Err(LinkError::Length);
    };
    if !is_kind(*code) {
        return Err(LinkError::Kind);
    }
    match fields_of(octets, *code) {
        Some(frame) => Ok(frame),
        None => Err(LinkError::Field),
    }
}

/// The frame in these octets, all of them.
fn frame_of(octets: &[u8]) -> Result<Frame, LinkError>
    ensures { result ≡ frame_of octets.now }
{
    let mut octets = Octets::new(octets);
    let Some(length) = octets.u32() else {
        return Err(LinkError::Length);
    };
    if is_length(length) && octets.len() == length as usize {
        content_of(octets.into_rest())
    } else {
        Err(LinkError::Length)
    }
}

/// The frame that these octets are, all of them. Where they are none the first fault, in the order of `LinkError`;
/// no memory is taken.
pub fn decode(octets: &[u8]) -> Result<Frame, LinkError>
    // What is decoded is spelled so.
    ensures found { IfOk result (λ f. (octets.now ≡ frame_octets f) × IsFrame f) }
    // What is spelled so is decoded.
    ensures only { (f : FrameValue) → IsFrame f → octets.now ≡ frame_octets f → result ≡ Ok f }
    ensures length { IsErrOf result LinkError.Length ↔ ¬ (HasLength octets.now) }
    ensures kind { IsErrOf result LinkError.Kind ↔ (HasLength octets.now × ¬ (HasKind octets.now)) }
    ensures field { IsErrOf result LinkError.Field
        ↔ (HasLength octets.now × HasKind octets.now × IsNoFrame octets.now) }
    ensures memory { ¬ (IsErrOf result LinkError.Memory) }
{
    frame_of(octets)
}
