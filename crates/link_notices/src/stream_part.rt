//! What a stream is parted into.

ghost use Rattle.std.specs.Prelude.{◌≡◌, ◌++◌, ◌∷◌, [], OnOk, IfOk};
ghost use Rattle.link_notices.specs.Parting.{frame_octet, whole_notice, tokens_of};
ghost use Rattle.link_notices.specs.Gathering.{shown};

use std::alloc::{AllocError, Global};
use std::mem::replace;
use text_fields::Listed;

/// A part of a stream, in the order in which it came.
#[derive(Drop)]
pub enum StreamPart {
    /// Octets that go to the frames: `failover_message::Feed` takes them. They may end within a frame.
    Frames(Listed<u8>),
    /// The text of a whole notice.
    Notice(Listed<u8>),
}

/// The parts so far, and the octets of frames behind them that are no part yet.
#[derive(Drop)]
pub(crate) struct Output {
    pub(crate) parts: Vec<StreamPart>,
    pub(crate) frames: Vec<u8>,
    pub(crate) alloc: Global,
}

impl Output {
    pub(crate) fn new(alloc: Global) -> Output
        ensures { shown result ≡ [] }
    {
        Output {
            parts: Vec::new(alloc),
            frames: Vec::new(alloc),
            alloc,
        }
    }

    /// Puts an octet of a frame behind what is there.
    #[tactic(auto, using(crate::proofs::Tokens::octet_more))]
    pub(crate) fn push_octet(&mut self, octet: u8) -> Result<(), AllocError>
        ensures { OnOk result (shown self.new ≡ shown self.old ++ frame_octet octet ∷ []) }
    {
        self.frames.push(octet)?;
        Ok(())
    }

    /// Makes a part of the octets that are none yet.
    #[tactic(auto, using(crate::proofs::Tokens::frames_more))]
    fn close_frames(&mut self) -> Result<(), AllocError>
        ensures same { OnOk result (shown self.new ≡ shown self.old) }
        ensures closed { OnOk result (self.new.frames.items ≡ []) }
    {
        if self.frames.is_empty() {
            return Ok(());
        }
        let frames = replace(&mut self.frames, Vec::new(self.alloc));
        self.parts.push(StreamPart::Frames(Listed::new(frames)))?;
        Ok(())
    }

    /// Puts a notice of this text behind what is there.
    #[tactic(auto, using(crate::proofs::Tokens::notice_more))]
    pub(crate) fn push_notice(&mut self, text: Vec<u8>) -> Result<(), AllocError>
        ensures { OnOk result (shown self.new ≡ shown self.old ++ whole_notice text.items ∷ []) }
    {
        self.close_frames()?;
        self.parts.push(StreamPart::Notice(Listed::new(text)))?;
        Ok(())
    }

    /// The parts.
    #[tactic(auto, using(crate::proofs::Tokens::closed_is))]
    pub(crate) fn into_parts(self) -> Result<Vec<StreamPart>, AllocError>
        ensures { IfOk result (λ parts. tokens_of parts.items ≡ shown self) }
    {
        let mut output = self;
        output.close_frames()?;
        let Output {
            parts,
            frames: _left,
            alloc: _,
        } = output;
        Ok(parts)
    }
}
