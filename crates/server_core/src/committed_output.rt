//! What is held back until the lines that it tells of are on the disk.

ghost use Rattle.std.specs.Prelude.{◌≡◌};

use client_service::ClientReply;
use failover_session::OutboundFrame;
use lead_time::Reading;

/// An answer that is held back.
#[derive(Drop)]
pub struct HeldAnswer<P> {
    pub answer: ClientReply<P>,
    /// What the clock read when its message came.
    pub read: Reading,
}

/// What may leave, since all lines of the book are on the disk. Only [`ServerCore::commit`](crate::ServerCore::commit)
/// makes one.
#[derive(Drop)]
pub struct CommittedOutput<P> {
    answers: Vec<HeldAnswer<P>>,
    frames: Vec<OutboundFrame>,
}

impl<P: Drop> CommittedOutput<P> {
    pub(crate) fn new(answers: Vec<HeldAnswer<P>>, frames: Vec<OutboundFrame>) -> CommittedOutput<P>
        ensures { (result.answers ≡ answers) × (result.frames ≡ frames) }
    {
        CommittedOutput { answers, frames }
    }

    /// Gives the answers, and then the frames that go to the partner, each in their order.
    pub fn into_parts(self) -> (Vec<HeldAnswer<P>>, Vec<OutboundFrame>)
        ensures { (result.0 ≡ self.answers) × (result.1 ≡ self.frames) }
    {
        let CommittedOutput { answers, frames } = self;
        (answers, frames)
    }
}
