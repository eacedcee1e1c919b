//! Laws of the link's octets: of frames one behind another, and of the chunks in which they come.

ghost use Rattle.failover_message.specs.Laws.{FramesStandApart, ChunksJoin, FaultsJoin};

/// Frames that stand one behind another stand there in one way only: no frame's octets begin another's, and
/// octets spell one frame at most.
pub fn frames_stand_apart()
    ensures { FramesStandApart }
{}

/// However a stream is cut into chunks, a feed gives the frames of the whole stream, each once and in order,
/// and holds what is left of it.
pub fn chunks_join()
    // The frames given for the chunks are those of the stream, up to a rest that is no whole frame.
    ensures frames { ChunksJoin }
    // A chunk is refused for the fault that comes next in the stream of the chunks before it and this one.
    ensures faults { FaultsJoin }
{}
