//! Laws of streams of frames and notices, of the chunks in which they come, of texts, and of two clocks.

ghost use Rattle.link_notices.specs.Clocks.{RightIsNeverOff, RangeHolds};
ghost use Rattle.link_notices.specs.Laws.{ChunksJoin, WrittenIsGiven, CutIsGiven, TextsFit};

/// However a stream of frames and notices is cut into chunks, what is given for the chunks is what the whole stream
/// gives; and of what was written each frame and each notice is given back, in order, and nothing else is.
pub fn written_is_given_back()
    ensures chunks { ChunksJoin }
    ensures whole { WrittenIsGiven }
    ensures cut { CutIsGiven }
{}

/// Two clocks within the lesser skew of true time, neither of which is set meanwhile, are never too far off.
pub fn right_clocks_are_never_off()
    ensures { RightIsNeverOff }
{}

/// The range of an exchange holds by how much the partner's clock was ahead when it was read, however long the question
/// and the answer were under way, where this server's clock wasn't set back meanwhile.
pub fn ranges_hold()
    ensures { RangeHolds }
{}

/// Each notice has a text that may go over a link: of 1 to 4,096 octets.
pub fn texts_fit()
    ensures { TextsFit }
{}
