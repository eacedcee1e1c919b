//! Laws of proofs and records: that none is another's, of the chunks in which they come, and of what nobody can make.

ghost use Rattle.link_auth.specs.Laws.{MessagesStandApart, EndsMeet, OneReading, NeverBoth, WrittenIsRead};
ghost use Rattle.link_auth.specs.Laws.{ChunksJoin, ReadIsBeginning};

/// What is proved and what keys are made of tells the purpose, the side and both nonces.
pub fn messages_stand_apart()
    ensures { MessagesStandApart }
{}

/// Two ends that have one key join, and each reads what the other writes.
pub fn ends_meet()
    ensures { EndsMeet }
{}

/// A stream of records is read in one way: what was written gives its pieces and no fault, whole or not yet.
pub fn records_stand_apart()
    ensures one { OneReading }
    ensures never_both { NeverBoth }
    ensures written { WrittenIsRead }
{}

/// However a stream is cut into chunks, a reader gives the pieces of the whole stream, each once and in order.
pub fn chunks_join()
    ensures { ChunksJoin }
{}

/// Where nobody else can make a code under the key (specs/Laws.antt says this premise), what a reader gives is a
/// beginning of what the writer was given.
pub fn nothing_is_forged()
    ensures { ReadIsBeginning }
{}
