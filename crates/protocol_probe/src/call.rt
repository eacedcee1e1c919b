//! The calls that a line may name.

/// A call of the protocol's crates. The function that answers it says what it takes.
#[derive(Clone, Copy)]
pub enum Call {
    Cuts,
    Number,
    Octets,
    Digits,
    Words,
    Prefix,
    Canonical,
    Unit,
    Compare,
    Duid,
    DuidText,
    IaidText,
    Limits,
    Bounds,
    ToldEnd,
    OwnEnd,
    Ended,
    Allowed,
    Takeover,
    Target,
    Choose,
    Partner,
    Update,
    Reply,
    Grantable,
    Renewable,
    Table,
    Frame,
    Feed,
    Pieces,
}

/// Each call by its name.
const NAMES: [(&[u8], Call); 30] = [
    (b"cuts", Call::Cuts),
    (b"number", Call::Number),
    (b"octets", Call::Octets),
    (b"digits", Call::Digits),
    (b"words", Call::Words),
    (b"prefix", Call::Prefix),
    (b"canonical", Call::Canonical),
    (b"unit", Call::Unit),
    (b"compare", Call::Compare),
    (b"duid", Call::Duid),
    (b"duid-text", Call::DuidText),
    (b"iaid-text", Call::IaidText),
    (b"limits", Call::Limits),
    (b"bounds", Call::Bounds),
    (b"told-end", Call::ToldEnd),
    (b"own-end", Call::OwnEnd),
    (b"ended", Call::Ended),
    (b"allowed", Call::Allowed),
    (b"takeover", Call::Takeover),
    (b"target", Call::Target),
    (b"choose", Call::Choose),
    (b"partner", Call::Partner),
    (b"update", Call::Update),
    (b"reply", Call::Reply),
    (b"grantable", Call::Grantable),
    (b"renewable", Call::Renewable),
    (b"table", Call::Table),
    (b"frame", Call::Frame),
    (b"feed", Call::Feed),
    (b"pieces", Call::Pieces),
];

impl Call {
    /// The call of this name.
    pub fn named(word: &[u8]) -> Option<Call> {
        for (name, call) in NAMES {
            if name == word {
                return Some(call);
            }
        }
        None
    }
}
