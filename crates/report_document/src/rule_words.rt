//! The rules of a journal, in words.

use book_rules::Rule;

/// What a rule asks, to go on behind "must keep rule N: ".
pub(crate) fn rule_words(rule: Rule) -> &'static str {
    match rule {
        Rule::Sequence => {
            "lines are numbered on, their readings never fall, and nothing follows a close line."
        }
        Rule::Opening => "the first line and no other opens the journal, within the limits.",
        Rule::Pools =>
            "the pools follow the open line directly, are disjoint, and none comes later.",
        Rule::Unit => "what is granted, ended, moved or told of is a unit of the pools.",
        Rule::Waiting => "a server that waits for its partner grants nothing.",
        Rule::Grant => "what is granted is the server's to give, or the client's already.",
        Rule::Lifetime => "a lifetime is what the maximum client lead time allows.",
        Rule::Release => "only the client whose the unit is gives it back.",
        Rule::Expiry => "a unit expires once no grant that the server knows of lasts.",
        Rule::Backup => "it is the primary that moves free units to the secondary's pool.",
        Rule::Reclaim => "it is the primary that asks for such units back.",
        Rule::Serial => "messages are numbered on, in the book's term.",
        Rule::Update => "an update tells of the unit's due change.",
        Rule::Reply => "a reply is the unit's pending one.",
        Rule::Contact => "a contact asks and answers the book's numbers.",
        Rule::Down => "a partner is taken for down once, by a server that doesn't wait.",
        Rule::Restart => "restarts are numbered on.",
        Rule::Head => "the head lines of later volumes stand there alone, in their order.",
        Rule::Transit => "a transit line follows the pools directly.",
        Rule::Seize => "a unit of a partner that is down is seized once no lease of it can last.",
    }
}
