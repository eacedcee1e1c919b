//! The rules of a journal, by name and number.

ghost use Rattle.std.specs.Prelude.{◌≡◌};
ghost use Rattle.book_rules.specs.Rules.{rule_number};

use std::fmt;
use std::fmt::Write;

/// A rule of a server's journal. They are numbered from 1 to 20, and a line that breaks several is refused by the one
/// with the least number. specs/Rules says what each asks.
#[derive(Clone, Copy, Debug, PartialEq, Eq)]
pub enum Rule {
    /// 1: lines are numbered on, their readings never fall, and nothing follows a close line.
    Sequence,
    /// 2: the first line and no other opens, within the limits.
    Opening,
    /// 3: pools follow the open line directly, disjoint, and none comes later.
    Pools,
    /// 4: what is granted, ended, moved or told of is a unit.
    Unit,
    /// 5: a server that waits for its partner grants nothing.
    Waiting,
    /// 6: what is granted is the server's to give, or the client's already.
    Grant,
    /// 7: the lifetime is what the maximum client lead time allows.
    Lifetime,
    /// 8: only the client whose the unit is gives it back.
    Release,
    /// 9: a unit expires once no grant that the server knows of lasts.
    Expiry,
    /// 10: the primary moves free units to the secondary's pool.
    Backup,
    /// 11: the primary asks for such units back.
    Reclaim,
    /// 12: messages are numbered on, in the book's term.
    Serial,
    /// 13: an update tells of the unit's due change.
    Update,
    /// 14: a reply is the unit's pending one.
    Reply,
    /// 15: a contact asks and answers the book's numbers.
    Contact,
    /// 16: a partner is taken for down once, by a server that doesn't wait.
    Down,
    /// 17: restarts are numbered on.
    Restart,
    /// 18: the head lines of later volumes stand there alone, in their order.
    Head,
    /// 19: a transit line follows the pools directly.
    Transit,
    /// 20: a unit of a partner that is down is seized once no lease of it can last.
    Seize,
}

/// The rules, by their numbers.
pub(crate) const RULES: [Rule; 20] = [
    Rule::Sequence,
    Rule::Opening,
    Rule::Pools,
    Rule::Unit,
    Rule::Waiting,
    Rule::Grant,
    Rule::Lifetime,
    Rule::Release,
    Rule::Expiry,
    Rule::Backup,
    Rule::Reclaim,
    Rule::Serial,
    Rule::Update,
    Rule::Reply,
    Rule::Contact,
    Rule::Down,
    Rule::Restart,
    Rule::Head,
    Rule::Transit,
    Rule::Seize,
];

impl Rule {
    /// The rule's number: 1 to 20.
    pub fn number(self) -> u8
        ensures { result ≡ rule_number self }
    {
        match self {
            Rule::Sequence => 1,
            Rule::Opening => 2,
            Rule::Pools => 3,
            Rule::Unit => 4,
            Rule::Waiting => 5,
            Rule::Grant => 6,
            Rule::Lifetime => 7,
            Rule::Release => 8,
            Rule::Expiry => 9,
            Rule::Backup => 10,
            Rule::Reclaim => 11,
            Rule::Serial => 12,
            Rule::Update => 13,
            Rule::Reply => 14,
            Rule::Contact => 15,
            Rule::Down => 16,
            Rule::Restart => 17,
            Rule::Head => 18,
            Rule::Transit => 19,
            Rule::Seize => 20,
        }
    }
}

impl fmt::Display for Rule {
    /// Writes the rule's number.
    fn fmt<W: Write>(&self, f: &mut fmt::Formatter<W>) -> fmt::Result {
        write!(f, "{}", self.number())
    }
}
