//! Laws over the definitions in specs/ alone.

ghost use Rattle.order_book.specs.Laws.{OneAnswer, OneRefusal, NotBoth, OpeningIsLegal};

/// An order has one answer, or one first refusal, and not both.
pub fn answer_is_one()
    ensures answer { OneAnswer }
    ensures refusal { OneRefusal }
    ensures apart { NotBoth }
{}

/// The lines that a server of fit settings begins with break no rule, so that its book opens where there is memory.
pub fn opening_is_legal()
    ensures { OpeningIsLegal }
{}
