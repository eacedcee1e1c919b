//! The word that workers draw from, by four kinds of step: the first seat, a seat that is split from another, a draw,
//! and a seat that another takes in.

ghost use Rattle.std.specs.Prelude.{◌≡◌, ◌+◌, ◌<◌, ◌^◌, ℕ, [], ◌∷◌, length, IfOk};
ghost use Rattle.parallel_check.specs.Counting.{times, once_below};
ghost use Rattle.parallel_check.specs.Drawing.{whole, fresh, cut, joined, drew};

use atomic_table::{Join, Play, Seat, Shared, Split, Table, TableRule};
use std::alloc::{AllocError, Global};
use std::collections::LinkedList;

/// The knowledge of a seat: the limit, how many parts it has, how many of them have drawn at or past the limit, and the
/// numbers that it drew. No value of it is made.
pub struct View {
    pub limit: u64,
    pub parts: u64,
    pub ended: u64,
    pub numbers: LinkedList<u64>,
}

/// All views together have the numbers below the word, each once.
pub struct Dealt;

impl TableRule<u64, View, u64> for Dealt {
    ghost use Rattle.parallel_check.specs.Drawing.{IsSoundDrawing, whole};

    ghost holds = { λ limit s. IsSoundDrawing limit s };

    ghost first = { whole };
}

pub struct Draws;

impl Play<u64, View> for Draws {
    ghost use Rattle.parallel_check.specs.Drawing.{Drew};

    ghost then = { λ step before n after. Drew step before n after };
}

/// One part of the right to draw goes to a new seat, and comes back.
pub struct Parts;

impl Split<View> for Parts {
    ghost use Rattle.parallel_check.specs.Drawing.{cut, fresh};

    ghost left = { cut };

    ghost right = { fresh };
}

impl Join<View> for Parts {
    ghost use Rattle.parallel_check.specs.Drawing.{joined, spent};

    ghost both = { joined };

    ghost spent = { spent };
}

pub type Claims = Table<u64, View, u64, Dealt, Global>;

pub type Word = Shared<u64, View, u64, Dealt>;

pub type Ticket = Seat<u64, View>;

/// The word at 0, with the first seat.
pub fn opened(alloc: Global, limit: u64) -> Result<(Claims, Ticket), AllocError>
    ensures claims { IfOk result (λ t. (t.0.shared.table_id.words ≡ 1) × (t.0.shared.table_id.slots ≡ 0)
        × (t.0.shared.key ≡ limit)) }
    ensures seat { IfOk result (λ t. (t.1.table_id ≡ t.0.shared.table_id) × (t.1.me ≡ (whole limit, []))) }
{
    Claims::of_words(alloc, &[0], &limit)
}

/// A new seat with one part and no number.
pub fn another(word: &Word, seat: &mut Ticket) -> Ticket
    requires word { (seat.old.table_id ≡ word.now.table_id) × (0 < word.now.table_id.words) }
    requires part { (seat.old.me.0.limit ≡ word.now.key) × (seat.old.me.0.ended < seat.old.me.0.parts)
        × (seat.old.me.0.numbers ≡ []) }
    ensures seat { (seat.new.table_id ≡ seat.old.table_id) × (seat.new.me ≡ (cut seat.old.me.0, seat.old.me.1)) }
    ensures new { (result.table_id ≡ seat.old.table_id) × (result.me ≡ (fresh seat.old.me.0, [])) }
{
    word.split_seat::<Parts>(seat)
}

/// Draws a number.
pub fn draw(word: &Word, seat: &mut Ticket) -> u64
    requires word { (seat.old.table_id ≡ word.now.table_id) × (0 < word.now.table_id.words) × (word.now.key < 2 ^ 63) }
    requires part { (seat.old.me.0.limit ≡ word.now.key) × (seat.old.me.0.ended < seat.old.me.0.parts) }
    ensures seat { (seat.new.table_id ≡ seat.old.table_id) × (seat.new.me.1 ≡ seat.old.me.1) }
    ensures drew { seat.new.me.0 ≡ drew seat.old.me.0 result }
{
    word.fetch_add::<Draws>(seat, 0, 1)
}

/// A seat takes in the numbers of another.
pub fn take_in(word: &Word, seat: &mut Ticket, other: Ticket)
    requires word { (seat.old.table_id ≡ word.now.table_id) × (other.table_id ≡ word.now.table_id)
        × (0 < word.now.table_id.words) }
    requires part { (seat.old.me.0.limit ≡ word.now.key) × (other.me.1 ≡ []) }
    ensures { (seat.new.table_id ≡ seat.old.table_id)
        × (seat.new.me ≡ (joined seat.old.me.0 other.me.0, seat.old.me.1)) }
{
    word.join_seat::<Parts>(seat, other);
}

/// The seat with every part has each number below some word, and each once.
pub fn closed(claims: Claims, seat: Ticket)
    requires claims { (seat.table_id ≡ claims.shared.table_id) × (claims.shared.table_id.slots ≡ 0) }
    requires whole { seat.me.0.parts ≡ 64 }
    ensures { (bound : ℕ) × ((x : ℕ) → times x seat.me.0.numbers ≡ once_below x bound) }
{
    claims.close_with(seat).free();
}
