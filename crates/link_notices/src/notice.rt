//! What partners say beside the frames.

ghost use Rattle.std.specs.Prelude.{◌≡◌, ◌↔◌, ◌⊎◌, IsTrue, IfOk, IfErr, IsErrOf};
ghost use Rattle.std.specs.List.{list_all};
ghost use Rattle.link_notices.specs.Words.{is_visible, is_program_word, IsProgramWord};
ghost use Rattle.link_notices.specs.declared.error.NoticeError.TheVariants.{Program, Memory};

use crate::error::NoticeError;
use lead_time::{Reading, Skew, Transit};
use prefix_range::Prefix;
use std::alloc::{AllocError, Global};
use std::marker::Model;
use text_fields::Listed;

/// The most octets of a program's name, and of its version.
pub const MOST_WORD: usize = 64;

fn are_visible(octets: &[u8]) -> bool
    ensures { result ≡ list_all is_visible octets.now }
{
    octets.iter().all(|b| 33 <= *b && *b <= 126)
}

/// Returns whether octets are a word that a program's name or version may be.
pub(crate) fn is_program_word(octets: &[u8]) -> bool
    ensures { result ≡ is_program_word octets.now }
{
    1 <= octets.len() && octets.len() <= MOST_WORD && are_visible(octets)
}

/// A program's name, or its version: 1 to 64 visible ASCII characters (33 to 126). Contracts see its octets.
#[derive(Drop)]
pub struct ProgramWord {
    octets: Vec<u8>,
}

impl Model for ProgramWord {
    ghost use Rattle.std.specs.Prelude.{List, ℕ};

    ghost Value = { List ℕ };

    ghost view = { λ w. w.octets.items };
}

impl ProgramWord {
    /// A copy of these octets.
    pub(crate) fn copied(alloc: Global, octets: &[u8]) -> Result<ProgramWord, AllocError>
        ensures { IfOk result (λ w. w ≡ octets.now) }
    {
        let octets = octets.to_vec(alloc)?;
        Ok(ProgramWord { octets })
    }

    /// The word of these octets: `Program` where they are none or over 64, or one is no visible ASCII character.
    #[tactic(auto, using(crate::proofs::WordTests::word_fits, crate::proofs::WordTests::word_tests))]
    pub fn new(alloc: Global, octets: &[u8]) -> Result<ProgramWord, NoticeError>
        ensures made { IfOk result (λ w. (w ≡ octets.now) × IsProgramWord octets.now) }
        ensures refused { IsErrOf result NoticeError.Program ↔ (IsProgramWord octets.now → ⊥) }
        ensures faults { IfErr result (λ e. (e ≡ Program) ⊎ (e ≡ Memory)) }
    {
        if !is_program_word(octets) {
            return Err(NoticeError::Program);
        }
        Ok(ProgramWord::copied(alloc, octets)?)
    }

    /// Its octets.
    pub fn as_bytes(&self) -> &[u8]
        ensures { result.now ≡ self.now }
    {
        &self.octets
    }
}

/// The most pools of a server.
pub const MOST_POOLS: usize = 16;

/// A pool: the prefixes of `unit_length` bits in `prefix` are its units.
#[derive(Clone, Copy, Debug, PartialEq, Eq)]
pub struct UnitPool {
    pub prefix: Prefix,
    pub unit_length: u8,
}

/// Pools of delegable prefixes, in a server's order.
pub type PoolList = Listed<UnitPool>;

/// The settings that concern both servers of a pair.
#[derive(Drop)]
pub struct PairSettings {
    /// The most by which a clock and true time differ.
    pub skew: Skew,
    /// The maximum client lead time, in seconds.
    pub mclt: u32,
    /// The desired lifetime, in seconds.
    pub life: u32,
    /// The most by which an answer may reach its client after its grant was written.
    pub transit: Transit,
    /// The pools, in the order of the server's directory.
    pub pools: PoolList,
}

/// What a partner says beside the frames.
#[derive(Drop)]
pub enum Notice {
    /// Which program it is.
    Program {
        name: ProgramWord,
        version: ProgramWord,
    },
    /// By which settings it runs.
    Settings(PairSettings),
    /// It asks what the other end's clock shows.
    Clock {
        /// The number of the question.
        number: u64,
        /// What its own clock showed.
        asked: Reading,
    },
    /// The answer to `Clock`, with its number and its reading.
    ClockReply {
        number: u64,
        asked: Reading,
        /// What the clock of who answers showed.
        answered: Reading,
    },
}
