//! What a loss of power leaves, drawn.

ghost use Rattle.std.specs.Prelude.{◌≡◌, ◌<◌, ◌≤◌, [], ◌∷◌, IfOk, length, min, slice_index, take};
ghost use Rattle.disk_model.specs.Disk.{StandsIn, IsLeft};
ghost use Rattle.test_support.specs.Mirror.{file_of};

use crate::state::FileState;
use std::alloc::{AllocError, Global};

/// Numbers that look drawn, each from the one before.
#[derive(Drop)]
pub(crate) struct Draws(u64);

impl Draws {
    pub(crate) fn new(seed: u64) -> Draws {
        Draws(seed)
    }

    /// Draws the seed of other draws.
    pub(crate) fn seed(&mut self) -> u64 {
        self.0 = self
            .0
            .wrapping_mul(6364136223846793005)
            .wrapping_add(1442695040888963407);
        self.0
    }

    /// Draws a number below 64.
    pub(crate) fn next(&mut self) -> u64 {
        self.seed() >> 58
    }
}

/// Where the octets of a run come from.
#[derive(Clone, Copy)]
enum Source {
    Written,
    Under,
    Zeros,
}

/// Draws the source of the next octet: mostly that of the one before.
fn next_source(draws: &mut Draws, source: Source) -> Source {
    match draws.next() {
        0..4 => Source::Written,
        4..6 => Source::Under,
        6..8 => Source::Zeros,
        _ => source,
    }
}

/// Draws a length, from what is on the disk for certain up to some octets more than lie there.
fn draw_length(draws: &mut Draws, state: &FileState) -> usize
    ensures { state.now.synced ≤ result }
{
    let longest = state.written.len().max(state.under.len()).saturating_add(2);
    let fewer = match draws.next() {
        0..40 => 0,
        drawn => drawn as usize,
    };
    longest.saturating_sub(fewer).max(state.synced)
}

/// Returns the octet at a place; past its end a content counts as zeros.
fn octet_at(content: &[u8], place: usize) -> u8
    ensures { result ≡ slice_index content.now place }
{
    if place < content.len() {
        content[place]
    } else {
        0
    }
}

/// Returns the octet that a source has for a place; what is on the disk for certain is as written.
fn octet_of(state: &FileState, place: usize, source: Source) -> u8
    ensures front { place < state.now.synced → result ≡ slice_index state.now.written.items place }
    ensures stands { StandsIn (state.now.written.items ∷ state.now.under.items ∷ []) place result }
{
    if place < state.synced {
        return octet_at(&state.written, place);
    }
    match source {
        Source::Written => octet_at(&state.written, place),
        Source::Under => octet_at(&state.under, place),
        Source::Zeros => 0,
    }
}

/// Returns the octets that are on the disk for certain.
fn sure_octets(alloc: Global, state: &FileState) -> Result<Vec<u8>, AllocError>
    ensures { IfOk result (λ content.
        content.items ≡ take (min state.now.synced (length state.now.written.items)) state.now.written.items) }
{
    state.written[..state.synced.min(state.written.len())].to_vec(alloc)
}

/// Draws a content that a loss of power may leave of a file in this state.
pub(crate) fn draw_left(alloc: Global, state: &FileState, seed: u64) -> Result<Vec<u8>, AllocError>
    ensures { IfOk result (λ content. IsLeft (file_of state.now) content.items) }
{
    let mut draws = Draws(seed);
    let length = draw_length(&mut draws, state);
    let mut source = Source::Written;
    let mut content = sure_octets(alloc, state)?;
    while content.len() < length {
        source = next_source(&mut draws, source);
        content.push(octet_of(state, content.len(), source))?;
    }
    Ok(content)
}
