//! Walks over the lines that a source gives.

/// Where a walk over the lines of a source stands: those from `next` up to `behind` come first, and then what is found
/// from `onward` on. What the numbers count is the source's own.
#[derive(Clone, Copy, Debug, PartialEq, Eq)]
pub struct Walk {
    pub next: usize,
    pub behind: usize,
    pub onward: usize,
}

impl Walk {
    /// Before all.
    pub const START: Walk = Walk {
        next: 0,
        behind: 0,
        onward: 0,
    };
}
