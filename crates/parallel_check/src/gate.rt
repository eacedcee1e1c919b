//! What is called round each audit, by the worker that makes it.

use attribution::Verdict;

/// Calls round each audit, with the index of its certificate, from 0. Both return.
pub trait Gate: Sync {
    /// The audit of this certificate is to begin.
    fn before(&self, index: usize);

    /// The audit of this certificate came to this verdict.
    fn after(&self, index: usize, verdict: &Verdict);
}

/// A gate that holds nobody.
pub struct OpenGate;

impl Gate for OpenGate {
    fn before(&self, _index: usize) {}

    fn after(&self, _index: usize, _verdict: &Verdict) {}
}
