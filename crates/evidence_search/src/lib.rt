//! An untrusted search for a certificate: who held a prefix, and from when to when. What it finds counts only because
//! `auditor` accepts it, which it asks before it returns anything. It may miss evidence that exists; it can't return
//! evidence that doesn't hold.
//!
//! An abuse desk has a prefix and a time, not a certificate. [`find_certificate`] searches two journals for the grants
//! of the holder that carry the interval, end to end, for the reason why each other client's delegation stays out of
//! it, and asks the auditor of what it found. So it needn't be believed: what it gives is judged as any certificate is.
//!
//! Where only a prefix and a moment are known, [`find_holder`] asks so of each client whose lease may have lasted, and
//! widens the interval of the one that is shown until it can be shown no further.
//!
//! Both look at single lines and at pairs of them first (`plain_search`), and miss no certificate that is made of
//! these. Where they don't show it, they look at what the partners told each other (`evidence_search`). specs/Claim is
//! what a search is asked, specs/Search is for bodies only.
//!
//! ```text
//! let certificate = find_certificate(alloc, &index, holder, prefix, from, to, skew, Transit::ZERO)?;
//! ```
//!
//! What chains through both servers' messages show of who held a prefix, where single lines don't.
//!
//! A message leads from the line that sends it to the line that takes it, in the partner's journal:
//! [`DeliveredMessages`] has those ways. `bounds` has the best chain from a line and to a line, `linking` how chains
//! order two lines. [`linked_pieces`] and [`linked_foreign`] then go as `plain_search` does, by these. What they give
//! is a proposal, which is audited before it is given out: that they find evidence, no clause says. specs/ is for
//! bodies only.
//!
//! ```text
//! let messages = DeliveredMessages::between(alloc, source)?;
//! let pieces = linked_pieces(alloc, source, &messages, query)?;
//! ```
#![tactic(auto)]

mod bounds;
mod evidence;
mod finding;
mod foreign;
mod guessing;
mod holder;
mod linking;
mod messages;
mod pieces;
mod widening;

pub use finding::find_certificate;
pub use foreign::linked_foreign;
pub use holder::find_holder;
pub use messages::DeliveredMessages;
pub use pieces::{linked_pieces, linked_reach_at};
pub use plain_search::{FindError, HolderQuery, Query};
