//! The answer of an audit.

use binding_rules::Role;
use book_rules::Rule;
use causal_order::{CertificateFault, Ref};
use journal_lines::JournalFault;

/// The answer of an auditor about a certificate over two journals. Where it refuses, the first condition that isn't
/// met, in this order.
#[derive(Clone, Copy, Debug, PartialEq, Eq)]
pub enum Verdict {
    /// The certificate is true in every run of the pair that leaves the journals.
    Accepted,
    /// This side's text is no journal of that side.
    Journal(Role, JournalFault),
    /// The third text is no certificate.
    Certificate(CertificateFault),
    /// This side's journal breaks a rule: its first line that does, and the least rule that this line breaks.
    Rule(Role, u32, Rule),
    /// The least line that takes a message which the other journal never sends, A's before B's.
    Unsent(Ref),
    /// The least line that takes a message which the other journal sends with another term or body, A's before B's.
    Differs(Ref),
    /// The messages form a circle: each order of both journals' lines has a take before its send.
    Circular,
    /// The interval has no moment.
    EmptyInterval,
    /// The interval ends later than this side's journal shows.
    PastEnd(Role),
    /// The piece, counted from 1, doesn't begin where it must or has no moment; one past the last where the
    /// pieces end too early or there is none.
    PieceGap(u64),
    /// The piece, counted from 1, isn't carried by the grant that it names.
    PieceGrant(u64),
    /// The interval, or a piece's grant, isn't surely behind the earlier volumes, which these journals don't show.
    BeforeOpen,
    /// The piece, counted from 1, and the least release of what its grant gave that no clear entry discharges.
    PieceRelease(u64, Ref),
    /// The least line that grants or carries another client's delegation that touches the prefix, and that no foreign
    /// entry names.
    Uncovered(Ref),
    /// The line of the first foreign entry that doesn't hold.
    Reason(Ref),
}
