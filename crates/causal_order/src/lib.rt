//! What two journals prove about the order of their lines. `is_chain` checks a chain of references, `latest_of` and
//! `earliest_of` bound the true time of a line under a clock skew, and `precedes` decides whether one line was surely
//! written before another. It also has the certificate as a value. It searches for nothing.
//!
//! A line was written after the lines before it in its journal, and after the partner's line that sent what it takes.
//! `is_chain` follows these steps; `latest_of` and `earliest_of` bound the moment of a chain's first and last line;
//! `precedes` says whether one line was surely written before another. All ask a source of lines ([`Lines`]).
//! specs/Journals and specs/Order are the definitions, specs/Bounds the bounds as signed numbers; specs/Tests is for
//! bodies only.
//!
//! ```text
//! let written_by = latest_of(&source, &[first, last], skew); // Some(milliseconds)
//! let sure = precedes(&source, release, grant, &order, skew);
//! ```
//!
//! Certificates as values: who is said to have held which prefix when, and the evidence for it.
//!
//! A [`Certificate`] names a client, a prefix and an interval, the [`Piece`]s that carry the interval, and each
//! [`Foreign`] grant with the [`Reason`] why it doesn't touch it. Evidence are references to journal lines ([`Ref`]),
//! chains of them ([`Chain`]) and why one line stands before another ([`Precedes`]). Nothing here is believed: an
//! auditor judges it. Entries are found by the line that they name ([`ByLine`]). specs/WrittenOrder is for bodies only.
//!
//! ```text
//! let third = Ref { side: Role::Primary, number: 3 };
//! let early = Reason::Early(Chain::new(vec![in alloc; third]?));
//! ```
#![tactic(auto)]

mod bounds;
mod by_line;
mod certificate;
mod entries;
mod fault;
mod lines;
mod messages;
mod order;
mod precedence;
mod reference;

pub use bounds::{earliest_of, first_of_chain, is_chain, last_of_chain, latest_of};
pub use by_line::{ByLine, NamesLine};
pub use certificate::{Certificate, Clear, ClearReason, Foreign, Piece, Reason};
pub use entries::{Chain, ClearList, ForeignList, PieceList};
pub use fault::CertificateFault;
pub use lines::Lines;
pub use order::Precedes;
pub use precedence::precedes;
pub use reference::Ref;
