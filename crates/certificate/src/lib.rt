//! The text of certificates: who is said to have held which prefix when, and the lines of two journals that show it.
//!
//! `read` takes a text apart into a `Certificate`, `write` gives the text of one. A text that is none is refused for
//! its first fault from the front, a `CertificateFault`.
//!
//! What is promised stands at these two calls: each certificate has one text (specs/Spelling.antt), and `read` gives
//! it back from that text and from no other, as the law `certificates_are_spelled` says (specs/Laws.antt). Which fault
//! a text has is told line by line (specs/Faults.antt) and word by word (specs/Lines.antt). Only bodies cite
//! specs/Parsing.antt.
//!
//! ```text
//! let claim = certificate::read(alloc, b"pd-certificate 1\nholder 0003000102005e10000a\n..end\n")?;
//! let text = certificate::write(alloc, &claim)?; // the same text
//! ```
#![tactic(auto)]

mod draft;
mod error;
mod fields;
mod laws;
mod line;
mod parsing;
mod reasons;
mod stops;
mod text_lines;
mod writing;

pub use causal_order::{
    Certificate, CertificateFault, Clear, ClearList, ClearReason, Foreign, ForeignList, Piece,
    PieceList, Reason,
};
pub use error::CertificateError;
pub use laws::certificates_are_spelled;
pub use parsing::read;
pub use writing::write;
