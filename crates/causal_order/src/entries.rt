//! The lists in certificates.

use crate::by_line::ByLine;
use crate::certificate::{Clear, Foreign, Piece};
use crate::reference::Ref;
use text_fields::Listed;

/// References in order, each of which stands for a line that was written after the one before it.
pub type Chain = Listed<Ref>;

/// Entries that clear releases, in the order in which they are written.
pub type ClearList = ByLine<Clear>;

/// Pieces, in the order of their moments.
pub type PieceList = Listed<Piece>;

/// Other clients' grants, in the order in which they are written.
pub type ForeignList = ByLine<Foreign>;
