//! The texts that an answer was over, out of files again: consecutive volumes of one side, put together as the desk
//! puts them together, up to the last line that it used.
//!
//! An answer over volumes that are still written uses what their files had at that time. [`copy_of`] gives the text of
//! one side's volumes up to a line, whatever their servers wrote behind it since (specs/Copying): of one volume its own
//! text, of several that of the journal that they are together, where they are one (`volume_spans`). Behind a close
//! line stands the end line (specs/Text). [`lines_used`] says up to which line a shown journal goes: the desk closes a
//! volume that goes on, and that close line is none of its server's (specs/Used).
//!
//! Who reads such a text again, and closes it as the desk does, has the journal that was shown
//! ([`copies_are_what_was_shown`], specs/Laws).
//!
//! ```text
//! let lines = lines_used(&shown.primary);
//! let query = CopyQuery { side: Role::Primary, span: spans.primary, lines };
//! match copy_of(alloc, &files, &archive, &query)? {
//!     CopyOutcome::Copied(copied) => .., // copied.text is text_up_to(alloc, &shown.primary, lines)?
//!     ..
//! }
//! ```
#![tactic(auto)]

mod copying;
mod laws;
mod query;
mod texts;
mod used;

pub use copying::copy_of;
pub use laws::copies_are_what_was_shown;
pub use query::{CopiedText, CopyOutcome, CopyQuery};
pub use texts::text_up_to;
pub use used::lines_used;
