//! The report on a ruling: as a text, with a picture, and as a page.
//!
//! A report on a ruling, as a text.
//!
//! [`spelled`] spells a document: its first line is the ruling's, and each block becomes a [`TextBlock`] of octets,
//! each value of it spelled by its type. Moments are told in a zone's local time too, where one is given. [`text_of`]
//! is the text of that, a line for each passage; a page is made of the same passages. specs/Spelling says how values
//! are spelled, specs/Text the text.
//!
//! ```text
//! let spelling = spelled(alloc, &document, None)?;
//! let text = text_of(alloc, &spelling)?;
//! ```
//!
//! A report on a ruling, as one page.
//!
//! [`page_of`] makes a page of HTML 5: a title that says the answer in a sentence, the facts of the question, a report
//! that is spelled ([`spelled`]), a picture, a table of the grants that renewed the lease, one of the lines in their
//! volumes where a side has several, access records, and where all that comes from, with the commands that check it. It
//! has no script and asks for nothing outside of itself. Each word goes in escaped, so that none can close a tag or an
//! attribute, whatever octets it has (law [`escaped_is_harmless`]).
//! specs/Page is the page, specs/Title, specs/Facts, specs/Grants, specs/VolumeLines and specs/Origin are its pieces,
//! specs/Escaping what escaping is.
//!
//! ```text
//! let page = Page { title, facts, spelling: &spelling, picture: &svg, pieces: &report.pieces, cited: &report.cited,
//!     origins: None, access: b"", origin };
//! let html = page_of(alloc, &page, None)?;
//! ```
//!
//! The picture of a report: a time line.
//!
//! [`picture_of`] takes from a report what is drawn: the interval asked about, a bar for the lease of each piece and
//! for each other client's delegation, the lines cited and the messages between them, at their moments. [`svg_of`]
//! draws it. Moments stand in their order, and not to scale, so that lines some milliseconds apart don't fall on one
//! spot in a picture of hours (law [`places_keep_order`]). specs/Picture says what is drawn, specs/Drawing how.
//!
//! ```text
//! let svg = svg_of(alloc, &picture_of(alloc, &report)?)?;
//! ```
#![tactic(auto)]

mod axis;
mod drawing;
mod escaping;
mod facts;
mod grants;
mod labels;
mod laws;
mod messages;
mod origin;
mod origin_template;
mod page;
mod picture;
mod picture_laws;
mod styles;
mod taking;
mod template;
mod text;
mod text_block;
mod title;
mod volume_lines;
mod words;

pub use drawing::svg_of;
pub use escaping::push_escaped;
pub use facts::{PageFacts, PageQuestion};
pub use laws::escaped_is_harmless;
pub use origin::{CopiedVolumes, PageCheck, Provenance, SettingsRule, SourceText, TextOrigin};
pub use page::{Page, page_of};
pub use picture::{LeaseBar, LineDot, MessageArrow, Picture};
pub use picture_laws::places_keep_order;
pub use taking::picture_of;
pub use text::text_of;
pub use text_block::{RenderedText, TextBlock, passages_of, spelled};
pub use title::{ClaimedDelegation, PageTitle};
