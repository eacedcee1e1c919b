//! What a line makes of a table.

mod entering;
mod line_changes;
mod outcomes;
