//! Laws of the page.

ghost use Rattle.report_render.specs.Escaping.{EscapedIsHarmless};

/// What is escaped has none of the characters that begin or end a tag or an attribute's value, and an ampersand only
/// as the beginning of one of the five references: whatever the text.
pub fn escaped_is_harmless()
    ensures { EscapedIsHarmless }
{}
