//! What of a drawing is always the same.

ghost use Rattle.std.specs.Prelude.{◌≡◌, ◌++◌, OnOk};
ghost use Rattle.report_render.specs.Drawing.{style_text};

use std::alloc::AllocError;

/// A part of a drawing that is always the same.
#[derive(Clone, Copy, Debug, PartialEq, Eq)]
pub enum DrawingPart {
    /// Up to the height.
    Head,
    /// Behind it.
    BehindHeight,
    /// Before the height of a bar.
    Height,
    /// The interval, behind its height.
    Interval,
    /// A bar that may have lasted.
    Maybe,
    /// A bar that lasted for sure.
    Sure,
    /// A line's name.
    Label,
    /// The lane of a server, behind its height.
    Lane,
    /// The name of the primary's lane, behind its place.
    PrimaryName,
    /// That of the secondary's.
    SecondaryName,
    /// Before the times of the interval.
    Beside,
    /// Between them.
    Between,
    /// Behind a text.
    TextEnd,
    /// The mark of the moment asked about, behind its ends.
    Mark,
    /// Its name, behind its place, where its time stands to the right of it.
    MarkRight,
    /// Where it stands to the left.
    MarkLeft,
    /// A dot, before its place from the left.
    Circle,
    /// Before its place from the top.
    CircleDown,
    /// Behind that.
    Dot,
    /// An arrow, behind its ends.
    Arrow,
    /// Behind all.
    Tail,
}

/// The text of a part.
#[tactic(auto, unfolding(crate::specs::Drawing::style_text))]
fn style_text(style: DrawingPart) -> &'static str
    ensures { result.now ≡ style_text style }
{
    match style {
        DrawingPart::Head => HEAD,
        DrawingPart::BehindHeight => BEHIND_HEIGHT,
        DrawingPart::Height => HEIGHT,
        DrawingPart::Interval => INTERVAL,
        DrawingPart::Maybe => MAYBE,
        DrawingPart::Sure => SURE,
        DrawingPart::Label => LABEL,
        DrawingPart::Lane => LANE,
        DrawingPart::PrimaryName => PRIMARY_NAME,
        DrawingPart::SecondaryName => SECONDARY_NAME,
        DrawingPart::Beside => BESIDE,
        DrawingPart::Between => BETWEEN,
        DrawingPart::TextEnd => TEXT_END,
        DrawingPart::Mark => MARK,
        DrawingPart::MarkRight => MARK_RIGHT,
        DrawingPart::MarkLeft => MARK_LEFT,
        DrawingPart::Circle => CIRCLE,
        DrawingPart::CircleDown => CIRCLE_DOWN,
        DrawingPart::Dot => DOT,
        DrawingPart::Arrow => ARROW,
        DrawingPart::Tail => TAIL,
    }
}

/// Appends a part.
pub(crate) fn push_style(out: &mut Vec<u8>, style: DrawingPart) -> Result<(), AllocError>
    ensures { OnOk result (out.new.items ≡ out.old.items ++ style_text style) }
{
    out.extend_from_slice(style_text(style).as_bytes())
}

const HEAD: &str = "<svg viewBox=\"0 0 1000 ";

const BEHIND_HEIGHT: &str =
    "\" role=\"img\" aria-label=\"A time line of the leases and lines of this report\">\n\
    <defs><marker id=\"tip\" viewBox=\"0 0 8 8\" refX=\"8\" refY=\"4\" markerWidth=\"8\" markerHeight=\"8\" \
    orient=\"auto\"><path d=\"M0,0 L8,4 L0,8 z\"/></marker></defs>\n";

const HEIGHT: &str = " height=\"";

const INTERVAL: &str = "\" fill=\"#eee\" stroke=\"#000\" stroke-width=\"0.5\"/>\n";

const MAYBE: &str = " height=\"14\" fill=\"none\" stroke=\"#000\" stroke-dasharray=\"4 3\"/>\n";

const SURE: &str = " height=\"14\" fill=\"#777\" stroke=\"#000\"/>\n";

const LABEL: &str = " font-size=\"16\" font-family=\"monospace\">";

const LANE: &str = " stroke=\"#000\"/>\n";

const PRIMARY_NAME: &str = " font-size=\"16\" font-family=\"serif\">server A</text>\n";

const SECONDARY_NAME: &str = " font-size=\"16\" font-family=\"serif\">server B</text>\n";

const BESIDE: &str = "<text x=\"8\" y=\"24\" font-size=\"16\" font-family=\"serif\">interval ";

const BETWEEN: &str = " to ";

const TEXT_END: &str = "</text>\n";

const MARK: &str = " stroke=\"#000\" stroke-width=\"3\"/>\n";

const MARK_RIGHT: &str =
    " font-size=\"16\" font-family=\"serif\" font-weight=\"bold\" text-anchor=\"start\">asked ";

const MARK_LEFT: &str =
    " font-size=\"16\" font-family=\"serif\" font-weight=\"bold\" text-anchor=\"end\">asked ";

const CIRCLE: &str = "<circle cx=\"";

const CIRCLE_DOWN: &str = "\" cy=\"";

const DOT: &str = "\" r=\"4\"/>\n";

const ARROW: &str = " stroke=\"#000\" marker-end=\"url(#tip)\"/>\n";

const TAIL: &str = "</svg>\n";
