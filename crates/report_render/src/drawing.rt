//! The picture as SVG.

ghost use Rattle.std.specs.Prelude.{◌≡◌, ◌<◌, ◌^◌, ◌++◌, OnOk, IfOk};
ghost use Rattle.std.specs.List.{flat_map};
ghost use Rattle.std.specs.Fmt.{decimal};
ghost use Rattle.std.specs.List.Sorted.{IsNonDecreasing, IsPermutation};
ghost use Rattle.attribution.specs.VerdictText.{place_text};
ghost use Rattle.report_render.specs.Drawing.{attribute, label_svg, rect_svg, sure_svg, bar_svg, bars_svg, first_lane};
ghost use Rattle.report_render.specs.Drawing.{lane_of, lane_svg, dot_svg, dots_svg, arrow_svg, asked_svg, back_svg};
ghost use Rattle.report_render.specs.Drawing.{lines_svg, circle_svg, bar_moments, moments_of, picture_svg};
ghost use Rattle.report_render.specs.Drawing.{interval_svg, times_svg, name_style, name_svg, side_svg, asked_moments};
ghost use Rattle.report_render.specs.Drawing.{mark_style, mark_svg, IsSvg};
ghost use Rattle.report_render.specs.Axis.{place};

use crate::axis::{LEFT, WIDTH, place};
use crate::labels::{PictureLabels, labels_of};
use crate::picture::{LeaseBar, LineDot, MessageArrow, Picture};
use crate::styles::{DrawingPart, push_style};
use attribution::push_place;
use binding_rules::Role;
use causal_order::Ref;
use std::alloc::{AllocError, Global};
use text_fields::push_number;

/// Appends an attribute: what stands before its number, the number, a quotation mark.
fn push_attribute(out: &mut Vec<u8>, name: &[u8], value: u64) -> Result<(), AllocError>
    ensures { OnOk result (out.new.items ≡ out.old.items ++ attribute name.now value) }
{
    out.extend_from_slice(name)?;
    push_number(out, value)?;
    out.extend_from_slice(b"\"")
}

/// Appends the name of a line.
#[tactic(auto, unfolding(crate::specs::Drawing::label_svg))]
fn push_label(out: &mut Vec<u8>, x: u64, y: u64, at: Ref) -> Result<(), AllocError>
    ensures { OnOk result (out.new.items ≡ out.old.items ++ label_svg x y at) }
{
    out.extend_from_slice(b"<text")?;
    push_attribute(out, b" x=\"", x)?;
    push_attribute(out, b" y=\"", y)?;
    push_style(out, DrawingPart::Label)?;
    push_place(out, at.side, at.number)?;
    out.extend_from_slice(b"</text>\n")
}

/// Appends a bar between two places.
#[tactic(auto, unfolding(crate::specs::Drawing::rect_svg))]
fn push_rect(
    out: &mut Vec<u8>,
    from: u64,
    to: u64,
    y: u64,
    style: DrawingPart,
) -> Result<(), AllocError>
    requires { to < 2 ^ 63 }
    ensures { OnOk result (out.new.items ≡ out.old.items ++ rect_svg from to y style) }
{
    out.extend_from_slice(b"<rect")?;
    push_attribute(out, b" x=\"", from)?;
    push_attribute(out, b" y=\"", y)?;
    push_attribute(out, b" width=\"", to.saturating_sub(from) + 1)?;
    push_style(out, style)
}

/// Appends the part of a bar that is sure, where there is one.
fn push_sure(
    out: &mut Vec<u8>,
    axis: &[u64],
    y: u64,
    sure: Option<(u64, u64)>,
) -> Result<(), AllocError>
    requires { IsNonDecreasing axis.now }
    ensures { OnOk result (out.new.items ≡ out.old.items ++ sure_svg axis.now y sure) }
{
    match sure {
        Some((from, to)) => {
            if from < to {
                push_rect(
                    out,
                    place(axis, from),
                    place(axis, to),
                    y,
                    DrawingPart::Sure,
                )
            } else {
                Ok(())
            }
        }
        None => Ok(()),
    }
}

#[tactic(auto, unfolding(crate::specs::Drawing::bar_svg))]
fn push_bar(out: &mut Vec<u8>, axis: &[u64], y: u64, bar: &LeaseBar) -> Result<(), AllocError>
    requires sorted { IsNonDecreasing axis.now }
    requires low { y < 2 ^ 63 }
    ensures { OnOk result (out.new.items ≡ out.old.items ++ bar_svg axis.now y bar.now) }
{
    push_rect(
        out,
        place(axis, bar.earliest),
        place(axis, bar.latest),
        y,
        DrawingPart::Maybe,
    )?;
    push_sure(out, axis, y, bar.sure)?;
    push_label(out, 8, y + 11, bar.at)
}

fn push_bars(out: &mut Vec<u8>, axis: &[u64], bars: &[LeaseBar]) -> Result<(), AllocError>
    requires { IsNonDecreasing axis.now }
    ensures { OnOk result (out.new.items ≡ out.old.items ++ bars_svg axis.now 0 bars.now) }
{
    for index in 0..bars.len() {
        push_bar(out, axis, 50 + 22 * index as u64, &bars[index])?;
    }
    Ok(())
}

/// How far down the primary's lines stand, under so many bars.
fn first_lane(bars: &[LeaseBar]) -> u64
    ensures value { result ≡ first_lane bars.now }
    ensures within { result < 2 ^ 62 }
{
    90 + 22 * bars.len() as u64
}

/// How far down a side's lines stand: the secondary's under the primary's.
fn lane_of(first: u64, side: Role) -> u64
    requires { first < 2 ^ 62 }
    ensures value { result ≡ lane_of first side }
    ensures within { result < 2 ^ 63 }
{
    match side {
        Role::Primary => first,
        Role::Secondary => first + 90,
    }
}

/// Appends the lane of a side's lines.
#[tactic(auto, unfolding(crate::specs::Drawing::lane_svg))]
fn push_lane(out: &mut Vec<u8>, y: u64) -> Result<(), AllocError>
    ensures { OnOk result (out.new.items ≡ out.old.items ++ lane_svg y) }
{
    out.extend_from_slice(b"<line")?;
    push_attribute(out, b" x1=\"", LEFT)?;
    push_attribute(out, b" y1=\"", y)?;
    push_attribute(out, b" x2=\"", LEFT + WIDTH)?;
    push_attribute(out, b" y2=\"", y)?;
    push_style(out, DrawingPart::Lane)
}

/// What a server's lane is called.
fn name_style(side: Role) -> DrawingPart
    ensures { result ≡ name_style side }
{
    match side {
        Role::Primary => DrawingPart::PrimaryName,
        Role::Secondary => DrawingPart::SecondaryName,
    }
}

/// Appends a text that is always the same, at a place.
#[tactic(auto, unfolding(crate::specs::Drawing::name_svg))]
fn push_name(out: &mut Vec<u8>, x: u64, y: u64, name: DrawingPart) -> Result<(), AllocError>
    ensures { OnOk result (out.new.items ≡ out.old.items ++ name_svg x y name) }
{
    out.extend_from_slice(b"<text")?;
    push_attribute(out, b" x=\"", x)?;
    push_attribute(out, b" y=\"", y)?;
    push_style(out, name)
}

/// Appends the lane of a server, and its name.
fn push_lane_of(out: &mut Vec<u8>, first: u64, side: Role) -> Result<(), AllocError>
    requires { first < 2 ^ 62 }
    ensures { OnOk result (out.new.items ≡ out.old.items ++ side_svg first side) }
{
    let y = lane_of(first, side);
    push_lane(out, y)?;
    push_name(out, 8, y + 5, name_style(side))
}

#[tactic(auto, unfolding(crate::specs::Drawing::circle_svg))]
fn push_circle(out: &mut Vec<u8>, x: u64, y: u64) -> Result<(), AllocError>
    ensures { OnOk result (out.new.items ≡ out.old.items ++ circle_svg x y) }
{
    push_style(out, DrawingPart::Circle)?;
    push_number(out, x)?;
    push_style(out, DrawingPart::CircleDown)?;
    push_number(out, y)?;
    push_style(out, DrawingPart::Dot)
}

/// Appends a line at its reading, with its name below. Names take turns in four rows, so that those of lines with one
/// reading don't cover each other.
#[tactic(auto, unfolding(crate::specs::Drawing::dot_svg))]
fn push_dot(
    out: &mut Vec<u8>,
    axis: &[u64],
    first: u64,
    index: usize,
    dot: &LineDot,
) -> Result<(), AllocError>
    requires sorted { IsNonDecreasing axis.now }
    requires low { first < 2 ^ 62 }
    ensures { OnOk result (out.new.items ≡ out.old.items ++ dot_svg axis.now first index dot.now) }
{
    let x = place(axis, dot.reading);
    let y = lane_of(first, dot.at.side);
    push_circle(out, x, y)?;
    push_label(out, x, y + 18 + 18 * (index % 4) as u64, dot.at)
}

/// Appends a message.
#[tactic(auto, unfolding(crate::specs::Drawing::arrow_svg))]
fn push_arrow(
    out: &mut Vec<u8>,
    axis: &[u64],
    first: u64,
    arrow: &MessageArrow,
) -> Result<(), AllocError>
    requires sorted { IsNonDecreasing axis.now }
    requires low { first < 2 ^ 62 }
    ensures { OnOk result (out.new.items ≡ out.old.items ++ arrow_svg axis.now first arrow.now) }
{
    out.extend_from_slice(b"<line")?;
    push_attribute(out, b" x1=\"", place(axis, arrow.sent.reading))?;
    push_attribute(out, b" y1=\"", lane_of(first, arrow.sent.at.side))?;
    push_attribute(out, b" x2=\"", place(axis, arrow.taken.reading))?;
    push_attribute(out, b" y2=\"", lane_of(first, arrow.taken.at.side))?;
    push_style(out, DrawingPart::Arrow)
}

/// Appends the interval, behind all bars.
#[tactic(auto, unfolding(crate::specs::Drawing::interval_svg))]
fn push_interval(out: &mut Vec<u8>, axis: &[u64], picture: &Picture) -> Result<(), AllocError>
    requires { IsNonDecreasing axis.now }
    ensures { OnOk result (out.new.items ≡ out.old.items ++ interval_svg axis.now picture.now) }
{
    push_rect(
        out,
        place(axis, picture.from),
        place(axis, picture.to),
        10,
        DrawingPart::Height,
    )?;
    push_number(out, first_lane(&picture.bars))?;
    push_style(out, DrawingPart::Interval)
}

fn push_dots(
    out: &mut Vec<u8>,
    axis: &[u64],
    first: u64,
    dots: &[LineDot],
) -> Result<(), AllocError>
    requires sorted { IsNonDecreasing axis.now }
    requires low { first < 2 ^ 62 }
    ensures { OnOk result (out.new.items ≡ out.old.items ++ dots_svg axis.now first 0 dots.now) }
{
    for index in 0..dots.len() {
        push_dot(out, axis, first, index, &dots[index])?;
    }
    Ok(())
}

fn push_arrows(
    out: &mut Vec<u8>,
    axis: &[u64],
    first: u64,
    arrows: &[MessageArrow],
) -> Result<(), AllocError>
    requires sorted { IsNonDecreasing axis.now }
    requires low { first < 2 ^ 62 }
    ensures { OnOk result (out.new.items ≡ out.old.items ++ flat_map (arrow_svg axis.now first) arrows.now) }
{
    for arrow in arrows {
        push_arrow(out, axis, first, arrow)?;
    }
    Ok(())
}

/// Appends the times of the interval.
#[tactic(auto, unfolding(crate::specs::Drawing::times_svg))]
fn push_times(out: &mut Vec<u8>, labels: &PictureLabels) -> Result<(), AllocError>
    ensures { OnOk result (out.new.items ≡ out.old.items ++ times_svg labels.now) }
{
    push_style(out, DrawingPart::Beside)?;
    out.extend_from_slice(&labels.from)?;
    push_style(out, DrawingPart::Between)?;
    out.extend_from_slice(&labels.to)?;
    push_style(out, DrawingPart::TextEnd)
}

/// Appends what is behind all: the interval, in a picture of this height.
#[tactic(auto, unfolding(crate::specs::Drawing::back_svg))]
fn push_back(out: &mut Vec<u8>, axis: &[u64], picture: &Picture) -> Result<(), AllocError>
    requires { IsNonDecreasing axis.now }
    ensures { OnOk result (out.new.items ≡ out.old.items ++ back_svg axis.now picture.now) }
{
    push_style(out, DrawingPart::Head)?;
    push_number(out, first_lane(&picture.bars) + 175)?;
    push_style(out, DrawingPart::BehindHeight)?;
    push_interval(out, axis, picture)
}

/// Appends the lines of both sides, and the messages between them.
#[tactic(auto, unfolding(crate::specs::Drawing::lines_svg))]
fn push_lines(
    out: &mut Vec<u8>,
    axis: &[u64],
    first: u64,
    picture: &Picture,
) -> Result<(), AllocError>
    requires sorted { IsNonDecreasing axis.now }
    requires low { first < 2 ^ 62 }
    ensures { OnOk result (out.new.items ≡ out.old.items ++ lines_svg axis.now first picture.now) }
{
    push_lane_of(out, first, Role::Primary)?;
    push_lane_of(out, first, Role::Secondary)?;
    push_arrows(out, axis, first, &picture.arrows)?;
    push_dots(out, axis, first, &picture.dots)
}

/// The name of a mark at this place: it stands to its right, or to its left in the right half.
fn mark_style(x: u64) -> DrawingPart
    ensures { result ≡ mark_style x }
{
    if x < 530 {
        DrawingPart::MarkRight
    } else {
        DrawingPart::MarkLeft
    }
}

/// Appends the mark of a moment at this place, from above the bars down to the secondary's lane, and its time.
#[tactic(auto, unfolding(crate::specs::Drawing::mark_svg))]
fn push_mark(out: &mut Vec<u8>, x: u64, first: u64, time: &[u8]) -> Result<(), AllocError>
    requires { first < 2 ^ 62 }
    ensures { OnOk result (out.new.items ≡ out.old.items ++ mark_svg x first time.now) }
{
    out.extend_from_slice(b"<line")?;
    push_attribute(out, b" x1=\"", x)?;
    push_attribute(out, b" y1=\"", 46)?;
    push_attribute(out, b" x2=\"", x)?;
    push_attribute(out, b" y2=\"", first + 90)?;
    push_style(out, DrawingPart::Mark)?;
    push_name(out, x, 42, mark_style(x))?;
    out.extend_from_slice(time)?;
    push_style(out, DrawingPart::TextEnd)
}

/// Marks the moment that was asked about, where it was one.
fn push_asked(
    out: &mut Vec<u8>,
    axis: &[u64],
    first: u64,
    asked: Option<u64>,
    time: &[u8],
) -> Result<(), AllocError>
    requires sorted { IsNonDecreasing axis.now }
    requires low { first < 2 ^ 62 }
    ensures { OnOk result (out.new.items ≡ out.old.items ++ asked_svg axis.now first asked time.now) }
{
    match asked {
        Some(at) => push_mark(out, place(axis, at), first, time),
        None => Ok(()),
    }
}

/// Appends the picture over an axis.
fn push_picture(
    out: &mut Vec<u8>,
    axis: &[u64],
    picture: &Picture,
    labels: &PictureLabels,
) -> Result<(), AllocError>
    requires { IsNonDecreasing axis.now }
    ensures { OnOk result (out.new.items ≡ out.old.items ++ picture_svg axis.now picture.now labels.now) }
{
    push_back(out, axis, picture)?;
    push_times(out, labels)?;
    push_bars(out, axis, &picture.bars)?;
    let first = first_lane(&picture.bars);
    push_lines(out, axis, first, picture)?;
    push_asked(out, axis, first, picture.asked, &labels.asked)?;
    push_style(out, DrawingPart::Tail)
}

/// Appends the moments of a bar.
fn push_moments(moments: &mut Vec<u64>, bar: &LeaseBar) -> Result<(), AllocError>
    ensures { OnOk result (moments.new.items ≡ moments.old.items ++ bar_moments bar.now) }
{
    match bar.sure {
        Some((from, to)) => moments.extend_from_slice(&[bar.earliest, from, to, bar.latest]),
        None => moments.extend_from_slice(&[bar.earliest, bar.latest]),
    }
}

/// Appends the moment that was asked about, where it was one.
fn push_asked_moment(moments: &mut Vec<u64>, asked: Option<u64>) -> Result<(), AllocError>
    ensures { OnOk result (moments.new.items ≡ moments.old.items ++ asked_moments asked) }
{
    match asked {
        Some(at) => moments.push(at)?,
        None => {}
    }
    Ok(())
}

/// The moments that a picture shows.
fn moments_of(alloc: Global, picture: &Picture) -> Result<Vec<u64>, AllocError>
    ensures { IfOk result (λ moments. moments.items ≡ moments_of picture.now) }
{
    let mut moments = Vec::new(alloc);
    moments.extend_from_slice(&[picture.from, picture.to])?;
    push_asked_moment(&mut moments, picture.asked)?;
    for bar in &picture.bars {
        push_moments(&mut moments, bar)?;
    }
    for dot in &picture.dots {
        moments.push(dot.reading)?;
    }
    Ok(moments)
}

/// The moments that a picture shows, in their order.
fn axis_of(alloc: Global, picture: &Picture) -> Result<Vec<u64>, AllocError>
    ensures sorted { IfOk result (λ axis. IsNonDecreasing axis.items) }
    ensures whole { IfOk result (λ axis. IsPermutation (moments_of picture.now) axis.items) }
{
    let mut moments = moments_of(alloc, picture)?;
    moments.sort()?;
    Ok(moments)
}

/// The picture as an SVG element of a page. `AllocError` where a growth was refused.
pub fn svg_of(alloc: Global, picture: &Picture) -> Result<Vec<u8>, AllocError>
    ensures { IfOk result (λ text. IsSvg picture.now text.items) }
{
    let axis = axis_of(alloc, picture)?;
    let mut out = Vec::new(alloc);
    let labels = labels_of(alloc, picture)?;
    push_picture(&mut out, &axis, picture, &labels)?;
    Ok(out)
}
