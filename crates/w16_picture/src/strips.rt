//! Whole strips: everything that is printed for one.
ghost use Rattle.std.specs.Prelude.{◌+◌, ◌^◌, ◌<◌};
ghost use Rattle.std.specs.List.{flat_map};
ghost use Rattle.w16_picture.specs.Escape.{Adds};
ghost use Rattle.w16_picture.specs.Svg.{band_text};
ghost use Rattle.w16_picture.specs.Strips.{shape_in, changes, strip_in};

use crate::bands::{Band, alone, bands_between};
use crate::escape::push_shown;
use crate::layout::Rect;
use crate::style::Style;
use crate::svg::{Caption, push_band, push_caption, push_fade, push_group, push_order, push_rect};
use crate::text::{push_cells, push_heading};
use std::alloc::AllocError;

/// As what a rectangle is shown: as SVG or as characters, or as an object that the strip before doesn't show, or that the one after doesn't.
#[derive(Clone, Copy, Debug, PartialEq, Eq)]
pub enum Shape {
    Part,
    Cells,
    Comes,
    Goes,
}

/// Appends a rectangle.
fn push_shape(out: &mut String, shape: Shape, rect: &Rect) -> Result<(), AllocError>
    ensures { Adds result out.old out.new (shape_in shape rect.now) }
{
    match shape {
        Shape::Part => push_rect(out, rect),
        Shape::Cells => push_cells(out, rect),
        Shape::Comes => push_fade(out, true, rect),
        Shape::Goes => push_fade(out, false, rect),
    }
}

/// Appends rectangles.
fn push_shapes(out: &mut String, shape: Shape, rects: &[Rect]) -> Result<(), AllocError>
    ensures { Adds result out.old out.new (flat_map (shape_in shape) rects.now) }
{
    for rect in rects {
        push_shape(out, shape, rect)?;
    }
    Ok(())
}

/// Appends bands.
fn push_bands(out: &mut String, bands: &[Band]) -> Result<(), AllocError>
    ensures { Adds result out.old out.new (flat_map band_text bands.now) }
{
    for band in bands {
        push_band(out, band)?;
    }
    Ok(())
}

/// Appends what changed from the strip before: bands, and what goes and comes.
fn push_changes(out: &mut String, before: &[Rect], rects: &[Rect]) -> Result<(), AllocError>
    ensures { Adds result out.old out.new (changes before.now rects.now) }
{
    let bands = bands_between(*out.allocator(), before, rects)?;
    push_bands(out, &bands)?;
    let gone = alone(*out.allocator(), rects, before)?;
    push_shapes(out, Shape::Goes, &gone)?;
    let new = alone(*out.allocator(), before, rects)?;
    push_shapes(out, Shape::Comes, &new)
}

/// Appends a strip with its caption: of SVG a group, whose top is at `y`, with what changed before the parts.
pub fn push_strip(
    out: &mut String,
    style: Style,
    y: u64,
    before: &[Rect],
    rects: &[Rect],
    width: u64,
    caption: &Caption<'_>,
) -> Result<(), AllocError>
    requires { width + 12 < 2 ^ 64 }
    ensures { Adds result out.old out.new (strip_in style y before.now rects.now width caption.now) }
{
    match style {
        Style::Svg => {
            push_group(out, y)?;
            push_changes(out, before, rects)?;
            push_shapes(out, Shape::Part, rects)?;
            push_caption(out, caption, width + 12)?;
            push_order(out, caption.order, width + 12)
        }
        Style::Text => {
            push_heading(out, caption)?;
            push_shapes(out, Shape::Cells, rects)?;
            out.push_str("\n")?;
            push_shown(out, caption.order)?;
            out.push_str("\n")
        }
    }
}
