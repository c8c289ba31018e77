//! Strips and bands as SVG. A unit is a pixel, and each strip lies in a group of its own, from 0 down to its height.
ghost use Rattle.std.specs.Prelude.{◌≡◌, ◌+◌};
ghost use Rattle.w16_picture.specs.Escape.{Adds};
ghost use Rattle.w16_picture.specs.Facts.{module_text, source_text};
ghost use Rattle.w16_picture.specs.Svg.{class_of, title_of, labels, box_text, bar_between, bar_text, rect_text, group_text, band_text, fade_text, caption_text, order_text};

use crate::bands::Band;
use crate::escape::push_escaped;
use crate::facts::{Part, Source, kind_of, role_of};
use crate::layout::{Rect, edge_of};
use std::alloc::AllocError;
use w16_model::Span;

/// What stands beside a strip: the script's line with its number, its reply, and the order of use after it.
#[derive(Clone, Copy, Debug)]
pub struct Caption<'a> {
    pub number: u32,
    pub line: &'a [u8],
    pub reply: &'a [u8],
    pub order: &'a [u8],
}

/// Appends the class of a part, which its colour goes by.
#[tactic(auto, unfolding(crate::specs::Svg::class_of))]
fn push_class(out: &mut String, item: &Part) -> Result<(), AllocError>
    ensures { Adds result out.old out.new (class_of item.now.owner item.now.source) }
{
    match item.owner {
        None => out.push_str("free"),
        Some(owner) => {
            out.push_str(role_of(item.source, owner.kind))?;
            if owner.locks == 0 {
                return Ok(());
            }
            out.push_str(" locked")
        }
    }
}

/// Appends which module an object is of.
#[tactic(auto, unfolding(crate::specs::Facts::module_text))]
fn push_module(out: &mut String, handle: u16) -> Result<(), AllocError>
    ensures { Adds result out.old out.new (module_text handle) }
{
    write!(out, " of module {handle:04x}")
}

/// Appends whose an object is, where it is a module's.
#[tactic(auto, unfolding(crate::specs::Facts::source_text))]
fn push_source(out: &mut String, source: Source) -> Result<(), AllocError>
    ensures { Adds result out.old out.new (source_text source) }
{
    match source {
        Source::Script => Ok(()),
        Source::Segment { handle, number, .. } => {
            write!(out, ", segment {number}")?;
            push_module(out, handle)
        }
        Source::Resource { handle, place } => {
            write!(out, ", resource at place {place}")?;
            push_module(out, handle)
        }
    }
}

/// Appends what is said of a part where the pointer rests on it.
#[tactic(auto, unfolding(crate::specs::Svg::title_of))]
fn push_title(out: &mut String, item: &Part) -> Result<(), AllocError>
    ensures { Adds result out.old out.new (title_of item.now.owner item.now) }
{
    let (at, size) = (item.at, item.size);
    match item.owner {
        None => write!(out, "free, address {at:08x}, size {size:08x}"),
        Some(owner) => {
            let (name, locks) = (owner.name, owner.locks);
            let kind = kind_of(owner.kind);
            write!(out, "handle {name:04x}, address {at:08x}, size {size:08x}")?;
            let flags = item.flags;
            write!(out, ", {kind}, locks {locks}, flags {flags:04x}")?;
            push_source(out, item.source)
        }
    }
}

/// Appends what is written on an object, as far as there is room: its handle, and below it the lock count of a locked one.
#[tactic(auto, unfolding(crate::specs::Svg::labels))]
fn push_labels(out: &mut String, x: u64, width: u32, item: &Part) -> Result<(), AllocError>
    ensures { Adds result out.old out.new (labels x width item.now.owner) }
{
    let Some(owner) = item.owner else {
        return Ok(());
    };
    let (name, locks) = (owner.name, owner.locks);
    if 9 <= width && locks != 0 {
        write!(out, "<text x='{x}' y='25'>{locks}</text>")?;
    }
    if width < 30 {
        return Ok(());
    }
    write!(out, "<text x='{x}' y='12'>{name:04x}</text>")
}

/// Appends the box of a part.
#[tactic(auto, unfolding(crate::specs::Svg::box_text))]
fn push_box(out: &mut String, x: u32, width: u32) -> Result<(), AllocError>
    ensures { Adds result out.old out.new (box_text x width) }
{
    write!(out, "<rect x='{x}' width='{width}' height='28'/>")
}

/// Appends a bar from a unit up to another, at least one unit wide.
#[tactic(auto, unfolding(crate::specs::Svg::bar_between))]
fn push_bar_between(out: &mut String, left: u32, right: u32) -> Result<(), AllocError>
    ensures { Adds result out.old out.new (bar_between left right) }
{
    let right = u64::from(right).max(u64::from(left) + 1);
    write!(out, "<path class='heap' d='M{left} 13H{right}v3H{left}z'/>")
}

/// Appends the bar of a local heap in an object of that size, which is drawn from a unit up to another.
#[tactic(auto, unfolding(crate::specs::Svg::bar_text))]
fn push_bar(
    out: &mut String,
    left: u32,
    right: u32,
    size: u32,
    heap: Option<Span>,
) -> Result<(), AllocError>
    ensures { Adds result out.old out.new (bar_text left right size heap) }
{
    let Some(heap) = heap else {
        return Ok(());
    };
    if heap.to <= heap.from || size < heap.to {
        return Ok(());
    }
    let width = right.saturating_sub(left);
    let from = edge_of(width, size, left, heap.from);
    push_bar_between(out, from, edge_of(width, size, left, heap.to))
}

/// Appends a part: its title, its box with the bar of a local heap, and its handle and lock count where there is room.
#[tactic(auto, unfolding(crate::specs::Svg::rect_text))]
pub fn push_rect(out: &mut String, rect: &Rect) -> Result<(), AllocError>
    ensures { Adds result out.old out.new (rect_text rect.now) }
{
    out.push_str("<g class='")?;
    push_class(out, &rect.item)?;
    out.push_str("'><title>")?;
    push_title(out, &rect.item)?;
    out.push_str("</title>")?;
    push_box(out, rect.left, rect.width())?;
    push_bar(out, rect.left, rect.right, rect.item.size, rect.item.local)?;
    push_labels(out, u64::from(rect.left) + 3, rect.width(), &rect.item)?;
    out.push_str("</g>\n")
}

/// Appends the start of a strip's group.
#[tactic(auto, unfolding(crate::specs::Svg::group_text))]
pub fn push_group(out: &mut String, y: u64) -> Result<(), AllocError>
    ensures { Adds result out.old out.new (group_text y) }
{
    write!(out, "<g transform='translate(16,{y})'>\n")
}

/// Appends a band, from the strip above down to this one.
#[tactic(auto, unfolding(crate::specs::Svg::band_text))]
pub fn push_band(out: &mut String, band: &Band) -> Result<(), AllocError>
    ensures { Adds result out.old out.new (band_text band.now) }
{
    out.push_str(if band.from.item.at == band.to.item.at {
        "<path class='stays' d='M"
    } else {
        "<path class='moves' d='M"
    })?;
    let (a, b, c, d) = (band.from.left, band.from.right, band.to.right, band.to.left);
    write!(out, "{a} -56H{b}L{c} 0H{d}z'/>\n")
}

/// Appends the shade of an object that comes or goes, from a height down by half of the distance between two strips.
#[tactic(auto, unfolding(crate::specs::Svg::fade_text))]
pub fn push_fade(out: &mut String, comes: bool, rect: &Rect) -> Result<(), AllocError>
    ensures { Adds result out.old out.new (fade_text comes rect.now) }
{
    let (a, b) = (rect.left, rect.right);
    if comes {
        write!(out, "<path class='comes' d='M{a} -28H{b}v28H{a}z'/>\n")
    } else {
        write!(out, "<path class='goes' d='M{a} -56H{b}v28H{a}z'/>\n")
    }
}

/// Appends the script's line and its reply, to the right of a strip.
#[tactic(auto, unfolding(crate::specs::Svg::caption_text))]
pub fn push_caption(out: &mut String, caption: &Caption<'_>, x: u64) -> Result<(), AllocError>
    ensures { Adds result out.old out.new (caption_text caption.now x) }
{
    let number = caption.number;
    write!(out, "<text x='{x}' y='12'>{number}: ")?;
    push_escaped(out, caption.line)?;
    write!(out, "</text><text class='reply' x='{x}' y='25'>")?;
    push_escaped(out, caption.reply)?;
    out.push_str("</text>")
}

/// Appends the order of use, below them, and the end of a strip's group.
#[tactic(auto, unfolding(crate::specs::Svg::order_text))]
pub fn push_order(out: &mut String, order: &[u8], x: u64) -> Result<(), AllocError>
    ensures { Adds result out.old out.new (order_text order.now x) }
{
    write!(out, "<text class='order' x='{x}' y='38'>")?;
    push_escaped(out, order)?;
    out.push_str("</text></g>\n")
}
