//! Strips as text: a character for each unit.
ghost use Rattle.std.specs.Prelude.{◌≡◌, ◌<◌, replicate};
ghost use Rattle.w16_picture.specs.Escape.{Adds};
ghost use Rattle.w16_picture.specs.Facts.{role_letter};
ghost use Rattle.w16_picture.specs.Cells.{letter_of, filler_of, marks, cells, heading_text};

use crate::escape::push_shown;
use crate::facts::{Part, Source};
use crate::layout::Rect;
use crate::svg::Caption;
use std::alloc::AllocError;
use w16_model::Kind;

/// What an object begins with.
fn role_letter(source: Source, kind: Kind) -> char
    ensures value { result ≡ role_letter source kind }
    ensures ascii { result < 128 }
{
    match source {
        Source::Script => match kind {
            Kind::Fixed => 'F',
            Kind::Moveable => 'M',
            Kind::Discardable => 'D',
        },
        Source::Segment { code, .. } => { if code { 'C' } else { 'S' } }
        Source::Resource { .. } => 'R',
    }
}

/// What a part begins with.
fn letter(item: &Part) -> char
    ensures value { result ≡ letter_of item.now.owner item.now.source }
    ensures ascii { result < 128 }
{
    match item.owner {
        None => '.',
        Some(owner) => role_letter(item.source, owner.kind),
    }
}

/// What fills the rest of a part.
#[tactic(auto, unfolding(crate::specs::Cells::filler_of))]
fn filler(item: &Part) -> char
    ensures value { result ≡ filler_of item.now.owner }
    ensures ascii { result < 128 }
{
    match item.owner {
        None => '.',
        Some(owner) => { if owner.locks == 0 { '-' } else { '=' } }
    }
}

/// Appends what stands in a part after its letter, as far as there is room: an object's handle, and the lock count of a locked one.
#[tactic(auto, unfolding(crate::specs::Cells::marks))]
fn push_marks(out: &mut String, width: u32, item: &Part) -> Result<(), AllocError>
    ensures { Adds result out.old out.new (marks width item.now.owner) }
{
    let Some(owner) = item.owner else {
        return Ok(());
    };
    if width < 5 {
        return Ok(());
    }
    let (name, locks) = (owner.name, owner.locks);
    write!(out, "{name:04x}")?;
    if locks == 0 || width < 9 {
        return Ok(());
    }
    write!(out, "*{locks}")
}

/// Appends a character a number of times.
fn push_filler(out: &mut String, count: usize, fill: char) -> Result<(), AllocError>
    requires { fill < 128 }
    ensures { Adds result out.old out.new (replicate count fill) }
{
    for written in 0..count {
        let _ = written;
        out.push(fill)?;
    }
    Ok(())
}

/// Appends a part as characters, one for each of its units.
pub fn push_cells(out: &mut String, rect: &Rect) -> Result<(), AllocError>
    ensures { Adds result out.old out.new (cells rect.now) }
{
    let width = rect.width();
    let start = out.len();
    out.push(letter(&rect.item))?;
    push_marks(out, width, &rect.item)?;
    let written = out.len() - start;
    push_filler(
        out,
        (width as usize).saturating_sub(written),
        filler(&rect.item),
    )
}

/// Appends what stands above a strip.
#[tactic(auto, unfolding(crate::specs::Cells::heading_text))]
pub fn push_heading(out: &mut String, caption: &Caption<'_>) -> Result<(), AllocError>
    ensures { Adds result out.old out.new (heading_text caption.now) }
{
    let number = caption.number;
    write!(out, "{number}: ")?;
    push_shown(out, caption.line)?;
    out.push_str(" -> ")?;
    push_shown(out, caption.reply)?;
    out.push_str("\n")
}
