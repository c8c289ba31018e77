//! Pictures, strip by strip.
ghost use Rattle.std.specs.Prelude.{◌≡◌, ◌≢◌, ◌+◌, ◌*◌, ◌^◌, ◌<◌, ◌≤◌, [], length, max, IfOk, OnOk, OnErr};
ghost use Rattle.std.specs.Io.KnownBytes.{Appends};
ghost use Rattle.w16_picture.specs.Escape.{Adds};
ghost use Rattle.w16_picture.specs.Layout.{Fills, strip};
ghost use Rattle.w16_picture.specs.Style.{columns_of};
ghost use Rattle.w16_picture.specs.Strips.{strip_in};
ghost use Rattle.w16_picture.specs.Picture.{opening_text, size_text, closing_text};

use crate::facts::Part;
use crate::layout::{Rect, rectangles};
use crate::strips::push_strip;
use crate::style::{HEAD, Style};
use crate::svg::Caption;
use std::alloc::{AllocError, Global};
use std::io::{self, Write};

/// A picture that is printed strip by strip, and what the next strip needs of those before it.
#[derive(Debug, Drop)]
pub struct Picture {
    pub style: Style,
    /// Bytes of the memory, at most 16 MiB.
    pub memory: u32,
    /// How many strips are printed.
    pub strips: u32,
    /// The width of the widest of them, in units.
    pub widest: u64,
    /// The rectangles of the last one.
    pub before: Vec<Rect>,
    ghost some: { 0 < memory },
    ghost few: { memory ≤ 2 ^ 24 },
    ghost wide: { widest < 2 ^ 32 },
}

/// Appends the size of an SVG in pixels, and its end.
fn push_size(out: &mut String, width: u64, height: u64) -> Result<(), AllocError>
    ensures { Adds result out.old out.new (size_text width height) }
{
    write!(
        out,
        "<style>svg{{width:{width}px;height:{height}px}}</style></svg>\n"
    )
}

/// Appends what stands after the last strip.
fn push_closing(out: &mut String, style: Style, strips: u32, widest: u64) -> Result<(), AllocError>
    requires { widest < 2 ^ 32 }
    ensures { Adds result out.old out.new (closing_text style strips widest) }
{
    match style {
        Style::Svg => push_size(out, widest + 632, 84 * u64::from(strips) + 60),
        Style::Text => Ok(()),
    }
}

impl Picture {
    /// A picture without a strip.
    pub fn new(alloc: Global, style: Style, memory: u32) -> Picture
        requires some { 0 < memory }
        requires few { memory ≤ 2 ^ 24 }
        ensures style { result.style ≡ style }
        ensures memory { result.memory ≡ memory }
        ensures strips { result.strips ≡ 0 }
        ensures before { result.before.items ≡ [] }
    {
        Picture {
            style,
            memory,
            strips: 0,
            widest: u64::from(style.columns()),
            before: Vec::new(alloc),
        }
    }

    /// Prints what stands before the first strip.
    pub fn open<W: Write>(&self, writer: &mut W) -> io::Result<()>
        ensures { OnOk result (Appends (W.contents writer.old) (W.contents writer.new) (opening_text self.now.style)) }
    {
        match self.style {
            Style::Svg => writer.write_all(HEAD.as_bytes()),
            Style::Text => writer.write_all(b""),
        }
    }

    /// Prints the next strip, of these parts. An error is the writer's, or that there was no memory; the picture is as it was then.
    pub fn draw<W: Write>(
        &mut self,
        writer: &mut W,
        items: &[Part],
        caption: &Caption<'_>,
    ) -> io::Result<()>
        requires whole { Fills 0 self.old.memory items.now }
        requires more { self.old.strips + 1 < 2 ^ 32 }
        ensures printed { OnOk result (Appends (W.contents writer.old) (W.contents writer.new) (strip_in self.old.style (100 + 84 * self.old.strips)
            self.old.before.items (strip (columns_of self.old.style) self.old.memory items.now) (max (columns_of self.old.style) (length items.now)) caption.now)) }
        ensures before { OnOk result (self.new.before.items ≡ strip (columns_of self.old.style) self.old.memory items.now) }
        ensures strips { OnOk result (self.new.strips ≡ self.old.strips + 1) }
        ensures same { (self.new.style ≡ self.old.style) × (self.new.memory ≡ self.old.memory) }
        ensures err { OnErr result (self.new ≡ self.old) }
    {
        let alloc = *self.before.allocator();
        let columns = self.style.columns();
        let rects = rectangles(alloc, columns, self.memory, items)?;
        let width = u64::from(columns).max(items.len() as u64);
        let mut text = String::new(alloc);
        let y = 100 + 84 * u64::from(self.strips);
        push_strip(
            &mut text,
            self.style,
            y,
            &self.before,
            &rects,
            width,
            caption,
        )?;
        writer.write_all(text.as_bytes())?;
        self.before = rects;
        self.strips += 1;
        self.widest = self.widest.max(width);
        Ok(())
    }

    /// Prints what stands after the last strip.
    pub fn close<W: Write>(&self, writer: &mut W) -> io::Result<()>
        ensures { OnOk result (Appends (W.contents writer.old) (W.contents writer.new) (closing_text self.now.style self.now.strips self.now.widest)) }
    {
        let mut text = String::new(*self.before.allocator());
        push_closing(&mut text, self.style, self.strips, self.widest)?;
        writer.write_all(text.as_bytes())
    }
}
