//! The lines of segments.
ghost use Rattle.std.specs.Prelude.{◌≡◌, ◌<◌, ◌≤◌, ◌-◌, Some, length, slice_get, string_bytes};
ghost use Rattle.w16_ne.specs.declared.segment_table.Segment.{Segment};
ghost use Rattle.w16_reloc.specs.Segments.{checked};
ghost use Rattle.w16_show.specs.Report.{IsOpened};
ghost use Rattle.w16_show.specs.Numbered.{numbered};
ghost use Rattle.w16_show.specs.Words.{Adds, Sends};
ghost use Rattle.w16_show.specs.Text.{memory_words, segment_words, data_text, object_text, segment_text, whole_segment, relocations_text};

use crate::bytes::push_flag;
use crate::relocations::send_relocations;
use crate::words::unsound_word;
use std::alloc::AllocError;
use std::io::{self, Write};
use w16_ne::{Module, Segment};
use w16_reloc::{Scratch, check};
use w16_store::MemStore;

/// Adds the words of those flags to a text that say what a segment is in memory.
#[tactic(auto, unfolding(crate::specs::Text::memory_words))]
fn push_memory_words(out: &mut String, flags: u16) -> Result<(), AllocError>
    ensures { Adds result (string_bytes out.old) (string_bytes out.new) (memory_words flags) }
{
    push_flag(out, flags, 0x0001, "data")?;
    push_flag(out, flags, 0x0010, "moveable")?;
    push_flag(out, flags, 0x0020, "shareable")?;
    push_flag(out, flags, 0x0040, "preload")
}

/// Adds the words of a segment's flags to a text.
#[tactic(auto, unfolding(crate::specs::Text::segment_words))]
fn push_words(out: &mut String, flags: u16) -> Result<(), AllocError>
    ensures { Adds result (string_bytes out.old) (string_bytes out.new) (segment_words flags) }
{
    push_memory_words(out, flags)?;
    push_flag(out, flags, 0x0080, "protected")?;
    push_flag(out, flags, 0x0100, "relocations")?;
    push_flag(out, flags, 0x1000, "discardable")
}

/// Adds where a segment's data lie in the file to a text.
#[tactic(auto, unfolding(crate::specs::Text::data_text))]
fn push_data(out: &mut String, number: usize, segment: &Segment) -> Result<(), AllocError>
    ensures { Adds result (string_bytes out.old) (string_bytes out.new) (data_text number segment.now) }
{
    let (place, len) = (segment.place, segment.len);
    write!(out, "segment {number}: place {place:08x}, length {len:05x}")
}

/// Adds the size of a segment's object and the segment's flags to a text.
#[tactic(auto, unfolding(crate::specs::Text::object_text))]
fn push_object(out: &mut String, segment: &Segment) -> Result<(), AllocError>
    ensures { Adds result (string_bytes out.old) (string_bytes out.new) (object_text segment.now) }
{
    let (size, flags) = (segment.size, segment.flags.0);
    write!(out, ", object {size:05x}, flags {flags:04x}")
}

/// Adds the line of a segment to a text.
fn push_line(out: &mut String, number: usize, segment: &Segment) -> Result<(), AllocError>
    ensures { Adds result (string_bytes out.old) (string_bytes out.new) (segment_text number segment.now) }
{
    push_data(out, number, segment)?;
    push_object(out, segment)?;
    push_words(out, segment.flags.0)?;
    out.push_str("\n")
}

/// Sends the line of a segment, and its records or what isn't sound of them. The text is room for a line.
fn send_segment<W: Write>(
    writer: &mut W,
    line: &mut String,
    file: &[u8],
    store: &mut MemStore,
    name: &[u8],
    tables: &Module,
    number: usize,
    scratch: &mut Scratch,
) -> io::Result<()>
    requires first { 0 < number }
    requires last { number ≤ length tables.now.segments }
    ensures same { store.new ≡ store.old }
    ensures text { (s : Segment) → IsOpened store.old name.now file.now tables.now
        → slice_get tables.now.segments (number - 1) ≡ Some s
        → Sends result (W.contents writer.old) (W.contents writer.new) (whole_segment file.now tables.now number s) }
{
    line.clear();
    push_line(line, number, &tables.segment(number))?;
    match check(store, name, tables, number, scratch) {
        Ok(()) => {
            writer.write_all(line.as_bytes())?;
            send_relocations(writer, line, file, tables, scratch)
        }
        Err(fault) => {
            let word = unsound_word(fault);
            writeln!(line, "  {word}")?;
            writer.write_all(line.as_bytes())
        }
    }
}

/// Sends the lines of all segments and of their records. The text is room for one.
pub fn send_segments<W: Write>(
    writer: &mut W,
    line: &mut String,
    file: &[u8],
    store: &mut MemStore,
    name: &[u8],
    tables: &Module,
    scratch: &mut Scratch,
) -> io::Result<()>
    ensures same { store.new ≡ store.old }
    ensures text { IsOpened store.old name.now file.now tables.now
        → Sends result (W.contents writer.old) (W.contents writer.new) (numbered (whole_segment file.now tables.now) 1 tables.now.segments) }
{
    for i in 0..tables.segment_count() {
        send_segment(writer, line, file, store, name, tables, i + 1, scratch)?;
    }
    Ok(())
}
