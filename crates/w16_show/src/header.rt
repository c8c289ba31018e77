//! The first line of a module's text, and the line of its header.
ghost use Rattle.std.specs.Prelude.{◌≡◌, string_bytes};
ghost use Rattle.w16_ne.specs.Header.{shift_of};
ghost use Rattle.w16_show.specs.Words.{Adds};
ghost use Rattle.w16_show.specs.Text.{front_text, description_text, title_text, linker_text, heap_text, far_text, sizes_text, entry_point, stack_top, words_text, versions_text, header_flags, header_text};

use crate::bytes::{byte, push_escaped, push_flag, word};
use std::alloc::AllocError;
use w16_ne::Module;

/// Adds the file's name and what its module is to a text.
#[tactic(auto, unfolding(crate::specs::Text::front_text))]
fn push_front(out: &mut String, name: &str, library: bool) -> Result<(), AllocError>
    ensures { Adds result (string_bytes out.old) (string_bytes out.new) (front_text name.now library) }
{
    if library {
        return write!(out, "{name}: library ");
    }
    write!(out, "{name}: ")?;
    out.push_str("application ")
}

/// Adds a description to a text, where there is one.
#[tactic(auto, unfolding(crate::specs::Text::description_text))]
fn push_description(out: &mut String, text: &[u8]) -> Result<(), AllocError>
    ensures { Adds result (string_bytes out.old) (string_bytes out.new) (description_text text.now) }
{
    if text.is_empty() {
        return Ok(());
    }
    write!(out, ", described as ")?;
    push_escaped(out, text)
}

/// Adds a module's title to a text: the file's name, what the module is, its name and its description.
pub fn push_title(out: &mut String, name: &str, tables: &Module) -> Result<(), AllocError>
    ensures { Adds result (string_bytes out.old) (string_bytes out.new) (title_text name.now tables.now) }
{
    push_front(out, name, tables.library())?;
    push_escaped(out, tables.name())?;
    push_description(out, tables.description())?;
    out.push_str("\n")
}

/// Adds the place and the linker's version of a header to a text.
#[tactic(auto, unfolding(crate::specs::Text::linker_text))]
fn push_linker(out: &mut String, place: u32, header: &[u8]) -> Result<(), AllocError>
    ensures { Adds result (string_bytes out.old) (string_bytes out.new) (linker_text place header.now) }
{
    let (major, minor) = (byte(header, 2), byte(header, 3));
    write!(out, "header at {place:08x}: linker {major}.{minor}")
}

/// Adds the sizes of a heap and a stack to a text.
#[tactic(auto, unfolding(crate::specs::Text::heap_text))]
fn push_heap(out: &mut String, heap: u16, stack: u16) -> Result<(), AllocError>
    ensures { Adds result (string_bytes out.old) (string_bytes out.new) (heap_text heap stack) }
{
    write!(out, ", heap {heap:04x}, stack {stack:04x}")
}

/// Adds the segment of automatic data and the sizes of a header to a text.
#[tactic(auto, unfolding(crate::specs::Text::sizes_text))]
fn push_sizes(out: &mut String, segment: u16, heap: u16, stack: u16) -> Result<(), AllocError>
    ensures { Adds result (string_bytes out.old) (string_bytes out.new) (sizes_text segment heap stack) }
{
    out.push_str(", dgroup ")?;
    write!(out, "{segment}")?;
    push_heap(out, heap, stack)
}

/// Adds an offset in a segment to a text.
#[tactic(auto, unfolding(crate::specs::Text::far_text))]
fn push_far(out: &mut String, segment: u16, offset: u16) -> Result<(), AllocError>
    ensures { Adds result (string_bytes out.old) (string_bytes out.new) (far_text segment offset) }
{
    write!(out, "{segment}:{offset:04x}")
}

/// Adds the entry point of a header to a text.
#[tactic(auto, unfolding(crate::specs::Text::entry_point))]
fn push_entry_point(out: &mut String, segment: u16, offset: u16) -> Result<(), AllocError>
    ensures { Adds result (string_bytes out.old) (string_bytes out.new) (entry_point segment offset) }
{
    out.push_str(", cs:ip ")?;
    push_far(out, segment, offset)
}

/// Adds the stack's top of a header to a text.
#[tactic(auto, unfolding(crate::specs::Text::stack_top))]
fn push_stack_top(out: &mut String, segment: u16, offset: u16) -> Result<(), AllocError>
    ensures { Adds result (string_bytes out.old) (string_bytes out.new) (stack_top segment offset) }
{
    out.push_str(", ss:sp ")?;
    push_far(out, segment, offset)
}

/// Adds the words of a header to a text: its sizes, its entry point and its stack's top.
#[tactic(auto, unfolding(crate::specs::Text::words_text))]
fn push_words(out: &mut String, header: &[u8]) -> Result<(), AllocError>
    ensures { Adds result (string_bytes out.old) (string_bytes out.new) (words_text header.now) }
{
    push_sizes(
        out,
        word(header, 0x0e),
        word(header, 0x10),
        word(header, 0x12),
    )?;
    push_entry_point(out, word(header, 0x16), word(header, 0x14))?;
    push_stack_top(out, word(header, 0x1a), word(header, 0x18))
}

/// The alignment shift of a header; 0 stands for 9.
pub fn shift(header: &[u8]) -> u16
    ensures { result ≡ shift_of header.now }
{
    match word(header, 0x32) {
        0 => 9,
        shift => shift,
    }
}

/// Adds the shift, the target system and the version of Windows of a header to a text.
#[tactic(auto, unfolding(crate::specs::Text::versions_text))]
fn push_versions(out: &mut String, header: &[u8]) -> Result<(), AllocError>
    ensures { Adds result (string_bytes out.old) (string_bytes out.new) (versions_text header.now) }
{
    let shift = shift(header);
    let (target, major, minor) = (byte(header, 0x36), byte(header, 0x3f), byte(header, 0x3e));
    write!(
        out,
        ", shift {shift}, target {target}, version {major}.{minor}"
    )
}

/// Adds a header's flags to a text, and the words of those that are set.
#[tactic(auto, unfolding(crate::specs::Text::header_flags))]
fn push_flags(out: &mut String, flags: u16) -> Result<(), AllocError>
    ensures { Adds result (string_bytes out.old) (string_bytes out.new) (header_flags flags) }
{
    write!(out, ", flags {flags:04x}")?;
    push_flag(out, flags, 0x0001, "singledata")?;
    push_flag(out, flags, 0x0002, "multipledata")?;
    push_flag(out, flags, 0x8000, "library")?;
    out.push_str("\n")
}

/// Adds the line of a module's header to a text.
pub fn push_header(out: &mut String, tables: &Module) -> Result<(), AllocError>
    ensures { Adds result (string_bytes out.old) (string_bytes out.new) (header_text tables.now.place tables.now.header) }
{
    let header = tables.header();
    push_linker(out, tables.place(), header)?;
    push_words(out, header)?;
    push_versions(out, header)?;
    push_flags(out, word(header, 0x0c))
}
