//! What is printed of a file as text.
ghost use Rattle.std.specs.Prelude.{◌≡◌, ℕ, ◌++◌, List, Some, Ok, Err, IfOk, string_bytes};
ghost use Rattle.std.specs.List.{flat_map};
ghost use Rattle.std.specs.Io.KnownBytes.{Appends};
ghost use Rattle.w16_show.specs.Words.{Adds, Sends};
ghost use Rattle.w16_ne.specs.Modules.{listed_resources};
ghost use Rattle.w16_ne.specs.Parts.{parts_at};
ghost use Rattle.w16_show.specs.Numbered.{numbered};
ghost use Rattle.w16_show.specs.Imports.{imports};
ghost use Rattle.w16_show.specs.Text.{header_text, whole_segment, entry_text, name_text, reference_text, import_text, resource_text};
ghost use Rattle.w16_show.specs.Report.{IsOpened, part, verdict_of, verdict_text, module_text, text_of};

use crate::entries::{push_entries, push_names};
use crate::header::{push_header, push_title};
use crate::imports::{imports, send_imports};
use crate::open::{FILE, module_of, store_of, verdict};
use crate::parts::Parts;
use crate::references::send_references;
use crate::resources::send_resources;
use crate::segments::send_segments;
use crate::verdict::Verdict;
use crate::words::{file_part_word, push_fault, unsound_word};
use std::alloc::{AllocError, Global};
use std::io::{self, Write};
use w16_ne::{Module, PartFault};
use w16_reloc::Scratch;
use w16_store::MemStore;

/// Adds the line of a verdict to a text.
fn push_verdict(out: &mut String, verdict: &Verdict) -> Result<(), AllocError>
    ensures { Adds result (string_bytes out.old) (string_bytes out.new) (verdict_text verdict.now) }
{
    match verdict {
        Verdict::Sound => out.push_str("sound\n"),
        Verdict::NotSound(unsound) => {
            let number = unsound.segment;
            let word = unsound_word(unsound.fault);
            writeln!(out, "not sound: segment {number}, {word}")
        }
        Verdict::NotAccepted(e) => {
            out.push_str("not accepted: ")?;
            out.push_str(file_part_word(e.part))?;
            out.push_str(": ")?;
            push_fault(out, e.fault)?;
            out.push_str("\n")
        }
    }
}

/// Adds the header to a text, where it is asked for.
#[tactic(auto, unfolding(crate::specs::Report::part))]
fn push_header_part(out: &mut String, asked: bool, tables: &Module) -> Result<(), AllocError>
    ensures { Adds result (string_bytes out.old) (string_bytes out.new) (part asked (header_text tables.now.place tables.now.header)) }
{
    if !asked {
        return Ok(());
    }
    push_header(out, tables)
}

/// Sends the segments, where they are asked for.
#[tactic(auto, unfolding(crate::specs::Report::part))]
fn send_segments_part<W: Write>(
    writer: &mut W,
    line: &mut String,
    asked: bool,
    file: &[u8],
    store: &mut MemStore,
    tables: &Module,
    scratch: &mut Scratch,
) -> io::Result<()>
    ensures same { store.new ≡ store.old }
    ensures text { IsOpened store.old FILE.now file.now tables.now
        → Sends result (W.contents writer.old) (W.contents writer.new) (part asked (numbered (whole_segment file.now tables.now) 1 tables.now.segments)) }
{
    if !asked {
        return writer.write_all(b"");
    }
    send_segments(writer, line, file, store, FILE, tables, scratch)
}

/// Adds the entries and their names to a text, where they are asked for.
#[tactic(auto, unfolding(crate::specs::Report::part))]
fn push_entries_part(out: &mut String, asked: bool, tables: &Module) -> Result<(), AllocError>
    ensures { Adds result (string_bytes out.old) (string_bytes out.new) (part asked (numbered entry_text 1 tables.now.entries ++ numbered (name_text tables.now.resident) 0 tables.now.names)) }
{
    if !asked {
        return Ok(());
    }
    push_entries(out, tables)?;
    push_names(out, tables)
}

/// Sends the references and what is imported from them, where they are asked for.
#[tactic(auto, unfolding(crate::specs::Report::part))]
fn send_references_part<W: Write>(
    writer: &mut W,
    line: &mut String,
    asked: bool,
    file: &[u8],
    store: &mut MemStore,
    tables: &Module,
    scratch: &mut Scratch,
) -> io::Result<()>
    ensures same { store.new ≡ store.old }
    ensures text { IsOpened store.old FILE.now file.now tables.now
        → Sends result (W.contents writer.old) (W.contents writer.new) (part asked (numbered reference_text 1 tables.now.references ++ flat_map (import_text file.now tables.now) (imports file.now tables.now))) }
{
    if !asked {
        return writer.write_all(b"");
    }
    send_references(writer, line, tables)?;
    let imports = imports(*line.allocator(), store, FILE, tables, scratch)?;
    send_imports(writer, line, file, tables, &imports)
}

/// Sends the resources, where they are asked for.
#[tactic(auto, unfolding(crate::specs::Report::part))]
fn send_resources_part<W: Write>(
    writer: &mut W,
    line: &mut String,
    asked: bool,
    tables: &Module,
) -> io::Result<()>
    ensures { Sends result (W.contents writer.old) (W.contents writer.new) (part asked (numbered resource_text 1 (listed_resources tables.now.resources))) }
{
    if !asked {
        return writer.write_all(b"");
    }
    send_resources(writer, line, tables)
}

/// Sends the parts of a module that are asked for.
fn send_module<W: Write>(
    writer: &mut W,
    line: &mut String,
    file: &[u8],
    store: &mut MemStore,
    parts: Parts,
    tables: &Module,
    scratch: &mut Scratch,
) -> io::Result<()>
    ensures same { store.new ≡ store.old }
    ensures text { IsOpened store.old FILE.now file.now tables.now
        → Sends result (W.contents writer.old) (W.contents writer.new) (module_text parts file.now tables.now) }
{
    line.clear();
    push_header_part(line, parts.header, tables)?;
    writer.write_all(line.as_bytes())?;
    send_segments_part(writer, line, parts.segments, file, store, tables, scratch)?;
    line.clear();
    push_entries_part(line, parts.entries, tables)?;
    writer.write_all(line.as_bytes())?;
    send_references_part(writer, line, parts.references, file, store, tables, scratch)?;
    send_resources_part(writer, line, parts.resources, tables)
}

/// Sends what is printed of a file whose module is accepted.
fn show_module<W: Write>(
    alloc: Global,
    writer: &mut W,
    name: &str,
    file: &[u8],
    store: &mut MemStore,
    parts: Parts,
    tables: &Module,
) -> io::Result<Verdict>
    ensures text { IsOpened store.old FILE.now file.now tables.now
        → IfOk result (λ _. Appends (W.contents writer.old) (W.contents writer.new) (text_of parts name.now file.now (Ok tables.now))) }
    ensures verdict { IsOpened store.old FILE.now file.now tables.now
        → IfOk result (λ verdict. verdict ≡ verdict_of file.now (Ok tables.now)) }
{
    let mut scratch = Scratch::new(alloc)?;
    let verdict = verdict(store, FILE, tables, &mut scratch);
    let mut line = String::new(alloc);
    push_title(&mut line, name, tables)?;
    writer.write_all(line.as_bytes())?;
    send_module(writer, &mut line, file, store, parts, tables, &mut scratch)?;
    line.clear();
    push_verdict(&mut line, &verdict)?;
    writer.write_all(line.as_bytes())?;
    Ok(verdict)
}

/// Sends what is printed of a file whose module isn't accepted.
fn show_fault<W: Write>(
    alloc: Global,
    writer: &mut W,
    name: &str,
    e: PartFault,
) -> io::Result<Verdict>
    ensures text { (file : List ℕ) (parts : Parts)
        → IfOk result (λ _. Appends (W.contents writer.old) (W.contents writer.new) (text_of parts name.now file (Err e))) }
    ensures verdict { IfOk result (λ verdict. verdict ≡ Verdict.NotAccepted e) }
{
    let verdict = Verdict::NotAccepted(e);
    let mut line = String::new(alloc);
    write!(line, "{name}: ")?;
    push_verdict(&mut line, &verdict)?;
    writer.write_all(line.as_bytes())?;
    Ok(verdict)
}

/// Prints a module file as text: which module it has, the parts of it that are asked for, and the verdict on it, which it answers; of a file whose module
/// isn't accepted its first fault alone, with the part of the file that it is in. The name is printed as it is given. The text goes to the writer piece by
/// piece. An error is the writer's, or want of memory.
pub fn show_text<W: Write>(
    alloc: Global,
    writer: &mut W,
    name: &str,
    file: &[u8],
    parts: Parts,
) -> io::Result<Verdict>
    ensures text { IfOk result (λ _. Appends (W.contents writer.old) (W.contents writer.new) (text_of parts name.now file.now (parts_at (Some file.now)))) }
    ensures verdict { IfOk result (λ verdict. verdict ≡ verdict_of file.now (parts_at (Some file.now))) }
{
    let mut store = store_of(alloc, file)?;
    match module_of(alloc, &mut store, FILE)? {
        Ok(tables) => show_module(alloc, writer, name, file, &mut store, parts, &tables),
        Err(e) => show_fault(alloc, writer, name, e),
    }
}
