//! The lines of relocation records.
ghost use Rattle.std.specs.Prelude.{◌≡◌, Ok, string_bytes};
ghost use Rattle.std.specs.List.{flat_map};
ghost use Rattle.w16_show.specs.Words.{Adds, Sends};
ghost use Rattle.w16_show.specs.Text.{reference_name, imported_name, target_text, site_text, fixup_text, relocation_text, relocations_text};

use crate::bytes::push_escaped;
use crate::sites::sites_of;
use crate::words::part_word;
use std::alloc::AllocError;
use std::io::{self, Write};
use w16_ne::Module;
use w16_reloc::{Fixup, Record, Scratch, Target};

/// The name of a module that is referred to, by its number from 1; none where there is no such reference.
pub fn reference_name(tables: &Module, number: u16) -> &[u8]
    ensures { result.now ≡ reference_name tables.now number }
{
    let number = usize::from(number);
    if number == 0 || tables.reference_count() < number {
        return &[];
    }
    tables.reference(number)
}

/// An imported name, by its offset: as much of it as the file has.
pub fn imported_name<'a>(file: &'a [u8], tables: &Module, offset: u16) -> &'a [u8]
    ensures { result.now ≡ imported_name file.now tables.now offset }
{
    let at = tables.imported_names() as usize + usize::from(offset);
    match file.get(at) {
        None => &[],
        Some(len) => {
            let rest = &file[at + 1..];
            &rest[..usize::from(*len).min(rest.len())]
        }
    }
}

/// Adds where a record points to a text.
#[tactic(auto, unfolding(crate::specs::Text::target_text))]
pub fn push_target(
    out: &mut String,
    file: &[u8],
    tables: &Module,
    target: Target,
) -> Result<(), AllocError>
    ensures { Adds result (string_bytes out.old) (string_bytes out.new) (target_text file.now tables.now target) }
{
    match target {
        Target::Internal { segment, offset } => write!(out, "{segment}:{offset:04x}"),
        Target::Entry { ordinal } => write!(out, "entry {ordinal}"),
        Target::ByOrdinal { reference, ordinal } => {
            push_escaped(out, reference_name(tables, reference))?;
            write!(out, " #{ordinal}")
        }
        Target::ByName { reference, name } => {
            push_escaped(out, reference_name(tables, reference))?;
            out.push_str(" ")?;
            push_escaped(out, imported_name(file, tables, name))
        }
    }
}

/// Adds the sites of a record to a text.
fn push_sites(out: &mut String, sites: &[u16]) -> Result<(), AllocError>
    ensures { Adds result (string_bytes out.old) (string_bytes out.new) (flat_map site_text sites.now) }
{
    for site in sites {
        let offset = *site;
        write!(out, " {offset:04x}")?;
    }
    Ok(())
}

/// Adds the line of a fixup to a text, with the sign for how it is written.
fn push_fixup(
    out: &mut String,
    file: &[u8],
    tables: &Module,
    sites: &[u16],
    sign: &str,
    fixup: &Fixup,
) -> Result<(), AllocError>
    ensures { Adds result (string_bytes out.old) (string_bytes out.new) (fixup_text file.now tables.now sites.now sign.now fixup.now) }
{
    out.push_str(" ")?;
    push_sites(out, sites)?;
    let part = part_word(fixup.part);
    write!(out, " {part}{sign}")?;
    push_target(out, file, tables, fixup.target)?;
    out.push_str("\n")
}

/// Adds the line of a record to a text. The vector is room for its sites.
fn push_relocation(
    out: &mut String,
    file: &[u8],
    tables: &Module,
    bytes: &[u8],
    relocation: &Record,
    sites: &mut Vec<u16>,
) -> Result<(), AllocError>
    ensures { Adds result (string_bytes out.old) (string_bytes out.new) (relocation_text file.now tables.now bytes.now relocation.now) }
{
    sites_of(bytes, relocation, sites)?;
    match relocation {
        Record::Stored(fixup) => push_fixup(out, file, tables, sites, " = ", fixup),
        Record::Added(fixup) => push_fixup(out, file, tables, sites, " + ", fixup),
        Record::System => out.push_str("  system\n"),
    }
}

/// Sends the lines of the records of the segment that was checked last. The text is room for one.
pub fn send_relocations<W: Write>(
    writer: &mut W,
    line: &mut String,
    file: &[u8],
    tables: &Module,
    scratch: &Scratch,
) -> io::Result<()>
    ensures { Sends result (W.contents writer.old) (W.contents writer.new) (relocations_text file.now tables.now (Ok scratch.now.held)) }
{
    let mut sites = Vec::new(*line.allocator());
    for relocation in scratch.records() {
        line.clear();
        push_relocation(line, file, tables, scratch.bytes(), relocation, &mut sites)?;
        writer.write_all(line.as_bytes())?;
    }
    Ok(())
}
