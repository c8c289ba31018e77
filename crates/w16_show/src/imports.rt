//! What a module imports, and the lines of it.
ghost use Rattle.std.specs.Prelude.{◌≡◌, ℕ, ◌<◌, ◌≤◌, ◌-◌, List, Some, IfOk, OnOk, length, slice_get, string_bytes};
ghost use Rattle.std.specs.BTreeMap.{values};
ghost use Rattle.std.specs.List.{flat_map, fold};
ghost use Rattle.w16_ne.specs.declared.segment_table.Segment.{Segment};
ghost use Rattle.w16_reloc.specs.Segments.{checked};
ghost use Rattle.w16_show.specs.Report.{IsOpened};
ghost use Rattle.w16_show.specs.Words.{Adds, Sends};
ghost use Rattle.w16_show.specs.Imports.{targets_of, targets_in, with_import, ranked_imports};
ghost use Rattle.w16_show.specs.Text.{import_text};

use crate::relocations::push_target;
use std::alloc::{AllocError, Global};
use std::collections::BTreeMap;
use std::io::{self, Write};
use w16_ne::Module;
use w16_reloc::{Record, Scratch, Target, check};
use w16_store::MemStore;

/// Adds a target to a module's imports, where it is one. They are kept by the number of their reference, and of one reference those by ordinal come
/// before those by name.
fn add_target(imports: &mut BTreeMap<u64, Target>, target: Target) -> Result<(), AllocError>
    ensures { OnOk result (imports.new.entries ≡ with_import imports.old.entries target) }
{
    let rank = match target {
        Target::ByOrdinal { reference, ordinal } => {
            131_072 * u64::from(reference) + u64::from(ordinal)
        }
        Target::ByName { reference, name } => {
            131_072 * u64::from(reference) + 65_536 + u64::from(name)
        }
        _ => return Ok(()),
    };
    imports.insert(rank, target)?;
    Ok(())
}

/// Adds what a record imports.
fn add_record(imports: &mut BTreeMap<u64, Target>, found: &Record) -> Result<(), AllocError>
    ensures { OnOk result (imports.new.entries ≡ fold with_import imports.old.entries (targets_of found.now)) }
{
    match found {
        Record::Stored(fixup) => add_target(imports, fixup.target),
        Record::Added(fixup) => add_target(imports, fixup.target),
        Record::System => Ok(()),
    }
}

/// Adds what records import.
fn add_records(imports: &mut BTreeMap<u64, Target>, records: &[Record]) -> Result<(), AllocError>
    ensures { OnOk result (imports.new.entries ≡ fold with_import imports.old.entries (flat_map targets_of records.now)) }
{
    for record in records {
        add_record(imports, record)?;
    }
    Ok(())
}

/// Adds what a segment imports, by its number from 1: nothing where its records aren't sound.
fn add_segment(
    imports: &mut BTreeMap<u64, Target>,
    store: &mut MemStore,
    name: &[u8],
    tables: &Module,
    number: usize,
    scratch: &mut Scratch,
) -> Result<(), AllocError>
    requires first { 0 < number }
    requires last { number ≤ length tables.now.segments }
    ensures same { store.new ≡ store.old }
    ensures imports { (file : List ℕ) (s : Segment) → IsOpened store.old name.now file tables.now
        → slice_get tables.now.segments (number - 1) ≡ Some s
        → OnOk result (imports.new.entries ≡ fold with_import imports.old.entries (targets_in (checked file tables.now s))) }
{
    match check(store, name, tables, number, scratch) {
        Ok(()) => add_records(imports, scratch.records()),
        Err(_) => Ok(()),
    }
}

/// What the sound segments of a module import, each import once.
pub fn imports(
    alloc: Global,
    store: &mut MemStore,
    name: &[u8],
    tables: &Module,
    scratch: &mut Scratch,
) -> Result<BTreeMap<u64, Target>, AllocError>
    ensures same { store.new ≡ store.old }
    ensures imports { (file : List ℕ) → IsOpened store.old name.now file tables.now
        → IfOk result (λ imports. imports.entries ≡ ranked_imports file tables.now) }
{
    let mut imports = BTreeMap::new(alloc);
    for i in 0..tables.segment_count() {
        add_segment(&mut imports, store, name, tables, i + 1, scratch)?;
    }
    Ok(imports)
}

/// Adds the line of an import to a text.
fn push_import(
    out: &mut String,
    file: &[u8],
    tables: &Module,
    import: Target,
) -> Result<(), AllocError>
    ensures { Adds result (string_bytes out.old) (string_bytes out.new) (import_text file.now tables.now import) }
{
    out.push_str("import ")?;
    push_target(out, file, tables, import)?;
    out.push_str("\n")
}

/// Sends the lines of what a module imports. The text is room for one.
pub fn send_imports<W: Write>(
    writer: &mut W,
    line: &mut String,
    file: &[u8],
    tables: &Module,
    imports: &BTreeMap<u64, Target>,
) -> io::Result<()>
    ensures { Sends result (W.contents writer.old) (W.contents writer.new) (flat_map (import_text file.now tables.now) (values imports.now)) }
{
    for import in imports.values() {
        line.clear();
        push_import(line, file, tables, *import)?;
        writer.write_all(line.as_bytes())?;
    }
    Ok(())
}
