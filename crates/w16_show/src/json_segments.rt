//! Segments and their relocation records as JSON.
ghost use Rattle.std.specs.BTreeMap.{values};
ghost use Rattle.std.specs.Prelude.{◌≡◌, ℕ, ◌<◌, ◌≤◌, ◌-◌, List, Some, [], length, map, slice_get, string_bytes, IfOk};
ghost use Rattle.serde_json.specs.Data.{Data, boolean, null, string};
ghost use Rattle.serde_json.specs.View.{items_of, view};
ghost use Rattle.w16_show.specs.Imports.{imports};
ghost use Rattle.w16_show.specs.Report.{IsOpened};
ghost use Rattle.w16_show.specs.Numbered.{numbered};
ghost use Rattle.w16_show.specs.Words.{Adds, part_text};
ghost use Rattle.w16_show.specs.Plain.{AddsJson, ArePlain, IsPlain, Makes, PassesOn, SendsJson};
ghost use Rattle.w16_show.specs.Json.{list, target_json, fixup_json, relocation_json, segment_object, segment_front, segment_json};

use crate::imports::imports;
use crate::json_values::{comma, push_offsets, push_text, send_value, word_value};
use crate::relocations::{imported_name, reference_name};
use crate::sites::sites_of;
use crate::words::unsound_word;
use serde_json::{Value, json};
use std::alloc::{AllocError, Global};
use std::collections::BTreeMap;
use std::io::{self, Write};
use w16_ne::{Module, Segment};
use w16_reloc::{Fixup, Part, Record, Scratch, Target, check};
use w16_store::MemStore;

/// Adds to a text a target in another module, by its ordinal.
#[tactic(auto, unfolding(json::specs::Print::escape_byte))]
fn push_by_ordinal(
    out: &mut String,
    tables: &Module,
    reference: u16,
    ordinal: u16,
) -> Result<(), AllocError>
    ensures { (file : List ℕ) → AddsJson result (string_bytes out.old) (string_bytes out.new) (target_json file tables.now (Target.ByOrdinal reference ordinal)) }
{
    out.push_str("{\"module\":")?;
    push_text(out, reference_name(tables, reference))?;
    write!(out, ",\"ordinal\":{ordinal}}}")
}

/// Adds to a text a target in another module, by its name.
#[tactic(auto, unfolding(json::specs::Print::escape_byte))]
fn push_by_name(
    out: &mut String,
    file: &[u8],
    tables: &Module,
    reference: u16,
    name: u16,
) -> Result<(), AllocError>
    ensures { AddsJson result (string_bytes out.old) (string_bytes out.new) (target_json file.now tables.now (Target.ByName reference name)) }
{
    out.push_str("{\"module\":")?;
    push_text(out, reference_name(tables, reference))?;
    out.push_str(",\"name\":")?;
    push_text(out, imported_name(file, tables, name))?;
    out.push_str("}")
}

/// Adds where a record points to a text.
#[tactic(auto, unfolding(json::specs::Print::escape_byte))]
fn push_target(
    out: &mut String,
    file: &[u8],
    tables: &Module,
    target: Target,
) -> Result<(), AllocError>
    ensures { AddsJson result (string_bytes out.old) (string_bytes out.new) (target_json file.now tables.now target) }
{
    match target {
        Target::Internal { segment, offset } => {
            write!(out, "{{\"offset\":{offset},\"segment\":{segment}}}")
        }
        Target::Entry { ordinal } => write!(out, "{{\"ordinal\":{ordinal}}}"),
        Target::ByOrdinal { reference, ordinal } => push_by_ordinal(
            out, tables, reference, ordinal,
        ),
        Target::ByName { reference, name } => push_by_name(out, file, tables, reference, name),
    }
}

/// Sends imports that were found in a module.
fn send_targets<W: Write>(
    alloc: Global,
    writer: &mut W,
    file: &[u8],
    tables: &Module,
    imports: &BTreeMap<u64, Target>,
) -> io::Result<()>
    ensures { SendsJson result (W.contents writer.old) (W.contents writer.new) (list (map (target_json file.now tables.now) (values imports.now))) }
{
    writer.write_all(b"[")?;
    let mut line = String::new(alloc);
    let mut later = false;
    for target in imports.values() {
        line.clear();
        line.push_str(comma(later))?;
        push_target(&mut line, file, tables, *target)?;
        writer.write_all(line.as_bytes())?;
        later = true;
    }
    writer.write_all(b"]")
}

/// Sends what a module imports.
pub fn send_imports<W: Write>(
    alloc: Global,
    writer: &mut W,
    file: &[u8],
    store: &mut MemStore,
    name: &[u8],
    tables: &Module,
    scratch: &mut Scratch,
) -> io::Result<()>
    ensures same { store.new ≡ store.old }
    ensures value { IsOpened store.old name.now file.now tables.now
        → SendsJson result (W.contents writer.old) (W.contents writer.new) (list (map (target_json file.now tables.now) (imports file.now tables.now))) }
{
    let imports = imports(alloc, store, name, tables, scratch)?;
    send_targets(alloc, writer, file, tables, &imports)
}

/// Adds a truth value to a text.
fn push_bool(out: &mut String, is_true: bool) -> Result<(), AllocError>
    ensures { AddsJson result (string_bytes out.old) (string_bytes out.new) (boolean is_true) }
{
    if is_true {
        out.push_str("true")
    } else {
        out.push_str("false")
    }
}

/// Adds what of its target a record writes to a text.
#[tactic(auto, unfolding(crate::specs::Words::part_text, json::specs::Print::escape_byte))]
fn push_part(out: &mut String, part: Part) -> Result<(), AllocError>
    ensures { AddsJson result (string_bytes out.old) (string_bytes out.new) (string (part_text part)) }
{
    match part {
        Part::LowByte => out.push_str("\"byte\""),
        Part::Selector => out.push_str("\"selector\""),
        Part::Pointer => out.push_str("\"pointer\""),
        Part::Offset => out.push_str("\"offset\""),
    }
}

/// Adds to a text a fixup, with its sites, and whether its value is added.
fn push_fixup(
    out: &mut String,
    file: &[u8],
    tables: &Module,
    sites: &[u16],
    add: bool,
    fixup: &Fixup,
) -> Result<(), AllocError>
    ensures { AddsJson result (string_bytes out.old) (string_bytes out.new) (fixup_json file.now tables.now sites.now add fixup.now) }
{
    out.push_str("{\"add\":")?;
    push_bool(out, add)?;
    out.push_str(",\"part\":")?;
    push_part(out, fixup.part)?;
    out.push_str(",\"sites\":")?;
    push_offsets(out, sites)?;
    out.push_str(",\"target\":")?;
    push_target(out, file, tables, fixup.target)?;
    out.push_str("}")
}

/// Adds a record to a text. The vector is room for its sites.
#[tactic(auto, unfolding(json::specs::Print::escape_byte))]
fn push_relocation(
    out: &mut String,
    file: &[u8],
    tables: &Module,
    bytes: &[u8],
    relocation: &Record,
    sites: &mut Vec<u16>,
) -> Result<(), AllocError>
    ensures { AddsJson result (string_bytes out.old) (string_bytes out.new) (relocation_json file.now tables.now bytes.now relocation.now) }
{
    sites_of(bytes, relocation, sites)?;
    match relocation {
        Record::Stored(fixup) => push_fixup(out, file, tables, sites, false, fixup),
        Record::Added(fixup) => push_fixup(out, file, tables, sites, true, fixup),
        Record::System => out.push_str("{\"system\":true}"),
    }
}

/// Sends the records of the segment that was checked last.
fn send_relocations<W: Write>(
    alloc: Global,
    writer: &mut W,
    file: &[u8],
    tables: &Module,
    scratch: &Scratch,
) -> io::Result<()>
    ensures { SendsJson result (W.contents writer.old) (W.contents writer.new) (list (map (relocation_json file.now tables.now scratch.now.held.bytes) scratch.now.held.records)) }
{
    writer.write_all(b"[")?;
    let mut line = String::new(alloc);
    let mut sites = Vec::new(alloc);
    let mut later = false;
    for relocation in scratch.records() {
        line.clear();
        line.push_str(comma(later))?;
        push_relocation(
            &mut line,
            file,
            tables,
            scratch.bytes(),
            relocation,
            &mut sites,
        )?;
        writer.write_all(line.as_bytes())?;
        later = true;
    }
    writer.write_all(b"]")
}

/// A segment with no records, and their first fault.
fn segment_value(
    alloc: Global,
    number: usize,
    segment: &Segment,
    fault: Value,
) -> Result<Value, AllocError>
    ensures { (d : Data) → view fault ≡ d → IsPlain d → Makes result (segment_object number segment.now d []) }
{
    let records = Value::Array(Vec::new(alloc));
    json!(in alloc; {
        "fault": fault,
        "flags": segment.flags.0,
        "length": segment.len,
        "number": number,
        "object": segment.size,
        "place": segment.place,
        "relocations": records
    })
}

/// Adds a segment that is sound to a text, up to its records.
fn push_front(out: &mut String, number: usize, segment: &Segment) -> Result<(), AllocError>
    ensures text { Adds result (string_bytes out.old) (string_bytes out.new) (segment_front number segment.now) }
    ensures plain { (records : List Data) → ArePlain (items_of records) → IsPlain (segment_object number segment.now null records) }
{
    let (flags, len, size, place) = (segment.flags.0, segment.len, segment.size, segment.place);
    write!(
        out,
        "{{\"fault\":null,\"flags\":{flags},\"length\":{len},\"number\":{number},"
    )?;
    write!(out, "\"object\":{size},\"place\":{place},\"relocations\":")
}

/// Sends a segment by its number, from 1, with its records, or with their first fault.
fn send_segment<W: Write>(
    alloc: Global,
    writer: &mut W,
    later: bool,
    file: &[u8],
    store: &mut MemStore,
    name: &[u8],
    tables: &Module,
    number: usize,
    scratch: &mut Scratch,
) -> io::Result<bool>
    requires first { 0 < number }
    requires last { number ≤ length tables.now.segments }
    ensures same { store.new ≡ store.old }
    ensures value { (s : Segment) → IsOpened store.old name.now file.now tables.now
        → slice_get tables.now.segments (number - 1) ≡ Some s
        → IfOk result (λ now. PassesOn (W.contents writer.old) (W.contents writer.new) later now (segment_json file.now tables.now number s)) }
{
    let segment = tables.segment(number);
    match check(store, name, tables, number, scratch) {
        Ok(()) => {
            let mut front = String::from_str(alloc, comma(later))?;
            push_front(&mut front, number, &segment)?;
            writer.write_all(front.as_bytes())?;
            send_relocations(alloc, writer, file, tables, scratch)?;
            writer.write_all(b"}")?;
            Ok(true)
        }
        Err(fault) => {
            let word = word_value(alloc, unsound_word(fault))?;
            let segment = segment_value(alloc, number, &segment, word)?;
            send_value(alloc, writer, later, &segment)
        }
    }
}

/// Sends all segments.
pub fn send_segments<W: Write>(
    alloc: Global,
    writer: &mut W,
    file: &[u8],
    store: &mut MemStore,
    name: &[u8],
    tables: &Module,
    scratch: &mut Scratch,
) -> io::Result<()>
    ensures same { store.new ≡ store.old }
    ensures value { IsOpened store.old name.now file.now tables.now
        → SendsJson result (W.contents writer.old) (W.contents writer.new) (list (numbered (segment_json file.now tables.now) 1 tables.now.segments)) }
{
    writer.write_all(b"[")?;
    let mut later = false;
    for i in 0..tables.segment_count() {
        later = send_segment(
            alloc,
            writer,
            later,
            file,
            store,
            name,
            tables,
            i + 1,
            scratch,
        )?;
    }
    writer.write_all(b"]")
}
