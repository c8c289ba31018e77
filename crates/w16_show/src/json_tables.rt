//! Entries, names, references and resources as JSON.
ghost use Rattle.std.specs.Prelude.{◌≡◌, Some, IfOk};
ghost use Rattle.w16_ne.specs.Resources.{Label, label_of, entry_of};
ghost use Rattle.w16_ne.specs.Resources as resources;
ghost use Rattle.w16_ne.specs.Modules.{listed_resources, resource_at};
ghost use Rattle.w16_show.specs.Numbered.{numbered};
ghost use Rattle.w16_show.specs.Plain.{Makes, PassesOn, SendsJson};
ghost use Rattle.w16_show.specs.Json.{list, entry_object, entry_json, name_object, name_json, reference_json, resource_object, resource_json};

use crate::json_values::{kind_value, label_value, send_value, text_value};
use serde_json::{Value, json};
use std::alloc::{AllocError, Global};
use std::io::{self, Write};
use w16_ne::{Entry, Module, Resource, ResourceName};

/// An ordinal that has an entry, and where it leads.
fn entry_value(alloc: Global, ordinal: u16, entry: Entry) -> Result<Value, AllocError>
    ensures { Makes result (entry_object ordinal entry) }
{
    match entry {
        Entry::InSegment { segment, offset } => {
            json!(in alloc; {"offset": offset, "ordinal": ordinal, "segment": segment})
        }
        Entry::Constant(value) => json!(in alloc; {"constant": value, "ordinal": ordinal}),
    }
}

/// Sends an ordinal's entry, where it has one, and answers whether something stands before what comes next.
fn send_entry<W: Write>(
    alloc: Global,
    writer: &mut W,
    later: bool,
    ordinal: u16,
    entry: Option<Entry>,
) -> io::Result<bool>
    ensures { IfOk result (λ now. PassesOn (W.contents writer.old) (W.contents writer.new) later now (entry_json ordinal entry)) }
{
    match entry {
        None => Ok(later),
        Some(entry) => send_value(alloc, writer, later, &entry_value(alloc, ordinal, entry)?),
    }
}

/// Sends all entries.
pub fn send_entries<W: Write>(alloc: Global, writer: &mut W, tables: &Module) -> io::Result<()>
    ensures { SendsJson result (W.contents writer.old) (W.contents writer.new) (list (numbered entry_json 1 tables.now.entries)) }
{
    writer.write_all(b"[")?;
    let mut later = false;
    for i in 0..tables.entry_count() as u16 {
        later = send_entry(alloc, writer, later, i + 1, tables.entry(i + 1))?;
    }
    writer.write_all(b"]")
}

/// A name of an entry, by its number from 0, of a module with so many resident ones.
fn name_value(
    alloc: Global,
    resident: usize,
    i: usize,
    bytes: &[u8],
    ordinal: u16,
) -> Result<Value, AllocError>
    ensures { Makes result (name_object resident i (bytes.now, ordinal)) }
{
    let name = text_value(alloc, bytes)?;
    let is_resident = i < resident;
    json!(in alloc; {"name": name, "ordinal": ordinal, "resident": is_resident})
}

/// Sends all names of entries.
pub fn send_names<W: Write>(alloc: Global, writer: &mut W, tables: &Module) -> io::Result<()>
    ensures { SendsJson result (W.contents writer.old) (W.contents writer.new) (list (numbered (name_json tables.now.resident) 0 tables.now.names)) }
{
    writer.write_all(b"[")?;
    let mut later = false;
    for i in 0..tables.name_count() {
        let (bytes, ordinal) = tables.entry_name(i);
        let name = name_value(alloc, tables.resident_count(), i, bytes, ordinal)?;
        later = send_value(alloc, writer, later, &name)?;
    }
    writer.write_all(b"]")
}

/// Sends all modules that are referred to.
pub fn send_references<W: Write>(alloc: Global, writer: &mut W, tables: &Module) -> io::Result<()>
    ensures { SendsJson result (W.contents writer.old) (W.contents writer.new) (list (numbered reference_json 1 tables.now.references)) }
{
    writer.write_all(b"[")?;
    let mut later = false;
    for i in 0..tables.reference_count() {
        let name = text_value(alloc, tables.reference(i + 1))?;
        later = send_value(alloc, writer, later, &name)?;
    }
    writer.write_all(b"]")
}

/// A resource with its type.
fn resource_value(
    alloc: Global,
    kind: ResourceName<'_>,
    resource: Resource<'_>,
) -> Result<Value, AllocError>
    ensures { Makes result (resource_object (label_of kind.entry, entry_of resource.entry)) }
{
    let id = label_value(alloc, resource.id)?;
    let label = label_value(alloc, kind)?;
    let name = kind_value(alloc, kind)?;
    json!(in alloc; {
        "flags": resource.flags.0,
        "id": id,
        "length": resource.len,
        "place": resource.place,
        "type": label,
        "type_name": name
    })
}

/// The resource of a number, from 1.
fn numbered_value(alloc: Global, tables: &Module, number: usize) -> Result<Value, AllocError>
    ensures { (r : Label × resources.Entry) → resource_at tables.now.resources number ≡ Some r → Makes result (resource_object r) }
{
    match tables.resource(number) {
        Some((kind, resource)) => resource_value(alloc, kind, resource),
        None => Ok(Value::Null),
    }
}

/// Sends all resources.
pub fn send_resources<W: Write>(alloc: Global, writer: &mut W, tables: &Module) -> io::Result<()>
    ensures { SendsJson result (W.contents writer.old) (W.contents writer.new) (list (numbered resource_json 1 (listed_resources tables.now.resources))) }
{
    writer.write_all(b"[")?;
    let mut later = false;
    for i in 0..tables.resource_count() {
        let resource = numbered_value(alloc, tables, i + 1)?;
        later = send_value(alloc, writer, later, &resource)?;
    }
    writer.write_all(b"]")
}
