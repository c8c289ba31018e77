//! Resources that are taken out of a module file.
ghost use Rattle.std.specs.Prelude.{◌≡◌, ◌<◌, ◌≤◌, ◌^◌, Some, Ok, Err, IfOk, OnOk, length, option_map, string_bytes};
ghost use Rattle.std.specs.List.{flat_map, sum_by};
ghost use Rattle.std.specs.Result.{result_ok};
ghost use Rattle.w16_ne.specs.Modules.{listed_resources, resource_at, tables_at};
ghost use Rattle.w16_ne.specs.Resources.{Label, Entry, label_of, resource_count};
ghost use Rattle.w16_show.specs.Words.{Adds};
ghost use Rattle.w16_show.specs.Extract.{name_byte, label_part, kind_part, file_name, resource_bytes};

use crate::open::{FILE, module_of, store_of};
use crate::words::kind_word;
use std::alloc::{AllocError, Global};
use std::marker::Model;
use w16_ne::{Module, Resource, ResourceName};

/// The resources of a module file, to be taken out.
#[derive(Drop)]
pub struct Resources {
    tables: Module,
}

impl Model for Resources {
    ghost use Rattle.w16_ne.specs.Modules.{Tables};

    ghost Value = { Tables };

    ghost view = { λ s. s.tables };
}

/// Adds a byte to a file's name.
fn push_byte(out: &mut String, byte: u8) -> Result<(), AllocError>
    ensures { Adds result (string_bytes out.old) (string_bytes out.new) (name_byte byte) }
{
    match byte {
        b'0'..=b'9' | b'A'..=b'Z' | b'a'..=b'z' | b'-' | b'_' => out.push(char::from(byte)),
        _ => write!(out, "%{byte:02x}"),
    }
}

/// Adds a text to a file's name.
fn push_text(out: &mut String, text: &[u8]) -> Result<(), AllocError>
    ensures { Adds result (string_bytes out.old) (string_bytes out.new) (flat_map name_byte text.now) }
{
    for byte in text {
        push_byte(out, *byte)?;
    }
    Ok(())
}

/// Adds a type or an id to a file's name.
fn push_label(out: &mut String, label: ResourceName<'_>) -> Result<(), AllocError>
    ensures { Adds result (string_bytes out.old) (string_bytes out.new) (label_part (label_of label.entry)) }
{
    match label {
        ResourceName::Number(n) => write!(out, "{n}"),
        ResourceName::Text(text) => {
            out.push_str("_")?;
            push_text(out, text)
        }
    }
}

/// Adds a type to a file's name: the manual's name for it, where it has one.
fn push_kind(out: &mut String, kind: ResourceName<'_>) -> Result<(), AllocError>
    ensures { Adds result (string_bytes out.old) (string_bytes out.new) (kind_part (label_of kind.entry)) }
{
    if let ResourceName::Number(n) = kind
        && let Some(word) = kind_word(n)
    {
        return out.push_str(word);
    }
    push_label(out, kind)
}

/// The bytes of a resource in a file.
fn bytes_of(alloc: Global, file: &[u8], place: usize, len: usize) -> Result<Vec<u8>, AllocError>
    ensures { (r : Entry) → r.place ≡ place → r.len ≡ len → IfOk result (λ bytes. bytes.items ≡ resource_bytes file.now r) }
{
    let from = place.min(file.len());
    let there = &file[from..];
    let mut bytes = Vec::from_slice(alloc, &there[..len.min(there.len())])?;
    bytes.resize(len, 0)?;
    Ok(bytes)
}

impl Resources {
    /// The resources of a module file; none where its module isn't accepted.
    pub fn of(alloc: Global, file: &[u8]) -> Result<Option<Resources>, AllocError>
        ensures { IfOk result (λ found. found ≡ result_ok (tables_at (Some file.now))) }
    {
        let mut store = store_of(alloc, file)?;
        match module_of(alloc, &mut store, FILE)? {
            Ok(tables) => Ok(Some(Resources { tables })),
            Err(_) => Ok(None),
        }
    }

    /// How many there are.
    pub fn len(&self) -> usize
        ensures count { result ≡ resource_count self.now.resources }
        ensures few { result ≤ 65535 }
    {
        self.tables.resource_count()
    }

    /// How many bytes one has, by its number from 1; 0 where there are fewer.
    fn size(&self, number: usize) -> u32
        ensures len { (r : Label × Entry) → resource_at self.now.resources number ≡ Some r → result ≡ r.1.len }
        ensures small { result < 2 ^ 32 }
    {
        match self.tables.resource(number) {
            None => 0,
            Some((_, resource)) => resource.len,
        }
    }

    /// How many bytes all of them have together.
    pub fn total(&self) -> u64
        ensures { result ≡ sum_by (λ r. r.1.len) (listed_resources self.now.resources) }
    {
        let mut total = 0;
        for i in 0..self.len() {
            total += self.size(i + 1) as u64;
        }
        total
    }

    /// The name of the file for a resource, by its number from 1; none where there are fewer. No two resources have one name.
    pub fn file_name(&self, alloc: Global, number: usize) -> Result<Option<String>, AllocError>
        ensures { IfOk result (λ name. option_map string_bytes name ≡ option_map (file_name number) (resource_at self.now.resources number)) }
    {
        let Some((kind, resource)) = self.tables.resource(number) else {
            return Ok(None);
        };
        let mut name = String::new(alloc);
        write!(name, "{number}.")?;
        push_kind(&mut name, kind)?;
        name.push_str(".")?;
        push_label(&mut name, resource.id)?;
        Ok(Some(name))
    }

    /// The bytes of a resource, by its number from 1, in the file that they are of; none where there are fewer.
    pub fn bytes(
        &self,
        alloc: Global,
        file: &[u8],
        number: usize,
    ) -> Result<Option<Vec<u8>>, AllocError>
        ensures { IfOk result (λ bytes. option_map (λ b. b.items) bytes ≡ option_map (λ r. resource_bytes file.now r.1) (resource_at self.now.resources number)) }
    {
        match self.tables.resource(number) {
            None => Ok(None),
            Some((_, resource)) => {
                let (place, len) = (resource.place as usize, resource.len as usize);
                Ok(Some(bytes_of(alloc, file, place, len)?))
            }
        }
    }
}
