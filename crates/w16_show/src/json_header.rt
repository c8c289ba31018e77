//! The header as JSON.
ghost use Rattle.std.specs.Prelude.{slice_index};
ghost use Rattle.w16_show.specs.Plain.{Makes};
ghost use Rattle.w16_show.specs.Json.{pair, sizes_json, start_json, fields_json, header_json};

use crate::bytes::{byte, word};
use crate::header::shift;
use crate::json_values::text_value;
use serde_json::{Value, json};
use std::alloc::{AllocError, Global};
use w16_ne::Module;

/// Two numbers.
fn pair_value(alloc: Global, a: u16, b: u16) -> Result<Value, AllocError>
    ensures { Makes result (pair a b) }
{
    json!(in alloc; [a, b])
}

/// Two bytes of a header, by their offsets.
fn bytes_value(alloc: Global, header: &[u8], a: usize, b: usize) -> Result<Value, AllocError>
    ensures { Makes result (pair (slice_index header.now a) (slice_index header.now b)) }
{
    pair_value(
        alloc,
        u16::from(byte(header, a)),
        u16::from(byte(header, b)),
    )
}

/// The sizes that a header asks for.
#[tactic(auto, unfolding(crate::specs::Json::sizes_json))]
fn sizes_value(alloc: Global, header: &[u8]) -> Result<Value, AllocError>
    ensures { Makes result (sizes_json header.now) }
{
    let (segment, heap, stack) = (word(header, 0x0e), word(header, 0x10), word(header, 0x12));
    json!(in alloc; {"automatic_data": segment, "heap": heap, "stack": stack})
}

/// Where the module of a header begins to run.
#[tactic(auto, unfolding(crate::specs::Json::start_json))]
fn start_value(alloc: Global, header: &[u8]) -> Result<Value, AllocError>
    ensures { Makes result (start_json header.now) }
{
    let entry = pair_value(alloc, word(header, 0x16), word(header, 0x14))?;
    let top = pair_value(alloc, word(header, 0x1a), word(header, 0x18))?;
    json!(in alloc; {"entry": entry, "stack_top": top})
}

/// The fields of a header.
#[tactic(auto, unfolding(crate::specs::Json::fields_json))]
fn fields_value(alloc: Global, header: &[u8]) -> Result<Value, AllocError>
    ensures { Makes result (fields_json header.now) }
{
    let linker = bytes_value(alloc, header, 2, 3)?;
    let sizes = sizes_value(alloc, header)?;
    let start = start_value(alloc, header)?;
    let version = bytes_value(alloc, header, 0x3f, 0x3e)?;
    let (flags, shift, target) = (word(header, 0x0c), shift(header), byte(header, 0x36));
    json!(in alloc; {
        "flags": flags,
        "linker": linker,
        "shift": shift,
        "sizes": sizes,
        "start": start,
        "target": target,
        "version": version
    })
}

/// What a module is, and the fields of its header.
#[tactic(auto, unfolding(crate::specs::Json::header_json))]
pub fn header_value(alloc: Global, tables: &Module) -> Result<Value, AllocError>
    ensures { Makes result (header_json tables.now) }
{
    let description = text_value(alloc, tables.description())?;
    let fields = fields_value(alloc, tables.header())?;
    let name = text_value(alloc, tables.name())?;
    let (library, place) = (tables.library(), tables.place());
    json!(in alloc; {
        "description": description,
        "fields": fields,
        "library": library,
        "name": name,
        "place": place
    })
}
