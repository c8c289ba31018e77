//! The lines of resources.
ghost use Rattle.std.specs.Prelude.{◌≡◌, Some, string_bytes};
ghost use Rattle.w16_ne.specs.Resources.{Label, Entry, label_of, entry_of};
ghost use Rattle.w16_ne.specs.Modules.{listed_resources, resource_at};
ghost use Rattle.w16_show.specs.Numbered.{numbered};
ghost use Rattle.w16_show.specs.Words.{Adds, Sends};
ghost use Rattle.w16_show.specs.Text.{label_text, kind_text, labels_text, place_text, resource_words, resource_text};

use crate::bytes::{push_escaped, push_flag};
use crate::words::kind_word;
use std::alloc::AllocError;
use std::io::{self, Write};
use w16_ne::{Module, Resource, ResourceName};

/// Adds a type or an id to a text: its number, or its text in quotes.
#[tactic(auto, unfolding(crate::specs::Text::label_text))]
pub fn push_label(out: &mut String, label: ResourceName<'_>) -> Result<(), AllocError>
    ensures { Adds result (string_bytes out.old) (string_bytes out.new) (label_text (label_of label.entry)) }
{
    match label {
        ResourceName::Number(n) => write!(out, "#{n}"),
        ResourceName::Text(text) => {
            out.push_str("\"")?;
            push_escaped(out, text)?;
            out.push_str("\"")
        }
    }
}

/// Adds a type to a text: the manual's name for it, where it has one.
#[tactic(auto, unfolding(crate::specs::Text::kind_text))]
pub fn push_kind(out: &mut String, kind: ResourceName<'_>) -> Result<(), AllocError>
    ensures { Adds result (string_bytes out.old) (string_bytes out.new) (kind_text (label_of kind.entry)) }
{
    if let ResourceName::Number(n) = kind
        && let Some(word) = kind_word(n)
    {
        return out.push_str(word);
    }
    push_label(out, kind)
}

/// Adds the words of a resource's flags to a text.
#[tactic(auto, unfolding(crate::specs::Text::resource_words))]
fn push_words(out: &mut String, flags: u16) -> Result<(), AllocError>
    ensures { Adds result (string_bytes out.old) (string_bytes out.new) (resource_words flags) }
{
    push_flag(out, flags, 0x0010, "moveable")?;
    push_flag(out, flags, 0x0020, "pure")?;
    push_flag(out, flags, 0x0040, "preload")?;
    push_flag(out, flags, 0x1000, "discardable")
}

/// Adds a resource's number, its type and its id to a text.
#[tactic(auto, unfolding(crate::specs::Text::labels_text))]
fn push_labels(
    out: &mut String,
    number: usize,
    kind: ResourceName<'_>,
    id: ResourceName<'_>,
) -> Result<(), AllocError>
    ensures { Adds result (string_bytes out.old) (string_bytes out.new) (labels_text number (label_of kind.entry) (label_of id.entry)) }
{
    write!(out, "resource {number}: type ")?;
    push_kind(out, kind)?;
    out.push_str(", id ")?;
    push_label(out, id)
}

/// Adds to a text where a resource lies, and its flags.
#[tactic(auto, unfolding(crate::specs::Text::place_text))]
fn push_place(out: &mut String, place: u32, len: u32, flags: u16) -> Result<(), AllocError>
    ensures { (r : Entry) → r.place ≡ place → r.len ≡ len → r.flags ≡ flags → Adds result (string_bytes out.old) (string_bytes out.new) (place_text r) }
{
    write!(
        out,
        ", place {place:08x}, length {len:08x}, flags {flags:04x}"
    )
}

/// Adds the line of a resource to a text.
#[tactic(auto, unfolding(crate::specs::Text::resource_text))]
fn push_resource(
    out: &mut String,
    number: usize,
    kind: ResourceName<'_>,
    resource: Resource<'_>,
) -> Result<(), AllocError>
    ensures { Adds result (string_bytes out.old) (string_bytes out.new) (resource_text number (label_of kind.entry, entry_of resource.entry)) }
{
    push_labels(out, number, kind, resource.id)?;
    push_place(out, resource.place, resource.len, resource.flags.0)?;
    push_words(out, resource.flags.0)?;
    out.push_str("\n")
}

/// Adds to a text the line of the resource of a number, from 1.
fn push_numbered(out: &mut String, tables: &Module, number: usize) -> Result<(), AllocError>
    ensures { (r : Label × Entry) → resource_at tables.now.resources number ≡ Some r → Adds result (string_bytes out.old) (string_bytes out.new) (resource_text number r) }
{
    match tables.resource(number) {
        Some((kind, resource)) => push_resource(out, number, kind, resource),
        None => Ok(()),
    }
}

/// Sends the lines of all resources. The text is room for one.
pub fn send_resources<W: Write>(
    writer: &mut W,
    line: &mut String,
    tables: &Module,
) -> io::Result<()>
    ensures { Sends result (W.contents writer.old) (W.contents writer.new) (numbered resource_text 1 (listed_resources tables.now.resources)) }
{
    for i in 0..tables.resource_count() {
        line.clear();
        push_numbered(line, tables, i + 1)?;
        writer.write_all(line.as_bytes())?;
    }
    Ok(())
}
