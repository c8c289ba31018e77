//! The lines of entries and of their names.
ghost use Rattle.std.specs.Prelude.{◌≡◌, Some, length, string_bytes};
ghost use Rattle.w16_ne.specs.declared.entry_table.Entry.TheVariants.{Constant};
ghost use Rattle.w16_show.specs.Numbered.{numbered};
ghost use Rattle.w16_show.specs.Words.{Adds};
ghost use Rattle.w16_show.specs.Text.{entry_text, standing_text, name_text};

use crate::bytes::push_escaped;
use std::alloc::AllocError;
use w16_ne::{Entry, Module};

/// Adds the line of a constant to a text.
#[tactic(auto, unfolding(crate::specs::Text::entry_text))]
fn push_constant(out: &mut String, ordinal: u16, value: u16) -> Result<(), AllocError>
    ensures { Adds result (string_bytes out.old) (string_bytes out.new) (entry_text ordinal (Some (Constant value))) }
{
    writeln!(out, "entry {ordinal}: constant {value:04x}")
}

/// Adds the line of an ordinal to a text, where it has an entry.
#[tactic(auto, unfolding(crate::specs::Text::entry_text))]
fn push_entry(out: &mut String, ordinal: u16, entry: Option<Entry>) -> Result<(), AllocError>
    ensures { Adds result (string_bytes out.old) (string_bytes out.new) (entry_text ordinal entry) }
{
    match entry {
        None => Ok(()),
        Some(Entry::InSegment { segment, offset }) => {
            writeln!(out, "entry {ordinal}: {segment}:{offset:04x}")
        }
        Some(Entry::Constant(value)) => push_constant(out, ordinal, value),
    }
}

/// Adds the lines of all entries to a text.
pub fn push_entries(out: &mut String, tables: &Module) -> Result<(), AllocError>
    ensures { Adds result (string_bytes out.old) (string_bytes out.new) (numbered entry_text 1 tables.now.entries) }
{
    for i in 0..tables.entry_count() as u16 {
        push_entry(out, i + 1, tables.entry(i + 1))?;
    }
    Ok(())
}

/// Adds how a name stands in the file to a text.
#[tactic(auto, unfolding(crate::specs::Text::standing_text))]
fn push_standing(out: &mut String, resident: bool) -> Result<(), AllocError>
    ensures { Adds result (string_bytes out.old) (string_bytes out.new) (standing_text resident) }
{
    if resident {
        out.push_str("resident name ")
    } else {
        out.push_str("nonresident name ")
    }
}

/// Adds to a text the line of a name, by its number from 0: of a module with so many resident ones.
#[tactic(auto, unfolding(crate::specs::Text::name_text))]
fn push_name(
    out: &mut String,
    resident: usize,
    i: usize,
    text: &[u8],
    ordinal: u16,
) -> Result<(), AllocError>
    ensures { Adds result (string_bytes out.old) (string_bytes out.new) (name_text resident i (text.now, ordinal)) }
{
    push_standing(out, i < resident)?;
    push_escaped(out, text)?;
    writeln!(out, ": entry {ordinal}")
}

/// Adds the lines of all names of entries to a text.
pub fn push_names(out: &mut String, tables: &Module) -> Result<(), AllocError>
    ensures { Adds result (string_bytes out.old) (string_bytes out.new) (numbered (name_text tables.now.resident) 0 tables.now.names) }
{
    for i in 0..tables.name_count() {
        let (text, ordinal) = tables.entry_name(i);
        push_name(out, tables.resident_count(), i, text, ordinal)?;
    }
    Ok(())
}
