//! The lines of the modules that a module refers to.
ghost use Rattle.std.specs.Prelude.{◌≡◌, string_bytes};
ghost use Rattle.w16_show.specs.Numbered.{numbered};
ghost use Rattle.w16_show.specs.Words.{Adds, Sends};
ghost use Rattle.w16_show.specs.Text.{reference_text};

use crate::bytes::push_escaped;
use std::alloc::AllocError;
use std::io::{self, Write};
use w16_ne::Module;

/// Adds the line of a reference to a text.
#[tactic(auto, unfolding(crate::specs::Text::reference_text))]
fn push_reference(out: &mut String, number: usize, name: &[u8]) -> Result<(), AllocError>
    ensures { Adds result (string_bytes out.old) (string_bytes out.new) (reference_text number name.now) }
{
    write!(out, "reference {number}: ")?;
    push_escaped(out, name)?;
    out.push_str("\n")
}

/// Sends the lines of all references. The text is room for one.
pub fn send_references<W: Write>(
    writer: &mut W,
    line: &mut String,
    tables: &Module,
) -> io::Result<()>
    ensures { Sends result (W.contents writer.old) (W.contents writer.new) (numbered reference_text 1 tables.now.references) }
{
    for i in 0..tables.reference_count() {
        line.clear();
        push_reference(line, i + 1, tables.reference(i + 1))?;
        writer.write_all(line.as_bytes())?;
    }
    Ok(())
}
