//! The words for parts of relocation records, for types of resources and for faults.
ghost use Rattle.std.specs.Prelude.{◌≡◌, option_map, string_bytes};
ghost use Rattle.w16_show.specs.Words.{Adds, fault_text, file_part_text, kind_name, part_text, unsound_text};

use std::alloc::AllocError;
use w16_ne::{FilePart, NeFault};
use w16_reloc::{Part, RelocFault};

/// What of its target a relocation record writes.
#[tactic(auto, unfolding(crate::specs::Words::part_text))]
pub fn part_word(part: Part) -> &'static str
    ensures { result.now ≡ part_text part }
{
    match part {
        Part::LowByte => "byte",
        Part::Selector => "selector",
        Part::Pointer => "pointer",
        Part::Offset => "offset",
    }
}

/// The manual's name for a type of resources; none where it has none.
pub fn kind_word(kind: u16) -> Option<&'static str>
    ensures { option_map (λ name. name.now) result ≡ kind_name kind }
{
    match kind {
        1 => Some("CURSOR"),
        2 => Some("BITMAP"),
        3 => Some("ICON"),
        4 => Some("MENU"),
        5 => Some("DIALOG"),
        6 => Some("STRING"),
        7 => Some("FONTDIR"),
        8 => Some("FONT"),
        9 => Some("ACCELERATOR"),
        10 => Some("RCDATA"),
        12 => Some("GROUP_CURSOR"),
        14 => Some("GROUP_ICON"),
        16 => Some("VERSION"),
        _ => None,
    }
}

/// What isn't sound of relocation records.
#[tactic(auto, unfolding(crate::specs::Words::unsound_text))]
pub fn unsound_word(fault: RelocFault) -> &'static str
    ensures { result.now ≡ unsound_text fault }
{
    match fault {
        RelocFault::BadRecord => "bad record",
        RelocFault::SiteOutside => "site outside the data",
        RelocFault::Overlap => "sites overlap",
        RelocFault::Store(_) => "not read",
    }
}

/// A part of a file.
#[tactic(auto, unfolding(crate::specs::Words::file_part_text))]
pub fn file_part_word(part: FilePart) -> &'static str
    ensures { result.now ≡ file_part_text part }
{
    match part {
        FilePart::OldHeader => "old header",
        FilePart::Header => "header",
        FilePart::SegmentTable => "segments",
        FilePart::ResidentNames => "resident names",
        FilePart::References => "references",
        FilePart::EntryTable => "entries",
        FilePart::NonresidentNames => "nonresident names",
        FilePart::ResourceTable => "resources",
    }
}

/// Adds a file's first fault to a text.
#[tactic(auto, unfolding(crate::specs::Words::fault_text))]
pub fn push_fault(out: &mut String, fault: NeFault) -> Result<(), AllocError>
    ensures { Adds result (string_bytes out.old) (string_bytes out.new) (fault_text fault) }
{
    let word = match fault {
        NeFault::NotMz => "not a program",
        NeFault::NotNe => "not a segmented program",
        NeFault::Target(system) => return write!(out, "for target system {system}"),
        NeFault::Unsupported => "unsupported",
        NeFault::Truncated => "truncated",
        NeFault::BadTable => "bad table",
        NeFault::Store(_) => "not read",
        NeFault::OutOfMemory => "out of memory",
    };
    out.push_str(word)
}
