//! Relocation records.
ghost use Rattle.std.specs.Prelude.{◌≡◌, ℕ, ◌+◌, ◌<◌, ◌==◌, length, bit_and, if◌then◌else◌};
ghost use Rattle.w16_reloc.specs.declared.record.Record.TheVariants.{Stored, Added};
ghost use Rattle.w16_reloc.specs.Records.{part_of, internal_of, imported_of, target_at, record_at};

use crate::chain::word;
use crate::flags::RelocationType;
use bitflags::Flags;

/// What of its target a record writes.
#[derive(Debug, Clone, Copy, PartialEq, Eq)]
pub enum Part {
    /// The low byte of the offset.
    LowByte,
    /// The selector.
    Selector,
    /// The offset, and then the selector.
    Pointer,
    /// The offset.
    Offset,
}

/// Where a record points.
#[derive(Debug, Clone, Copy, PartialEq, Eq)]
pub enum Target {
    /// An offset in a segment of the module, by its number from 1.
    Internal { segment: u8, offset: u16 },
    /// An ordinal of the module's own entry table.
    Entry { ordinal: u16 },
    /// An ordinal of a module that is referred to, by its number from 1.
    ByOrdinal { reference: u16, ordinal: u16 },
    /// A name of such a module's entries, by its offset in the imported names.
    ByName { reference: u16, name: u16 },
}

/// A part of a target, written from an offset of the segment on.
#[derive(Debug, Clone, Copy, PartialEq, Eq)]
pub struct Fixup {
    /// What is written.
    pub part: Part,
    /// The record's offset: the first site of a chain, or the one site.
    pub offset: u16,
    /// Where it points.
    pub target: Target,
}

/// A relocation record.
#[derive(Debug, Clone, Copy, PartialEq, Eq)]
pub enum Record {
    /// The value stands at each site of a chain, which FFFF ends.
    Stored(Fixup),
    /// The value is added to what stands at one site.
    Added(Fixup),
    /// A fixup of the system's, which isn't applied.
    System,
}

/// The part that an address type stands for. Its top bit doesn't count.
fn part_of(kind: u8) -> Option<Part>
    ensures { result ≡ part_of (bit_and kind 127) }
{
    match kind & 0x7f {
        0 => Some(Part::LowByte),
        2 => Some(Part::Selector),
        3 => Some(Part::Pointer),
        5 => Some(Part::Offset),
        _ => None,
    }
}

/// A target in the module itself, which has so many segments.
fn internal(segments: usize, segment: u8, word: u16) -> Option<Target>
    ensures { result ≡ internal_of segments segment word }
{
    match segment {
        0xff => Some(Target::Entry { ordinal: word }),
        0 => None,
        _ if usize::from(segment) > segments => None,
        _ => Some(Target::Internal {
            segment,
            offset: word,
        }),
    }
}

/// A target in one of so many modules that are referred to.
fn imported(references: usize, reference: u16, word: u16, by_ordinal: bool) -> Option<Target>
    ensures { result ≡ imported_of references reference word by_ordinal }
{
    if reference == 0 || usize::from(reference) > references {
        return None;
    }
    if by_ordinal {
        Some(Target::ByOrdinal {
            reference,
            ordinal: word,
        })
    } else {
        Some(Target::ByName {
            reference,
            name: word,
        })
    }
}

#[tactic(auto, unfolding(crate::specs::Records::target_at))]
fn target_at(segments: usize, references: usize, bytes: &[u8], at: usize) -> Option<Target>
    requires { at + 7 < length bytes.now }
    ensures { result ≡ target_at segments references bytes.now at }
{
    let kind = RelocationType(bytes[at + 1])
        .intersection(RelocationType::TARGET)
        .0;
    if kind == 0 {
        internal(segments, bytes[at + 4], word(bytes, at + 6))
    } else {
        imported(
            references,
            word(bytes, at + 4),
            word(bytes, at + 6),
            kind == 1,
        )
    }
}

/// The record of a fixup, by its relocation type.
fn of_fixup(kind: RelocationType, fixup: Fixup) -> Record
    ensures { result ≡ (if bit_and kind.0 4 == 0 then Stored fixup else Added fixup) }
{
    if kind.intersects(RelocationType::ADDITIVE) {
        Record::Added(fixup)
    } else {
        Record::Stored(fixup)
    }
}

/// The record at an index, in a module of so many segments and references; none where it isn't well formed. The text of an import by name isn't
/// asked for.
#[tactic(auto, unfolding(crate::specs::Records::record_at))]
pub fn record_at(segments: usize, references: usize, bytes: &[u8], at: usize) -> Option<Record>
    requires { at + 7 < length bytes.now }
    ensures { result ≡ record_at segments references bytes.now at }
{
    let kind = RelocationType(bytes[at + 1]);
    if kind.contains(RelocationType::TARGET) {
        return Some(Record::System);
    }
    let part = part_of(bytes[at])?;
    let target = target_at(segments, references, bytes, at)?;
    let fixup = Fixup {
        part,
        offset: word(bytes, at + 2),
        target,
    };
    Some(of_fixup(kind, fixup))
}
