//! The records of a segment, checked in their order.
ghost use Rattle.std.specs.Prelude.{◌≡◌, ◌≢◌, ℕ, ◌<◌, ◌≤◌, ◌+◌, ◌*◌, bit_and, length, [], Ok, Err, slice_index, vec_capacity, IfErr, IsFalse, MatchResult};
ghost use Rattle.w16_reloc.specs.Records.{name_in, text_of, record_at};
ghost use Rattle.w16_reloc.specs.Check.{AreMarks, IsOfRecords, formed, check_from};
ghost use Rattle.w16_reloc.specs.Segments.{offer_in};

use crate::fault::RelocFault;
use crate::flags::RelocationType;
use crate::reading::has_text;
use crate::record::{Record, Target, record_at};
use crate::sites::take_sites;
use bitflags::Flags;
use std::alloc::Allocator;

/// What a module offers to its records.
#[derive(Clone, Copy)]
pub struct Offered<'a> {
    /// How many segments it has.
    pub segments: usize,
    /// How many modules it refers to.
    pub references: usize,
    /// The bytes of its file from the imported names on, as far as a name can reach.
    pub texts: &'a [u8],
}

fn text_of(target: &Target) -> Option<u16>
    ensures { result ≡ text_of target.now }
{
    match target {
        Target::ByName { name, .. } => Some(*name),
        _ => None,
    }
}

/// The imported name that a record asks for, by its offset.
fn name_in(relocation: &Record) -> Option<u16>
    ensures { result ≡ name_in relocation.now }
{
    match relocation {
        Record::Stored(fixup) | Record::Added(fixup) => text_of(&fixup.target),
        Record::System => None,
    }
}

/// Whether one of so many records of the table imports by name.
pub fn import_by_name(table: &[u8], count: u16) -> bool
    requires { 8 * count ≤ length table.now }
    ensures { IsFalse result → (i : ℕ) → i < count → bit_and (slice_index table.now (8 * i + 1)) 3 ≢ 2 }
{
    for i in 0..usize::from(count) {
        if RelocationType(table[8 * i + 1])
            .intersection(RelocationType::TARGET)
            .0
            == 2
        {
            return true;
        }
    }
    false
}

/// The record at an index of the table, well formed.
fn read_record(offered: &Offered<'_>, table: &[u8], at: usize) -> Result<Record, RelocFault>
    requires { at + 7 < length table.now }
    ensures own { IfErr result IsOfRecords }
    ensures exact { result ≡ formed (offer_in offered.now.texts.now offered.now.segments offered.now.references) (record_at offered.now.segments offered.now.references table.now at) }
{
    let Some(found) = record_at(offered.segments, offered.references, table, at) else {
        return Err(RelocFault::BadRecord);
    };
    match name_in(&found) {
        Some(name) if !has_text(offered.texts, name) => Err(RelocFault::BadRecord),
        _ => Ok(found),
    }
}

/// Checks so many records of the table in their order, and appends them. The marks are of the data's bytes, none marked.
pub fn check_records<A: Allocator>(
    offered: &Offered<'_>,
    bytes: &[u8],
    table: &[u8],
    count: u16,
    marks: &mut [bool],
    records: &mut Vec<Record, A>,
) -> Result<(), RelocFault>
    requires inside { 8 * count ≤ length table.now }
    requires segment { length bytes.now ≤ 65536 }
    requires same { length marks.old ≡ length bytes.now }
    requires none { records.old.items ≡ [] }
    requires room { count ≤ vec_capacity records.old }
    ensures capacity { vec_capacity records.new ≡ vec_capacity records.old }
    ensures own { IfErr result IsOfRecords }
    ensures exact { AreMarks [] marks.old → MatchResult result
        (λ _. check_from (offer_in offered.now.texts.now offered.now.segments offered.now.references) bytes.now table.now count 0 [] ≡ Ok records.new.items)
        (λ e. check_from (offer_in offered.now.texts.now offered.now.segments offered.now.references) bytes.now table.now count 0 [] ≡ Err e) }
{
    for i in 0..count {
        let found = read_record(offered, table, 8 * usize::from(i))?;
        take_sites(bytes, &found, marks)?;
        records.push_reserved(found);
    }
    Ok(())
}
