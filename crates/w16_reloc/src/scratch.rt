//! Room for one segment, and the check of a segment in it.
ghost use Rattle.std.specs.Prelude.{◌≡◌, ℕ, ◌<◌, ◌≤◌, ◌-◌, ◌*◌, length, List, take, drop, [], Some, Ok, slice_get, vec_len, vec_capacity, IfOk, OnOk, IfErr, MatchResult};
ghost use Rattle.w16_store.specs.Files.{file_of};
ghost use Rattle.w16_store.specs.Later.{IsLater, RoseIf};
ghost use Rattle.w16_ne.specs.declared.segment_table.Segment.{Segment};
ghost use Rattle.w16_ne.specs.Modules.{imported_place, tables_at};
ghost use Rattle.w16_reloc.specs.Check.{AreMarks};
ghost use Rattle.w16_reloc.specs.Sound.{IsSoundSegment};
ghost use Rattle.w16_ne.specs.Texts.{text_in};
ghost use Rattle.w16_reloc.specs.Segments.{Answers, AreNamesFor, AreTextsOf, Refuses, any_offer, checked, is_reloc_device, names_from};

use crate::fault::RelocFault;
use crate::reading::text;
use crate::record::Record;
use crate::records::{Offered, check_records, import_by_name};
use crate::segment::{read_front, read_segment};
use std::alloc::{AllocError, Allocator, Global};
use std::marker::Model;
use w16_ne::{Module, Segment};
use w16_store::{Store, reveal_bytes};

/// The most bytes of data that a segment has, and the most records.
const MOST_BYTES: usize = 65_536;

const MOST_RECORDS: usize = 65_535;

/// How far imported names go from where they begin: 65,535 bytes, a length byte and 255 bytes.
const MOST_TEXTS: usize = 65_791;

/// Room for the data, the marks and the records of one segment of any size, and for the names that it imports by: of the one that was checked
/// last.
#[derive(Drop)]
pub struct Scratch<A: Allocator = Global> {
    bytes: Vec<u8, A>,
    table: Vec<u8, A>,
    texts: Vec<u8, A>,
    marks: Vec<bool, A>,
    records: Vec<Record, A>,
}

impl<A: Allocator> Model for Scratch<A> {
    ghost use Rattle.std.specs.Prelude.{◌≤◌, vec_capacity};
    ghost use Rattle.w16_reloc.specs.Segments.{Scratched};

    ghost Value = { Scratched };

    ghost view = { λ s. record { held = record { bytes = s.bytes.items; records = s.records.items }; texts = s.texts.items } };

    ghost invariant = { λ s. (65536 ≤ vec_capacity s.bytes) × (524280 ≤ vec_capacity s.table) × (65791 ≤ vec_capacity s.texts) × (65536 ≤ vec_capacity s.marks) × (65535 ≤ vec_capacity s.records) };
}

impl<A: Allocator + Copy> Scratch<A> {
    /// All the room that a check needs, about two megabytes; it is empty.
    pub fn new(alloc: A) -> Result<Self, AllocError>
        ensures { IfOk result (λ made. made ≡ record { held = record { bytes = []; records = [] }; texts = [] }) }
    {
        Ok(Scratch {
            bytes: Vec::with_capacity(alloc, MOST_BYTES)?,
            table: Vec::with_capacity(alloc, 8 * MOST_RECORDS)?,
            texts: Vec::with_capacity(alloc, MOST_TEXTS)?,
            marks: Vec::with_capacity(alloc, MOST_BYTES)?,
            records: Vec::with_capacity(alloc, MOST_RECORDS)?,
        })
    }
}

impl<A: Allocator> Scratch<A> {
    /// The data of the segment that was checked last.
    pub fn bytes(&self) -> &[u8]
        ensures { result.now ≡ self.now.held.bytes }
    {
        self.bytes.as_slice()
    }

    /// Its records.
    pub fn records(&self) -> &[Record]
        ensures { result.now ≡ self.now.held.records }
    {
        self.records.as_slice()
    }

    /// The imported name at an offset, as a record of the segment that was checked last asks for it; any bytes where none does.
    pub fn imported_name(&self, offset: u16) -> &[u8]
        ensures { result.now ≡ text_in self.now.texts offset }
    {
        text(self.texts.as_slice(), offset)
    }
}

/// So many marks, none set.
fn clear_marks<A: Allocator>(marks: &mut Vec<bool, A>, len: usize)
    requires { len ≤ vec_capacity marks.old }
    ensures len { vec_len marks.new ≡ len }
    ensures capacity { vec_capacity marks.old ≤ vec_capacity marks.new }
    ensures clear { AreMarks [] marks.new.items }
{
    marks.clear();
    if marks.resize(len, false).is_err() {
        unreachable!();
    }
}

/// Checks the relocations of a segment, by its number from 1, in the file from which the module was read.
///
/// `Ok` where they are sound, and then the scratch has the segment's data and records. Else the first fault: the records are checked in their order,
/// first each itself (`BadRecord`), then its sites from the first on, each for `SiteOutside` before `Overlap`. `Store` where the store answered a
/// fault. After a fault the scratch holds anything.
pub fn check<A: Allocator, S: Store>(
    store: &mut S,
    name: &[u8],
    module_file: &Module<A>,
    segment: usize,
    scratch: &mut Scratch<A>,
) -> Result<(), RelocFault>
    requires first { 0 < segment }
    requires last { segment ≤ length module_file.now.segments }
    ensures stays { IsLater (S.files store.old) (S.failures store.old) (S.files store.new) (S.failures store.new) }
    ensures device { IfErr result (RoseIf is_reloc_device (S.failures store.old) (S.failures store.new)) }
    ensures len { (s : Segment) → slice_get module_file.now.segments (segment - 1) ≡ Some s → OnOk result (length scratch.new.held.bytes ≡ s.len) }
    ensures room { (s : Segment) → slice_get module_file.now.segments (segment - 1) ≡ Some s → OnOk result (length scratch.new.held.bytes ≤ s.size) }
    ensures sound { OnOk result ((table : List ℕ) × (count : ℕ)
        × IsSoundSegment (any_offer (length module_file.now.segments) (length module_file.now.references)) scratch.new.held.bytes table count scratch.new.held.records) }
    ensures exact { (file : List ℕ) (s : Segment) → S.is_honest → file_of (S.files store.old) name.now ≡ Some file → tables_at (Some file) ≡ Ok module_file.now
        → slice_get module_file.now.segments (segment - 1) ≡ Some s
        → Answers (λ _. scratch.new.held) (S.failures store.old) (S.failures store.new) result (checked file module_file.now s) }
    ensures names { (file : List ℕ) → S.is_honest → file_of (S.files store.old) name.now ≡ Some file → OnOk result (AreTextsOf file module_file.now scratch.new.held.records scratch.new.texts) }
{
    let found = module_file.segment(segment);
    let count = read_segment(store, name, &found, &mut scratch.bytes, &mut scratch.table)?;
    read_names(
        store,
        name,
        module_file,
        count,
        scratch.table.as_slice(),
        &mut scratch.texts,
    )?;
    reveal_bytes(scratch.table.as_slice());
    reveal_bytes(scratch.texts.as_slice());
    scratch.records.clear();
    clear_marks(&mut scratch.marks, found.len as usize);
    let offered = Offered {
        segments: module_file.segment_count(),
        references: module_file.reference_count(),
        texts: scratch.texts.as_slice(),
    };
    check_records(
        &offered,
        scratch.bytes.as_slice(),
        scratch.table.as_slice(),
        count,
        scratch.marks.as_mut_slice(),
        &mut scratch.records,
    )
}

/// Reads the names that one of so many records of the table may import by; none are read where no record does.
fn read_names<A: Allocator, S: Store>(
    store: &mut S,
    name: &[u8],
    module_file: &Module<A>,
    count: u16,
    table: &[u8],
    texts: &mut Vec<u8, A>,
) -> Result<(), RelocFault>
    requires inside { 8 * count ≤ length table.now }
    requires room { 65791 ≤ vec_capacity texts.old }
    ensures stays { IsLater (S.files store.old) (S.failures store.old) (S.files store.new) (S.failures store.new) }
    ensures device { IfErr result (RoseIf is_reloc_device (S.failures store.old) (S.failures store.new)) }
    ensures capacity { vec_capacity texts.old ≤ vec_capacity texts.new }
    ensures exact { (file : List ℕ) → S.is_honest → file_of (S.files store.old) name.now ≡ Some file
        → MatchResult result (λ _. AreNamesFor file module_file.now table.now count texts.new.items) (λ e. Refuses (S.failures store.old) (S.failures store.new) e (Ok (names_from file (imported_place module_file.now)))) }
{
    if !import_by_name(table, count) {
        texts.clear();
        return Ok(());
    }
    let at = module_file.imported_names();
    read_front(store, name, at, MOST_TEXTS, texts)
}

/// Reads a part of a file, as the bytes of a resource: so many from an offset on, or those up to the file's end where it comes first. The scratch
/// has them then, and no records.
///
/// `Store` where the store answered a fault. After it the scratch holds anything.
pub fn read_part<A: Allocator, S: Store>(
    store: &mut S,
    name: &[u8],
    at: u64,
    len: usize,
    scratch: &mut Scratch<A>,
) -> Result<(), RelocFault>
    requires { len ≤ 65536 }
    ensures stays { IsLater (S.files store.old) (S.failures store.old) (S.files store.new) (S.failures store.new) }
    ensures device { IfErr result (RoseIf is_reloc_device (S.failures store.old) (S.failures store.new)) }
    ensures len { OnOk result (length scratch.new.held.bytes ≤ len) }
    ensures exact { (file : List ℕ) → S.is_honest → file_of (S.files store.old) name.now ≡ Some file
        → Answers (λ _. scratch.new.held) (S.failures store.old) (S.failures store.new) result (Ok (record { bytes = take len (drop at file); records = [] })) }
{
    scratch.records.clear();
    read_front(store, name, at, len, &mut scratch.bytes)
}
