//! Fetches of segments: an object that has no bytes gets those of its module's file again.
ghost use Rattle.std.specs.Prelude.{◌≡◌, ◌≤◌, ◌<◌, ◌-◌, ◌/◌, ℕ, List, length, IsTrue, IsFalse, IfErr, OnOk, OnErr, MatchResult, Some, Ok, Err, true, false, slice_get};
ghost use Rattle.w16_model.specs.Law.{Revives};
ghost use Rattle.w16_store.specs.Files.{file_of};
ghost use Rattle.w16_store.specs.Later.{IsLater, RoseIf};
ghost use Rattle.w16_ne.specs.declared.segment_table.Segment.{Segment};
ghost use Rattle.w16_ne.specs.Modules.{tables_at};
ghost use Rattle.w16_reloc.specs.Segments.{Held, any_offer, checked, is_reloc_device};
ghost use Rattle.w16_reloc.specs.Sound.{IsSoundSegment};
ghost use Rattle.w16_global.specs.Owned.{LacksBytes};
ghost use Rattle.w16_loading.specs.declared.FetchFault.TheVariants.{Store as store_fails};
ghost use Rattle.w16_loading.specs.Fill.{is_of_read};
ghost use Rattle.w16_format.specs.Tables.{tables_in};
ghost use Rattle.w16_loader.specs.Fetching.{fetch_fault, fault_in, IsWritten, IsSourceOf, GivesBytes, GivesSegment};
ghost use Rattle.w16_loader.specs.Devices.{is_of_device};

use crate::entry::Loaded;
use crate::segment_work::SegmentWork;
use std::alloc::{Allocator, Global};
use w16_global::Global16;
use w16_loading::FetchFault;
use w16_ne::Module;
use w16_reloc::{Far, RelocFault, Scratch, check};
use w16_store::{Store, StoreFault};

/// Where a segment's bytes come from.
#[derive(Clone, Copy)]
pub struct SegmentSource<'a, A: Allocator = Global> {
    /// The name of its module's file.
    pub file: &'a [u8],
    /// What that file said when the module was loaded.
    pub module: &'a Module<A>,
    /// The segment's number, from 1.
    pub number: usize,
    /// The values of its relocation records, which were bound at load.
    pub values: &'a [Far],
}

/// Why a fetch fails whose segment isn't relocated.
pub fn fetch_fault(fault: RelocFault) -> FetchFault
    ensures fault { result ≡ fetch_fault fault }
    ensures device { is_of_device result ≡ is_reloc_device fault }
{
    match fault {
        RelocFault::Store(StoreFault::Device) => FetchFault::Store,
        _ => FetchFault::Damaged,
    }
}

/// Reads a segment into the scratch and checks it. `Store` where the device failed; `Damaged` where the file reads otherwise than it did.
fn read<S: Store, A: Allocator>(
    source: &SegmentSource<'_, A>,
    store: &mut S,
    scratch: &mut Scratch<A>,
) -> Result<(), FetchFault>
    requires first { 0 < source.now.number }
    requires last { source.now.number ≤ length source.now.module.now.segments }
    ensures stays { IsLater (S.files store.old) (S.failures store.old) (S.files store.new) (S.failures store.new) }
    ensures device { IfErr result (RoseIf is_of_device (S.failures store.old) (S.failures store.new)) }
    ensures many { OnOk result (length scratch.new.held.records ≡ length source.now.values.now) }
    ensures faults { IfErr result (λ fault. is_of_read fault ≡ true) }
    ensures sound { OnOk result ((table : List ℕ)
        × IsSoundSegment (any_offer (length source.now.module.now.segments) (length source.now.module.now.references)) scratch.new.held.bytes table (length source.now.values.now) scratch.new.held.records) }
    ensures room { (s : Segment) → slice_get source.now.module.now.segments (source.now.number - 1) ≡ Some s → OnOk result (length scratch.new.held.bytes ≤ s.size) }
    ensures exact { (file : List ℕ) (s : Segment) (held : Held) → S.is_honest → file_of (S.files store.old) source.now.file.now ≡ Some file
        → tables_at (Some file) ≡ Ok source.now.module.now → slice_get source.now.module.now.segments (source.now.number - 1) ≡ Some s
        → checked file source.now.module.now s ≡ Ok held → length held.records ≡ length source.now.values.now
        → MatchResult result (λ _. scratch.new.held ≡ held) (λ fault. fault ≡ store_fails) }
{
    if let Err(fault) = check(store, source.file, source.module, source.number, scratch) {
        return Err(fetch_fault(fault));
    }
    if scratch.records().len() != source.values.len() {
        return Err(FetchFault::Damaged);
    }
    Ok(())
}

/// Gives an object that a module owns, and that has no bytes, those that a work writes. False, and nothing has changed, where there is no room, and
/// where the handle names no such object.
pub fn give_bytes<A: Allocator + Copy>(
    global: &mut Global16<A>,
    handle: u16,
    work: &SegmentWork<'_>,
) -> bool
    requires { length work.now.records.now ≡ length work.now.values.now }
    ensures given { IsTrue result
        → GivesBytes global.old.handles (handle / 8) (IsWritten work.now.data.now work.now.records.now work.now.values.now) global.new.handles }
    ensures named { IsTrue result → LacksBytes global.old.handles handle }
    ensures refused { IsFalse result → global.new ≡ global.old }
    ensures lacks { IsFalse result → LacksBytes global.old.handles handle → Revives global.old.handles (handle / 8) false global.old.handles }
{
    if !global.revive(handle) {
        return false;
    }
    global.with_bytes(handle / 8, work, &mut ());
    true
}

/// Gives the object of a segment, which has no bytes, those of its file again: its data, zeros after them, and the values that were bound at
/// load over the sites of its relocation records. The file is read and checked before room is asked for. Over any store the bytes are data that was
/// read, with these values at the sites of records that are sound in it.
///
/// Others slide and are discarded for it, as few as can be, as for an allocation with no flags; a discardable object becomes the newest in the
/// order of use. `Store` where the store's device failed; `Damaged` where the file reads otherwise than it did at load; `NoRoom` where no gap
/// could hold it, and where the handle names no object that a module owns and that has no bytes. After each of these the heap is as it was. The
/// scratch holds anything afterwards.
pub fn fetch<S: Store, A: Allocator + Copy>(
    source: &SegmentSource<'_, A>,
    global: &mut Global16<A>,
    store: &mut S,
    scratch: &mut Scratch<A>,
    handle: u16,
) -> Result<(), FetchFault>
    requires first { 0 < source.now.number }
    requires last { source.now.number ≤ length source.now.module.now.segments }
    ensures stays { IsLater (S.files store.old) (S.failures store.old) (S.files store.new) (S.failures store.new) }
    ensures device { IfErr result (RoseIf is_of_device (S.failures store.old) (S.failures store.new)) }
    ensures refused { OnErr result (global.new ≡ global.old) }
    ensures named { OnOk result (LacksBytes global.old.handles handle) }
    ensures given { LacksBytes global.old.handles handle
        → GivesSegment S.is_honest (S.files store.old) source.now.file.now source.now.module.now source.now.number source.now.values.now (S.failures store.old) (S.failures store.new)
        global.old.handles (handle / 8) (fault_in result) global.new.handles }
    ensures rest { global.new.handles ≡ record global.old.handles { heap = global.new.handles.heap } }
{
    global.reveal_handles();
    read(source, store, scratch)?;
    let work = SegmentWork {
        data: scratch.bytes(),
        records: scratch.records(),
        values: source.values,
    };
    if give_bytes(global, handle, &work) {
        Ok(())
    } else {
        Err(FetchFault::NoRoom)
    }
}

impl<A: Allocator> Loaded<A> {
    /// Where the bytes of a segment come from, by its number from 1.
    pub fn source(&self, number: usize) -> SegmentSource<'_, A>
        ensures source { IsSourceOf self.now number result.file.now result.values.now }
        ensures tables { tables_in result.module.now ≡ self.now.tables }
        ensures number { result.number ≡ number }
    {
        SegmentSource {
            module: self.module(),
            file: self.file(),
            number,
            values: self.values(number),
        }
    }
}
