//! Bytes for the objects of a load's modules: those of their fixed and of their preload segments.
ghost use Rattle.std.specs.Prelude.{◌≡◌, ◌≢◌, ◌-◌, ◌<◌, ◌≤◌, ℕ, List, length, All, Some, Err, IfErr, IfSome, slice_get};
ghost use Rattle.w16_store.specs.Later.{IsLater, RoseIf};
ghost use Rattle.w16_loading.specs.declared.FetchFault.TheVariants.{Store as store_fails};
ghost use Rattle.w16_loading.specs.File.{ModuleFile, Segment};
ghost use Rattle.w16_loading.specs.Fill.{InTurn};
ghost use Rattle.w16_loading.specs.Law.{IsItsFiles};
ghost use Rattle.w16_loading.specs.Modules.{Module, module_at};
ghost use Rattle.w16_loader.specs.Binding.{IsSaid, AreSaid};
ghost use Rattle.w16_loader.specs.Filling.{Part, AreItsFiles, AreReadAs, AreUnfilled, HasUnfilled, IsReadAs, IsUnfilled, failure_at, failure_in, fills_in, fills_of_part, fills_with, gives_over};
ghost use Rattle.w16_loader.specs.Devices.{is_of_device};

use crate::entry::Loaded;
use crate::fault::Failure;
use crate::registry::Registry;
use crate::segment::{is_filled, segment_kind};
use crate::segment_fetch::fetch;
use std::alloc::Allocator;
use w16_global::Global16;
use w16_loading::FetchFault;
use w16_model::names::handle_of;
use w16_reloc::Scratch;
use w16_store::Store;

/// The slot of a segment's object, by its number from 1; none where there are fewer.
fn slot_at(slots: &[u16], number: usize) -> Option<u16>
    requires first { 0 < number }
    requires few { All (λ q. q < 8192) slots.now }
    ensures slot { result ≡ slice_get slots.now (number - 1) }
    ensures few { IfSome result (λ q. q < 8192) }
{
    slots.get(number - 1).copied()
}

/// How many segments a module has.
fn segment_count<A: Allocator>(loaded: &Loaded<A>) -> usize
    ensures { result ≡ length loaded.now.tables.segments }
{
    loaded.module().segment_count()
}

/// Gives the object of a segment, by its number from 1, its bytes, where it is a fixed or a preload segment.
fn fill_segment<S: Store, A: Allocator + Copy>(
    loaded: &Loaded<A>,
    global: &mut Global16<A>,
    store: &mut S,
    scratch: &mut Scratch<A>,
    number: usize,
) -> Result<(), FetchFault>
    requires first { 0 < number }
    requires last { number ≤ length loaded.now.tables.segments }
    ensures stays { IsLater (S.files store.old) (S.failures store.old) (S.files store.new) (S.failures store.new) }
    ensures device { IfErr result (RoseIf is_of_device (S.failures store.old) (S.failures store.new)) }
    ensures rest { global.new.handles ≡ record global.old.handles { heap = global.new.handles.heap } }
    ensures kept { (slot : ℕ) (s : Segment) → slice_get loaded.now.slots (number - 1) ≢ Some slot → IsUnfilled global.old.handles slot s → IsUnfilled global.new.handles slot s }
    ensures given { (read : ModuleFile) (place : ℕ) (part : Part loaded.now read (number - 1)) → IsReadAs loaded.now read → (S.is_honest → IsSaid (S.files store.old) loaded.now read × IsItsFiles loaded.now read)
        → IsUnfilled global.old.handles part.slot part.segment
        → InTurn (gives_over S.is_honest (S.failures store.old) (S.failures store.new)) global.old.handles.heap (fills_of_part place part) (failure_at place result) global.new.handles.heap }
{
    let source = loaded.source(number);
    let segment = source.module.segment(number);
    if !is_filled(&segment) {
        return Ok(());
    }
    match slot_at(loaded.slots(), number) {
        None => Ok(()),
        Some(slot) => {
            global.reveal_handles();
            let handle = handle_of(segment_kind(segment.flags), slot);
            fetch(&source, global, store, scratch, handle)
        }
    }
}

/// Gives the objects of the fixed and of the preload segments of a module their bytes, by number, up to the first that gets none.
fn fill_segments<S: Store, A: Allocator + Copy>(
    loaded: &Loaded<A>,
    global: &mut Global16<A>,
    store: &mut S,
    scratch: &mut Scratch<A>,
) -> Result<(), FetchFault>
    ensures stays { IsLater (S.files store.old) (S.failures store.old) (S.files store.new) (S.failures store.new) }
    ensures device { IfErr result (RoseIf is_of_device (S.failures store.old) (S.failures store.new)) }
    ensures rest { global.new.handles ≡ record global.old.handles { heap = global.new.handles.heap } }
    ensures kept { (slot : ℕ) (s : Segment) → All (λ q. q ≢ slot) loaded.now.slots → IsUnfilled global.old.handles slot s → IsUnfilled global.new.handles slot s }
    ensures given { (read : ModuleFile) (place : ℕ) → IsReadAs loaded.now read → (S.is_honest → IsSaid (S.files store.old) loaded.now read × IsItsFiles loaded.now read) → HasUnfilled global.old.handles loaded.now
        → InTurn (gives_over S.is_honest (S.failures store.old) (S.failures store.new)) global.old.handles.heap (fills_in place loaded.now read) (failure_at place result) global.new.handles.heap }
{
    let count = segment_count(loaded);
    for done in 0..count {
        match fill_segment(loaded, global, store, scratch, done + 1) {
            Err(fault) => return Err(fault),
            Ok(()) => {}
        }
    }
    Ok(())
}

/// The same for the module of a handle; nothing for any other handle.
fn fill_module<S: Store, A: Allocator + Copy>(
    registry: &Registry<A>,
    global: &mut Global16<A>,
    store: &mut S,
    scratch: &mut Scratch<A>,
    handle: u16,
) -> Result<(), FetchFault>
    ensures stays { IsLater (S.files store.old) (S.failures store.old) (S.files store.new) (S.failures store.new) }
    ensures device { IfErr result (RoseIf is_of_device (S.failures store.old) (S.failures store.new)) }
    ensures rest { global.new.handles ≡ record global.old.handles { heap = global.new.handles.heap } }
    ensures kept { (m : Module) (slot : ℕ) (s : Segment) → module_at registry.now handle ≡ Some m → All (λ q. q ≢ slot) m.slots → IsUnfilled global.old.handles slot s → IsUnfilled global.new.handles slot s }
    ensures given { (m : Module) (read : ModuleFile) (place : ℕ) → module_at registry.now handle ≡ Some m → IsReadAs m read → (S.is_honest → IsSaid (S.files store.old) m read × IsItsFiles m read)
        → HasUnfilled global.old.handles m
        → InTurn (gives_over S.is_honest (S.failures store.old) (S.failures store.new)) global.old.handles.heap (fills_in place m read) (failure_at place result) global.new.handles.heap }
{
    match registry.module(handle) {
        None => Ok(()),
        Some(loaded) => fill_segments(loaded, global, store, scratch),
    }
}

/// Gives the objects of the fixed and of the preload segments of some modules their bytes, by module and by number. They are objects without
/// bytes, which have their names already. The first that gets none ends it: those before it keep what they got.
///
/// Each gets its bytes as by a fetch: [`fetch`](crate::fetch) says what is moved and discarded, and when each fault comes.
pub(crate) fn fill_modules<S: Store, A: Allocator + Copy>(
    registry: &Registry<A>,
    global: &mut Global16<A>,
    store: &mut S,
    scratch: &mut Scratch<A>,
    handles: &[u16],
) -> Result<(), Failure>
    ensures stays { IsLater (S.files store.old) (S.failures store.old) (S.files store.new) (S.failures store.new) }
    ensures device { IfErr result (RoseIf (λ failure. is_of_device failure.fault) (S.failures store.old) (S.failures store.new)) }
    ensures rest { global.new.handles ≡ record global.old.handles { heap = global.new.handles.heap } }
    ensures given { (reads : List ModuleFile) → AreReadAs registry.now handles.now reads
        → (S.is_honest → AreSaid (S.files store.old) registry.now handles.now reads × AreItsFiles registry.now handles.now reads) → AreUnfilled registry.now global.old.handles handles.now
        → InTurn (gives_over S.is_honest (S.failures store.old) (S.failures store.new)) global.old.handles.heap (fills_with registry.now 0 handles.now reads) (failure_in result) global.new.handles.heap }
{
    for (place, handle) in handles.iter().enumerate() {
        match fill_module(registry, global, store, scratch, *handle) {
            Err(fault) => return Err(Failure { place, fault }),
            Ok(()) => {}
        }
    }
    Ok(())
}
