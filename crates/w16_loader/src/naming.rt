//! New modules of a load get handles, objects for their segments, and names.
ghost use Rattle.std.specs.Prelude.{◌≡◌, ◌≢◌, ◌≤◌, ◌<◌, ◌++◌, ◌∷◌, [], ℕ, List, length, map, zip, take, All, AllPairs, IsTrue, IsFalse, IfOk, IfErr, OnOk, OnErr, IfSome, IfNone, slice_index_or};
ghost use Rattle.std.specs.FinMap as finmap;
ghost use Rattle.std.specs.List.{AllZip};
ghost use Rattle.w16_global.specs.Owned.{HasNoSlot};
ghost use Rattle.w16_model.specs.Discards.{is_member};
ghost use Rattle.w16_model.specs.Handles.{IsFreeSlot};
ghost use Rattle.w16_ne.specs.Segments.{IsSized};
ghost use Rattle.w16_loading.specs.declared.TheConstants as loading_constants;
ghost use Rattle.w16_loading.specs.Modules.{LoadingWorld, IsFreeModule, free_modules, with_handles};
ghost use Rattle.w16_loading.specs.Modules.Named.{Loaded as loaded_as};
ghost use Rattle.w16_loading.specs.Closure as closing;
ghost use Rattle.w16_loading.specs.Naming.{free_slots, segments_in, with_segment, handle_meant};
ghost use Rattle.w16_loading.specs.Release.{without_objects};
ghost use Rattle.w16_format.specs.Tables.{segment_in, tables_in};
ghost use Rattle.w16_loader.specs.Closing.{referent_of};
ghost use Rattle.w16_loader.specs.Following.{pair_of};
ghost use Rattle.w16_loader.specs.Reached.{IsFoundOf};
ghost use Rattle.w16_loader.specs.Naming.{IsClosureOf, IsFit, IsNamingFault, IsUnbound, Takes, GetsName, GetNames, free_handles, imports_among, unbound_by};
ghost use Rattle.w16_loader.specs.Registry.{in_world};

use crate::closure::{Bound, Closure};
use crate::ending::{release_modules, release_slots};
use crate::entry::Loaded;
use crate::fault::LoadFault;
use crate::found::Referent;
use crate::registry::Registry;
use crate::segment::{is_code, segment_kind};
use crate::tagged::Found;
use std::alloc::{AllocError, Allocator};
use std::mem;
use w16_global::Global16;
use w16_loading::LoadRefusal;
use w16_model::Owned;
use w16_model::names::slot_of;
use w16_ne::{Module, Segment};

/// A segment gets an object without bytes, in the lowest free slot: the slot, none where no slot is free.
fn take_slot<A: Allocator + Copy>(global: &mut Global16<A>, segment: Segment) -> Option<u16>
    requires { IsSized segment }
    ensures free { IfSome result (λ slot. IsFreeSlot global.old.handles slot) }
    ensures taken { IfSome result (λ slot. (rest : LoadingWorld) → with_handles rest global.new.handles ≡ with_segment (with_handles rest global.old.handles) (slot, segment_in segment)) }
    ensures few { IfSome result (λ slot. slot < 8192) }
    ensures none { IfNone result (HasNoSlot global.old.handles × (global.new ≡ global.old)) }
    ensures written { global.new.written ≡ global.old.written }
{
    let owned = Owned {
        size: segment.size,
        code: is_code(segment.flags),
    };
    match global.take_owned(segment_kind(segment.flags), owned) {
        None => None,
        Some(handle) => Some(slot_of(handle)),
    }
}

/// The segments of a module get objects without bytes, each in the lowest slot that is free then. Their slots, in the order of the segments, are
/// put in place of these numbers. False where too few slots are free; then no object is left.
fn put_slots<A: Allocator + Copy>(
    global: &mut Global16<A>,
    module_file: &Module<A>,
    slots: &mut [u16],
) -> bool
    requires { length slots.old ≡ length module_file.now.segments }
    ensures taken { IsTrue result → (rest : LoadingWorld) → Takes (with_handles rest global.old.handles) (zip slots.new (map segment_in module_file.now.segments)) (with_handles rest global.new.handles) }
    ensures few { IsTrue result → All (λ q. q < 8192) slots.new }
    ensures fit { IsTrue result → All IsFit (map segment_in module_file.now.segments) }
    ensures same { IsFalse result → global.new ≡ global.old }
    ensures no_slot { IsFalse result → length (free_slots global.old.handles) < length module_file.now.segments }
    ensures written { global.new.written ≡ global.old.written }
{
    global.reveal_handles();
    for i in 0..slots.len() {
        match take_slot(global, module_file.segment(i + 1)) {
            Some(slot) => slots[i] = slot,
            None => {
                release_slots(global, &slots[..i]);
                return false;
            }
        }
    }
    true
}

/// The segments of a module get objects without bytes, each in the lowest slot that is free then: their slots, in the order of the segments. On an
/// error all is as before.
fn take_slots<A: Allocator + Copy>(
    alloc: A,
    global: &mut Global16<A>,
    module_file: &Module<A>,
) -> Result<Vec<u16, A>, LoadFault>
    ensures many { IfOk result (λ slots. length slots.items ≡ length module_file.now.segments) }
    ensures taken { IfOk result (λ slots. (rest : LoadingWorld) → Takes (with_handles rest global.old.handles) (zip slots.items (map segment_in module_file.now.segments)) (with_handles rest global.new.handles)) }
    ensures few { IfOk result (λ slots. All (λ q. q < 8192) slots.items) }
    ensures fit { IfOk result (λ _. All IsFit (map segment_in module_file.now.segments)) }
    ensures same { OnErr result (global.new ≡ global.old) }
    ensures fault { IfErr result (λ fault. IsNamingFault fault global.old.handles (length module_file.now.segments)) }
    ensures written { global.new.written ≡ global.old.written }
{
    let mut slots = vec![in alloc; 0; module_file.segment_count()]?;
    if put_slots(global, module_file, slots.as_mut_slice()) {
        Ok(slots)
    } else {
        Err(LoadFault::Refused(LoadRefusal::NoRoom))
    }
}

/// A free handle names a module from now on. Where memory ends, the objects of its segments go.
fn put_module<A: Allocator + Copy>(
    alloc: A,
    registry: &mut Registry<A>,
    global: &mut Global16<A>,
    handle: u16,
    loaded: Loaded<A>,
) -> Result<(), AllocError>
    requires { IsFreeModule registry.old handle }
    ensures put { OnOk result ((registry.new ≡ finmap.insert registry.old handle (loaded_as loaded)) × (global.new ≡ global.old)) }
    ensures same { OnErr result (registry.new ≡ registry.old) }
    ensures gone { OnErr result ((rest : LoadingWorld) → with_handles rest global.new.handles ≡ without_objects (λ q. is_member q loaded.slots) (with_handles rest global.old.handles)) }
    ensures written { global.new.written ≡ global.old.written }
{
    match Box::new(alloc, loaded) {
        Ok(loaded) => {
            registry.insert(handle, loaded);
            Ok(())
        }
        Err(refused) => {
            release_slots(global, refused.value.slots());
            Err(AllocError)
        }
    }
}

/// The segments of a new module get objects without bytes, and a free handle names it from now on. On an error all is as before.
fn name_module<A: Allocator + Copy>(
    registry: &mut Registry<A>,
    global: &mut Global16<A>,
    handle: u16,
    uses: u32,
    found: Found<A>,
    imports: Vec<u16, A>,
) -> Result<(), LoadFault>
    requires free { IsFreeModule registry.old handle }
    requires few { uses ≤ loading_constants.MOST_USES }
    ensures named { OnOk result ((rest : LoadingWorld) → (slots : List ℕ) × GetsName (in_world (with_handles rest global.old.handles) registry.old) handle (record {
      file = found.file.items;
      tables = tables_in found.module;
      uses = uses;
      slots = slots;
      values = [];
      imports = imports.items;
    }) (in_world (with_handles rest global.new.handles) registry.new)) }
    ensures same { OnErr result ((registry.new ≡ registry.old) × (global.new ≡ global.old)) }
    ensures fault { IfErr result (λ fault. IsNamingFault fault global.old.handles (length found.module.segments)) }
    ensures written { global.new.written ≡ global.old.written }
{
    global.reveal_handles();
    let alloc = *imports.allocator();
    let slots = take_slots(alloc, global, &found.module)?;
    let Found { file, module, .. } = found;
    let loaded = Loaded::new(file, module, uses, slots, Vec::new(alloc), imports);
    put_module(alloc, registry, global, handle, loaded)?;
    Ok(())
}

/// New modules get objects for their segments, and these handles name them from now on, each with its imports, which are taken out of their
/// vector. The first module has one explicit use, the others have none. On an error all is as before but the imports.
fn name_all<A: Allocator + Copy>(
    registry: &mut Registry<A>,
    global: &mut Global16<A>,
    handles: &[u16],
    found: Vec<Found<A>, A>,
    imports: &mut Vec<Vec<u16, A>, A>,
) -> Result<(), LoadFault>
    requires handles { length handles.now ≡ length found.items }
    requires imports { length imports.old.items ≡ length found.items }
    requires free { All (IsFreeModule registry.old) handles.now }
    requires apart { AllPairs ◌≢◌ handles.now }
    ensures named { OnOk result ((rest : LoadingWorld) (meant : List closing.Found) → AllZip IsFoundOf found.items meant → GetNames (in_world (with_handles rest global.old.handles) registry.old)
        (unbound_by (λ place. slice_index_or (map (λ v. v.items) imports.old.items) place [])) meant handles.now (in_world (with_handles rest global.new.handles) registry.new)) }
    ensures same { OnErr result ((registry.new ≡ registry.old) × (global.new ≡ global.old)) }
    ensures fault { IfErr result (λ fault. (meant : List closing.Found) → AllZip IsFoundOf found.items meant → IsNamingFault fault global.old.handles (segments_in meant)) }
    ensures written { global.new.written ≡ global.old.written }
{
    global.reveal_handles();
    let alloc = *imports.allocator();
    for (place, found) in found.into_iter().enumerate() {
        let handle = handles[place];
        let uses = u32::from(place == 0);
        let imports = mem::replace(&mut imports[place], Vec::new(alloc));
        match name_module(registry, global, handle, uses, found, imports) {
            Ok(()) => {}
            Err(fault) => {
                release_modules(registry, global, &handles[..place]);
                return Err(fault);
            }
        }
    }
    Ok(())
}

/// The handle that a reference means, where new modules have these handles; 0 for a new module that isn't there.
fn handle_meant(handles: &[u16], referent: Referent) -> u16
    ensures { result ≡ handle_meant handles.now (referent_of referent) }
{
    match referent {
        Referent::There(handle) => handle,
        Referent::New(place) => handles.get(place).copied().unwrap_or(0),
    }
}

/// That many vectors, all of them empty.
fn empty_lists<A: Allocator + Copy>(
    alloc: A,
    count: usize,
) -> Result<Vec<Vec<u16, A>, A>, AllocError>
    ensures many { IfOk result (λ made. length made.items ≡ count) }
    ensures empty { IfOk result (λ made. (place : ℕ) → slice_index_or (map (λ v. v.items) made.items) place [] ≡ []) }
{
    let mut made = Vec::with_capacity(alloc, count)?;
    for _ in 0..count {
        made.push(Vec::new(alloc))?;
    }
    Ok(made)
}

/// A number more at the end of the vector at a place, if there is one.
fn push_at<A: Allocator + Copy>(
    lists: &mut Vec<Vec<u16, A>, A>,
    place: usize,
    number: u16,
) -> Result<(), AllocError>
    ensures here { OnOk result (place < length lists.old.items → slice_index_or (map (λ v. v.items) lists.new.items) place [] ≡ slice_index_or (map (λ v. v.items) lists.old.items) place [] ++ number ∷ []) }
    ensures others { OnOk result ((other : ℕ) → other ≢ place → slice_index_or (map (λ v. v.items) lists.new.items) other [] ≡ slice_index_or (map (λ v. v.items) lists.old.items) other []) }
    ensures many { OnOk result (length lists.new.items ≡ length lists.old.items) }
{
    if place < lists.len() {
        lists[place].push(number)?;
    }
    Ok(())
}

/// For each of the new modules that have these handles, the handles that its references mean.
fn imports_of<A: Allocator + Copy>(
    alloc: A,
    bound: &[Bound],
    handles: &[u16],
) -> Result<Vec<Vec<u16, A>, A>, AllocError>
    ensures many { IfOk result (λ made. length made.items ≡ length handles.now) }
    ensures imports { IfOk result (λ made. (place : ℕ) → place < length handles.now → slice_index_or (map (λ v. v.items) made.items) place [] ≡ imports_among handles.now (map pair_of bound.now) place) }
{
    let mut made = empty_lists(alloc, handles.len())?;
    for reference in bound {
        let handle = handle_meant(handles, reference.referent);
        push_at(&mut made, reference.place, handle)?;
    }
    Ok(made)
}

/// The new modules of a load get the lowest free handles, in the order in which they were found, objects without bytes for their segments, and the
/// handles that their references mean. They are in the registry then, but not bound yet: none has values. The module asked for has one explicit
/// use, the others have none. The answer is their handles. On an error all is as before.
pub(crate) fn name_modules<A: Allocator + Copy>(
    registry: &mut Registry<A>,
    global: &mut Global16<A>,
    closure: Closure<A>,
) -> Result<Vec<u16, A>, LoadFault>
    requires { length closure.found.items ≤ free_modules registry.old }
    ensures named { IfOk result (λ handles. (rest : LoadingWorld) (meant : closing.Closure) → IsClosureOf closure meant
        → IsUnbound (in_world (with_handles rest global.old.handles) registry.old) meant handles.items (in_world (with_handles rest global.new.handles) registry.new)) }
    ensures lowest { IfOk result (λ handles. handles.items ≡ take (length closure.found.items) (free_handles registry.old)) }
    ensures same { OnErr result ((registry.new ≡ registry.old) × (global.new ≡ global.old)) }
    ensures fault { IfErr result (λ fault. (meant : closing.Closure) → IsClosureOf closure meant → IsNamingFault fault global.old.handles (segments_in meant.found)) }
    ensures written { global.new.written ≡ global.old.written }
{
    let Closure { found, bound } = closure;
    let alloc = *found.allocator();
    let handles = registry.free_handles(alloc, found.len())?;
    let mut imports = imports_of(alloc, bound.as_slice(), handles.as_slice())?;
    name_all(registry, global, handles.as_slice(), found, &mut imports)?;
    Ok(handles)
}
