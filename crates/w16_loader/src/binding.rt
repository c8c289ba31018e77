//! Binding: all relocation records of the new modules of a load get their values, once.
ghost use Rattle.std.specs.Prelude.{◌≡◌, ◌<◌, ◌≤◌, ◌+◌, ◌-◌, ℕ, List, [], map, length, true, false, Some, Ok, All, IfOk, IfErr, IsSomeAnd, OnOk, OnErr, MatchResult, slice_get, vec_capacity};
ghost use Rattle.w16_store.specs.Later.{IsLater, RoseIf};
ghost use Rattle.w16_loader.specs.Devices.{is_fault_device};
ghost use Rattle.std.specs.FinMap as finmap;
ghost use Rattle.w16_model.specs.Discards.{is_member};
ghost use Rattle.w16_ne.specs.Texts.{text_in};
ghost use Rattle.w16_loading.specs.File as loading;
ghost use Rattle.w16_loading.specs.File.{ModuleFile, SegmentData, targets_of};
ghost use Rattle.w16_loading.specs.Law.{without_values};
ghost use Rattle.w16_loading.specs.Modules.{imported, module_at, value_of};
ghost use Rattle.w16_format.specs.Data.{far_of, record_target, target_by};
ghost use Rattle.w16_loader.specs.Binding.{AreValuesOf, IsForEach, AreTargets, IsSaid, AreSaid, IsFailure, IsUnread, values_for, bound_as, all_bound};

use crate::entry::{Loaded, NOWHERE};
use crate::fault::{LoadFault, damage_at};
use crate::found::fault_of_relocations;
use crate::registry::Registry;
use std::alloc::{AllocError, Allocator};
use w16_reloc::{Far, Record, Scratch, Target, check};
use w16_store::Store;

/// Why a load fails, by why the new module at a place has no values: a file that is refused now reads otherwise than it did.
fn fault_at(place: usize, fault: LoadFault) -> LoadFault
    ensures failure { (before : ℕ) (after : ℕ) → IsFailure before after fault → IsFailure before after result }
    ensures unread { (many : ℕ) → place < many → IsUnread many result }
    ensures device { is_fault_device result ≡ is_fault_device fault }
{
    match fault {
        LoadFault::OutOfMemory => LoadFault::OutOfMemory,
        LoadFault::Device => LoadFault::Device,
        LoadFault::Refused(_) => LoadFault::Refused(damage_at(place)),
    }
}

/// Room for that many values, and none yet.
fn room_for<T, A: Allocator + Clone>(alloc: &A, len: usize) -> Result<Vec<T, A>, AllocError>
    ensures items { IfOk result (λ made. made.items ≡ []) }
    ensures capacity { IfOk result (λ made. vec_capacity made ≡ len) }
{
    Vec::with_capacity(alloc.clone()?, len)
}

/// The handle that a reference of a module means, by its number from 1; 0 where there are fewer.
fn imported<A: Allocator>(loaded: &Loaded<A>, reference: u16) -> u16
    ensures { result ≡ imported loaded.now reference }
{
    let place = usize::from(reference).saturating_sub(1);
    loaded.imports().get(place).copied().unwrap_or(0)
}

/// The value of a target of a module: by its own slots and entries, or by what the handles that it imports name. The scratch has the names that
/// its segment imports by.
fn target_value<A: Allocator>(
    registry: &Registry<A>,
    loaded: &Loaded<A>,
    scratch: &Scratch<A>,
    target: Target,
) -> Far
    ensures { far_of result ≡ value_of (finmap.get registry.now) loaded.now (target_by (text_in scratch.now.texts) target) }
{
    match target {
        Target::Internal { segment, offset } => loaded.address_in_segment(segment, offset),
        Target::Entry { ordinal } => loaded.address_by_ordinal(ordinal),
        Target::ByOrdinal { reference, ordinal } => {
            let handle = imported(loaded, reference);
            registry.proc_address_by_ordinal(handle, ordinal)
        }
        Target::ByName { reference, name } => {
            let handle = imported(loaded, reference);
            registry.proc_address_by_name(handle, scratch.imported_name(name))
        }
    }
}

/// The value of a relocation record of a module; nowhere for a fixup of the system's.
fn record_value<A: Allocator>(
    registry: &Registry<A>,
    loaded: &Loaded<A>,
    scratch: &Scratch<A>,
    relocation: Record,
) -> Far
    ensures { far_of result ≡ value_of (finmap.get registry.now) loaded.now (record_target (text_in scratch.now.texts) relocation) }
{
    match relocation {
        Record::Stored(fixup) | Record::Added(fixup) => {
            target_value(registry, loaded, scratch, fixup.target)
        }
        Record::System => NOWHERE,
    }
}

/// A value for each relocation record of a module's segment, which the scratch has. An error is that memory ran out.
fn record_values<A: Allocator + Clone>(
    registry: &Registry<A>,
    loaded: &Loaded<A>,
    scratch: &Scratch<A>,
) -> Result<Vec<Far, A>, AllocError>
    ensures { IfOk result (λ values. AreValuesOf (finmap.get registry.now) loaded.now (map (record_target (text_in scratch.now.texts)) scratch.now.held.records) values.items) }
{
    let records = scratch.records();
    let mut values = room_for(registry.allocator(), records.len())?;
    for relocation in records {
        values.push_reserved(record_value(registry, loaded, scratch, *relocation));
    }
    Ok(values)
}

/// The values of the relocation records of a module's segment, by its number from 1. The segment is read and checked.
fn segment_values<S: Store, A: Allocator + Clone>(
    registry: &Registry<A>,
    store: &mut S,
    scratch: &mut Scratch<A>,
    loaded: &Loaded<A>,
    number: usize,
) -> Result<Vec<Far, A>, LoadFault>
    requires first { 0 < number }
    requires last { number ≤ length loaded.now.tables.segments }
    ensures stays { IsLater (S.files store.old) (S.failures store.old) (S.files store.new) (S.failures store.new) }
    ensures device { IfErr result (RoseIf is_fault_device (S.failures store.old) (S.failures store.new)) }
    ensures any { IfOk result (λ values. (targets : List loading.Target) × AreValuesOf (finmap.get registry.now) loaded.now targets values.items
        × ((read : ModuleFile) (s : SegmentData) → S.is_honest → IsSaid (S.files store.old) loaded.now read → slice_get read.segments (number - 1) ≡ Some s → targets ≡ targets_of s)) }
    ensures failed { (read : ModuleFile) (s : SegmentData) → S.is_honest → IsSaid (S.files store.old) loaded.now read → slice_get read.segments (number - 1) ≡ Some s → IfErr result (IsFailure (S.failures store.old) (S.failures store.new)) }
{
    match check(store, loaded.file(), loaded.module(), number, scratch) {
        Err(fault) => Err(fault_of_relocations(fault)),
        Ok(()) => match record_values(registry, loaded, scratch) {
            Err(_) => Err(LoadFault::OutOfMemory),
            Ok(values) => Ok(values),
        },
    }
}

/// The values of all relocation records of a module, segment by segment.
fn module_values<S: Store, A: Allocator + Clone>(
    registry: &Registry<A>,
    store: &mut S,
    scratch: &mut Scratch<A>,
    loaded: &Loaded<A>,
) -> Result<Vec<Vec<Far, A>, A>, LoadFault>
    ensures stays { IsLater (S.files store.old) (S.failures store.old) (S.files store.new) (S.failures store.new) }
    ensures device { IfErr result (RoseIf is_fault_device (S.failures store.old) (S.failures store.new)) }
    ensures any { IfOk result (λ values. (targets : List (List loading.Target)) × (length targets ≡ length loaded.now.tables.segments)
        × (map (λ v. map far_of v.items) values.items ≡ values_for (finmap.get registry.now) loaded.now targets)
        × ((read : ModuleFile) → S.is_honest → IsSaid (S.files store.old) loaded.now read → targets ≡ map targets_of read.segments)) }
    ensures failed { (read : ModuleFile) → S.is_honest → IsSaid (S.files store.old) loaded.now read → IfErr result (IsFailure (S.failures store.old) (S.failures store.new)) }
{
    let count = loaded.module().segment_count();
    let Ok(mut values) = room_for(registry.allocator(), count) else {
        return Err(LoadFault::OutOfMemory);
    };
    for place in 0..count {
        match segment_values(registry, store, scratch, loaded, place + 1) {
            Err(fault) => return Err(fault),
            Ok(segment) => values.push_reserved(segment),
        }
    }
    Ok(values)
}

/// Gives the module of a handle the values of its relocation records. A handle that names none changes nothing, and neither does a fault.
fn bind_module<S: Store, A: Allocator + Clone>(
    registry: &mut Registry<A>,
    store: &mut S,
    scratch: &mut Scratch<A>,
    handle: u16,
) -> Result<(), LoadFault>
    ensures stays { IsLater (S.files store.old) (S.failures store.old) (S.files store.new) (S.failures store.new) }
    ensures device { IfErr result (RoseIf is_fault_device (S.failures store.old) (S.failures store.new)) }
    ensures any { OnOk result ((targets : List (List loading.Target)) × IsForEach registry.old handle targets × (registry.new ≡ bound_as (finmap.get registry.old) registry.old handle targets)
        × ((read : ModuleFile) → S.is_honest → IsSomeAnd (module_at registry.old handle) (λ m. IsSaid (S.files store.old) m read) → targets ≡ map targets_of read.segments)) }
    ensures failed { (read : ModuleFile) → S.is_honest → IsSomeAnd (module_at registry.old handle) (λ m. IsSaid (S.files store.old) m read) → IfErr result (IsFailure (S.failures store.old) (S.failures store.new)) }
    ensures err { OnErr result (registry.new ≡ registry.old) }
{
    let Some(loaded) = registry.module(handle) else {
        return Ok(());
    };
    match module_values(registry, store, scratch, loaded) {
        Err(fault) => Err(fault),
        Ok(values) => {
            registry.set_values(handle, values);
            Ok(())
        }
    }
}

/// Gives the modules of these handles, the new ones of a load, the values of their relocation records: one after another, by what handles name.
/// Which of them have values already makes no difference. A handle that names no module is passed over.
///
/// A module whose file reads otherwise than it did refuses the load: a bad file, or a bad reference. After a fault some of them may have values, and nothing else has changed.
pub(crate) fn bind_modules<S: Store, A: Allocator + Clone>(
    registry: &mut Registry<A>,
    store: &mut S,
    scratch: &mut Scratch<A>,
    handles: &[u16],
) -> Result<(), LoadFault>
    ensures stays { IsLater (S.files store.old) (S.failures store.old) (S.files store.new) (S.failures store.new) }
    ensures device { IfErr result (RoseIf is_fault_device (S.failures store.old) (S.failures store.new)) }
    ensures values { (handle : ℕ) → without_values (finmap.get registry.new handle) ≡ without_values (finmap.get registry.old handle) }
    ensures others { (handle : ℕ) → is_member handle handles.now ≡ false → finmap.get registry.new handle ≡ finmap.get registry.old handle }
    ensures any { OnOk result ((targets : List (List (List loading.Target))) × AreTargets registry.old handles.now targets
        × (registry.new ≡ all_bound (finmap.get registry.old) registry.old handles.now targets)
        × ((reads : List ModuleFile) → S.is_honest → AreSaid (S.files store.old) registry.old handles.now reads → targets ≡ map (λ read. map targets_of read.segments) reads)) }
    ensures bound { (reads : List ModuleFile) → S.is_honest → AreSaid (S.files store.old) registry.old handles.now reads
        → OnOk result (registry.new ≡ all_bound (finmap.get registry.old) registry.old handles.now (map (λ read. map targets_of read.segments) reads)) }
    ensures faults { (reads : List ModuleFile) → S.is_honest → AreSaid (S.files store.old) registry.old handles.now reads
        → IfErr result (IsFailure (S.failures store.old) (S.failures store.new)) }
    ensures read { IfErr result (IsUnread (length handles.now)) }
{
    for (place, handle) in handles.iter().enumerate() {
        match bind_module(registry, store, scratch, *handle) {
            Err(fault) => return Err(fault_at(place, fault)),
            Ok(()) => {}
        }
    }
    Ok(())
}
