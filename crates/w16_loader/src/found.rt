//! New modules of a load, and what it makes of a name and of a file.
ghost use Rattle.std.specs.Prelude.{◌≡◌, ◌≤◌, ◌==◌, ◌&&◌, List, ℕ, Some, Ok, Err, true, false, map, option_map, position, IfOk, IfErr, OnOk, All, MatchResult};
ghost use Rattle.w16_store.specs.Names as names;
ghost use Rattle.w16_store.specs.Files.{file_of};
ghost use Rattle.w16_ne.specs.Reading.{is_ne_device};
ghost use Rattle.w16_reloc.specs.Segments.{is_reloc_device};
ghost use Rattle.w16_store.specs.Later.{IsLater, RoseIf, is_device};
ghost use Rattle.w16_loader.specs.Devices.{is_fault_device};
ghost use Rattle.w16_ne.specs.Modules.{tables_at};
ghost use Rattle.w16_loading.specs.Closure as closing;
ghost use Rattle.w16_loading.specs.Closure.{are_sound};
ghost use Rattle.w16_loading.specs.Closure.Reading.{Refused};
ghost use Rattle.w16_loading.specs.Refusals.{is_of_format};
ghost use Rattle.w16_loading.specs.declared.LoadRefusal.TheVariants.{BadFile};
ghost use Rattle.w16_format.specs.Ne as ne;
ghost use Rattle.w16_format.specs.Tables.{segment_in, tables_in};
ghost use Rattle.w16_loader.specs.Answering.{IsAccepted, MakesOf, ReadsIn, answers_of};
ghost use Rattle.w16_loader.specs.Naming.{IsFit};
ghost use Rattle.w16_loader.specs.Closing as loads;
ghost use Rattle.w16_loader.specs.Closing.{Files, around_in, referent_of, found_in, said, IsFileWith, IsFault, IsUnsound, IsThere};

use crate::fault::LoadFault;
use crate::registry::Registry;
use crate::tagged::{Found, name_tag};
use std::alloc::{Allocator, Global};
use w16_loading::LoadRefusal;
use w16_ne::{Module, NeFault, read_module};
use w16_reloc::{RelocFault, Scratch, check};
use w16_store::{Store, StoreFault};

/// What a name means to a load.
#[derive(Clone, Copy, Debug, PartialEq, Eq)]
pub enum Referent {
    /// A module or built-in that is there, by its handle.
    There(u16),
    /// A new module of this load, by its place among them from 0.
    New(usize),
}

/// The first new module of a name that has this tag.
fn place_named<A: Allocator>(found: &[Found<A>], tag: u32, name: &[u8]) -> Option<usize>
    ensures { result ≡ position (λ f. (f.tag == tag) && names.is_named f.module.name name.now) found.now }
{
    found.iter().position(|found| found.is_tagged(tag, name))
}

/// What a name means to a load, in any case of letters: a module or built-in that is there, else a new module; none where neither has it.
pub fn meant<A: Allocator>(
    registry: &Registry<A>,
    found: &[Found<A>],
    name: &[u8],
) -> Option<Referent>
    ensures { (files : Files) → option_map referent_of result ≡ closing.meant (around_in registry.now files) (map (found_in files) found.now) name.now }
{
    let tag = name_tag(name);
    match registry.handle_tagged(tag, name) {
        Some(handle) => Some(Referent::There(handle)),
        None => {
            let place = place_named(found, tag, name)?;
            Some(Referent::New(place))
        }
    }
}

/// Why a load makes no module of a file whose length can't be had.
fn fault_of_length(fault: StoreFault) -> LoadFault
    ensures fault { result ≡ loads.fault_of_length fault }
    ensures device { is_fault_device result ≡ is_device fault }
{
    match fault {
        StoreFault::Missing => LoadFault::Refused(LoadRefusal::NoFile),
        StoreFault::Device => LoadFault::Device,
        StoreFault::Short => LoadFault::Refused(LoadRefusal::BadFile),
    }
}

/// Why a load makes no module of a file that is there, by the fault of its tables.
fn fault_of_tables(fault: NeFault) -> LoadFault
    ensures fault { result ≡ loads.fault_of_tables fault }
    ensures refuses { IsFault (λ refusal. is_of_format refusal ≡ true) 0 1 result }
    ensures device { is_fault_device result ≡ is_ne_device fault }
{
    match fault {
        NeFault::OutOfMemory => LoadFault::OutOfMemory,
        NeFault::Store(StoreFault::Device) => LoadFault::Device,
        NeFault::Target(1) => LoadFault::Refused(LoadRefusal::ForOs2),
        NeFault::Target(3) => LoadFault::Refused(LoadRefusal::ForDos4),
        NeFault::Target(_) => LoadFault::Refused(LoadRefusal::ForOtherSystem),
        _ => LoadFault::Refused(LoadRefusal::BadFile),
    }
}

/// Why a load makes no module of a file, by the fault of a segment's relocations.
pub(crate) fn fault_of_relocations(fault: RelocFault) -> LoadFault
    ensures fault { result ≡ loads.fault_of_relocations fault }
    ensures refuses { IsFault (λ refusal. refusal ≡ BadFile) 0 1 result }
    ensures device { is_fault_device result ≡ is_reloc_device fault }
{
    match fault {
        RelocFault::Store(StoreFault::Device) => LoadFault::Device,
        _ => LoadFault::Refused(LoadRefusal::BadFile),
    }
}

/// What the file of a name says, or why a load makes no module of it.
pub fn read_file<S: Store, A: Allocator + Copy>(
    alloc: A,
    store: &mut S,
    name: &[u8],
) -> Result<Module<A>, LoadFault>
    ensures stays { IsLater (S.files store.old) (S.failures store.old) (S.files store.new) (S.failures store.new) }
    ensures device { IfErr result (RoseIf is_fault_device (S.failures store.old) (S.failures store.new)) }
    ensures says { MatchResult result (λ read. (answers_of S.is_honest (S.files store.old)).says name.now (Ok (tables_in read))) (IsFault (λ refusal. (answers_of S.is_honest (S.files store.old)).says name.now (Err refusal)) (S.failures store.old) (S.failures store.new)) }
{
    match store.len_of(name) {
        Err(fault) => Err(fault_of_length(fault)),
        Ok(_) => match read_module(alloc, store, name) {
            Err(fault) => Err(fault_of_tables(fault)),
            Ok(module) => Ok(module),
        },
    }
}

/// Whether the relocations of all segments of a module are sound, in the file from which it was read; where they aren't, it is a bad file.
pub fn check_segments<S: Store, A: Allocator>(
    store: &mut S,
    name: &[u8],
    module_file: &Module<A>,
    scratch: &mut Scratch<A>,
) -> Result<(), LoadFault>
    ensures stays { IsLater (S.files store.old) (S.failures store.old) (S.files store.new) (S.failures store.new) }
    ensures device { IfErr result (RoseIf is_fault_device (S.failures store.old) (S.failures store.new)) }
    ensures checked { (answers_of S.is_honest (S.files store.old)).says name.now (Ok (tables_in module_file.now)) → MatchResult result (λ _. IsAccepted (answers_of S.is_honest (S.files store.old)) name.now (tables_in module_file.now))
        (IsFault (λ refusal. (answers_of S.is_honest (S.files store.old)).sound name.now (tables_in module_file.now) false × (refusal ≡ BadFile)) (S.failures store.old) (S.failures store.new)) }
{
    for place in 0..module_file.segment_count() {
        // Its size is one that an object may have.
        let _ = module_file.segment(place + 1);
        match check(store, name, module_file, place + 1, scratch) {
            Err(fault) => return Err(fault_of_relocations(fault)),
            Ok(()) => {}
        }
    }
    Ok(())
}

/// What a load makes of a file that it doesn't refuse.
#[derive(Drop)]
pub enum Reading<A: Allocator = Global> {
    /// The module of its name is there already.
    Meant(Referent),
    /// It is a new module.
    Read(Module<A>),
}

/// What a load that has found some modules makes of a module that was read of a file.
fn examine_module<S: Store, A: Allocator>(
    registry: &Registry<A>,
    store: &mut S,
    found: &[Found<A>],
    scratch: &mut Scratch<A>,
    name: &[u8],
    read: Module<A>,
) -> Result<Reading<A>, LoadFault>
    ensures stays { IsLater (S.files store.old) (S.failures store.old) (S.files store.new) (S.failures store.new) }
    ensures device { IfErr result (RoseIf is_fault_device (S.failures store.old) (S.failures store.new)) }
    ensures makes { (answers_of S.is_honest (S.files store.old)).says name.now (Ok (tables_in read)) → MatchResult result (MakesOf (answers_of S.is_honest (S.files store.old)) registry.now found.now name.now)
        (IsFault (λ refusal. ReadsIn (answers_of S.is_honest (S.files store.old)) registry.now found.now name.now (Refused refusal)) (S.failures store.old) (S.failures store.new)) }
{
    match meant(registry, found, read.name()) {
        Some(referent) => Ok(Reading::Meant(referent)),
        None => match check_segments(store, name, &read, scratch) {
            Err(fault) => Err(fault),
            Ok(()) if found.len() < registry.free_count() => Ok(Reading::Read(read)),
            Ok(()) => Err(LoadFault::Refused(LoadRefusal::NoRoom)),
        },
    }
}

/// What a load that has found some modules makes of a file: the module of its name is there already, or it is a new one, whose relocations are
/// sound and for which a handle is left; or why it is refused.
///
/// Whatever the store answers, a new module has a name that nothing has, and what is there already has a handle, or a place among the modules found.
pub fn examine_file<S: Store, A: Allocator + Copy>(
    alloc: A,
    registry: &Registry<A>,
    store: &mut S,
    found: &[Found<A>],
    scratch: &mut Scratch<A>,
    name: &[u8],
) -> Result<Reading<A>, LoadFault>
    ensures stays { IsLater (S.files store.old) (S.failures store.old) (S.files store.new) (S.failures store.new) }
    ensures device { IfErr result (RoseIf is_fault_device (S.failures store.old) (S.failures store.new)) }
    ensures makes { MatchResult result (MakesOf (answers_of S.is_honest (S.files store.old)) registry.now found.now name.now) (IsFault (λ refusal. ReadsIn (answers_of S.is_honest (S.files store.old)) registry.now found.now name.now (Refused refusal)) (S.failures store.old) (S.failures store.new)) }
    ensures there { IfOk result (IsThere registry.now found.now) }
{
    match read_file(alloc, store, name) {
        Err(fault) => Err(fault),
        Ok(read) => examine_module(registry, store, found, scratch, name, read),
    }
}
