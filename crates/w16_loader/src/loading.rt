//! Loads of modules: `LoadModule` and `LoadLibrary`.
ghost use Rattle.std.specs.Prelude.{◌≡◌, ◌≢◌, ◌≤◌, ◌<◌, ℕ, Bool, false, List, [], None, length, fold, All, IfOk, IfErr, OnErr};
ghost use Rattle.w16_store.specs.Later.{IsLater, RoseIf};
ghost use Rattle.w16_loader.specs.Devices.{is_of_device, is_load_device, is_fault_device};
ghost use Rattle.std.specs.FinMap as finmap;
ghost use Rattle.w16_model.specs.Law.{AreHandles};
ghost use Rattle.w16_loading.specs.Closure as closing;
ghost use Rattle.w16_loading.specs.{Answers.LoadsFrom, Answers.told, Fewest.FillsFewest};
ghost use Rattle.w16_loading.specs.Free.{without_module};
ghost use Rattle.w16_loading.specs.Load as loading;
ghost use Rattle.w16_loading.specs.Load.Answer.{Says, StoreFails};
ghost use Rattle.w16_loading.specs.Modules.{LoadingWorld, free_modules, handle_named, module_at, with_handles};
ghost use Rattle.w16_format.specs.Ne.{ne_format};
ghost use Rattle.w16_loader.specs.Answering.{AreAccepted, IsAccepted, answers_of};
ghost use Rattle.w16_format.specs.Tables.{tables_in};
ghost use Rattle.w16_loader.specs.Naming.{AreUnbound, IsClosureOf, IsUnbound};
ghost use Rattle.w16_loader.specs.declared.fault.LoadFault.TheVariants.{OutOfMemory};
ghost use Rattle.w16_loader.specs.Registry.{in_world};
ghost use Rattle.w16_loader.specs.Loading.{LoadsHeld, IsGivenHeld, load_answer, is_application, in_store, refused_by, fault_of_failure};

use crate::binding::bind_modules;
use crate::closure::{Closure, close};
use crate::ending::release_modules;
use crate::fault::{Failure, LoadFault, damage_at};
use crate::filling::fill_modules;
use crate::found::{Reading, Referent, examine_file};
use crate::naming::name_modules;
use crate::registry::Registry;
use crate::tagged::{Found, name_tag};
use std::alloc::{AllocError, Allocator, Global};
use w16_global::Global16;
use w16_loading::{FetchFault, LoadRefusal};
use w16_ne::Module;
use w16_reloc::Scratch;
use w16_store::Store;

/// What a load answers.
#[derive(Clone, Copy, Debug, PartialEq, Eq)]
pub enum LoadAnswer {
    /// The handle of the module asked for, or the number of a refusal.
    Says(u16),
    /// The store's device failed, and nothing is loaded.
    StoreFails,
}

/// What a load that fails answers; an error is that there was no memory.
fn refuse(fault: LoadFault) -> Result<LoadAnswer, AllocError>
    ensures answer { result ≡ refused_by fault }
    ensures device { IfOk result (λ answer. is_load_device answer ≡ is_fault_device fault) }
{
    match fault {
        LoadFault::Refused(refusal) => Ok(LoadAnswer::Says(refusal.number())),
        LoadFault::Device => Ok(LoadAnswer::StoreFails),
        LoadFault::OutOfMemory => Err(AllocError),
    }
}

/// Why a load fails where an object of a module got no bytes: a file that reads otherwise than it did is as one that isn't accepted.
fn fault_of_failure(failure: Failure) -> LoadFault
    ensures fault { result ≡ fault_of_failure failure.place failure.fault }
    ensures memory { result ≢ OutOfMemory }
    ensures device { is_fault_device result ≡ is_of_device failure.fault }
{
    match failure.fault {
        FetchFault::Store => LoadFault::Device,
        FetchFault::NoRoom => LoadFault::Refused(LoadRefusal::NoRoom),
        FetchFault::Damaged => LoadFault::Refused(damage_at(failure.place)),
    }
}

/// Whether a handle names an application: false for a library, for a built-in, and for a bad handle.
fn is_application<A: Allocator>(registry: &Registry<A>, handle: u16) -> bool
    ensures { result ≡ is_application (module_at registry.now handle) }
{
    match registry.module(handle) {
        None => false,
        Some(loaded) => !loaded.module().library(),
    }
}

/// Counts one explicit use more of what a handle names, if it has fewer than 65,000: the handle, or 0.
fn count_use<A: Allocator>(registry: &mut Registry<A>, handle: u16) -> u16
    ensures { (rest : LoadingWorld) → loading.used_again false (in_world rest registry.old) handle (finmap.get registry.old handle) ≡ (Says result, in_world rest registry.new) }
{
    if registry.use_again(handle) {
        handle
    } else {
        LoadRefusal::NoRoom.number()
    }
}

/// Loads a module that is there, or a built-in, once more: its handle, and one explicit use more of a module. 16, and nothing changes, where
/// `LoadModule` asks for an application; 0, and nothing changes, where the module has 65,000 explicit uses.
fn load_again<A: Allocator>(registry: &mut Registry<A>, handle: u16, is_load_module: bool) -> u16
    ensures { (rest : LoadingWorld) → loading.used_again is_load_module (in_world rest registry.old) handle (finmap.get registry.old handle) ≡ (Says result, in_world rest registry.new) }
{
    if !is_load_module {
        return count_use(registry, handle);
    }
    if is_application(registry, handle) {
        return LoadRefusal::LoadedTwice.number();
    }
    count_use(registry, handle)
}

/// Gives the new modules of a load, which have names, the values of their relocation records, and then its fixed and preload segments their bytes.
fn bind_and_fill<S: Store, A: Allocator + Copy>(
    registry: &mut Registry<A>,
    global: &mut Global16<A>,
    store: &mut S,
    scratch: &mut Scratch<A>,
    handles: &[u16],
) -> Result<(), LoadFault>
    ensures stays { IsLater (S.files store.old) (S.failures store.old) (S.files store.new) (S.failures store.new) }
    ensures device { IfErr result (RoseIf is_fault_device (S.failures store.old) (S.failures store.new)) }
    ensures given { (rest : LoadingWorld) (old : LoadingWorld) (meant : closing.Closure) (start : ℕ) → start ≤ S.failures store.old → AreHandles old.handles → AreAccepted (answers_of S.is_honest (S.files store.old)) meant.found
        → AreUnbound old meant handles.now (in_world (with_handles rest global.old.handles) registry.old)
        → IsGivenHeld S.is_honest (S.files store.old) start (S.failures store.new) old meant handles.now result (in_world (with_handles rest global.new.handles) registry.new) }
    ensures undone { (rest : LoadingWorld) (old : LoadingWorld) (meant : closing.Closure) → AreHandles old.handles
        → IsUnbound old meant handles.now (in_world (with_handles rest global.old.handles) registry.old)
        → IfErr result (λ fault. fault ≡ OutOfMemory → fold without_module (in_world (with_handles rest global.new.handles) registry.new) handles.now ≡ old) }
    ensures written { IfErr result (λ fault. fault ≡ OutOfMemory → global.new.written ≡ global.old.written) }
{
    match bind_modules(registry, store, scratch, handles) {
        Err(fault) => Err(fault),
        Ok(()) => match fill_modules(registry, global, store, scratch, handles) {
            Ok(()) => Ok(()),
            Err(failure) => Err(fault_of_failure(failure)),
        },
    }
}

/// Loads the new modules of a closure: each gets a handle, its segments get objects, its records their values, and its fixed and preload segments
/// their bytes. Where one of these fails, all that was made is taken back, but the discards that were made for it.
fn load_closure<S: Store, A: Allocator + Copy>(
    registry: &mut Registry<A>,
    global: &mut Global16<A>,
    store: &mut S,
    scratch: &mut Scratch<A>,
    closure: Closure<A>,
) -> Result<LoadAnswer, AllocError>
    requires some { 0 < length closure.found.items }
    requires few { length closure.found.items ≤ free_modules registry.old }
    ensures stays { IsLater (S.files store.old) (S.failures store.old) (S.files store.new) (S.failures store.new) }
    ensures device { IfOk result (RoseIf is_load_device (S.failures store.old) (S.failures store.new)) }
    ensures loads { (rest : LoadingWorld) (meant : closing.Closure) (start : ℕ) → start ≤ S.failures store.old → IsClosureOf closure meant → AreAccepted (answers_of S.is_honest (S.files store.old)) meant.found
        → IfOk result (λ answer. LoadsHeld S.is_honest (S.files store.old) start (S.failures store.new) (in_world (with_handles rest global.old.handles) registry.old) meant (load_answer answer) (in_world (with_handles rest global.new.handles) registry.new)) }
    ensures err { OnErr result ((registry.new ≡ registry.old) × (global.new ≡ global.old)) }
{
    global.reveal_handles();
    let handles = match name_modules(registry, global, closure) {
        Ok(handles) => handles,
        Err(fault) => return refuse(fault),
    };
    match bind_and_fill(registry, global, store, scratch, handles.as_slice()) {
        Ok(()) => Ok(LoadAnswer::Says(handles[0])),
        Err(fault) => {
            release_modules(registry, global, handles.as_slice());
            refuse(fault)
        }
    }
}

/// Loads a module that was read of its file and isn't there, with all new modules that it and these refer to.
fn load_new<S: Store, A: Allocator + Copy>(
    alloc: A,
    registry: &mut Registry<A>,
    global: &mut Global16<A>,
    store: &mut S,
    scratch: &mut Scratch<A>,
    file: &[u8],
    read: Module<A>,
) -> Result<LoadAnswer, AllocError>
    requires { 0 < free_modules registry.old }
    ensures stays { IsLater (S.files store.old) (S.failures store.old) (S.files store.new) (S.failures store.new) }
    ensures device { IfOk result (RoseIf is_load_device (S.failures store.old) (S.failures store.new)) }
    ensures loads { (rest : LoadingWorld) (start : ℕ) → start ≤ S.failures store.old → IsAccepted (answers_of S.is_honest (S.files store.old)) file.now (tables_in read) → handle_named registry.old read.name ≡ None
        → IfOk result (λ answer. (is_load_module : Bool) → LoadsFrom FillsFewest (told S.is_honest ne_format (S.files store.old) start (S.failures store.new)) is_load_module (in_store rest registry.old global.old.handles (S.files store.old) start) file.now (load_answer answer)
        (in_store rest registry.new global.new.handles (S.files store.old) start)) }
    ensures err { OnErr result ((registry.new ≡ registry.old) × (global.new ≡ global.old)) }
{
    let name = registry.copy_of(file)?;
    let tag = name_tag(read.name());
    match close(
        alloc,
        registry,
        store,
        scratch,
        Found {
            file: name,
            module: read,
            tag,
        },
    ) {
        Err(fault) => refuse(fault),
        Ok(closure) => load_closure(registry, global, store, scratch, closure),
    }
}

/// `LoadModule` and `LoadLibrary`: loads a module by the name of its file, with all modules that it refers to, and those these refer to; or counts
/// one explicit use more where its module is there. The handle; or a number that refuses it, after which nothing is loaded:
///
/// 2 where there is no such file; 12, 13 or 14 where it is for another target system than Windows; 11 where it isn't accepted otherwise, or its
/// relocations aren't sound; 16 where `LoadModule` asks for an application that is there; 20 where a file that a reference leads to is refused for
/// one of these; 0 where there is no handle, no slot or no room, or where a module has 65,000 explicit uses. `StoreFails` where the store's device
/// failed. An error is that memory ran out.
///
/// New modules get the lowest free handles in the order in which references lead to them, breadth first, and each segment gets an object; their
/// relocation records are bound once, before any room is asked for. Then the fixed and the preload segments get their bytes, one after another, each
/// by a request of its own: others slide and are discarded for it, as few as can be. A load that is refused takes back all that it made, but the
/// discards.
///
/// Whatever the store answers, also where it reads otherwise each time, it is a load of what the store answered.
pub fn load<S: Store, A: Allocator + Copy>(
    alloc: A,
    registry: &mut Registry<A>,
    global: &mut Global16<A>,
    store: &mut S,
    scratch: &mut Scratch<A>,
    file: &[u8],
    is_load_module: bool,
) -> Result<LoadAnswer, AllocError>
    ensures stays { IsLater (S.files store.old) (S.failures store.old) (S.files store.new) (S.failures store.new) }
    ensures device { IfOk result (RoseIf is_load_device (S.failures store.old) (S.failures store.new)) }
    ensures over { (rest : LoadingWorld) → IfOk result (λ answer. LoadsFrom FillsFewest (told S.is_honest ne_format (S.files store.old) (S.failures store.old) (S.failures store.new)) is_load_module
        (in_store rest registry.old global.old.handles (S.files store.old) (S.failures store.old)) file.now (load_answer answer)
        (in_store rest registry.new global.new.handles (S.files store.old) (S.failures store.old))) }
    ensures err { OnErr result ((registry.new ≡ registry.old) × (global.new ≡ global.old)) }
{
    let found = Vec::new(alloc);
    match examine_file(alloc, registry, store, found.as_slice(), scratch, file) {
        Err(fault) => refuse(fault),
        Ok(Reading::Meant(Referent::There(handle))) => {
            Ok(LoadAnswer::Says(load_again(registry, handle, is_load_module)))
        }
        // No module was found yet, so no name means one.
        Ok(Reading::Meant(Referent::New(_))) => unreachable!(),
        Ok(Reading::Read(read)) => load_new(alloc, registry, global, store, scratch, file, read),
    }
}
