//! Uses that end: what nobody uses goes, with its objects.
ghost use Rattle.std.specs.Prelude.{◌≡◌, ◌<◌, ℕ, List, fold, All, IfSome};
ghost use Rattle.std.specs.FinMap as finmap;
ghost use Rattle.w16_model.specs.Discards.{is_member};
ghost use Rattle.w16_model.specs.Law.{without_slot};
ghost use Rattle.w16_loading.specs.Modules.{LoadingWorld, module_at, with_handles};
ghost use Rattle.w16_loading.specs.Release.{without_objects};
ghost use Rattle.w16_loading.specs.Free.{EndsUse, Go, without_module};
ghost use Rattle.w16_loader.specs.Registry.{in_world};

use crate::registry::Registry;
use std::alloc::Allocator;
use w16_global::Global16;
use w16_model::names::selector_of;

/// `FreeLibrary` and `FreeModule`: one explicit use less of a module, if it has one. Then each module goes that has no explicit use and that no
/// other module imports, with the objects of all its segments, locked or not; and then what only such modules imported, until none is left.
/// 1 where the handle names something still, as a built-in's always does, else 0. It reads no file, takes no memory of the host, and writes no
/// byte of the heap's.
///
/// Each module that goes costs one pass over its own imports, and one over the handles.
pub fn free<A: Allocator + Copy>(
    registry: &mut Registry<A>,
    global: &mut Global16<A>,
    handle: u16,
) -> u16
    ensures ends { (rest : LoadingWorld) → EndsUse (in_world (with_handles rest global.old.handles) registry.old) handle result (in_world (with_handles rest global.new.handles) registry.new) }
    ensures written { global.new.written ≡ global.old.written }
{
    registry.end_use(handle);
    release_idle(registry, global);
    u16::from(registry.get(handle).is_some())
}

/// Modules that nobody uses go, one after another, until none is left.
fn release_idle<A: Allocator + Copy>(registry: &mut Registry<A>, global: &mut Global16<A>)
    ensures go { (rest : LoadingWorld) → (gone : List ℕ) × Go (in_world (with_handles rest global.old.handles) registry.old) gone (in_world (with_handles rest global.new.handles) registry.new) }
    ensures written { global.new.written ≡ global.old.written }
{
    while let Some(handle) = registry.first_idle() {
        release_module(registry, global, handle);
    }
}

/// A module goes, with the objects of its segments. A handle that names none changes nothing.
fn release_module<A: Allocator + Copy>(
    registry: &mut Registry<A>,
    global: &mut Global16<A>,
    handle: u16,
)
    ensures gone { (rest : LoadingWorld) → in_world (with_handles rest global.new.handles) registry.new ≡ without_module (in_world (with_handles rest global.old.handles) registry.old) handle }
    ensures fewer { IfSome (module_at registry.old handle) (λ _. finmap.len registry.new < finmap.len registry.old) }
    ensures written { global.new.written ≡ global.old.written }
{
    if let Some(loaded) = registry.remove(handle) {
        release_slots(global, loaded.slots());
    }
}

/// The modules of these handles go, with the objects of all their segments, locked or not, used or not. A handle that names none changes nothing.
pub(crate) fn release_modules<A: Allocator + Copy>(
    registry: &mut Registry<A>,
    global: &mut Global16<A>,
    handles: &[u16],
)
    ensures gone { (rest : LoadingWorld) → in_world (with_handles rest global.new.handles) registry.new ≡ fold without_module (in_world (with_handles rest global.old.handles) registry.old) handles.now }
    ensures written { global.new.written ≡ global.old.written }
{
    for handle in handles {
        release_module(registry, global, *handle);
    }
}

/// The objects of these slots go, locked or not.
pub(crate) fn release_slots<A: Allocator + Copy>(global: &mut Global16<A>, slots: &[u16])
    requires { All (λ q. q < 8192) slots.now }
    ensures gone { (rest : LoadingWorld) → with_handles rest global.new.handles ≡ without_objects (λ q. is_member q slots.now) (with_handles rest global.old.handles) }
    ensures written { global.new.written ≡ global.old.written }
{
    for slot in slots {
        release_slot(global, *slot);
    }
}

/// The object of a slot goes, locked or not, if there is one.
pub fn release_slot<A: Allocator + Copy>(global: &mut Global16<A>, slot: u16)
    requires { slot < 8192 }
    ensures { global.new ≡ record global.old { handles = without_slot global.old.handles slot } }
{
    global.reveal_handles();
    // A fixed object's handle is its selector, any other's the number below it. So at least one of the two is bad.
    let selector = selector_of(slot);
    global.release(selector);
    global.release(selector - 1);
}
