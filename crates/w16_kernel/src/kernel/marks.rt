//! Modules one by one, by a table of the client's: those that were loaded, and those that the end of a use would free.
ghost use Rattle.std.specs.Prelude.{◌≡◌, ◌≢◌, ◌<◌, ℕ, false, true, if◌then◌else◌, length, slice_index_or, IfNone, IfSome, IsFalse, IsTrue};
ghost use Rattle.w16_kernel.specs.Marks as meaning;
ghost use Rattle.w16_kernel.specs.Marks.{ComesNext, GoesNext, IsLeftIdle};

use crate::kernel::Kernel;
use std::alloc::Allocator;
use w16_loader::Registry;
use w16_loading::{FIRST_MODULE, MOST_MODULES};
use w16_store::Store;

/// How many handles there are up to the last module's, counted from 0. The rest of a longer table is ignored.
pub const MODULE_HANDLES: usize = (FIRST_MODULE + MOST_MODULES) as usize;

/// Whether a table marks a handle.
fn is_marked(marks: &[u8], handle: u16) -> bool
    ensures { result ≡ meaning.is_marked marks.now handle }
{
    match marks.get(usize::from(handle)) {
        Some(mark) => *mark != 0,
        None => false,
    }
}

/// Whether a module's file refers to a module or a built-in.
#[tactic(auto, unfolding(crate::specs::Marks::refers_to))]
fn refers_to<A: Allocator>(registry: &Registry<A>, handle: u16, other: u16) -> bool
    ensures { result ≡ meaning.refers_to registry.now handle other }
{
    match registry.get(handle) {
        Some(entry) => entry.imports(other),
        None => false,
    }
}

/// Whether a module is new: a table has a byte for its handle, and doesn't mark it.
#[tactic(auto, unfolding(crate::specs::Marks::is_new))]
fn is_new<A: Allocator>(registry: &Registry<A>, marks: &[u8], handle: u16) -> bool
    ensures new { result ≡ meaning.is_new registry.now marks.now handle }
    ensures inside { IsTrue result → handle < MODULE_HANDLES }
    ensures told { IsTrue result → handle < length marks.now }
{
    usize::from(handle) < marks.len().min(MODULE_HANDLES)
        && !is_marked(marks, handle)
        && registry.module(handle).is_some()
}

/// The first new module that isn't on a way yet: of those that its end refers to, or of all while nothing is on it.
#[tactic(auto, unfolding(crate::specs::Marks::is_new))]
fn next_on_way<A: Allocator>(
    registry: &Registry<A>,
    marks: &[u8],
    way: &[bool],
    end: Option<u16>,
) -> Option<u16>
    requires { length way.now ≡ MODULE_HANDLES }
    ensures found { IfSome result (λ next. (meaning.is_new registry.now marks.now next ≡ true) × IfSome end (λ end. meaning.refers_to registry.now end next ≡ true)) }
    ensures off { IfSome result (λ next. slice_index_or way.now next false ≡ false) }
    ensures inside { IfSome result (λ next. (next < MODULE_HANDLES) × (next < length marks.now)) }
    ensures none { IfNone result ((other : ℕ) → meaning.is_new registry.now marks.now other ≡ true
        → IfSome end (λ end. meaning.refers_to registry.now end other ≡ true) → slice_index_or way.now other false ≡ true) }
{
    for other in 0..FIRST_MODULE + MOST_MODULES {
        if is_new(registry, marks, other)
            && !way[usize::from(other)]
            && end.is_none_or(|end| refers_to(registry, end, other))
        {
            return Some(other);
        }
    }
    None
}

/// The last module of a way of new ones, each of which refers to the next, once it refers to no other.
fn end_of_way<A: Allocator>(registry: &Registry<A>, marks: &[u8]) -> Option<u16>
    ensures next { ComesNext registry.now marks.now result }
    ensures inside { IfSome result (λ end. end < length marks.now) }
{
    let mut way = [false; MODULE_HANDLES];
    let mut end = None;
    while let Some(next) = next_on_way(registry, marks, &way, end) {
        way[usize::from(next)] = true;
        end = Some(next);
    }
    end
}

/// Whether another module refers to a module, of those that aren't marked.
fn is_imported<A: Allocator>(registry: &Registry<A>, marks: &[u8], handle: u16) -> bool
    ensures yes { IsTrue result → (other : ℕ) × (other < MODULE_HANDLES) × (other ≢ handle) × (meaning.is_marked marks.now other ≡ false) × (meaning.refers_to registry.now other handle ≡ true) }
    ensures no { IsFalse result → (other : ℕ) → other < MODULE_HANDLES → other ≢ handle → meaning.is_marked marks.now other ≡ false → meaning.refers_to registry.now other handle ≡ false }
{
    for other in 0..FIRST_MODULE + MOST_MODULES {
        if other != handle && !is_marked(marks, other) && refers_to(registry, other, handle) {
            return true;
        }
    }
    false
}

/// Whether nobody uses a module once `ended` has a use less, and the marked modules have gone.
fn is_left_idle<A: Allocator>(registry: &Registry<A>, ended: u16, marks: &[u8], handle: u16) -> bool
    ensures yes { IsTrue result → IsLeftIdle registry.now ended marks.now handle }
    ensures no { IsFalse result → IsLeftIdle registry.now ended marks.now handle → ⊥ }
{
    let Some(loaded) = registry.module(handle) else {
        return false;
    };
    loaded.uses() <= u32::from(handle == ended)
        && !is_marked(marks, handle)
        && !is_imported(registry, marks, handle)
}

/// The first such module, of those that a table has a byte for.
fn first_left_idle<A: Allocator>(registry: &Registry<A>, ended: u16, marks: &[u8]) -> Option<u16>
    ensures next { GoesNext registry.now ended marks.now result }
    ensures inside { IfSome result (λ handle. handle < length marks.now) }
{
    for handle in 0..marks.len().min(MODULE_HANDLES) as u16 {
        if is_left_idle(registry, ended, marks, handle) {
            return Some(handle);
        }
    }
    None
}

impl<S: Store + Drop, A: Allocator + Copy> Kernel<S, A> {
    /// The next module that was loaded, of those that a table of the client's doesn't mark: it has a byte for each handle, up to the last module's, which is
    /// 0 of a module that isn't marked. A module comes after those that its file refers to, except where they lead back to it. None is left
    /// where the table marks all modules that it has a byte for.
    pub fn next_loaded(&self, marks: &[u8]) -> Option<u16>
        ensures next { ComesNext self.now.loading.modules marks.now result }
        ensures inside { IfSome result (λ handle. handle < length marks.now) }
    {
        end_of_way(&self.parts.loading.registry, marks)
    }

    /// The next module that `FreeLibrary` or `FreeModule` of a handle would free, once those are gone that such a table marks: none uses it then. None
    /// is left where the table marks all that would go.
    pub fn next_freed(&self, ended: u16, marks: &[u8]) -> Option<u16>
        ensures next { GoesNext self.now.loading.modules ended marks.now result }
        ensures inside { IfSome result (λ handle. handle < length marks.now) }
    {
        first_left_idle(&self.parts.loading.registry, ended, marks)
    }
}
