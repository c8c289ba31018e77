//! Why calls are refused.
ghost use Rattle.std.specs.Prelude.{◌≡◌, ◌≤◌, ◌<◌, IfNone, IfSome};
ghost use Rattle.w16_model.specs.Calls.{rounded_size};
ghost use Rattle.w16_model.specs.Request.{most_room};
ghost use Rattle.w16_local.specs.Parts.{alone};
ghost use Rattle.w16_kernel.specs.Runs.{command_of};
ghost use Rattle.w16_kernel.specs.Why.{IsThere, IsWhy, subject_of};
ghost use Rattle.w16_kernel.specs.Why.Subject.{LocalHeap, LocalObject, Module, Object, Selector};

use crate::call::Call;
use crate::kernel::Kernel;
use std::alloc::Allocator;
use w16_global::Global16;
use w16_local::LocalHeaps;
use w16_machine::local::LMEM_DISCARDABLE;
use w16_model::names::selector_in;
use w16_model::{GMEM_DISCARDABLE, has_flag};
use w16_resource::Loading;
use w16_store::Store;

/// Why a call is refused, of what it names.
#[derive(Debug, Clone, Copy, PartialEq, Eq)]
pub enum Why {
    BadHandle,
    BadSelector,
    BadModule,
    /// DS names none.
    NoLocalHeap,
    /// No object of the local heap has the name.
    BadName,
    /// A module owns the object.
    Owned,
    Locked,
    NotDiscardable,
    /// The object has no bytes.
    NoBytes,
    /// The offset of the last byte that the selector reaches.
    Limit(u32),
}

/// Why a call is refused that names a local object.
fn why_name<A: Allocator + Copy>(
    locals: &LocalHeaps<A>,
    global: &Global16<A>,
    ds: u16,
    call: &Call<'_>,
    name: u16,
) -> Option<Why>
    ensures holds { IfSome result (IsWhy (alone global.now.handles locals.now ds) (LocalObject name)) }
    ensures there { IfNone result (IsThere (alone global.now.handles locals.now ds) (LocalObject name)) }
{
    use Call::*;
    if !locals.has_heap(global, ds) {
        return Some(Why::NoLocalHeap);
    }
    let Some((size, flags)) = locals.size_and_flags(global, ds, name) else {
        return Some(Why::BadName);
    };
    match call {
        LocalFree { .. } | LocalDiscard { .. } if flags % 256 > 0 => Some(Why::Locked),
        LocalDiscard { .. } if !has_flag(flags, LMEM_DISCARDABLE) => Some(Why::NotDiscardable),
        LocalLock { .. } | LocalSize { .. } if size == 0 => Some(Why::NoBytes),
        _ => None,
    }
}

/// The most bytes that compaction could make free in a row. None after a call that has moved something.
fn longest<S: Store + Drop, A: Allocator + Copy>(loading: &mut Loading<S, A>) -> Option<u32>
    ensures most { IfSome result (λ most. most ≡ most_room loading.old.handles.heap) }
    ensures none { IfNone result (loading.old.handles.moved ≡ 0 → ⊥) }
    ensures same { loading.new ≡ loading.old }
{
    if loading.global.moved() != 0 {
        return None;
    }
    Some(loading.global.global_compact(0))
}

impl<S: Store + Drop, A: Allocator + Copy> Kernel<S, A> {
    /// Why a call is refused that names a global object by this handle.
    fn why_object(&self, call: &Call<'_>, handle: u16) -> Option<Why>
        ensures holds { IfSome result (IsWhy self.now (Object handle)) }
        ensures there { IfNone result (IsThere self.now (Object handle)) }
    {
        use Call::*;
        let Some(slot) = self.parts.loading.global.slot_of_handle(handle) else {
            return Some(Why::BadHandle);
        };
        let owned = self.parts.loading.global.is_owned(slot);
        let empty = self.parts.loading.global.global_size(handle) == 0;
        let flags = self.parts.loading.global.global_flags(handle);
        match call {
            GlobalFree { .. } | GlobalReAlloc { .. } | GlobalDiscard { .. } if owned => {
                Some(Why::Owned)
            }
            GlobalFree { .. } | GlobalDiscard { .. } if flags % 256 > 0 => Some(Why::Locked),
            GlobalLock { .. } | GlobalSize { .. } | GlobalLRUNewest { .. } | GlobalLRUOldest { .. }
                if empty => { Some(Why::NoBytes) }
            GlobalDiscard { .. } | GlobalLRUNewest { .. } | GlobalLRUOldest { .. }
                if !has_flag(flags, GMEM_DISCARDABLE) => { Some(Why::NotDiscardable) }
            _ => None,
        }
    }

    /// That a selector is bad, or the last byte that it reaches.
    fn why_selector(&self, selector: u16) -> Why
        ensures { IsWhy self.now (Selector selector) result }
    {
        if self.parts.loading.global.global_handle(selector) == 0 {
            Why::BadSelector
        } else {
            Why::Limit(self.parts.loading.global.get_selector_limit(selector))
        }
    }

    /// That no module has a handle, if none has it.
    fn why_module(&self, handle: u16) -> Option<Why>
        ensures holds { IfSome result (IsWhy self.now (Module handle)) }
        ensures there { IfNone result (IsThere self.now (Module handle)) }
    {
        match self.parts.loading.registry.get(handle) {
            None => Some(Why::BadModule),
            Some(_) => None,
        }
    }

    /// That DS names no local heap, if it names none.
    fn why_heap(&self) -> Option<Why>
        ensures holds { IfSome result (IsWhy self.now LocalHeap) }
        ensures there { IfNone result (IsThere self.now LocalHeap) }
    {
        if self
            .parts
            .locals
            .has_heap(&self.parts.loading.global, self.parts.ds)
        {
            None
        } else {
            Some(Why::NoLocalHeap)
        }
    }

    /// Why a call is refused that names a local object of this machine.
    fn why_local(&self, call: &Call<'_>, name: u16) -> Option<Why>
        ensures holds { IfSome result (IsWhy self.now (LocalObject name)) }
        ensures there { IfNone result (IsThere self.now (LocalObject name)) }
    {
        why_name(
            &self.parts.locals,
            &self.parts.loading.global,
            self.parts.ds,
            call,
            name,
        )
    }

    /// Why a call is refused, if it is, as far as what it names says: always where that isn't there, and of a selector.
    pub fn why(&self, call: &Call<'_>) -> Option<Why>
        ensures holds { IfSome result (IsWhy self.now (subject_of (command_of call.now))) }
        ensures there { IfNone result (IsThere self.now (subject_of (command_of call.now))) }
    {
        use Call::*;
        match *call {
            GlobalFree { handle }
            | GlobalLock { handle }
            | GlobalUnlock { handle }
            | GlobalReAlloc { handle, .. }
            | GlobalDiscard { handle }
            | GlobalLRUNewest { handle }
            | GlobalLRUOldest { handle }
            | GlobalSize { handle }
            | GlobalFlags { handle } => self.why_object(call, handle),
            GlobalHandle { selector }
            | GetSelectorBase { selector }
            | GetSelectorLimit { selector } => Some(self.why_selector(selector)),
            Read { pointer, .. } | Write { pointer, .. } | Fill { pointer, .. } => {
                Some(self.why_selector(selector_in(pointer)))
            }
            FreeLibrary { handle }
            | FreeModule { handle }
            | GetModuleUsage { handle }
            | GetProcAddress { handle, .. }
            | FindResource { handle, .. }
            | LoadResource { handle, .. }
            | SizeofResource { handle, .. } => self.why_module(handle),
            LocalReAlloc { name, .. }
            | LocalDiscard { name }
            | LocalFree { name }
            | LocalLock { name }
            | LocalUnlock { name }
            | LocalSize { name }
            | LocalFlags { name } => self.why_local(call, name),
            LocalAlloc { .. } | LocalCompact { .. } | LocalHandle { .. } => self.why_heap(),
            _ => None,
        }
    }

    /// The most bytes that compaction could make free in a row, where these are fewer than this size. None after a call that has moved something.
    pub fn lacks_room(&mut self, size: u32) -> Option<u32>
        ensures most { IfSome result (λ most. (most ≡ most_room self.old.loading.handles.heap) × (most < rounded_size size)) }
        ensures none { IfNone result (self.old.loading.handles.moved ≡ 0 → size ≤ most_room self.old.loading.handles.heap) }
        ensures same { self.new ≡ self.old }
    {
        let most = longest(&mut self.parts.loading)?;
        if most < size { Some(most) } else { None }
    }
}
