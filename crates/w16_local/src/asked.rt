//! What programs ask of local objects. These calls change nothing.
ghost use Rattle.w16_machine.specs.World.{World};
ghost use Rattle.std.specs.Prelude.{◌≡◌, IfSome, is_some};
ghost use Rattle.w16_machine.specs.Local.{current_heap, object_named};
ghost use Rattle.w16_machine.specs.LocalCalls as calls;
ghost use Rattle.w16_local.specs.Parts.{alone, with_parts};

use crate::LocalHeaps;
use crate::current::Named;
use crate::look::{flags_of, handle_at, size_of};
use std::alloc::Allocator;
use w16_global::Global16;

impl<A: Allocator + Copy> LocalHeaps<A> {
    /// Whether DS names a local heap.
    pub fn has_heap(&self, global: &Global16<A>, ds: u16) -> bool
        ensures { result ≡ is_some (current_heap (alone global.now.handles self.now ds)) }
    {
        self.current_heap(global, ds).is_some()
    }

    /// The size and the flags of the object that has a name, if one has it.
    pub fn size_and_flags(&self, global: &Global16<A>, ds: u16, name: u16) -> Option<(u16, u16)>
        ensures named { is_some result ≡ is_some (object_named (alone global.now.handles self.now ds) name) }
        ensures size { IfSome result (λ told. told.0 ≡ calls.asked_of (alone global.now.handles self.now ds) name calls.local_size) }
        ensures flags { IfSome result (λ told. told.1 ≡ calls.asked_of (alone global.now.handles self.now ds) name calls.local_flags) }
    {
        let Named { heap, id, .. } = self.named(global, ds, name)?;
        Some((size_of(heap, id), flags_of(heap, id)))
    }

    /// `LocalSize`: the size of an object in bytes; 0 for a bad name, or one without bytes.
    pub fn local_size(&self, global: &Global16<A>, ds: u16, name: u16) -> u16
        ensures { (rest : World) → result ≡ calls.asked_of (with_parts rest global.now.handles self.now ds) name calls.local_size }
    {
        let Some(named) = self.named(global, ds, name) else {
            return 0;
        };
        size_of(named.heap, named.id)
    }

    /// `LocalFlags`: the lock count, with 0x0f00 for a discardable object and 0x4000 for one without bytes; 0 for a bad name.
    pub fn local_flags(&self, global: &Global16<A>, ds: u16, name: u16) -> u16
        ensures { (rest : World) → result ≡ calls.asked_of (with_parts rest global.now.handles self.now ds) name calls.local_flags }
    {
        let Some(named) = self.named(global, ds, name) else {
            return 0;
        };
        flags_of(named.heap, named.id)
    }

    /// `LocalHandle`: the name of the object that begins at a near pointer; 0 where none does.
    pub fn local_handle(&self, global: &Global16<A>, ds: u16, pointer: u16) -> u16
        ensures { (rest : World) → result ≡ calls.local_handle (with_parts rest global.now.handles self.now ds) pointer }
    {
        let Some(current) = self.current_heap(global, ds) else {
            return 0;
        };
        handle_at(current.heap, pointer)
    }
}
