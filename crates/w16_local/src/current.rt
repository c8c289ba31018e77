//! The local heap that DS names, and the objects that have names in it.
ghost use Rattle.std.specs.Prelude.{◌≡◌, None, IfSome, IfNone};
ghost use Rattle.w16_machine.specs.Local as local;
ghost use Rattle.w16_local.specs.Parts.{IsIn, IsNamed, alone};

use crate::LocalHeaps;
use crate::look::id_named;
use std::alloc::Allocator;
use w16_arena::Arena;
use w16_global::Global16;
use w16_holes::SideHoles;

/// A local heap, and its segment's slot.
#[derive(Drop)]
pub(crate) struct CurrentHeap<'a, A: Allocator + Copy> {
    pub slot: u16,
    pub heap: &'a Arena<SideHoles<A>>,
}

/// An object in a local heap.
#[derive(Drop)]
pub(crate) struct Named<'a, A: Allocator + Copy> {
    pub slot: u16,
    pub heap: &'a Arena<SideHoles<A>>,
    pub id: u32,
}

impl<A: Allocator + Copy> LocalHeaps<A> {
    /// The heap that DS names. One whose segment is shorter than its end counts as none.
    pub(crate) fn current_heap<'a>(
        &'a self,
        global: &Global16<A>,
        ds: u16,
    ) -> Option<CurrentHeap<'a, A>>
        ensures none { IfNone result (local.current_heap (alone global.now.handles self.now ds) ≡ None) }
        ensures some { IfSome result (λ c. IsIn global.now.handles self.now ds c.slot c.heap.now.table) }
    {
        global.reveal_handles();
        let segment = global.segment(ds)?;
        let heap = self.heap_of(segment.slot)?;
        if heap.bounds().to <= segment.size {
            Some(CurrentHeap {
                slot: segment.slot,
                heap,
            })
        } else {
            None
        }
    }

    /// The object that has a name in that heap.
    pub(crate) fn named<'a>(
        &'a self,
        global: &Global16<A>,
        ds: u16,
        name: u16,
    ) -> Option<Named<'a, A>>
        ensures none { IfNone result (local.object_named (alone global.now.handles self.now ds) name ≡ None) }
        ensures some { IfSome result (λ n. IsNamed global.now.handles self.now ds name n.slot n.heap.now.table n.id) }
    {
        let current = self.current_heap(global, ds)?;
        let id = id_named(current.heap, name)?;
        Some(Named {
            slot: current.slot,
            heap: current.heap,
            id,
        })
    }
}
