//! What is done to the heap in a slot's object, over that object's bytes.
ghost use Rattle.std.specs.Prelude.{◌≡◌, ℕ, IfSome, IfNone, IsSome, IsSomeAnd};
ghost use Rattle.std.specs.FinMap as finmap;
ghost use Rattle.w16_local.specs.Acts.{ActedIn, IsLent, MayActIn};
ghost use Rattle.w16_local.specs.Kept.{IsFull, IsLowest};

use crate::LocalHeaps;
use crate::heap::LocalHeap;
use std::alloc::Allocator;
use w16_global::{Global16, Work};

impl<A: Allocator + Copy> LocalHeaps<A> {
    /// The lowest free entry of a slot's heap.
    pub(crate) fn free_entry(&self, slot: u16) -> Option<u32>
        requires { IsSome (finmap.get self.now slot) }
        ensures found { IfSome result (λ id. IsSomeAnd (finmap.get self.now slot) (λ t. IsLowest t id)) }
        ensures none { IfNone result (IsSomeAnd (finmap.get self.now slot) IsFull) }
    {
        let Some(heap) = self.local_heap(slot) else {
            unreachable!();
        };
        heap.lowest_free()
    }

    /// Does a work on a slot's heap, over the bytes of its segment. Only a pointer to the heap is moved for it.
    pub(crate) fn work_on<W: Work<LocalHeap<A>>>(
        &mut self,
        global: &mut Global16<A>,
        slot: u16,
        work: &W,
    ) -> W::Answer
        requires { MayActIn global.old.handles self.old slot (W.may work.now) }
        ensures acted { ActedIn global.old.handles self.old slot (λ table bytes left after. (count : ℕ) × W.does work.now table bytes result left after 0 count) global.new.handles self.new }
        ensures lent { IsLent global.old slot global.new }
    {
        let Some(mut heap) = self.heaps[slot as usize].take() else {
            unreachable!();
        };
        let answer = global.with_bytes(slot, work, heap.as_mut());
        heap.reveal_local();
        self.heaps[slot as usize] = Some(heap);
        answer
    }
}
