//! Heaps that go with the bytes of their segments.
ghost use Rattle.std.specs.Prelude.{◌≡◌, ◌≢◌, ◌+◌, ◌<◌, ℕ, None, if◌then◌else◌, length, option_map, slice_index_or};
ghost use Rattle.std.specs.FinMap as finmap;
ghost use Rattle.std.specs.FinMap.{FinMap};
ghost use Rattle.std.specs.Ordering.{nat_cmp};
ghost use Rattle.w16_model.specs.Table.{Table};
ghost use Rattle.w16_model.specs.Heap.{bytes_at};
ghost use Rattle.w16_machine.specs.Local as local;
ghost use Rattle.w16_local.specs.Kept.{AreListed, tables_of};
ghost use Rattle.w16_local.specs.Swept.{AreSwept};

use crate::{HeldHeap, LocalHeaps};
use std::alloc::Allocator;
use w16_global::Global16;
use w16_model::names::selector_of;
use w16_model::{FIRST_SLOT, MOST_SLOTS};

impl<A: Allocator + Copy> LocalHeaps<A> {
    /// Takes away each heap whose object is freed, has no bytes, or was cut below the heap's end, by a look at each slot that has a heap. For
    /// after a call on the global heap. It takes no memory.
    pub fn sweep(&mut self, global: &Global16<A>)
        ensures { self.new ≡ local.left_in global.now.handles.heap self.old }
    {
        sweep_listed(&mut self.heaps, &mut self.live, global);
    }

    /// The same of the heap in one slot's object alone, by one look: for after a call that took no other object's bytes.
    pub fn sweep_slot(&mut self, global: &Global16<A>, slot: u16)
        ensures { self.new ≡ if local.has_range global.now.handles.heap self.old slot then self.old else finmap.remove self.old slot }
    {
        if !has_range(&self.heaps, slot, global) {
            self.drop_slot(slot);
        }
    }
}

/// The same of the heaps of the slots that are listed; those that have none any more are struck off the list.
fn sweep_listed<A: Allocator + Copy>(
    heaps: &mut Vec<HeldHeap<A>, A>,
    live: &mut Vec<u16, A>,
    global: &Global16<A>,
)
    requires { AreListed heaps.old.items live.old.items }
    ensures tables { tables_of heaps.new.items (λ h. h.value) ≡ local.left_in global.now.handles.heap (tables_of heaps.old.items (λ h. h.value)) }
    ensures listed { AreListed heaps.new.items live.new.items }
{
    let mut i = live.len();
    'live: while i > 0 {
        i -= 1;
        look_at(heaps, live, i, global);
    }
}

/// Looks at the heap of the slot at a place of the list, where those of the later places have been looked at.
fn look_at<A: Allocator + Copy>(
    heaps: &mut Vec<HeldHeap<A>, A>,
    live: &mut Vec<u16, A>,
    i: usize,
    global: &Global16<A>,
)
    requires { i < length live.old.items }
    ensures { (old : FinMap nat_cmp Table) → AreSwept global.now.handles.heap (λ h. h.value) old (i + 1) heaps.old.items live.old.items
        → AreSwept global.now.handles.heap (λ h. h.value) old i heaps.new.items live.new.items }
{
    let slot = live[i];
    if has_range(heaps, slot, global) {
        return;
    }
    take_away(heaps, slot);
    live.swap_remove(i);
}

/// Takes a slot's heap out of the list, if it has one.
fn take_away<A: Allocator + Copy>(heaps: &mut Vec<HeldHeap<A>, A>, slot: u16)
    ensures taken { slice_index_or heaps.new.items slot None ≡ None }
    ensures rest { (q : ℕ) → q ≢ slot → slice_index_or heaps.new.items q None ≡ slice_index_or heaps.old.items q None }
{
    if (slot as usize) < heaps.len() {
        heaps[slot as usize] = None;
    }
}

/// Whether a slot has a heap, and its object still has the heap's range.
fn has_range<A: Allocator + Copy>(heaps: &[HeldHeap<A>], slot: u16, global: &Global16<A>) -> bool
    ensures { result ≡ local.has_range global.now.handles.heap (tables_of heaps.now (λ h. h.value)) slot }
{
    if slot as usize >= heaps.len() {
        return false;
    }
    let Some(held) = heaps[slot as usize].as_ref() else {
        return false;
    };
    let Some(size) = size_in(global, slot) else {
        return false;
    };
    held.as_ref().arena().bounds().to <= size
}

/// How many bytes a slot's object has, if it has any.
fn size_in<A: Allocator + Copy>(global: &Global16<A>, slot: u16) -> Option<u32>
    ensures { result ≡ option_map length (bytes_at global.now.handles.heap slot) }
{
    global.reveal_handles();
    if slot as u32 >= FIRST_SLOT + MOST_SLOTS {
        return None;
    }
    let Some(segment) = global.segment(selector_of(slot)) else {
        return None;
    };
    Some(segment.size)
}
