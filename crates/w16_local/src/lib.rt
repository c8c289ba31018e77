//! Local heaps: in a range of a global object's bytes, objects that are named by near pointers and by entries.
//!
//! A heap's bytes are its segment's, so a call that needs them takes the global heap beside this value.
#![tactic(auto)]

ghost use Rattle.std.specs.Prelude.{◌≡◌, ◌≤◌, option_map, None, Some, IfOk, IfSome, IfNone, MatchOption};
ghost use Rattle.std.specs.FinMap as finmap;
ghost use Rattle.w16_model.specs.Handles.{slot_of_handle};
ghost use Rattle.w16_model.specs.Table.{Table};
ghost use Rattle.w16_machine.specs.Local.{IsLocalTable};

mod act;
mod acts;
mod asked;
mod calls;
mod current;
mod flags;
mod free_entries;
mod growth;
mod heap;
mod init;
mod look;
mod steps;
mod sweep;

use crate::heap::LocalHeap;
pub use flags::{LocalAllocFlags, LocalReAllocFlags};
use std::alloc::{AllocError, Allocator, Global};
use std::marker::Model;
use w16_arena::Arena;
use w16_global::Global16;
use w16_holes::SideHoles;
use w16_model::{FIRST_SLOT, MOST_SLOTS, Span};

/// A slot's heap, if it has one.
pub(crate) type HeldHeap<A> = Option<Box<LocalHeap<A>, A>>;

/// The local heaps in the objects of a global heap. Its value is their tables, by slot.
#[derive(Drop)]
pub struct LocalHeaps<A: Allocator + Copy = Global> {
    /// By slot.
    heaps: Vec<HeldHeap<A>, A>,
    /// The slots that have a heap, each once, and those that had one until `drop_heap` or `sweep_slot` since the last sweep.
    live: Vec<u16, A>,
    /// For new heaps.
    alloc: A,
}

impl<A: Allocator + Copy> Model for LocalHeaps<A> {
    ghost use Rattle.std.specs.Ordering.{nat_cmp};
    ghost use Rattle.std.specs.FinMap.{FinMap};
    ghost use Rattle.w16_model.specs.Table.{Table};
    ghost use Rattle.w16_local.specs.Codes.{tables_code};
    ghost use Rattle.w16_local.specs.Kept.{tables_of, AreListed};

    ghost Value = { FinMap nat_cmp Table };

    ghost coded = { tables_code };

    ghost view = { λ s. tables_of s.heaps.items (λ h. h.value) };

    ghost invariant = { λ s. AreListed s.heaps.items s.live.items };
}

impl<A: Allocator + Copy> LocalHeaps<A> {
    /// No heap yet, for so many slots, at most 8,160. An error is that there was no memory.
    pub fn new(alloc: A, slots: u32) -> Result<LocalHeaps<A>, AllocError>
        requires { slots ≤ MOST_SLOTS }
        ensures { IfOk result (λ made. made ≡ finmap.empty) }
    {
        let mut heaps = Vec::with_capacity(alloc, (FIRST_SLOT + slots) as usize)?;
        for _ in 0..FIRST_SLOT + slots {
            heaps.push(None)?;
        }
        let live = Vec::with_capacity(alloc, slots as usize)?;
        Ok(LocalHeaps { heaps, live, alloc })
    }

    /// Takes the heap in the object away whose handle this is, exactly, if there is one. No byte changes. Where the object is freed, no
    /// handle is its own any more: `sweep` takes such a heap away.
    pub fn drop_heap(&mut self, global: &Global16<A>, handle: u16)
        ensures { MatchOption (slot_of_handle global.now.handles handle) (self.new ≡ self.old) (λ slot. self.new ≡ finmap.remove self.old slot) }
    {
        if let Some(slot) = global.slot_of_handle(handle) {
            self.drop_slot(slot);
        }
    }

    /// The range of the heap in the object whose handle this is, exactly: offsets of at most 65,536. None where no object has the handle, or the
    /// object has no heap.
    pub fn heap_range(&self, global: &Global16<A>, handle: u16) -> Option<Span>
        ensures { MatchOption (slot_of_handle global.now.handles handle) (result ≡ None) (λ slot. result ≡ option_map (λ (t : Table). record { from = t.lo; to = t.hi }) (finmap.get self.now slot)) }
    {
        let slot = global.slot_of_handle(handle)?;
        let heap = self.heap_of(slot)?;
        Some(heap.bounds())
    }

    /// Takes a slot's heap away, if it has one.
    pub(crate) fn drop_slot(&mut self, slot: u16)
        ensures { self.new ≡ finmap.remove self.old slot }
    {
        if slot as usize >= self.heaps.len() {
            return;
        }
        let _gone = self.heaps[slot as usize].take();
    }

    /// A slot's heap, if it has one.
    pub(crate) fn heap_of(&self, slot: u16) -> Option<&Arena<SideHoles<A>>>
        ensures none { IfNone result (finmap.get self.now slot ≡ None) }
        ensures some { IfSome result (λ h. (finmap.get self.now slot ≡ Some h.now.table) × IsLocalTable h.now.table) }
    {
        let heap = self.local_heap(slot)?;
        heap.reveal_local();
        Some(heap.arena())
    }

    /// A slot's heap with its tree of free entries.
    pub(crate) fn local_heap(&self, slot: u16) -> Option<&LocalHeap<A>>
        ensures none { IfNone result (finmap.get self.now slot ≡ None) }
        ensures some { IfSome result (λ h. finmap.get self.now slot ≡ Some h.now) }
    {
        if slot as usize >= self.heaps.len() {
            return None;
        }
        let Some(held) = self.heaps[slot as usize].as_ref() else {
            return None;
        };
        Some(held.as_ref())
    }
}
