//! The beginning of a local heap.
ghost use Rattle.std.specs.Prelude.{◌≡◌, ◌≤◌, ◌<◌, ◌&&◌, ℕ, nat_le, nat_lt, min, length, slice_index_or, IfOk, IfSome, IfNone, IsTrue, OnErr, OnOk, Some, None, ◌==◌, if◌then◌else◌};
ghost use Rattle.std.specs.FinMap as finmap;
ghost use Rattle.w16_model.specs.Heap.{IsMultiple};
ghost use Rattle.w16_machine.specs.declared.local.TheConstants.{LAST_LOCAL_END, LOCAL_GRAIN};
ghost use Rattle.w16_machine.specs.Local as local;
ghost use Rattle.w16_model.specs.Commands.Command.{LocalInit};
ghost use Rattle.w16_local.specs.Kept.{IsListed};
ghost use Rattle.w16_local.specs.Parts.{Calls, MayBegin, alone};

use crate::flags::rounded_up;
use crate::heap::LocalHeap;
use crate::{HeldHeap, LocalHeaps};
use std::alloc::{AllocError, Allocator};
use w16_global::Global16;
use w16_machine::local::{LAST_LOCAL_END, LOCAL_GRAIN};
use w16_model::Span;

/// Where a local heap begins: its segment's slot, and its range.
#[derive(Clone, Copy, Debug)]
struct Begun {
    slot: u16,
    range: Span,
}

impl<A: Allocator + Copy> LocalHeaps<A> {
    /// `LocalInit`: 1, and a heap without objects begins in the object of a selector, or of DS where that is 0; else 0. It lies from `start`,
    /// rounded up to 4, to `end`, rounded down to 4: 0 where the selector is bad, its object has no bytes, has a local heap already or is code,
    /// `start` is below 4, `end` over the object's size or 65,536, or nothing is between them. An error is that a heap may begin there, and
    /// there was no memory for it; then nothing has changed.
    pub fn local_init(
        &mut self,
        global: &Global16<A>,
        ds: u16,
        selector: u16,
        start: u16,
        end: u32,
    ) -> Result<u16, AllocError>
        ensures step { IfOk result (λ answer. Calls global.now.handles self.old ds (LocalInit selector start end) answer global.now.handles self.new) }
        ensures wanted { OnErr result (MayBegin global.now.handles self.old ds selector start end) }
        ensures refused { OnErr result (self.new ≡ self.old) }
    {
        let Some(begun) = self.beginning(global, ds, selector, start, end) else {
            return Ok(0);
        };
        self.begin(begun)?;
        Ok(1)
    }

    /// Where a heap may begin, if one may.
    fn beginning(
        &self,
        global: &Global16<A>,
        ds: u16,
        selector: u16,
        start: u16,
        end: u32,
    ) -> Option<Begun>
        ensures none { IfNone result (local.beginning (alone global.now.handles self.now ds) selector start end ≡ None) }
        ensures some { IfSome result (λ b. local.beginning (alone global.now.handles self.now ds) selector start end ≡ Some (record { slot = b.slot; range = b.range })) }
    {
        let Some(segment) = global.segment(selector_or(ds, selector)) else {
            return None;
        };
        // Local calls write their heap's range, and code can't be written.
        if segment.code {
            return None;
        }
        if let Some(_heap) = self.local_heap(segment.slot) {
            return None;
        }
        let Some(range) = range_in(segment.size, start, end) else {
            return None;
        };
        Some(Begun {
            slot: segment.slot,
            range,
        })
    }

    /// A heap begins in a slot that has none.
    fn begin(&mut self, begun: Begun) -> Result<(), AllocError>
        requires none { finmap.get self.old begun.slot ≡ None }
        requires low { 4 ≤ begun.range.from }
        requires some { begun.range.from < begun.range.to }
        requires high { begun.range.to ≤ 65536 }
        requires grained { IsMultiple 4 begun.range.from }
        ensures made { OnOk result (self.new ≡ finmap.insert self.old begun.slot (local.new_table begun.range)) }
        ensures refused { OnErr result (self.new ≡ self.old) }
    {
        let heap = LocalHeap::new(self.alloc, begun.range)?;
        let held = Box::new(self.alloc, heap)?;
        reach(&mut self.heaps, begun.slot)?;
        list_slot(&mut self.live, begun.slot)?;
        self.heaps[begun.slot as usize] = Some(held);
        Ok(())
    }
}

/// A selector, or DS in place of 0.
fn selector_or(ds: u16, selector: u16) -> u16
    ensures { result ≡ if selector == 0 then ds else selector }
{
    if selector == 0 { ds } else { selector }
}

/// Grows the list to include a slot. No heap changes.
fn reach<A: Allocator + Copy>(heaps: &mut Vec<HeldHeap<A>, A>, slot: u16) -> Result<(), AllocError>
    ensures same { (q : ℕ) → slice_index_or heaps.new.items q None ≡ slice_index_or heaps.old.items q None }
    ensures long { OnOk result (slot < length heaps.new.items) }
{
    'more: while heaps.len() <= slot as usize {
        heaps.push(None)?;
    }
    Ok(())
}

/// Adds a slot to the list, unless it is listed.
fn list_slot<A: Allocator>(live: &mut Vec<u16, A>, slot: u16) -> Result<(), AllocError>
    ensures kept { (q : ℕ) → IsListed live.old.items q → IsListed live.new.items q }
    ensures listed { OnOk result (IsListed live.new.items slot) }
{
    if lists(live, slot) {
        return Ok(());
    }
    live.push(slot)?;
    Ok(())
}

/// Whether a slot is listed.
fn lists(live: &[u16], slot: u16) -> bool
    ensures { IsTrue result → IsListed live.now slot }
{
    let mut i = 0;
    'slots: while i < live.len() {
        if live[i] == slot {
            return true;
        }
        i += 1;
    }
    false
}

/// The range of a new heap in a segment of so many bytes, if it may lie there.
fn range_in(size: u32, start: u16, end: u32) -> Option<Span>
    ensures { result ≡ local.range_in size start end }
{
    let from = rounded_up(start);
    let to = rounded_down(end);
    if is_range(size, start, end, from, to) {
        Some(Span { from, to })
    } else {
        None
    }
}

/// Whether a range may lie so.
fn is_range(size: u32, start: u16, end: u32, from: u32, to: u32) -> bool
    ensures { result ≡ ((nat_le LOCAL_GRAIN start && nat_le end (min size LAST_LOCAL_END)) && nat_lt from to) }
{
    LOCAL_GRAIN <= start as u32 && end <= size.min(LAST_LOCAL_END) && from < to
}

/// A place in whole grains, down.
fn rounded_down(place: u32) -> u32
    ensures { result ≡ local.rounded_down place }
{
    LOCAL_GRAIN * (place / LOCAL_GRAIN)
}
