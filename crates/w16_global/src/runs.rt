//! Runs of slots: an object's selectors one after another, each of which reaches up to 65,536 of its bytes.
ghost use Rattle.std.specs.Prelude.{◌≡◌, ◌≢◌, ◌+◌, ◌-◌, ◌^◌, ◌<◌, ◌≤◌, ℕ, IsSome, None, Some, length, slice_index_or, true};
ghost use Rattle.w16_model.specs.Handles as handles;
ghost use Rattle.w16_model.specs.Heap.{object_at};
ghost use Rattle.w16_model.specs.Resizes.{rehoused};
ghost use Rattle.w16_selectors.specs.Descriptors.{IsUntaken, descriptor_at, number_at};
ghost use Rattle.w16_global.specs.Housed.{AreHoused, HasRun, MayHave, attributes_housed, slots_in};
ghost use Rattle.w16_global.specs.Runs.{given, placed, taken, vacated};

use crate::global::kind_for;
use crate::objects::Objects;
use std::alloc::Allocator;
use w16_model::{Attributes, FIRST_SLOT, LARGEST_SIZE, REACH};
use w16_selectors::{SelKind, Selectors};

/// How many slots an object of so many bytes needs: at least one.
pub(crate) fn slots_for(size: u32) -> u16
    requires { size ≤ LARGEST_SIZE }
    ensures value { result ≡ handles.slots_for size }
    ensures few { result < 256 }
{
    size.div_ceil(REACH).max(1) as u16
}

/// Takes free slots in a row for the selectors of an object that holds what is told. It has no bytes there yet.
pub(crate) fn take_run<A: Allocator>(
    selectors: &mut Selectors<A>,
    first: u16,
    count: u16,
    kind: SelKind,
)
    requires free { (number : ℕ) → number < count → IsUntaken selectors.old (first + number) }
    requires few { (count < 256) × (length selectors.old ≤ 8192) }
    ensures taken { (slot : ℕ) → descriptor_at selectors.new slot ≡ taken first count kind selectors.old slot }
    ensures many { length selectors.new ≡ length selectors.old }
{
    for number in 0..count {
        selectors.take(first + number, kind, number as u8);
    }
}

/// Gives the taken slots of a run back: they are free again.
pub(crate) fn give_run<A: Allocator>(selectors: &mut Selectors<A>, first: u16, count: u16)
    requires known { (number : ℕ) → number < count → IsSome (descriptor_at selectors.old (first + number)) }
    requires few { length selectors.old ≤ 8192 }
    ensures given { (slot : ℕ) → descriptor_at selectors.new slot ≡ given first count selectors.old slot }
    ensures many { length selectors.new ≡ length selectors.old }
{
    for number in 0..count {
        selectors.release(first + number);
    }
}

/// The selectors of a run reach nothing any more: their object has no bytes.
pub(crate) fn vacate_run<A: Allocator>(selectors: &mut Selectors<A>, first: u16, count: u16)
    requires known { (number : ℕ) → number < count → IsSome (descriptor_at selectors.old (first + number)) }
    requires few { length selectors.old ≤ 8192 }
    ensures vacated { (slot : ℕ) → descriptor_at selectors.new slot ≡ vacated first count selectors.old slot }
    ensures many { length selectors.new ≡ length selectors.old }
{
    for number in 0..count {
        selectors.vacate(first + number);
    }
}

/// The selectors of an object reach its bytes, which stand at an address: each of them 65,536, and the last what is left. The attributes are by
/// slot.
pub(crate) fn place_run<A: Allocator>(
    selectors: &mut Selectors<A>,
    attributes: &[Option<Attributes>],
    first: u16,
    at: u32,
    size: u32,
)
    requires some { 0 < size }
    requires inside { at + size < 2 ^ 32 }
    requires enough { slots_in attributes.now first ≡ handles.slots_for size }
    requires known { (number : ℕ) → number < handles.slots_for size → IsSome (descriptor_at selectors.old (first + number)) }
    requires numbered { (number : ℕ) → number < handles.slots_for size → number_at selectors.old (first + number) ≡ number }
    requires few { length selectors.old ≤ 8192 }
    ensures placed { (slot : ℕ) → descriptor_at selectors.new slot ≡ placed first at size selectors.old slot }
    ensures many { length selectors.new ≡ length selectors.old }
{
    // Most objects have one slot.
    if size <= REACH {
        selectors.set_range(first, at, size - 1);
    } else {
        let count = slots_of(attributes, first);
        place_slots(selectors, first, count, at, size);
    }
}

/// The same slot by slot.
#[cold]
fn place_slots<A: Allocator>(
    selectors: &mut Selectors<A>,
    first: u16,
    count: u16,
    at: u32,
    size: u32,
)
    requires some { 0 < size }
    requires inside { at + size < 2 ^ 32 }
    requires enough { count ≡ handles.slots_for size }
    requires known { (number : ℕ) → number < count → IsSome (descriptor_at selectors.old (first + number)) }
    requires numbered { (number : ℕ) → number < count → number_at selectors.old (first + number) ≡ number }
    requires few { length selectors.old ≤ 8192 }
    ensures placed { (slot : ℕ) → descriptor_at selectors.new slot ≡ placed first at size selectors.old slot }
    ensures many { length selectors.new ≡ length selectors.old }
{
    for number in 0..count {
        let behind = REACH * number as u32;
        let reached = REACH.min(size - behind);
        selectors.set_range(first + number, at + behind, reached - 1);
    }
}

/// How many slots the object has whose run begins at a slot, by the attributes by slot; 0 where there is none.
pub(crate) fn slots_of(attributes: &[Option<Attributes>], slot: u16) -> u16
    ensures { result ≡ slots_in attributes.now slot }
{
    attributes
        .get(slot as usize)
        .copied()
        .flatten()
        .map_or(0, |attributes| attributes.slots)
}

/// Gives an object a run of so many slots from `first` on, each of which is its own or free. The slots of its own run that aren't in this one
/// are free again.
pub(crate) fn house<A: Allocator + Copy>(
    objects: &mut Objects<A>,
    attributes: &mut [Option<Attributes>],
    selectors: &mut Selectors<A>,
    slot: u16,
    first: u16,
    count: u16,
)
    requires object { IsSome (object_at objects.old.heap slot) }
    requires low { FIRST_SLOT ≤ slot }
    requires there { IsSome (slice_index_or attributes.old slot None) }
    requires few { (0 < count) × (count < 256) }
    requires many { (length attributes.old ≡ objects.old.cap) × (length selectors.old ≡ objects.old.cap) × (objects.old.cap ≤ 8192) }
    requires run { HasRun attributes.old selectors.old slot }
    requires free { MayHave attributes.old selectors.old slot first count }
    requires nobody { first ≢ slot → object_at objects.old.heap first ≡ None }
    ensures heap { objects.new ≡ record objects.old { heap = rehoused objects.old.heap slot first } }
    ensures attributes { (q : ℕ) → slice_index_or attributes.new q None ≡ attributes_housed attributes.old slot first count q }
    ensures selectors { AreHoused attributes.old selectors.old slot first count selectors.new }
    ensures long { (length attributes.new ≡ length attributes.old) × (length selectors.new ≡ length selectors.old) }
{
    let Some(held) = attributes[slot as usize] else {
        unreachable!();
    };
    if first == slot && count == held.slots {
        return;
    }
    if first != slot {
        objects.rehouse(slot as u32, first as u32);
    }
    give_run(selectors, slot, held.slots);
    take_run(selectors, first, count, kind_for(held));
    attributes[slot as usize] = None;
    attributes[first as usize] = Some(Attributes {
        slots: count,
        ..held
    });
}
