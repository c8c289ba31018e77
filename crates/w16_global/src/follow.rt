//! Selectors follow the objects that slid.
ghost use Rattle.std.specs.Prelude.{All, ◌≡◌, ◌<◌, ◌≤◌, ◌⊎◌, ◌||◌, ◌^◌, ◌+◌, ℕ, None, length, option_map, IfSome, IfNone, Some};
ghost use Rattle.std.specs.FinMap as finmap;
ghost use Rattle.w16_model.specs.Discards.{is_member};
ghost use Rattle.w16_model.specs.Law.{AreHandles};
ghost use Rattle.w16_model.specs.Heap.{IsHeap, bytes_at};
ghost use Rattle.w16_selectors.specs.Descriptors.{descriptor_at};
ghost use Rattle.w16_global.specs.Joined.{AreLabelled, begins_in, handles_of, told};

use crate::objects::Objects;
use crate::runs::{place_run, slots_of, vacate_run};
use std::alloc::Allocator;
use w16_model::{Attributes, Block, Span};
use w16_selectors::Selectors;

/// The lowest block from an address on that begins below another.
fn next_within<A: Allocator + Copy>(objects: &Objects<A>, from: u32, to: u32) -> Option<Block>
    ensures inside { IfSome result (λ b. (from ≤ b.at) × (b.at < to)) }
    ensures there { IfSome result (λ b. (finmap.get objects.now.heap.places b.id ≡ Some b.at) × (option_map length (bytes_at objects.now.heap b.id) ≡ Some b.size)) }
    ensures real { IfSome result (λ b. (0 < b.size) × (b.at + b.size < 2 ^ 32)) }
    ensures sound { IsHeap objects.now.heap }
    ensures lowest { IfSome result (λ b. (q : ℕ) → IfSome (finmap.get objects.now.heap.places q) (λ at. (at < from) ⊎ (b.at ≤ at))) }
    ensures none { IfNone result ((q : ℕ) → IfSome (finmap.get objects.now.heap.places q) (λ at. (at < from) ⊎ (to ≤ at))) }
{
    match objects.next_block(from) {
        Some(block) if block.at < to => Some(block),
        _ => None,
    }
}

/// Says of the selectors of the objects that the last request discarded that these aren't present. The attributes are by slot.
fn forget<A: Allocator + Copy>(
    objects: &Objects<A>,
    attributes: &[Option<Attributes>],
    selectors: &mut Selectors<A>,
)
    requires handles { AreHandles (handles_of objects.now attributes.now 0) }
    requires labelled { AreLabelled attributes.now selectors.old }
    requires gone { All (λ first. (first < objects.now.cap) × (bytes_at objects.now.heap first ≡ None)) objects.now.discarded }
    requires many { (length attributes.now ≡ objects.now.cap) × (length selectors.old ≡ objects.now.cap) × (objects.now.cap ≤ 8192) }
    ensures told { (slot : ℕ) → descriptor_at selectors.new slot ≡ told objects.now.heap attributes.now (λ first. is_member first objects.now.discarded) selectors.old slot }
    ensures many { length selectors.new ≡ length selectors.old }
{
    let discarded = objects.discarded();
    for id in discarded {
        let first = *id as u16;
        vacate_run(selectors, first, slots_of(attributes, first));
    }
}

/// Gives the selectors of each object that begins in a range of memory the addresses of what they reach of it. The attributes are by slot.
fn follow_slid<A: Allocator + Copy>(
    objects: &Objects<A>,
    attributes: &[Option<Attributes>],
    selectors: &mut Selectors<A>,
    slid: Span,
)
    requires handles { AreHandles (handles_of objects.now attributes.now 0) }
    requires labelled { AreLabelled attributes.now selectors.old }
    requires many { (length attributes.now ≡ objects.now.cap) × (length selectors.old ≡ objects.now.cap) × (objects.now.cap ≤ 8192) }
    ensures told { (slot : ℕ) → descriptor_at selectors.new slot ≡ told objects.now.heap attributes.now (begins_in objects.now.heap slid.from slid.to) selectors.old slot }
    ensures many { length selectors.new ≡ length selectors.old }
{
    if slid.to <= slid.from {
        return;
    }
    let mut from = slid.from;
    'objects: while let Some(block) = next_within(objects, from, slid.to) {
        place_run(selectors, attributes, block.id as u16, block.at, block.size);
        // No other begins before this one ends.
        from = slid.to.min(block.at + block.size);
    }
}

/// The selectors of the objects that the last request discarded, or that begin in a range of memory, say what they have to. The attributes are by
/// slot, and each object has its slots.
pub(crate) fn follow<A: Allocator + Copy>(
    objects: &Objects<A>,
    attributes: &[Option<Attributes>],
    selectors: &mut Selectors<A>,
    slid: Span,
)
    requires handles { AreHandles (handles_of objects.now attributes.now 0) }
    requires labelled { AreLabelled attributes.now selectors.old }
    requires gone { All (λ first. (first < objects.now.cap) × (bytes_at objects.now.heap first ≡ None)) objects.now.discarded }
    requires many { (length attributes.now ≡ objects.now.cap) × (length selectors.old ≡ objects.now.cap) × (objects.now.cap ≤ 8192) }
    ensures told { (slot : ℕ) → descriptor_at selectors.new slot
        ≡ told objects.now.heap attributes.now (λ first. is_member first objects.now.discarded || begins_in objects.now.heap slid.from slid.to first) selectors.old slot }
    ensures many { length selectors.new ≡ length selectors.old }
{
    forget(objects, attributes, selectors);
    follow_slid(objects, attributes, selectors, slid);
}
