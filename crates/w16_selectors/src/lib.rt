//! The descriptors behind selectors: a table from slots to segments of memory, and where a far access finds its bytes. It knows nothing of
//! objects: that a segment is the n-th of several is only kept here. No call but the constructor takes memory.
#![tactic(auto)]

ghost use Rattle.std.specs.Prelude.{◌≡◌, ◌+◌, ◌^◌, ◌<◌, ◌≤◌, ◌↔◌, ℕ, length, IfOk, OnOk, IfSome, IfNone, IsSome, IsTrue, Some, None, true, replicate, slice_set};
ghost use Rattle.memchr.specs.Find.{IsFirst};
ghost use Rattle.w16_selectors.specs.Descriptors.{descriptor_at, descriptor_of, IsUntaken, IsFreeRun, place_of};
ghost use Rattle.w16_selectors.specs.Descriptors as descriptors;

use memchr::memchr;
use std::alloc::{AllocError, Allocator, Global};
use std::marker::Model;
pub use w16_model::FarFault;
use w16_model::names::{selector_of, slot_of};
use w16_model::{FIRST_SLOT, MOST_SLOTS};

/// The mark of a slot that isn't taken.
const FREE: u8 = 0;

/// The mark of a slot that is.
const TAKEN: u8 = 1;

/// What a segment holds. Code can't be written through its selector.
#[derive(Clone, Copy, Debug, PartialEq, Eq)]
pub enum SelKind {
    Data,
    Code,
}

/// What is behind a selector: the base, where its segment begins in memory, and the limit, the offset of the segment's last byte, both in
/// bytes. A segment that isn't present has no bytes.
#[derive(Clone, Copy, Debug, PartialEq, Eq)]
pub struct Descriptor {
    pub base: u32,
    pub limit: u32,
    pub present: bool,
    pub kind: SelKind,
    /// How many slots before its own lead to other segments of the same object: 0 for an object's first.
    pub number: u8,
}

/// Descriptors by slot. Its value is the list of them, none where a slot isn't taken; slots below 32 never are.
#[derive(Drop)]
pub struct Selectors<A: Allocator = Global> {
    descriptors: Vec<Option<Descriptor>, A>,
    marks: Vec<u8, A>,
    /// Every slot below it, from the first on, is taken: where a look for a free one begins.
    free_from: usize,
}

impl<A: Allocator> Model for Selectors<A> {
    ghost use Rattle.w16_selectors.specs.Descriptors.{DescriptorTable};
    ghost use Rattle.w16_selectors.specs.Representation.{SelectorsInvariant, AreTaken};

    ghost Value = { DescriptorTable };

    ghost view = { λ s. s.descriptors.items };

    ghost invariant = { λ s. SelectorsInvariant s.descriptors.items s.marks.items × AreTaken s.descriptors.items s.free_from };
}

impl<A: Allocator> Selectors<A> {
    /// So many slots from slot 32 on, at most 8,160, none of them taken. An error is that memory ran out.
    pub fn with_room(alloc: A, slots: u32) -> Result<Selectors<A>, AllocError>
    where
        A: Copy,
        requires { slots ≤ MOST_SLOTS }
        ensures { IfOk result (λ made. made ≡ replicate (FIRST_SLOT + slots) None) }
    {
        let count = (FIRST_SLOT + slots) as usize;
        let descriptors = vec![in alloc; None; count]?;
        let marks = vec![in alloc; FREE; count]?;
        Ok(Selectors {
            descriptors,
            marks,
            free_from: FIRST_SLOT as usize,
        })
    }

    /// The first slot of the lowest run of `count` free slots, none where no run is so long. A run of none begins at the first slot. It goes
    /// over the slots once.
    pub fn find_run(&self, count: u32) -> Option<u16>
        ensures found { IfSome result (λ first. IsFreeRun self.now first count) }
        ensures lowest { IfSome result (λ first. (lower : ℕ) → lower < first → IsFreeRun self.now lower count → ⊥) }
        ensures none { IfNone result ((first : ℕ) → IsFreeRun self.now first count → ⊥) }
        ensures few { IfSome result (λ first. first + count ≤ 8192) }
    {
        let slots = self.descriptors.len();
        let wanted = count as usize;
        let mut first = FIRST_SLOT as usize;
        while wanted <= slots - first {
            // Marks behind the run don't matter.
            let Some(taken) = self.next_taken(first, first + wanted) else {
                return Some(first as u16);
            };
            first = self.next_free(taken + 1).unwrap_or(slots);
        }
        None
    }

    /// The lowest free slot, none where all are taken. It begins where the last such look ended, or at a slot that was given back since.
    pub fn lowest_free(&mut self) -> Option<u16>
        ensures same { self.new ≡ self.old }
        ensures found { IfSome result (λ slot. IsUntaken self.old slot) }
        ensures lowest { IfSome result (λ slot. (lower : ℕ) → lower < slot → IsUntaken self.old lower → ⊥) }
        ensures none { IfNone result ((slot : ℕ) → IsUntaken self.old slot → ⊥) }
        ensures few { IfSome result (λ slot. slot < 8192) }
    {
        let slot = self.next_free(self.free_from)?;
        self.free_from = slot;
        Some(slot as u16)
    }

    /// Whether so many slots in a row are free, from a slot on.
    pub fn is_free_run(&self, first: u16, count: u16) -> bool
        requires { FIRST_SLOT ≤ first }
        ensures { IsTrue result ↔ IsFreeRun self.now first count }
    {
        let from = first as usize;
        let to = from + count as usize;
        if to > self.descriptors.len() {
            return count == 0;
        }
        self.next_taken(from, to).is_none()
    }

    /// The first free slot from a slot on.
    fn next_free(&self, from: usize) -> Option<usize>
        requires first { FIRST_SLOT ≤ from }
        requires inside { from ≤ length self.now }
        ensures { IsFirst (IsUntaken self.now) from (length self.now) result }
    {
        let behind = memchr(FREE, &self.marks[from..])?;
        Some(from + behind)
    }

    /// The first taken slot from a slot up to another.
    fn next_taken(&self, from: usize, to: usize) -> Option<usize>
        requires order { from ≤ to }
        requires inside { to ≤ length self.now }
        ensures { IsFirst (λ slot. IsSome (descriptor_at self.now slot)) from to result }
    {
        let behind = memchr(TAKEN, &self.marks[from..to])?;
        Some(from + behind)
    }

    /// Takes a free slot for a segment of a kind, with its number. It has no bytes yet: its descriptor isn't present.
    pub fn take(&mut self, slot: u16, kind: SelKind, number: u8)
        requires { IsUntaken self.old slot }
        ensures { self.new ≡ slice_set self.old slot (Some (descriptors.unset kind number)) }
    {
        self.descriptors[slot as usize] = Some(unset(kind, number));
        self.marks[slot as usize] = TAKEN;
        if self.free_from == slot as usize {
            self.free_from += 1;
        }
    }

    /// Releases a taken slot: it is free again.
    pub fn release(&mut self, slot: u16)
        requires { IsSome (descriptor_at self.old slot) }
        ensures { self.new ≡ slice_set self.old slot None }
    {
        self.descriptors[slot as usize] = None;
        self.marks[slot as usize] = FREE;
        self.free_from = self.free_from.min(slot as usize);
    }

    /// Says that the segment of a taken slot has bytes from an address `base` on, the last of them at the offset `limit`. It keeps its kind and its
    /// number. It must end where an address of 32 bits can reach.
    pub fn set_range(&mut self, slot: u16, base: u32, limit: u32)
        requires taken { IsSome (descriptor_at self.old slot) }
        requires inside { base + limit + 1 < 2 ^ 32 }
        ensures { self.new ≡ slice_set self.old slot (Some (record { base = base; limit = limit; present = true; kind = descriptors.kind_at self.old slot; number = descriptors.number_at self.old slot })) }
    {
        let Some(descriptor) = self.descriptors[slot as usize] else {
            unreachable!();
        };
        self.descriptors[slot as usize] = Some(Descriptor {
            base,
            limit,
            present: true,
            ..descriptor
        });
    }

    /// The segment of a taken slot has no bytes any more: its descriptor isn't present. It keeps its kind and its number.
    pub fn vacate(&mut self, slot: u16)
        requires { IsSome (descriptor_at self.old slot) }
        ensures { self.new ≡ slice_set self.old slot (Some (descriptors.unset (descriptors.kind_at self.old slot) (descriptors.number_at self.old slot))) }
    {
        let Some(descriptor) = self.descriptors[slot as usize] else {
            unreachable!();
        };
        self.descriptors[slot as usize] = Some(unset(descriptor.kind, descriptor.number));
    }

    /// The number of a slot's segment; 0 where the slot isn't taken.
    pub fn number_at(&self, slot: u16) -> u8
        requires { slot < length self.now }
        ensures { result ≡ descriptors.number_at self.now slot }
    {
        match self.descriptors[slot as usize] {
            Some(descriptor) => descriptor.number,
            None => 0,
        }
    }

    /// The descriptor that a selector names, none where its low three bits aren't set or its slot isn't taken.
    pub fn find(&self, selector: u16) -> Option<Descriptor>
        ensures value { result ≡ descriptor_of self.now selector }
        ensures inside { IfSome result (λ descriptor. descriptor.base + descriptor.limit + 1 < 2 ^ 32) }
    {
        let slot = slot_of(selector);
        if selector != selector_of(slot) {
            return None;
        }
        self.descriptors.get(slot as usize).copied().flatten()
    }

    /// The address of an access to `n` bytes at selector:offset. It tells the first fault of these: `BadSelector` where the selector names
    /// no descriptor, `ReadOnly` at a write to code, `NotPresent` where the segment has no bytes, `Limit` where a byte is past its limit.
    pub fn resolve(&self, selector: u16, offset: u16, n: u32, write: bool) -> Result<u32, FarFault>
        ensures value { result ≡ place_of self.now selector offset n write }
        ensures inside { IfOk result (λ at. at + n < 2 ^ 32) }
        ensures below { OnOk result (IfSome (descriptor_of self.now selector) (λ descriptor. descriptor.base + descriptor.limit + 1 < 2 ^ 32)) }
    {
        let Some(descriptor) = self.find(selector) else {
            return Err(FarFault::BadSelector);
        };
        if write && descriptor.kind == SelKind::Code {
            return Err(FarFault::ReadOnly);
        }
        if !descriptor.present {
            return Err(FarFault::NotPresent);
        }
        // In 64 bits neither sum wraps.
        if offset as u64 + n as u64 > descriptor.limit as u64 + 1 {
            return Err(FarFault::Limit);
        }
        Ok(descriptor.base + offset as u32)
    }

    /// How many slots there are, with the first 32, which are never taken.
    pub fn len(&self) -> usize
        ensures { result ≡ length self.now }
    {
        self.descriptors.len()
    }
}

/// A slot's descriptor while its segment has no bytes.
fn unset(kind: SelKind, number: u8) -> Descriptor
    ensures { result ≡ descriptors.unset kind number }
{
    Descriptor {
        base: 0,
        limit: 0,
        present: false,
        kind,
        number,
    }
}
