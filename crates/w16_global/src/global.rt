//! The global heap's state, and the steps that its calls are made of.
ghost use Rattle.std.specs.Prelude.{◌≡◌, ◌%◌, ◌+◌, ◌≤◌, ◌<◌, ◌⊎◌, ◌↔◌, ℕ, true, false, IfOk, IfErr, OnOk, IfSome, IfNone, IsSome, IsSomeAnd, IsTrue, Ok, Err, Some, if◌then◌else◌, ◌-◌, length, option_map, unwrap_or};
ghost use Rattle.std.specs.FinMap as finmap;
ghost use Rattle.w16_model.specs.Heap.{Heap, object_at, bytes_at, IsMultiple};
ghost use Rattle.w16_model.specs.Changes.{removed};
ghost use Rattle.w16_model.specs.Request.{Allocates, Reallocates, moved_bytes};
ghost use Rattle.w16_model.specs.OneObject.{Enters, after_discard, after_lock, after_unlock, after_free, after_newest, after_oldest, after_touch};
ghost use Rattle.w16_model.specs.{Handles.IsFreeRun, Handles.slots_at, Law.IsOwnedRun, Law.empty_handles, Law.without_slot};
ghost use Rattle.w16_model.specs.Handles as handles;
ghost use Rattle.w16_model.specs.Owned.{owned_at};
ghost use Rattle.w16_model.specs.Calls.{GlobalCompacts};
ghost use Rattle.w16_model.specs.Resizes.{CanExtend, GetsRun, LacksRun, may_leave, modified, rehoused, with_run};
ghost use Rattle.w16_region.specs.Bytes.{counted};
ghost use Rattle.w16_global.specs.Joined as joined;

use crate::follow::follow;
use crate::objects::Objects;
use crate::runs::{give_run, house, place_run, slots_for, slots_of, take_run, vacate_run};
use std::alloc::{AllocError, Allocator, Global};
use std::marker::Model;
use w16_model::{
    Attributes, FIRST_SLOT, GRAIN, Kind, LARGEST_SIZE, MOST_SLOTS, Refusal, RoomOptions,
};
use w16_selectors::{SelKind, Selectors};

/// The global heap: objects that are named by handles, and whose bytes are reached through selectors. Its value is `Global`: the handles, and
/// how many bytes of the memory were written so far.
#[derive(Drop)]
pub struct Global16<A: Allocator + Copy = Global> {
    pub(crate) objects: Objects<A>,
    /// By slot.
    pub(crate) attributes: Vec<Option<Attributes>, A>,
    pub(crate) selectors: Selectors<A>,
    /// The bytes that the last allocation or compaction moved.
    pub(crate) moved: u32,
}

impl<A: Allocator + Copy> Model for Global16<A> {
    ghost use Rattle.w16_global.specs.Joined.{Global, global_code, handles_of, AreJoined};

    ghost Value = { Global };

    ghost coded = { global_code };

    ghost view = { λ g. record { handles = handles_of g.objects g.attributes.items g.moved; written = g.objects.written } };

    ghost invariant = { λ g. AreJoined g.objects g.attributes.items g.selectors };
}

/// Where an object is that was given another size or kind, and what was moved for it.
#[derive(Clone, Copy, Debug)]
pub(crate) struct Resized {
    /// Its first slot.
    pub first: u16,
    /// How many bytes were moved.
    pub moved: u32,
}

impl<A: Allocator + Copy> Global16<A> {
    /// A heap over `memory` bytes, a multiple of 32, with so many selectors, at most 8,160, in which nothing is allocated. It takes all its
    /// memory here; an error is that there was none.
    pub fn new(alloc: A, memory: u32, slots: u32) -> Result<Global16<A>, AllocError>
        requires grained { memory % GRAIN ≡ 0 }
        requires few { slots ≤ MOST_SLOTS }
        ensures { IfOk result (λ made. made ≡ record { handles = empty_handles memory slots; written = 0 }) }
    {
        let cap = FIRST_SLOT + slots;
        let attributes = vec![in alloc; None; cap as usize]?;
        let selectors = Selectors::with_room(alloc, slots)?;
        // last, so that no way out has to drop them
        let objects = Objects::new(alloc, cap, memory)?;
        Ok(Global16 {
            objects,
            attributes,
            selectors,
            moved: 0,
        })
    }

    /// A new object without bytes, in a run of free slots from one on, as many as the attributes say.
    pub(crate) fn enter(&mut self, slot: u16, kind: Kind, attributes: Attributes)
        requires free { IsFreeRun self.old.handles slot attributes.slots }
        requires some { 0 < attributes.slots }
        requires sized { joined.HasSize (Some attributes) }
        requires run { IsOwnedRun attributes }
        ensures entered { Enters self.old.handles.heap slot kind self.new.handles.heap }
        ensures rest { self.new.handles ≡ record self.old.handles { heap = self.new.handles.heap; attributes = finmap.insert self.old.handles.attributes slot attributes } }
        ensures written { self.new.written ≡ self.old.written }
    {
        self.objects.enter(slot as u32, kind);
        self.attributes[slot as usize] = Some(attributes);
        take_run(
            &mut self.selectors,
            slot,
            attributes.slots,
            kind_for(attributes),
        );
    }

    /// A new object of so many bytes, a multiple of the grain, in a run of free slots from one on, as many as they need, if there is room for it
    /// as the options have it. The selectors of objects that were discarded for it, or have slid, follow.
    pub(crate) fn allocate(
        &mut self,
        slot: u16,
        size: u32,
        kind: Kind,
        options: RoomOptions,
        attributes: Attributes,
    ) -> bool
        requires free { IsFreeRun self.old.handles slot attributes.slots }
        requires some { 0 < size }
        requires small { size ≤ LARGEST_SIZE }
        requires rounded { IsMultiple GRAIN size }
        requires enough { attributes.slots ≡ handles.slots_for size }
        requires sized { joined.HasSize (Some attributes) }
        requires run { IsOwnedRun attributes }
        ensures allocated { Allocates self.old.handles.heap slot size kind 0 options result self.new.handles.heap }
        ensures rest { self.new.handles ≡ record self.old.handles {
          heap = self.new.handles.heap;
          attributes = if result then finmap.insert self.old.handles.attributes slot attributes else self.old.handles.attributes;
          moved = if result then moved_bytes self.old.handles.heap self.new.handles.heap else self.old.handles.moved;
        } }
        ensures written { self.new.written ≡ (if result then counted (counted self.old.written self.new.handles.moved) (if options.zero then size else 0) else self.old.written) }
    {
        let Some(placed) = self.objects.alloc(slot as u32, size, kind, options) else {
            return false;
        };
        self.moved = placed.moved as u32;
        self.attributes[slot as usize] = Some(attributes);
        take_run(
            &mut self.selectors,
            slot,
            attributes.slots,
            kind_for(attributes),
        );
        follow(
            &self.objects,
            &self.attributes,
            &mut self.selectors,
            placed.slid,
        );
        place_run(&mut self.selectors, &self.attributes, slot, placed.at, size);
        true
    }

    /// So many bytes, above 0 and a multiple of the grain, for an object that is there, if it gets as many slots as these need, and there is room
    /// for them as the options have it: the slot that it has then, and what was moved. Where its own slots and those after them don't do, that is
    /// another slot. Its selectors follow, and so do those of objects that were discarded for it, or have slid.
    pub(crate) fn reallocate(
        &mut self,
        slot: u16,
        size: u32,
        options: RoomOptions,
    ) -> Option<Resized>
        requires object { IsSome (object_at self.old.handles.heap slot) }
        requires some { 0 < size }
        requires small { size ≤ LARGEST_SIZE }
        requires rounded { IsMultiple GRAIN size }
        requires run { IfSome (owned_at self.old.handles slot) (λ owned. owned.size ≡ size) }
        ensures gets { IfSome result (λ r. IsSomeAnd (object_at self.old.handles.heap slot) (λ o. GetsRun self.old.handles slot o options (handles.slots_for size) r.first)) }
        ensures resized { IfSome result (λ r. (heap : Heap) × Reallocates self.old.handles.heap slot size options true heap × (r.moved ≡ moved_bytes self.old.handles.heap heap)
            × (self.new.handles ≡ record self.old.handles {
              heap = rehoused heap slot r.first;
              attributes = with_run self.old.handles.attributes slot r.first (handles.slots_for size);
            })) }
        ensures refused { IfNone result (self.new ≡ self.old) }
        ensures lacks { IfNone result (IsSomeAnd (object_at self.old.handles.heap slot) (λ o.
            LacksRun self.old.handles slot o options (handles.slots_for size)
            ⊎ ((first : ℕ) × GetsRun self.old.handles slot o options (handles.slots_for size) first × Reallocates self.old.handles.heap slot size options false self.old.handles.heap))) }
        ensures written { IfSome result (λ r. self.new.written ≡ counted (counted self.old.written r.moved)
            (if options.zero then size - unwrap_or (option_map length (bytes_at self.old.handles.heap slot)) 0 else 0)) }
    {
        let count = slots_for(size);
        let first = self.run_for(slot, count, options)?;
        let place = self.objects.realloc(slot as u32, size, options)?;
        house(
            &mut self.objects,
            &mut self.attributes,
            &mut self.selectors,
            slot,
            first,
            count,
        );
        follow(
            &self.objects,
            &self.attributes,
            &mut self.selectors,
            place.slid,
        );
        place_run(&mut self.selectors, &self.attributes, first, place.at, size);
        Some(Resized {
            first,
            moved: place.moved as u32,
        })
    }

    /// Where the run of so many slots begins that an object gets for another size: where its own does, if it has as many already, or those directly
    /// after it are free; else where as many are free, unless it may not leave its slot. None where there are none for it.
    fn run_for(&self, slot: u16, count: u16, options: RoomOptions) -> Option<u16>
        requires object { IsSome (object_at self.now.handles.heap slot) }
        requires some { 0 < count }
        ensures few { IfSome result (λ first. first + count ≤ 8192) }
        ensures gets { IfSome result (λ first. IsSomeAnd (object_at self.now.handles.heap slot) (λ o. GetsRun self.now.handles slot o options count first)) }
        ensures lacks { IfNone result (IsSomeAnd (object_at self.now.handles.heap slot) (λ o. LacksRun self.now.handles slot o options count)) }
    {
        if self.can_extend(slot, count) {
            return Some(slot);
        }
        if self.may_leave(slot, options) {
            self.selectors.find_run(count as u32)
        } else {
            None
        }
    }

    /// Whether an object has so many slots, or gets them by those directly after its own.
    fn can_extend(&self, slot: u16, count: u16) -> bool
        requires { IsSome (object_at self.now.handles.heap slot) }
        ensures value { IsTrue result ↔ CanExtend self.now.handles slot count }
        ensures few { IsTrue result → slot + count ≤ 8192 }
    {
        let own = self.slots_at(slot);
        count <= own || self.selectors.is_free_run(slot + own, count - own)
    }

    /// Whether an object may get another slot, and with it another handle: none that is locked, and a fixed one only where it may be moved.
    fn may_leave(&self, slot: u16, options: RoomOptions) -> bool
        requires { IsSome (object_at self.now.handles.heap slot) }
        ensures { IsSomeAnd (object_at self.now.handles.heap slot) (λ o. result ≡ may_leave o options) }
    {
        let Some(entry) = self.objects.entry(slot as u32) else {
            return false;
        };
        entry.locks == 0 && (!entry.kind.is_fixed() || options.may_move)
    }

    /// Compaction for so many bytes: the longest hole there is then, or what it could be for 0 bytes.
    pub(crate) fn compact(&mut self, size: u32) -> u32
        ensures step { GlobalCompacts self.old.handles size result self.new.handles }
        ensures written { self.new.written ≡ counted self.old.written self.new.handles.moved }
    {
        let compacted = self.objects.compact(size);
        follow(
            &self.objects,
            &self.attributes,
            &mut self.selectors,
            compacted.slid,
        );
        self.moved = compacted.moved as u32;
        compacted.room
    }

    /// Takes an object away, locked or not: its slots are free.
    pub(crate) fn remove(&mut self, slot: u16)
        requires { IsSome (object_at self.old.handles.heap slot) }
        ensures { self.new ≡ record self.old { handles = without_slot self.old.handles slot } }
    {
        let count = self.slots_at(slot);
        self.objects.release(slot as u32);
        self.attributes[slot as usize] = None;
        give_run(&mut self.selectors, slot, count);
    }

    /// Frees an object that isn't locked.
    pub(crate) fn free(&mut self, slot: u16) -> Result<(), Refusal>
        requires { IsSome (object_at self.old.handles.heap slot) }
        ensures ok { OnOk result ((after_free self.old.handles.heap slot ≡ Ok (removed self.old.handles.heap slot)) × (self.new ≡ record self.old { handles = without_slot self.old.handles slot })) }
        ensures err { IfErr result (λ refusal. (after_free self.old.handles.heap slot ≡ Err refusal) × (self.new ≡ self.old)) }
    {
        if self.locks(slot) > 0 {
            return Err(Refusal::Locked);
        }
        self.remove(slot);
        Ok(())
    }

    /// How many slots the object has whose run begins at a slot.
    pub(crate) fn slots_at(&self, slot: u16) -> u16
        requires { IsSome (object_at self.now.handles.heap slot) }
        ensures value { result ≡ slots_at self.now.handles.attributes slot }
        ensures few { slot + result ≤ 8192 }
    {
        slots_of(&self.attributes, slot)
    }

    /// A discardable object that isn't locked gives up its bytes, if it has any, and its selectors say so.
    pub(crate) fn discard(&mut self, slot: u16) -> Result<(), Refusal>
        requires { IsSome (object_at self.old.handles.heap slot) }
        ensures ok { OnOk result ((after_discard self.old.handles.heap slot ≡ Ok self.new.handles.heap) × (self.new ≡ record self.old { handles = record self.old.handles { heap = self.new.handles.heap } })) }
        ensures err { IfErr result (λ refusal. (after_discard self.old.handles.heap slot ≡ Err refusal) × (self.new ≡ self.old)) }
    {
        let count = self.slots_at(slot);
        self.objects.discard(slot as u32)?;
        vacate_run(&mut self.selectors, slot, count);
        Ok(())
    }

    /// A moveable object becomes discardable, or a discardable one moveable. A fixed one stays as it is.
    pub(crate) fn modify(&mut self, slot: u16, kind: Kind)
        ensures { self.new ≡ record self.old { handles = record self.old.handles { heap = modified self.old.handles.heap slot kind } } }
    {
        let _ = self.objects.modify(slot as u32, kind);
    }

    /// One lock more.
    pub(crate) fn lock(&mut self, slot: u16) -> Result<(), Refusal>
        ensures ok { OnOk result ((after_lock self.old.handles.heap slot ≡ Ok self.new.handles.heap) × (self.new ≡ record self.old { handles = record self.old.handles { heap = self.new.handles.heap } })) }
        ensures err { IfErr result (λ refusal. (after_lock self.old.handles.heap slot ≡ Err refusal) × (self.new ≡ self.old)) }
    {
        self.objects.lock(slot as u32)
    }

    /// One lock less.
    pub(crate) fn unlock(&mut self, slot: u16) -> Result<(), Refusal>
        ensures ok { OnOk result ((after_unlock self.old.handles.heap slot ≡ Ok self.new.handles.heap) × (self.new ≡ record self.old { handles = record self.old.handles { heap = self.new.handles.heap } })) }
        ensures err { IfErr result (λ refusal. (after_unlock self.old.handles.heap slot ≡ Err refusal) × (self.new ≡ self.old)) }
    {
        self.objects.unlock(slot as u32)
    }

    /// A discardable object with bytes becomes the newest in the order of use.
    pub(crate) fn to_newest(&mut self, slot: u16) -> Result<(), Refusal>
        ensures ok { OnOk result ((after_newest self.old.handles.heap slot ≡ Ok self.new.handles.heap) × (self.new ≡ record self.old { handles = record self.old.handles { heap = self.new.handles.heap } })) }
        ensures err { IfErr result (λ refusal. (after_newest self.old.handles.heap slot ≡ Err refusal) × (self.new ≡ self.old)) }
    {
        self.objects.to_newest(slot as u32)
    }

    /// A discardable object with bytes becomes the oldest in the order of use.
    pub(crate) fn to_oldest(&mut self, slot: u16) -> Result<(), Refusal>
        ensures ok { OnOk result ((after_oldest self.old.handles.heap slot ≡ Ok self.new.handles.heap) × (self.new ≡ record self.old { handles = record self.old.handles { heap = self.new.handles.heap } })) }
        ensures err { IfErr result (λ refusal. (after_oldest self.old.handles.heap slot ≡ Err refusal) × (self.new ≡ self.old)) }
    {
        self.objects.to_oldest(slot as u32)
    }

    /// An object was used: a discardable one with bytes becomes the newest in the order of use.
    pub(crate) fn touch(&mut self, slot: u16)
        ensures { self.new ≡ record self.old { handles = record self.old.handles { heap = after_touch self.old.handles.heap slot } } }
    {
        self.objects.touch(slot as u32);
    }
}

/// What an object of these attributes holds.
pub(crate) fn kind_for(attributes: Attributes) -> SelKind
    ensures { result ≡ joined.kind_for (Some attributes) }
{
    if attributes.owned.is_some_and(|owned| owned.code) {
        SelKind::Code
    } else {
        SelKind::Data
    }
}
