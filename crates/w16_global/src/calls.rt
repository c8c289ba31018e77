//! The calls of programs, as the manual of Windows 3.1 names them.
ghost use Rattle.std.specs.Prelude.{◌≡◌, ◌+◌, ◌^◌, ◌<◌, ◌≤◌, ℕ, if◌then◌else◌, IfSome, IfNone, None, length, option_map, slice_get};
ghost use Rattle.std.specs.FinMap as finmap;
ghost use Rattle.w16_model.specs.Changes.{without};
ghost use Rattle.w16_model.specs.declared.Kind.TheVariants.{Discardable};
ghost use Rattle.w16_model.specs.Heap.{is_discardable};
ghost use Rattle.w16_model.specs.Calls.{GlobalAllocs, GlobalCompacts, locks_at, is_shared};
ghost use Rattle.w16_model.specs.{Handles.Gives, Handles.HasNoRun, Handles.IsFreeRun, Handles.IsFreeSlot, Law.AreHandles, Law.IsFirstItem, Law.IsItemAt, Law.IsItemCount};
ghost use Rattle.w16_model.specs.Calls as calls;
ghost use Rattle.w16_model.specs.Fewest.{AllocFewest, CompactsFewest};
ghost use Rattle.w16_model.specs.Walk.{IsItem};
ghost use Rattle.w16_model.specs.Handles as handles;
ghost use Rattle.w16_model.specs.Owned as owned;
ghost use Rattle.w16_region.specs.Bytes.{counted};
ghost use Rattle.w16_global.specs.Joined.{zeroed};

use crate::flags::GlobalAllocFlags;
use crate::global::Global16;
use crate::runs::slots_for;
use bitflags::Flags;
use std::alloc::Allocator;
use w16_model::names::{dword_of, handle_of, selector_of, slot_of};
use w16_model::{
    Attributes, Entry, GMEM_DDESHARE, GMEM_DISCARDABLE, GMEM_DISCARDED, GRAIN, Item, Kind,
    LARGEST_SIZE, Owned, Owner, Refusal, RoomOptions, bit_if,
};

/// What a selector reaches: an object, by its first slot, and which of the object's selectors it is, from 0.
#[derive(Clone, Copy, Debug)]
pub(crate) struct Part {
    pub slot: u16,
    pub number: u8,
}

impl<A: Allocator + Copy> Global16<A> {
    /// The slot of the object whose handle this is, exactly: a fixed object's handle is its selector, any other's the number below it
    /// (GlobalAlloc). None where no object has the handle.
    pub fn slot_of_handle(&self, handle: u16) -> Option<u16>
        ensures { result ≡ handles.slot_of_handle self.now.handles handle }
    {
        let slot = slot_of(handle);
        let entry = self.objects.entry(slot as u32)?;
        if handle == handle_of(entry.kind, slot) {
            Some(slot)
        } else {
            None
        }
    }

    /// What a selector reaches of an object.
    pub(crate) fn part_of_selector(&self, selector: u16) -> Option<Part>
        ensures found { IfSome result (λ p. handles.part_of_selector self.now.handles selector ≡ Some (record { slot = p.slot; number = p.number })) }
        ensures none { IfNone result (handles.part_of_selector self.now.handles selector ≡ None) }
    {
        let descriptor = self.selectors.find(selector)?;
        let number = descriptor.number;
        Some(Part {
            slot: slot_of(selector) - number as u16,
            number,
        })
    }

    /// The slot of the object whose first selector this is.
    pub(crate) fn slot_of_selector(&self, selector: u16) -> Option<u16>
        ensures { result ≡ handles.slot_of_selector self.now.handles selector }
    {
        self.reveal_handles();
        let part = self.part_of_selector(selector)?;
        if part.number == 0 {
            Some(part.slot)
        } else {
            None
        }
    }

    /// How many discardable objects with bytes there are, but for a slot's own. So a call that names this object, or makes it, discards others
    /// just where there are fewer afterwards.
    pub fn discardable_beside(&self, slot: u16) -> usize
        ensures { result ≡ length (without slot self.now.handles.heap.order) }
    {
        self.objects.discardable_beside(slot as u32)
    }

    /// The handle of the i-th object of the order of use, the least recently used first, from 0; none after the last. It goes over those before it.
    pub fn in_order(&self, i: usize) -> Option<u16>
        ensures { result ≡ option_map (handles.handle_of Discardable) (slice_get self.now.handles.heap.order i) }
    {
        let slot = self.objects.in_order(i)?;
        Some(handle_of(Kind::Discardable, slot as u16))
    }

    /// The lowest slot that no object has.
    pub(crate) fn free_slot(&mut self) -> Option<u16>
        ensures same { self.new ≡ self.old }
        ensures found { IfSome result (λ slot. IsFreeSlot self.old.handles slot) }
        ensures few { IfSome result (λ slot. slot < 8192) }
        ensures none { IfNone result ((slot : ℕ) → IsFreeSlot self.old.handles slot → ⊥) }
    {
        self.selectors.lowest_free()
    }

    /// The first of the lowest so many free slots in a row, above 0.
    pub(crate) fn free_run(&mut self, count: u16) -> Option<u16>
        requires { 0 < count }
        ensures same { self.new ≡ self.old }
        ensures found { IfSome result (λ first. IsFreeRun self.old.handles first count) }
        ensures few { IfSome result (λ first. first + count ≤ 8192) }
        ensures none { IfNone result (HasNoRun self.old.handles count) }
    {
        if count == 1 {
            self.free_slot()
        } else {
            self.selectors.find_run(count as u32)
        }
    }

    /// The lock count of a slot's object.
    pub(crate) fn locks(&self, slot: u16) -> u8
        ensures { result ≡ locks_at self.now.handles.heap slot }
    {
        self.objects
            .entry(slot as u32)
            .map_or(0, |entry| entry.locks)
    }

    /// The attributes of a slot's object.
    fn attributes_of(&self, slot: u16) -> Option<Attributes>
        ensures { result ≡ finmap.get self.now.handles.attributes slot }
    {
        self.attributes.get(slot as usize).copied().flatten()
    }

    /// What a slot's object is to its module, if a module owns it.
    pub(crate) fn owned_at(&self, slot: u16) -> Option<Owned>
        ensures { result ≡ owned.owned_at self.now.handles slot }
    {
        self.attributes_of(slot)?.owned
    }

    /// Whether a module owns a slot's object; none owns what isn't there.
    pub fn is_owned(&self, slot: u16) -> bool
        ensures { result ≡ owned.is_owned self.now.handles slot }
    {
        self.owned_at(slot).is_some()
    }

    /// Whether other tasks share a slot's object.
    fn is_shared(&self, slot: u16) -> bool
        ensures { result ≡ is_shared self.now.handles slot }
    {
        self.attributes_of(slot)
            .is_some_and(|attributes| attributes.shared)
    }

    /// `GlobalAlloc`: a new object's handle, or 0: for a fixed object of size 0, a size over the limit, where too few slots in a row are free,
    /// and where there is no room.
    ///
    /// The object has a slot for each 65,536 bytes, and one at least. The size is rounded up to 32 bytes; a moveable object of size 0 has no
    /// bytes. Objects that aren't fixed or locked slide where that makes room, and of the discardable ones as few as are needed are discarded,
    /// the least recently used first. With `GMEM_NODISCARD` none is discarded, with `GMEM_NOCOMPACT` none slides either. `GMEM_DISCARDABLE`
    /// counts beside `GMEM_MOVEABLE` alone.
    pub fn global_alloc(&mut self, flags: GlobalAllocFlags, size: u32) -> u16
        ensures step { GlobalAllocs self.old.handles flags.0 size result self.new.handles }
        ensures written { self.new.written ≡ counted (counted self.old.written self.new.handles.moved) (zeroed flags.0 size result) }
        ensures fewest { AllocFewest self.old.handles flags.0 size result self.new.handles }
    {
        self.reveal_handles();
        self.new_object(flags, size)
    }

    /// The same: a new object, and its handle.
    fn new_object(&mut self, flags: GlobalAllocFlags, size: u32) -> u16
        ensures step { GlobalAllocs self.old.handles flags.0 size result self.new.handles }
        ensures written { self.new.written ≡ counted (counted self.old.written self.new.handles.moved) (zeroed flags.0 size result) }
    {
        self.moved = 0;
        if size > LARGEST_SIZE {
            return 0;
        }
        let rounded_size = rounded(size);
        let slots = slots_for(rounded_size);
        let Some(slot) = self.free_run(slots) else {
            return 0;
        };
        let kind = kind_asked(flags);
        let attributes = attributes_asked(flags, slots);
        if size == 0 {
            if !flags.intersects(GlobalAllocFlags::MOVEABLE) {
                return 0;
            }
            self.enter(slot, kind, attributes);
            return handle_of(kind, slot);
        }
        if self.allocate(slot, rounded_size, kind, alloc_options(flags), attributes) {
            handle_of(kind, slot)
        } else {
            0
        }
    }

    /// `GlobalFree`: 0, or the handle where it is bad, a module owns the object, or it is locked.
    pub fn global_free(&mut self, handle: u16) -> u16
        ensures step { Gives (calls.global_free self.old.handles handle) (calls.Answer.Word result) self.new.handles }
        ensures written { self.new.written ≡ self.old.written }
    {
        let Some(slot) = self.slot_of_handle(handle) else {
            return handle;
        };
        if self.is_owned(slot) {
            return handle;
        }
        match self.free(slot) {
            Ok(()) => 0,
            Err(_) => handle,
        }
    }

    /// `GlobalLock`: a far pointer to the object's first byte, or 0 for a bad handle, an absent object and a count of 255 locks. A fixed object
    /// counts none.
    pub fn global_lock(&mut self, handle: u16) -> u32
        ensures step { Gives (calls.global_lock self.old.handles handle) (calls.Answer.Dword result) self.new.handles }
        ensures written { self.new.written ≡ self.old.written }
    {
        let Some(slot) = self.slot_of_handle(handle) else {
            return 0;
        };
        match self.lock(slot) {
            Ok(()) | Err(Refusal::Fixed) => dword_of(selector_of(slot), 0),
            Err(_) => 0,
        }
    }

    /// `GlobalUnlock`: 1 where locks are left, else 0, also for a fixed object and a bad handle.
    pub fn global_unlock(&mut self, handle: u16) -> u16
        ensures step { Gives (calls.global_unlock self.old.handles handle) (calls.Answer.Word result) self.new.handles }
        ensures written { self.new.written ≡ self.old.written }
    {
        let Some(slot) = self.slot_of_handle(handle) else {
            return 0;
        };
        match self.unlock(slot) {
            Ok(()) => (self.locks(slot) > 0) as u16,
            Err(_) => 0,
        }
    }

    /// `GlobalCompact`: for `size` bytes above 0, as few discardable objects as that needs lose their bytes, the least recently used first, or
    /// all that may, and unlocked ones that aren't fixed slide until a hole is as long as it can be then, where none is yet. The answer is the
    /// length of the longest hole, 0 where there is none. For 0 it answers what that could be, with all discarded that may be, and changes nothing.
    pub fn global_compact(&mut self, size: u32) -> u32
        ensures step { GlobalCompacts self.old.handles size result self.new.handles }
        ensures written { self.new.written ≡ counted self.old.written self.new.handles.moved }
        ensures fewest { CompactsFewest self.old.handles.heap size result self.new.handles.heap }
    {
        self.reveal_handles();
        self.compact(size)
    }

    /// `GlobalLRUNewest`: the handle, and a discardable object with bytes becomes the newest in the order of use, also while it is locked; 0 for
    /// any other object and for a bad handle.
    pub fn global_lru_newest(&mut self, handle: u16) -> u16
        ensures step { Gives (calls.global_lru_newest self.old.handles handle) (calls.Answer.Word result) self.new.handles }
        ensures written { self.new.written ≡ self.old.written }
    {
        let Some(slot) = self.slot_of_handle(handle) else {
            return 0;
        };
        match self.to_newest(slot) {
            Ok(()) => handle,
            Err(_) => 0,
        }
    }

    /// `GlobalLRUOldest`: the handle, and a discardable object with bytes becomes the oldest in the order of use, which is discarded first; 0
    /// for any other object and for a bad handle.
    pub fn global_lru_oldest(&mut self, handle: u16) -> u16
        ensures step { Gives (calls.global_lru_oldest self.old.handles handle) (calls.Answer.Word result) self.new.handles }
        ensures written { self.new.written ≡ self.old.written }
    {
        let Some(slot) = self.slot_of_handle(handle) else {
            return 0;
        };
        match self.to_oldest(slot) {
            Ok(()) => handle,
            Err(_) => 0,
        }
    }

    /// The i-th part of the heap by address, from 0 on, an object's bytes or a hole; objects are named by their handles. None after the last.
    /// It goes over the parts before it: a whole walk is quicker by [`Global16::walk_from`] (profile).
    pub fn walk(&self, i: usize) -> Option<Item>
        ensures { IsItemAt handles.handle_of self.now.handles.heap i result }
    {
        let mut from = 0;
        for _ in 0..i {
            let item = self.walk_from(from)?;
            from = item.at + item.size;
        }
        self.walk_from(from)
    }

    /// Tells the prover what always holds of the handles, so also that they have a walk. It does nothing else.
    pub fn reveal_handles(&self)
        ensures { AreHandles self.now.handles }
    {
        let _ = &self.objects;
    }

    /// How many parts a walk has.
    pub fn walk_len(&self) -> u32
        ensures { IsItemCount handles.handle_of self.now.handles.heap result }
    {
        let mut from = 0;
        let mut count = 0;
        while let Some(item) = self.walk_from(from) {
            from = item.at + item.size;
            count += 1;
        }
        count
    }

    /// The first part of the heap that begins at an address or above it; none after the last. A walk of the whole heap asks from 0 on, then
    /// from the end of each part.
    pub fn walk_from(&self, from: u32) -> Option<Item>
        ensures found { IsFirstItem handles.handle_of self.now.handles.heap from result }
        ensures inside { IfSome result (λ item. (0 < item.size) × (item.at + item.size < 2 ^ 32)) }
        ensures words { IfSome result (λ item. IfSome item.owner (λ owner. owner.name < 2 ^ 16)) }

        // No part begins inside it.
        ensures apart { IfSome result (λ item. (other : Item) → IsItem handles.handle_of self.now.handles.heap other → item.at < other.at → item.at + item.size ≤ other.at) }
    {
        let item = self.objects.walk_from(from)?;
        Some(Item {
            owner: item.owner.map(named),
            ..item
        })
    }

    /// How many bytes the last `global_alloc`, `global_realloc`, `global_discard` or `global_compact` moved: the sizes of the objects that stand
    /// at another address since.
    pub fn moved(&self) -> u64
        ensures value { result ≡ self.now.handles.moved }
        ensures few { result < 2 ^ 32 }
    {
        self.moved as u64
    }

    /// How many bytes of the memory were slid, filled or written by far accesses so far; the count stops at the largest `u64` (profile).
    pub fn written(&self) -> u64
        ensures { result ≡ self.now.written }
    {
        self.objects.written()
    }

    /// `GlobalSize`: the object's size in bytes; 0 for a bad handle or an absent object.
    pub fn global_size(&self, handle: u16) -> u32
        ensures { result ≡ calls.global_size self.now.handles handle }
    {
        let Some(slot) = self.slot_of_handle(handle) else {
            return 0;
        };
        self.objects.size(slot as u32).unwrap_or(0)
    }

    /// `GlobalFlags`: the lock count in the low byte, and the bits `GMEM_DISCARDABLE`, `GMEM_DDESHARE` and `GMEM_DISCARDED`, the last for an
    /// absent object; 0 for a bad handle.
    pub fn global_flags(&self, handle: u16) -> u16
        ensures { result ≡ calls.global_flags self.now.handles handle }
    {
        let Some(slot) = self.slot_of_handle(handle) else {
            return 0;
        };
        let Some(entry) = self.objects.entry(slot as u32) else {
            return 0;
        };
        let absent = self.objects.size(slot as u32).is_none();
        flags_of(entry, self.is_shared(slot), absent)
    }

    /// `GlobalHandle`: the selector, any of an object's, in the high word and its object's handle in the low word; 0 where there is none.
    pub fn global_handle(&self, selector: u16) -> u32
        ensures { result ≡ calls.global_handle self.now.handles selector }
    {
        let Some(part) = self.part_of_selector(selector) else {
            return 0;
        };
        match self.objects.entry(part.slot as u32) {
            Some(entry) => dword_of(selector, handle_of(entry.kind, part.slot)),
            None => 0,
        }
    }

    /// `GetSelectorBase`: the address of the first byte that the selector reaches; 0 where its object is absent or there is none.
    pub fn get_selector_base(&self, selector: u16) -> u32
        ensures { result ≡ calls.selector_base self.now.handles selector }
    {
        self.selectors
            .find(selector)
            .map_or(0, |descriptor| descriptor.base)
    }

    /// `GetSelectorLimit`: the offset of the last byte that the selector reaches; 0 where its object is absent or there is none.
    pub fn get_selector_limit(&self, selector: u16) -> u32
        ensures { result ≡ calls.selector_limit self.now.handles selector }
    {
        self.selectors
            .find(selector)
            .map_or(0, |descriptor| descriptor.limit)
    }
}

/// The kind of object that flags ask for. Only a moveable one can be discardable.
fn kind_asked(flags: GlobalAllocFlags) -> Kind
    ensures { result ≡ calls.kind_asked flags.0 }
{
    if !flags.intersects(GlobalAllocFlags::MOVEABLE) {
        Kind::Fixed
    } else if flags.intersects(GlobalAllocFlags::DISCARDABLE) {
        Kind::Discardable
    } else {
        Kind::Moveable
    }
}

/// How flags let room be made.
pub(crate) fn alloc_options(flags: GlobalAllocFlags) -> RoomOptions
    ensures { result ≡ calls.alloc_options flags.0 }
{
    RoomOptions {
        compact: !flags.intersects(GlobalAllocFlags::NOCOMPACT),
        discard: !flags.intersects(GlobalAllocFlags::NODISCARD),
        zero: flags.intersects(GlobalAllocFlags::ZEROINIT),
        may_move: false,
    }
}

/// The attributes that flags ask for, of an object that no module owns and that has so many slots.
fn attributes_asked(flags: GlobalAllocFlags, slots: u16) -> Attributes
    ensures { result ≡ record { shared = calls.has_flag flags.0 GMEM_DDESHARE; owned = None; slots = slots } }
{
    Attributes {
        shared: flags.intersects(GlobalAllocFlags::DDESHARE),
        owned: None,
        slots,
    }
}

/// A size rounded up to whole grains.
pub(crate) fn rounded(size: u32) -> u32
    requires { size ≤ LARGEST_SIZE }
    ensures { result ≡ calls.rounded_size size }
{
    size.div_ceil(GRAIN) * GRAIN
}

/// What `GlobalFlags` says of an object.
fn flags_of(entry: Entry, shared: bool, absent: bool) -> u16
    ensures { result ≡ entry.locks + (if is_discardable entry.kind then GMEM_DISCARDABLE else 0) + (if shared then GMEM_DDESHARE else 0) + (if absent then GMEM_DISCARDED else 0) }
{
    let discardable = bit_if(entry.kind.is_discardable(), GMEM_DISCARDABLE);
    entry.locks as u16
        + discardable
        + bit_if(shared, GMEM_DDESHARE)
        + bit_if(absent, GMEM_DISCARDED)
}

/// The owner with its handle in place of its slot.
fn named(owner: Owner) -> Owner
    requires { owner.name < 8192 }
    ensures { result ≡ record owner { name = handles.handle_of owner.kind owner.name } }
{
    Owner {
        name: handle_of(owner.kind, owner.name as u16) as u32,
        ..owner
    }
}
