//! Objects that modules own: they come without bytes, get them from a loader, and go with their module, whatever programs hold.
ghost use Rattle.std.specs.Prelude.{◌≡◌, ◌/◌, ◌<◌, ◌≤◌, IsTrue, IsFalse, IfSome, IfNone, Some, true, false, option_map, unwrap_or};
ghost use Rattle.w16_model.specs.Handles as handles;
ghost use Rattle.w16_model.specs.Heap.{IsMultiple};
ghost use Rattle.w16_model.specs.Law.{Revives, TakesOwned, without_slot};
ghost use Rattle.w16_model.specs.Owned as owned;
ghost use Rattle.w16_model.specs.Request.{moved_bytes};
ghost use Rattle.w16_region.specs.Bytes.{counted};
ghost use Rattle.w16_global.specs.Owned.{HasNoSlot, LacksBytes};

use crate::global::Global16;
use std::alloc::Allocator;
use w16_model::names::handle_of;
use w16_model::{Attributes, GRAIN, Kind, Owned, REACH, RoomOptions};

/// Others may slide and be discarded, as for an allocation with no flags.
const REVIVAL_OPTIONS: RoomOptions = RoomOptions {
    compact: true,
    discard: true,
    zero: false,
    may_move: false,
};

impl<A: Allocator + Copy> Global16<A> {
    /// A new object in the lowest free slot, owned by a module: its handle, none where no slot is free. It has no bytes until it is revived,
    /// and then `owned.size` of them, above 0, a multiple of 32, and at most 65,536.
    pub fn take_owned(&mut self, kind: Kind, owned: Owned) -> Option<u16>
        requires some { 0 < owned.size }
        requires rounded { IsMultiple GRAIN owned.size }
        requires small { owned.size ≤ REACH }
        ensures taken { IfSome result (λ handle. TakesOwned self.old.handles kind owned handle self.new.handles) }
        ensures none { IfNone result (HasNoSlot self.old.handles × (self.new ≡ self.old)) }
        ensures written { self.new.written ≡ self.old.written }
    {
        let slot = self.free_slot()?;
        let attributes = Attributes {
            shared: false,
            owned: Some(owned),
            slots: 1,
        };
        self.enter(slot, kind, attributes);
        Some(handle_of(kind, slot))
    }

    /// Gives an object that a module owns, and that has no bytes, its bytes, whatever these are: others slide and are discarded for it, as
    /// for an allocation with no flags, and a discardable one becomes the newest in the order of use. The bytes that were slid count as
    /// written, and not as moved by a call. False, and nothing has changed, where there is no room, for a bad handle, for an object that no
    /// module owns, and for one that has bytes.
    pub fn revive(&mut self, handle: u16) -> bool
        ensures revived { IsTrue result → Revives self.old.handles (handle / 8) true self.new.handles }
        ensures named { IsTrue result → LacksBytes self.old.handles handle }
        ensures refused { IsFalse result → self.new ≡ self.old }
        ensures lacks { IsFalse result → LacksBytes self.old.handles handle → Revives self.old.handles (handle / 8) false self.old.handles }
        ensures written { self.new.written ≡ counted self.old.written (moved_bytes self.old.handles.heap self.new.handles.heap) }
    {
        let Some(slot) = self.slot_of_handle(handle) else {
            return false;
        };
        let Some(owned) = self.owned_at(slot) else {
            return false;
        };
        if self.objects.size(slot as u32).is_some() {
            return false;
        }
        self.reallocate(slot, owned.size, REVIVAL_OPTIONS).is_some()
    }

    /// The object of a handle is gone, locked or not, owned or not, and its slot is free. A bad handle changes nothing.
    pub fn release(&mut self, handle: u16)
        ensures { self.new ≡ record self.old { handles = unwrap_or (option_map (without_slot self.old.handles) (handles.slot_of_handle self.old.handles handle)) self.old.handles } }
    {
        if let Some(slot) = self.slot_of_handle(handle) {
            self.remove(slot);
        }
    }

    /// Whether a slot's object is code.
    pub(crate) fn is_code_at(&self, slot: u16) -> bool
        ensures { result ≡ owned.is_code self.now.handles slot }
    {
        self.owned_at(slot).is_some_and(|owned| owned.code)
    }
}
