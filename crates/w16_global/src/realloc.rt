//! The calls of programs that give an object another size or another kind.
ghost use Rattle.std.specs.Prelude.{◌≡◌, ℕ, Some, IsSome};
ghost use Rattle.w16_model.specs.Handles as handles;
ghost use Rattle.w16_model.specs.Heap.{object_at};
ghost use Rattle.w16_model.specs.Resizes as resizes;
ghost use Rattle.w16_model.specs.CallLaws as call_laws;
ghost use Rattle.w16_region.specs.Bytes.{counted};
ghost use Rattle.w16_global.specs.Joined.{zeroed_behind};
ghost use Rattle.w16_global.specs.Lengthened.{Changes, Lengthens, handle_at};

use crate::calls::{alloc_options, rounded};
use crate::flags::{GlobalAllocFlags, GlobalReAllocFlags};
use crate::global::{Global16, Resized};
use bitflags::Flags;
use std::alloc::Allocator;
use w16_model::names::handle_of;
use w16_model::{Kind, LARGEST_SIZE, RoomOptions};

impl<A: Allocator + Copy> Global16<A> {
    /// `GlobalReAlloc`: the object's handle, which may be another one, or 0 where the handle is bad, a module owns the object, or the request is
    /// refused, and then nothing has changed.
    ///
    /// With `GMEM_MODIFY` the size isn't looked at: an object that isn't fixed becomes discardable with `GMEM_DISCARDABLE`, else moveable. A
    /// size of 0 with `GMEM_MOVEABLE` discards a discardable object that isn't locked, as it may be already; a size of 0 is refused
    /// otherwise, and so is one over the limit. The size is rounded up to 32 bytes: the object keeps its first bytes, and more come after
    /// them, zeros with `GMEM_ZEROINIT`; one without bytes gets new ones. It is cut where it stands. To grow, it may move, and others
    /// slide and are discarded, as in [`Global16::global_alloc`]; a fixed or locked one moves with `GMEM_MOVEABLE` alone, and grows
    /// into the hole after it without.
    ///
    /// The object then has as many slots as the size needs. It gives up its last ones, or gets those directly after its own. Where these
    /// aren't free it gets as many others, the lowest in a row, and the handle of the first, and its old handle is bad: not if it is
    /// locked, and if it is fixed with `GMEM_MOVEABLE` alone. It is refused where there are none for it.
    pub fn global_realloc(&mut self, handle: u16, size: u32, flags: GlobalReAllocFlags) -> u16
        ensures step { resizes.GlobalReAllocs self.old.handles handle size flags.0 result self.new.handles }
        ensures written { self.new.written ≡ counted (counted self.old.written self.new.handles.moved) (zeroed_behind self.old.handles handle size flags.0 result) }
        ensures fewest { call_laws.ReallocFewest self.old.handles handle size flags.0 result self.new.handles }
    {
        self.reveal_handles();
        self.change_object(handle, size, flags)
    }

    /// Gives a slot's object another size as [`Global16::global_realloc`] does by its handle, and answers the same, for a local heap that grows in
    /// it. This is no call of a program: the bytes that were slid count as written, and not as moved by a call.
    pub fn lengthen(&mut self, slot: u16, size: u32, flags: GlobalReAllocFlags) -> u16
        requires { IsSome (object_at self.old.handles.heap slot) }
        ensures step { (handle : ℕ) → handles.slot_of_handle self.old.handles handle ≡ Some slot → Lengthens self.old handle size flags.0 result self.new }
        ensures refused { result ≡ 0 → self.new ≡ self.old }
    {
        self.reveal_handles();
        match self.change_at(slot, size, flags) {
            Some(resized) => self.handle_at(resized.first),
            None => 0,
        }
    }

    /// Does what `global_realloc` says. Its contract leaves out that it discards as few objects as it can.
    fn change_object(&mut self, handle: u16, size: u32, flags: GlobalReAllocFlags) -> u16
        ensures step { resizes.GlobalReAllocs self.old.handles handle size flags.0 result self.new.handles }
        ensures written { self.new.written ≡ counted (counted self.old.written self.new.handles.moved) (zeroed_behind self.old.handles handle size flags.0 result) }
    {
        let Some(slot) = self.slot_of_handle(handle) else {
            self.moved = 0;
            return 0;
        };
        match self.change_at(slot, size, flags) {
            Some(resized) => {
                self.moved = resized.moved;
                self.handle_at(resized.first)
            }
            None => {
                self.moved = 0;
                0
            }
        }
    }

    /// Does what `global_realloc` says to a slot's object. What was moved is answered, and `moved` stays. None where it is refused, and then nothing has
    /// changed.
    fn change_at(&mut self, slot: u16, size: u32, flags: GlobalReAllocFlags) -> Option<Resized>
        requires { IsSome (object_at self.old.handles.heap slot) }
        ensures { Changes self.old slot size flags.0 result self.new }
    {
        self.reveal_handles();
        if self.is_owned(slot) {
            return None;
        }
        let in_place = Resized {
            first: slot,
            moved: 0,
        };
        if flags.intersects(GlobalReAllocFlags::MODIFY) {
            self.modify(slot, kind_modified(flags));
            return Some(in_place);
        }
        if size == 0 {
            if flags.intersects(GlobalReAllocFlags::MOVEABLE) && self.discard(slot).is_ok() {
                return Some(in_place);
            }
            return None;
        }
        if size > LARGEST_SIZE {
            return None;
        }
        self.reallocate(slot, rounded(size), realloc_options(flags))
    }

    /// The handle of a slot's object; 0 where there is none.
    fn handle_at(&self, slot: u16) -> u16
        ensures { result ≡ handle_at self.now.handles.heap slot }
    {
        match self.objects.entry(slot as u32) {
            Some(entry) => handle_of(entry.kind, slot),
            None => 0,
        }
    }

    /// `GlobalDiscard`: the handle, and a discardable object that isn't locked gives up its bytes, if it has any. 0 for a bad handle, for an
    /// object that a module owns, and for any other, which keeps them. It is a `GlobalReAlloc` to 0 bytes with `GMEM_MOVEABLE`.
    pub fn global_discard(&mut self, handle: u16) -> u16
        ensures step { resizes.GlobalDiscards self.old.handles handle result self.new.handles }
        ensures written { self.new.written ≡ self.old.written }
    {
        self.change_object(handle, 0, GlobalReAllocFlags::MOVEABLE)
    }
}

/// How flags of a reallocation let room be made: with `GMEM_MOVEABLE` the object itself may be moved, fixed or locked.
fn realloc_options(flags: GlobalReAllocFlags) -> RoomOptions
    ensures { result ≡ resizes.realloc_options flags.0 }
{
    RoomOptions {
        may_move: flags.intersects(GlobalReAllocFlags::MOVEABLE),
        ..alloc_options(GlobalAllocFlags(flags.0))
    }
}

/// The kind that `GMEM_MODIFY` asks for.
fn kind_modified(flags: GlobalReAllocFlags) -> Kind
    ensures { result ≡ resizes.kind_modified flags.0 }
{
    if flags.intersects(GlobalReAllocFlags::DISCARDABLE) {
        Kind::Discardable
    } else {
        Kind::Moveable
    }
}
