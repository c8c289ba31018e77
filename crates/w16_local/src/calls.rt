//! The calls that make local objects, give them another size or kind, discard and free them, and make room.
ghost use Rattle.std.specs.Prelude.{◌≡◌, Some};
ghost use Rattle.w16_machine.specs.Local.{IsLowestFree, heap_of, id_named};
ghost use Rattle.w16_model.specs.Commands.Command.{LocalAlloc, LocalReAlloc, LocalDiscard, LocalFree, LocalCompact};
ghost use Rattle.w16_local.specs.Acts.{IsLentOnce};
ghost use Rattle.w16_local.specs.Growth.{IsLentOrGrown};
ghost use Rattle.w16_local.specs.Fewest.{AllocsFewest, CompactionsFewest, InWorlds, ReallocsFewest};
ghost use Rattle.w16_local.specs.Parts.{Calls};

use crate::LocalHeaps;
use crate::acts::ByteOp;
use crate::current::{CurrentHeap, Named};
use crate::flags::{
    LocalAllocFlags, LocalReAllocFlags, local_kind, local_options, moveable_or_discardable,
    rounded_up,
};
use crate::growth::{Purpose, Request};
use crate::look::{may_discard, may_free};
use crate::steps::TableOp;
use bitflags::Flags;
use std::alloc::Allocator;
use w16_global::Global16;

impl<A: Allocator + Copy> LocalHeaps<A> {
    /// `LocalAlloc`: a new object's name, or 0: for a fixed object of size 0, where no entry is free, and where there is no room. The size
    /// is rounded up to 4 bytes; a moveable object of size 0 has no bytes. Others slide or are discarded for it as in the global heap, as few as
    /// make room. Where none do, the heap grows with its segment, by the least that serves and to at most 65,536 bytes, if it ends where the
    /// segment does, others may slide for the request, and the segment gets the bytes.
    pub fn local_alloc(
        &mut self,
        global: &mut Global16<A>,
        ds: u16,
        flags: LocalAllocFlags,
        size: u16,
    ) -> u16
        ensures step { Calls global.old.handles self.old ds (LocalAlloc flags.0 size) result global.new.handles self.new }
        ensures fewest { InWorlds global.old.handles self.old ds global.new.handles self.new (AllocsFewest flags.0 size result) }
        ensures written { IsLentOrGrown (λ at id. IsLowestFree (heap_of at) id) flags.0 size global.old self.old ds global.new }
    {
        let Some(CurrentHeap { slot, .. }) = self.current_heap(global, ds) else {
            return 0;
        };
        let Some(id) = self.free_entry(slot) else {
            return 0;
        };
        if size == 0 {
            if !flags.intersects(LocalAllocFlags::MOVEABLE) {
                return 0;
            }
            let _ = self.step(slot, id, TableOp::Enter(moveable_or_discardable(flags)));
            return (4 * id + 2) as u16;
        }
        let request = Request {
            id,
            size: rounded_up(size),
            purpose: Purpose::New(local_kind(flags)),
            options: local_options(flags),
        };
        self.serve(global, slot, request)
    }

    /// `LocalReAlloc`: an object gets another size, rounded up to 4 bytes; its first bytes stay. It answers the object's name, which a fixed
    /// one that was moved has anew; 0 for a bad name, and where there is no room, though the heap grows for it as for [`LocalHeaps::local_alloc`]. With `LMEM_MODIFY` a moveable object gets the kind that
    /// the flags say, whatever the size. A size of 0 with `LMEM_MOVEABLE` discards the object.
    pub fn local_realloc(
        &mut self,
        global: &mut Global16<A>,
        ds: u16,
        name: u16,
        size: u16,
        flags: LocalReAllocFlags,
    ) -> u16
        ensures step { Calls global.old.handles self.old ds (LocalReAlloc name size flags.0) result global.new.handles self.new }
        ensures fewest { InWorlds global.old.handles self.old ds global.new.handles self.new (ReallocsFewest name size flags.0 result) }
        ensures written { IsLentOrGrown (λ at id. id_named (heap_of at) name ≡ Some id) flags.0 size global.old self.old ds global.new }
    {
        let Some(Named { slot, heap, id }) = self.named(global, ds, name) else {
            return 0;
        };
        // The kind and the options are read from the same bits as those of `LocalAlloc`.
        let asked = LocalAllocFlags(flags.0);
        if flags.intersects(LocalReAllocFlags::MODIFY) {
            let _ = self.step(slot, id, TableOp::Modify(moveable_or_discardable(asked)));
            return name;
        }
        if size > 0 {
            let request = Request {
                id,
                size: rounded_up(size),
                purpose: Purpose::Resize,
                options: local_options(asked),
            };
            return self.serve(global, slot, request);
        }
        if !flags.intersects(LocalReAllocFlags::MOVEABLE) {
            return 0;
        }
        if !may_discard(heap, id) {
            return 0;
        }
        self.work_on(global, slot, &ByteOp::Discard { id });
        name
    }

    /// `LocalDiscard`: a discardable object that isn't locked gives up its bytes, if it has any. It answers the name, or 0.
    pub fn local_discard(&mut self, global: &mut Global16<A>, ds: u16, name: u16) -> u16
        ensures step { Calls global.old.handles self.old ds (LocalDiscard name) result global.new.handles self.new }
        ensures written { IsLentOnce global.old self.old ds global.new }
    {
        self.local_realloc(global, ds, name, 0, LocalReAllocFlags::MOVEABLE)
    }

    /// `LocalFree`: 0, and the object is gone; or the name, where it is bad or the object locked.
    pub fn local_free(&mut self, global: &mut Global16<A>, ds: u16, name: u16) -> u16
        ensures step { Calls global.old.handles self.old ds (LocalFree name) result global.new.handles self.new }
        ensures written { IsLentOnce global.old self.old ds global.new }
    {
        let Some(Named { slot, heap, id }) = self.named(global, ds, name) else {
            return name;
        };
        if !may_free(heap, id) {
            return name;
        }
        self.work_on(global, slot, &ByteOp::Free { id });
        0
    }

    /// `LocalCompact`: room is made for some bytes, as in the global heap. It answers the longest hole that there is then, or for a size of 0
    /// how long one could be, and then nothing changes. 0 where DS names no local heap.
    pub fn local_compact(&mut self, global: &mut Global16<A>, ds: u16, size: u16) -> u16
        ensures step { Calls global.old.handles self.old ds (LocalCompact size) result global.new.handles self.new }
        ensures fewest { InWorlds global.old.handles self.old ds global.new.handles self.new (CompactionsFewest size result) }
        ensures written { IsLentOnce global.old self.old ds global.new }
    {
        let Some(CurrentHeap { slot, .. }) = self.current_heap(global, ds) else {
            return 0;
        };
        let compact = ByteOp::Compact { size: size as u32 };
        self.work_on(global, slot, &compact)
    }
}
