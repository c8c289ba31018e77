//! What is done to one local heap over the bytes of its segment.
ghost use Rattle.std.specs.Prelude.{◌≡◌, length};
ghost use Rattle.w16_model.specs.Table.{heap_in};
ghost use Rattle.w16_local.specs.Acts.{Acted, MayActOver, Writes};
ghost use Rattle.w16_local.specs.declared.acts.ByteOp.TheVariants.{Alloc, Compact, Discard, Free, Realloc};

use crate::heap::LocalHeap;
use crate::look::name_at;
use std::alloc::Allocator;
use w16_global::Work;
use w16_model::{Kind, RoomOptions};
use w16_region::{Space, reveal_bytes};

/// An operation on a heap's bytes, with its answer. Sizes are multiples of 4, but for a compaction's.
#[derive(Clone, Copy, Debug)]
pub(crate) enum ByteOp {
    /// Allocates bytes for a free entry. It answers the new object's name, or 0.
    Alloc {
        id: u32,
        size: u32,
        kind: Kind,
        options: RoomOptions,
    },
    /// Gives an object another size. It answers its name, or 0.
    Realloc {
        id: u32,
        size: u32,
        options: RoomOptions,
    },
    /// Discards an object that is discardable and not locked. It answers 0.
    Discard {
        id: u32,
    },
    /// Frees an object that isn't locked. It answers 0.
    Free {
        id: u32,
    },
    /// Makes room for some bytes. It answers the length of the longest hole, or for 0 bytes how long one could be.
    Compact {
        size: u32,
    },
}

impl<A: Allocator + Copy> Work<LocalHeap<A>> for ByteOp {
    type Answer = u16;

    ghost use Rattle.w16_model.specs.Table.{heap_in};
    ghost use Rattle.w16_local.specs.Acts.{Acted, MayActOver, Writes};

    ghost may = { λ operation table bytes. MayActOver operation table bytes };

    ghost does = { λ operation table bytes answer left after count written. Acted operation table bytes answer left after × Writes operation (heap_in table bytes) (heap_in left after) count written };

    fn work<S: Space>(&self, heap: &mut LocalHeap<A>, space: &mut S) -> u16 {
        heap.operate(space, *self)
    }
}

impl<A: Allocator + Copy> LocalHeap<A> {
    /// Does an operation on the heap, and gives its answer.
    pub(crate) fn operate<S: Space>(&mut self, space: &mut S, operation: ByteOp) -> u16
        requires { MayActOver operation self.old (S.bytes space.old) }
        ensures acted { Acted operation self.old (S.bytes space.old) result self.new (S.bytes space.new) }
        ensures written { Writes operation (heap_in self.old (S.bytes space.old)) (heap_in self.new (S.bytes space.new)) (S.written space.old) (S.written space.new) }
        ensures long { length (S.bytes space.new) ≡ length (S.bytes space.old) }
        ensures loans { S.lenders space.new ≡ S.lenders space.old }
    {
        match operation {
            ByteOp::Alloc {
                id,
                size,
                kind,
                options,
            } => self.alloc(space, id, size, kind, options),
            ByteOp::Realloc { id, size, options } => self.realloc(space, id, size, options),
            ByteOp::Discard { id } => self.discard(space, id),
            ByteOp::Free { id } => self.free(space, id),
            ByteOp::Compact { size } => self.compact(space, size),
        }
    }

    /// So many bytes for a free entry.
    fn alloc<S: Space>(
        &mut self,
        space: &mut S,
        id: u32,
        size: u32,
        kind: Kind,
        options: RoomOptions,
    ) -> u16
        requires { MayActOver (Alloc id size kind options) self.old (S.bytes space.old) }
        ensures acted { Acted (Alloc id size kind options) self.old (S.bytes space.old) result self.new (S.bytes space.new) }
        ensures written { Writes (Alloc id size kind options) (heap_in self.old (S.bytes space.old)) (heap_in self.new (S.bytes space.new)) (S.written space.old) (S.written space.new) }
        ensures long { length (S.bytes space.new) ≡ length (S.bytes space.old) }
        ensures loans { S.lenders space.new ≡ S.lenders space.old }
    {
        reveal_bytes(space);
        let placed = self.arena.alloc(space, id, size, kind, options);
        if placed.is_err() {
            return 0;
        }
        reveal_bytes(space);
        self.free.set(id as usize, 0);
        name_at(&self.arena, id).unwrap_or(0)
    }

    /// Another size for an object.
    fn realloc<S: Space>(&mut self, space: &mut S, id: u32, size: u32, options: RoomOptions) -> u16
        requires { MayActOver (Realloc id size options) self.old (S.bytes space.old) }
        ensures acted { Acted (Realloc id size options) self.old (S.bytes space.old) result self.new (S.bytes space.new) }
        ensures written { Writes (Realloc id size options) (heap_in self.old (S.bytes space.old)) (heap_in self.new (S.bytes space.new)) (S.written space.old) (S.written space.new) }
        ensures long { length (S.bytes space.new) ≡ length (S.bytes space.old) }
        ensures loans { S.lenders space.new ≡ S.lenders space.old }
    {
        reveal_bytes(space);
        let placed = self.arena.realloc(space, id, size, options);
        if placed.is_err() {
            return 0;
        }
        reveal_bytes(space);
        name_at(&self.arena, id).unwrap_or(0)
    }

    /// An object gives up its bytes.
    fn discard<S: Space>(&mut self, space: &mut S, id: u32) -> u16
        requires { MayActOver (Discard id) self.old (S.bytes space.old) }
        ensures acted { Acted (Discard id) self.old (S.bytes space.old) result self.new (S.bytes space.new) }
        ensures written { Writes (Discard id) (heap_in self.old (S.bytes space.old)) (heap_in self.new (S.bytes space.new)) (S.written space.old) (S.written space.new) }
        ensures long { length (S.bytes space.new) ≡ length (S.bytes space.old) }
        ensures loans { S.lenders space.new ≡ S.lenders space.old }
    {
        match self.arena.discard(space, id) {
            Ok(()) => 0,
            Err(_) => unreachable!(),
        }
    }

    /// An object goes.
    fn free<S: Space>(&mut self, space: &mut S, id: u32) -> u16
        requires { MayActOver (Free id) self.old (S.bytes space.old) }
        ensures acted { Acted (Free id) self.old (S.bytes space.old) result self.new (S.bytes space.new) }
        ensures written { Writes (Free id) (heap_in self.old (S.bytes space.old)) (heap_in self.new (S.bytes space.new)) (S.written space.old) (S.written space.new) }
        ensures long { length (S.bytes space.new) ≡ length (S.bytes space.old) }
        ensures loans { S.lenders space.new ≡ S.lenders space.old }
    {
        match self.arena.free(space, id) {
            Ok(()) => {
                self.free.set(id as usize, 1);
                0
            }
            Err(_) => unreachable!(),
        }
    }

    /// Room is made for some bytes, or for 0 it is only asked how much there could be.
    fn compact<S: Space>(&mut self, space: &mut S, size: u32) -> u16
        requires { MayActOver (Compact size) self.old (S.bytes space.old) }
        ensures acted { Acted (Compact size) self.old (S.bytes space.old) result self.new (S.bytes space.new) }
        ensures written { Writes (Compact size) (heap_in self.old (S.bytes space.old)) (heap_in self.new (S.bytes space.new)) (S.written space.old) (S.written space.new) }
        ensures long { length (S.bytes space.new) ≡ length (S.bytes space.old) }
        ensures loans { S.lenders space.new ≡ S.lenders space.old }
    {
        reveal_bytes(space);
        self.arena.compact(space, size).room as u16
    }
}
