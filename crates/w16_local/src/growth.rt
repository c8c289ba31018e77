//! Requests for room, in heaps that grow with their segments where they have none.
ghost use Rattle.std.specs.Prelude.{◌≡◌, ◌<◌, ◌≤◌, ◌⊎◌, false, length};
ghost use Rattle.w16_model.specs.Ends.{is_answered};
ghost use Rattle.w16_model.specs.Heap.{IsMultiple};
ghost use Rattle.w16_model.specs.Table.{IsSameOutside, heap_in};
ghost use Rattle.w16_machine.specs.LocalGrowth as growth;
ghost use Rattle.w16_machine.specs.declared.local.TheConstants.{LAST_LOCAL_END, LOCAL_GRAIN};
ghost use Rattle.w16_local.specs.Acts.{MayActIn, MayActOver};
ghost use Rattle.w16_local.specs.Growth.{Grown, InSlot, MayGrowIn, Served, SizeTold, WritesGrown, WritesServed, operation_of};

use crate::LocalHeaps;
use crate::acts::ByteOp;
use crate::heap::LocalHeap;
use bitflags::Flags;
use std::alloc::Allocator;
use w16_global::{Global16, GlobalReAllocFlags, Work};
use w16_model::{GRAIN, Kind, RoomOptions};
use w16_region::{Space, reveal_bytes};

/// What a request asks bytes for.
#[derive(Clone, Copy, Debug)]
pub(crate) enum Purpose {
    /// A new object of a kind.
    New(Kind),
    /// The object that the entry has.
    Resize,
}

/// A request for `size` bytes, above 0 and a multiple of 4, for an entry.
#[derive(Clone, Copy, Debug)]
pub(crate) struct Request {
    pub id: u32,
    pub size: u32,
    pub purpose: Purpose,
    pub options: RoomOptions,
}

/// What becomes of a request in a heap as it is.
#[derive(Clone, Copy, Debug)]
pub(crate) enum Met {
    /// It is answered, by an object's name.
    Answered(u16),
    /// The heap has no room. It has at the least size of its segment that this tells; none where it may not grow, or no size serves.
    Lacks(Option<u32>),
}

impl Request {
    /// The operation by which a heap answers it.
    fn operation(self) -> ByteOp
        ensures { result ≡ operation_of self }
    {
        let Request {
            id,
            size,
            options,
            ..
        } = self;
        match self.purpose {
            Purpose::New(kind) => ByteOp::Alloc {
                id,
                size,
                kind,
                options,
            },
            Purpose::Resize => ByteOp::Realloc { id, size, options },
        }
    }
}

impl<A: Allocator + Copy> Work<LocalHeap<A>> for Request {
    type Answer = Met;

    ghost use Rattle.w16_model.specs.Table.{heap_in};
    ghost use Rattle.w16_local.specs.Acts.{MayActOver, Writes};
    ghost use Rattle.w16_local.specs.Growth.{ServedOver, operation_of};

    ghost may = { λ request table bytes. MayActOver (operation_of request) table bytes };

    ghost does = { λ request table bytes met left after count written. ServedOver request table bytes met left after × Writes (operation_of request) (heap_in table bytes) (heap_in left after) count written };

    fn work<S: Space>(&self, heap: &mut LocalHeap<A>, space: &mut S) -> Met {
        let answer = heap.operate(space, self.operation());
        if answer != 0 {
            return Met::Answered(answer);
        }
        reveal_bytes(space);
        heap.reveal_local();
        Met::Lacks(heap.longer_size(space, *self))
    }
}

/// A request in a heap that ends later from now on: where its segment does, by which it is answered.
#[derive(Clone, Copy, Debug)]
struct LaterRequest {
    request: Request,
    end: u32,
}

impl<A: Allocator + Copy> Work<LocalHeap<A>> for LaterRequest {
    type Answer = u16;

    ghost use Rattle.w16_model.specs.Table.{heap_in};
    ghost use Rattle.w16_local.specs.Acts.{Writes};
    ghost use Rattle.w16_local.specs.Growth.{Later, MayEndLater, operation_of};

    ghost may = { λ later table bytes. MayEndLater later.request later.end table bytes };

    ghost does = { λ later table bytes answer left after count written. Later later.request later.end table bytes answer left after × Writes (operation_of later.request) (heap_in (record table { hi = later.end }) bytes) (heap_in left after) count written };

    fn work<S: Space>(&self, heap: &mut LocalHeap<A>, space: &mut S) -> u16 {
        heap.set_end(space, self.end);
        let operation = self.request.operation();
        heap.operate(space, operation)
    }
}

impl<A: Allocator + Copy> LocalHeap<A> {
    /// The least size of its segment at which a request is answered for which it has no room: above the segment's size, a multiple of 32, and at
    /// most 65,536. None where the request may move no object, or the heap ends before its segment, or no such size serves.
    fn longer_size<S: Space>(&self, space: &S, request: Request) -> Option<u32>
        requires inside { self.now.hi ≤ length (S.bytes space.now) }
        requires some { 0 < request.size }
        requires refused { is_answered (heap_in self.now (S.bytes space.now)) request.id request.size request.options ≡ false }
        ensures { SizeTold request self.now (S.bytes space.now) result }
    {
        let to = self.arena.bounds().to;
        if !request.options.compact || to != space.len() {
            return None;
        }
        let end = self
            .arena
            .least_end(space, request.id, request.size, request.options)?;
        Some(GRAIN * end.div_ceil(GRAIN))
    }

    /// Moves the end of its range up, to at most 65,536. What is new is free.
    fn set_end<S: Space>(&mut self, space: &mut S, end: u32)
        requires later { self.old.hi ≤ end }
        requires last { end ≤ LAST_LOCAL_END }
        requires low { IsMultiple LOCAL_GRAIN self.old.hi }
        requires high { IsMultiple LOCAL_GRAIN end }
        requires inside { end ≤ length (S.bytes space.old) }
        ensures value { self.new ≡ record self.old { hi = end } }
        ensures heap { heap_in self.new (S.bytes space.new) ≡ heap_in self.new (S.bytes space.old) }
        ensures outside { IsSameOutside self.old.lo end (S.bytes space.old) (S.bytes space.new) }
        ensures written { S.written space.new ≡ S.written space.old }
        ensures long { length (S.bytes space.new) ≡ length (S.bytes space.old) }
        ensures loans { S.lenders space.new ≡ S.lenders space.old }
    {
        self.arena.set_end(space, end);
    }
}

impl<A: Allocator + Copy> LocalHeaps<A> {
    /// Serves a request for room in a slot's heap: in the heap as it is; or, where it has no room, in the heap as it has grown for it, by the least
    /// that serves. It answers the object's name; 0, and nothing has changed, where the heap may not grow, or its segment doesn't get the bytes.
    pub(crate) fn serve(&mut self, global: &mut Global16<A>, slot: u16, request: Request) -> u16
        requires { MayActIn global.old.handles self.old slot (MayActOver (operation_of request)) }
        ensures served { InSlot global.old.handles self.old slot global.new.handles self.new (λ old at new. Served request old at result new) }
        ensures written { InSlot global.old.handles self.old slot global.new.handles self.new (λ old at new. WritesServed request old at global.old.written new.loading.handles global.new.written) }
    {
        match self.work_on(global, slot, &request) {
            Met::Answered(answer) => answer,
            Met::Lacks(None) => 0,
            Met::Lacks(Some(size)) => self.grow(global, slot, size, request),
        }
    }

    /// Gives the segment of a slot's heap another size, ends the heap there, and serves a request in it that is answered then. It answers the
    /// object's name; 0, and nothing has changed, where the segment doesn't get the bytes. Other local heaps go whose segments lost theirs for it.
    fn grow(&mut self, global: &mut Global16<A>, slot: u16, size: u32, request: Request) -> u16
        requires { MayGrowIn global.old.handles self.old slot size request }
        ensures grown { InSlot global.old.handles self.old slot global.new.handles self.new (λ old at new. Grown request size old at result new) }
        ensures written { (global.new ≡ global.old) ⊎ InSlot global.old.handles self.old slot global.new.handles self.new (λ old at new. WritesGrown old at request.id request.size request.options global.old.written new.loading.handles global.new.written) }
    {
        global.reveal_handles();
        let flags = growth_flags(request.options);
        let answer = global.lengthen(slot, size, flags);
        if answer == 0 {
            return 0;
        }
        self.sweep(global);
        let later = LaterRequest { request, end: size };
        self.work_on(global, slot, &later)
    }
}

/// The flags with which a segment is reallocated for a request: no object is discarded for it where the request may discard none.
fn growth_flags(options: RoomOptions) -> GlobalReAllocFlags
    ensures { result.0 ≡ growth.growth_flags options }
{
    if options.discard {
        GlobalReAllocFlags::empty()
    } else {
        GlobalReAllocFlags::NODISCARD
    }
}
