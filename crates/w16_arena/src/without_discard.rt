//! Requests that discard nothing: bytes for a new object, and the blocks slid together.
ghost use Rattle.std.specs.Prelude.{◌≡◌, ◌<◌, ◌≤◌, ℕ, List, length, IfSome, IfNone, if◌then◌else◌, None};
ghost use Rattle.w16_region.specs.Bytes.{counted};
ghost use Rattle.w16_model.specs.Heap.{IsMultiple, is_discardable};
ghost use Rattle.w16_model.specs.Gap.{room};
ghost use Rattle.w16_model.specs.Changes as changes;
ghost use Rattle.w16_model.specs.Table.{block_with, heap_in, IsSound};
ghost use Rattle.w16_model.specs.Request.{IsNew, most_room};
ghost use Rattle.w16_blocks.specs.Layout.{IsOrdered, holes_of};
ghost use Rattle.w16_blocks.specs.Stay.{HasRange};
ghost use Rattle.w16_arena.specs.State.{KeepsRest, holes_in};
ghost use Rattle.w16_arena.specs.NewPlace.{most_in};
ghost use Rattle.w16_arena.specs.Asked.{SlidesTogether, Stands};

use crate::Arena;
use crate::new_place::{NOTHING, Placed, clear_if, insert, make_room};
use crate::objects::hold;
use std::alloc::Allocator;
use w16_blocks::{Block, Blocks};
use w16_compact::{GapRooms, room_after};
use w16_holes::{HoleList, Holes};
use w16_lru::Order;
use w16_model::{Entry, Kind, RoomOptions, Span};
use w16_region::{Space, reveal_bytes};

/// What a compaction answers: the length of the longest hole, the range whose blocks slid, and how many bytes were moved.
#[derive(Clone, Copy, Debug, PartialEq, Eq)]
pub struct Compacted {
    pub room: u32,
    /// Empty where no block slid.
    pub slid: Span,
    pub moved: u64,
}

impl<H: HoleList> Arena<H> {
    /// Allocates bytes for an id that has none, without a discard.
    pub(crate) fn alloc_now<S: Space>(
        &mut self,
        space: &mut S,
        id: u32,
        size: u32,
        kind: Kind,
        options: RoomOptions,
    ) -> Option<Placed>
    where
        H: Holes<S>,
        requires id { id < length self.old.table.entries }
        requires absent { block_with self.old.table.blocks id ≡ None }
        requires some { 0 < size }
        requires rounded { IsMultiple self.old.table.grain size }
        requires memory { HasRange H.are_in (holes_in self.old.table) self.old.table.hi (S.bytes space.old) }
        ensures stands { IfSome result (λ p. Stands (heap_in self.old.table (S.bytes space.old)) id size (IsNew options.zero size kind 0) (changes.with_newest id) options p
            (heap_in self.new.table (S.bytes space.new))) }
        ensures enough { IfSome result (λ _. size ≤ most_in self.old.table options.compact) }
        ensures refused { IfNone result ((most_in self.old.table options.compact < size) × (self.new ≡ self.old) × (space.new ≡ space.old)) }
        ensures discarded { self.new.discarded ≡ self.old.discarded }
        ensures rest { KeepsRest H.are_in S.bytes S.lenders self.old.table space.old self.new.table space.new }
        ensures written { IfSome result (λ p. S.written space.new
            ≡ counted (counted (S.written space.old) p.moved) (if options.zero then size else 0)) }
        ensures sound { IsSound self.old.table }
    {
        reveal_bytes(space);
        let placed = make_room(&mut self.blocks, space, size, options.compact)?;
        let entry = Entry { kind, locks: 0 };
        let block = Block {
            id,
            at: placed.at,
            size,
            hold: hold(entry),
        };
        insert(&mut self.blocks, space, block);
        clear_if(options.zero, space, placed.at, size);
        self.entries[id as usize] = Some(entry);
        list_new(&mut self.order, id, kind);
        Some(placed)
    }

    /// The others slide until a hole is as long as it can be without a discard, unless one is already.
    pub(crate) fn slide_together<S: Space>(&mut self, space: &mut S) -> Compacted
    where
        H: Holes<S>,
        requires memory { HasRange H.are_in (holes_in self.old.table) self.old.table.hi (S.bytes space.old) }
        ensures room { result.room ≡ room self.old.table.lo self.old.table.hi self.old.table.blocks }
        ensures slides { SlidesTogether (heap_in self.old.table (S.bytes space.old)) result
            (heap_in self.new.table (S.bytes space.new)) }
        ensures discarded { self.new.discarded ≡ self.old.discarded }
        ensures rest { KeepsRest H.are_in S.bytes S.lenders self.old.table space.old self.new.table space.new }
        ensures written { S.written space.new ≡ counted (S.written space.old) result.moved }
    {
        reveal_bytes(space);
        let room = room_now(&self.blocks, space, &self.order, &mut self.gap_rooms);
        if room == 0 {
            return Compacted {
                room,
                slid: NOTHING,
                moved: 0,
            };
        }
        let Some(placed) = make_room(&mut self.blocks, space, room, true) else {
            unreachable!();
        };
        Compacted {
            room,
            slid: placed.slid,
            moved: placed.moved,
        }
    }

    /// How long a hole could be made, with all discarded that may be. Nothing changes.
    pub fn room_all<S: Space>(&mut self, space: &S) -> u32
    where
        H: Holes<S>,
        requires kept { H.are_in (holes_in self.old.table) (S.bytes space.now) }
        ensures value { (memory : List ℕ) → self.old.table.hi ≤ length memory → result ≡ most_room (heap_in self.old.table memory) }
        ensures same { self.new ≡ self.old }
    {
        let all = self.order.len();
        room_after(
            &self.blocks,
            space,
            &self.order,
            &mut self.gap_rooms,
            None,
            all,
        )
    }
}

/// How long a hole can be made without a discard.
fn room_now<S: Space, H: Holes<S>>(
    blocks: &Blocks<H>,
    space: &S,
    order: &Order<H::Alloc>,
    gap_rooms: &mut GapRooms<H::Alloc>,
) -> u32
    requires kept { H.are_in (holes_of blocks.now) (S.bytes space.now) }
    requires ids { order.now.cap ≤ blocks.now.cap }
    requires gap_rooms { blocks.now.cap ≤ gap_rooms.old }
    ensures value { result ≡ room blocks.now.lo blocks.now.hi blocks.now.blocks }
    ensures gap_rooms { gap_rooms.new ≡ gap_rooms.old }
    ensures ordered { IsOrdered blocks.now }
{
    room_after(blocks, space, order, gap_rooms, None, 0)
}

/// A new discardable object with bytes is the newest in the order of use; another isn't in it.
fn list_new<A: Allocator>(order: &mut Order<A>, id: u32, kind: Kind)
    requires { id < order.old.cap }
    ensures { order.new ≡ record order.old { ids = if is_discardable kind then changes.newest id order.old.ids else order.old.ids } }
{
    if kind.is_discardable() {
        order.newest(id);
    }
}
