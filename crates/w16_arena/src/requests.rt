//! Requests for room: allocation and compaction.
ghost use Rattle.std.specs.Prelude.{◌≡◌, ◌<◌, ◌≤◌, [], length, is_ok, true, IfOk, IfSome, OnErr, ◌&&◌, if◌then◌else◌, Some, None};
ghost use Rattle.w16_region.specs.Bytes.{counted};
ghost use Rattle.w16_model.specs.Heap.{IsMultiple};
ghost use Rattle.w16_model.specs.Discards.{needed, snapshot};
ghost use Rattle.w16_model.specs.Table.{block_with, heap_in, IsSound};
ghost use Rattle.w16_model.specs.Request.{Allocates, Compacts, compaction_prefix};
ghost use Rattle.w16_model.specs.Fewest.{AllocatesFewest, CompactsFewest};
ghost use Rattle.w16_arena.specs.State.{KeepsRest, holes_in};
ghost use Rattle.w16_blocks.specs.Stay.{HasRange};
ghost use Rattle.w16_arena.specs.Asked.{HasDiscarded, IsPlaced, IsSlid, first_eligible};

use crate::Arena;
use crate::new_place::{NOTHING, Placed};
use crate::without_discard::Compacted;
use thiserror::Error;
use w16_compact::least_prefix;
use w16_holes::{HoleList, Holes};
use w16_model::{Kind, RoomOptions};
use w16_region::{Space, reveal_bytes};

/// Why a request is refused: no number of discards that it may make leaves room. Nothing has changed then.
#[derive(Debug, Clone, Copy, PartialEq, Eq, Drop, Error)]
#[error("no room")]
pub struct NoRoom;

impl<H: HoleList> Arena<H> {
    /// So many bytes, a multiple of the grain, for an id that has none: a new object, or an absent one again. They stand in the lowest hole
    /// that is long enough, or else, where the options let others slide, after the blocks of the lowest gap with room; where there is none and
    /// the options let others be discarded, as few of the least recently used as are needed. A discardable object becomes the newest.
    pub fn alloc<S: Space>(
        &mut self,
        space: &mut S,
        id: u32,
        size: u32,
        kind: Kind,
        options: RoomOptions,
    ) -> Result<Placed, NoRoom>
    where
        H: Holes<S>,
        requires id { id < length self.old.table.entries }
        requires absent { block_with self.old.table.blocks id ≡ None }
        requires some { 0 < size }
        requires rounded { IsMultiple self.old.table.grain size }
        requires memory { HasRange H.are_in (holes_in self.old.table) self.old.table.hi (S.bytes space.old) }
        ensures allocated { Allocates (heap_in self.old.table (S.bytes space.old)) id size kind 0 options (is_ok result)
            (heap_in self.new.table (S.bytes space.new)) }
        ensures fewest { AllocatesFewest (heap_in self.old.table (S.bytes space.old)) id size options (is_ok result)
            (heap_in self.new.table (S.bytes space.new)) }
        ensures placed { IfOk result (λ p. IsPlaced (heap_in self.old.table (S.bytes space.old)) id size p
            (heap_in self.new.table (S.bytes space.new))) }
        ensures discarded { IfOk result (λ _. HasDiscarded (heap_in self.old.table (S.bytes space.old)) id size options self.new.discarded) }
        ensures refused { OnErr result ((self.new ≡ self.old) × (space.new ≡ space.old)) }
        ensures rest { KeepsRest H.are_in S.bytes S.lenders self.old.table space.old self.new.table space.new }
        ensures written { IfOk result (λ p. S.written space.new
            ≡ counted (counted (S.written space.old) p.moved) (if options.zero then size else 0)) }
    {
        reveal_bytes(space);
        if let Some(placed) = self.alloc_now(space, id, size, kind, options) {
            self.forget_discards();
            return Ok(placed);
        }
        if !may_discard(options) {
            return Err(NoRoom);
        }
        self.alloc_discarding(space, id, size, kind, options)
    }

    /// Allocates the same where there is no room without a discard and others may be discarded.
    fn alloc_discarding<S: Space>(
        &mut self,
        space: &mut S,
        id: u32,
        size: u32,
        kind: Kind,
        options: RoomOptions,
    ) -> Result<Placed, NoRoom>
    where
        H: Holes<S>,
        requires id { id < length self.old.table.entries }
        requires absent { block_with self.old.table.blocks id ≡ None }
        requires some { 0 < size }
        requires rounded { IsMultiple self.old.table.grain size }
        requires memory { HasRange H.are_in (holes_in self.old.table) self.old.table.hi (S.bytes space.old) }
        requires may { (options.compact && options.discard) ≡ true }
        ensures allocated { Allocates (heap_in self.old.table (S.bytes space.old)) id size kind 0 options (is_ok result)
            (heap_in self.new.table (S.bytes space.new)) }
        ensures placed { IfOk result (λ p. IsPlaced (heap_in self.old.table (S.bytes space.old)) id size p
            (heap_in self.new.table (S.bytes space.new))) }
        ensures discarded { IfOk result (λ _. HasDiscarded (heap_in self.old.table (S.bytes space.old)) id size options self.new.discarded) }
        ensures refused { OnErr result ((self.new ≡ self.old) × (space.new ≡ space.old)) }
        ensures rest { KeepsRest H.are_in S.bytes S.lenders self.old.table space.old self.new.table space.new }
        ensures written { IfOk result (λ p. S.written space.new
            ≡ counted (counted (S.written space.old) p.moved) (if options.zero then size else 0)) }
    {
        reveal_bytes(space);
        let Some(k) = self.least_discards(space, Some(id), size) else {
            return Err(NoRoom);
        };
        self.discard_first(space, k, Some(id));
        let Some(placed) = self.alloc_now(space, id, size, kind, options) else {
            unreachable!();
        };
        Ok(placed)
    }

    /// Makes room for `n` bytes, and answers the length of the longest hole that there is then: as few of the least recently used are
    /// discarded as are needed, or all that may be, and the others slide. For 0 bytes it only answers how long a hole that could make.
    pub fn compact<S: Space>(&mut self, space: &mut S, n: u32) -> Compacted
    where
        H: Holes<S>,
        requires memory { HasRange H.are_in (holes_in self.old.table) self.old.table.hi (S.bytes space.old) }
        ensures compacted { Compacts (heap_in self.old.table (S.bytes space.old)) n result.room
            (heap_in self.new.table (S.bytes space.new)) }
        ensures fewest { CompactsFewest (heap_in self.old.table (S.bytes space.old)) n result.room
            (heap_in self.new.table (S.bytes space.new)) }
        ensures slid { IsSlid (heap_in self.old.table (S.bytes space.old)) result (heap_in self.new.table (S.bytes space.new)) }
        ensures discarded { 0 < n → self.new.discarded ≡ first_eligible (heap_in self.old.table (S.bytes space.old))
            (compaction_prefix (heap_in self.old.table (S.bytes space.old)) n) None }
        ensures none { n ≡ 0 → (self.new.discarded ≡ []) × (space.new ≡ space.old) }
        ensures rest { KeepsRest H.are_in S.bytes S.lenders self.old.table space.old self.new.table space.new }
        ensures written { S.written space.new ≡ counted (S.written space.old) result.moved }
    {
        self.is_sound();
        reveal_bytes(space);
        if n > 0 {
            return self.slide_discarding(space, n);
        }
        let room = self.room_all(space);
        self.forget_discards();
        Compacted {
            room,
            slid: NOTHING,
            moved: 0,
        }
    }

    /// The same for some bytes.
    fn slide_discarding<S: Space>(&mut self, space: &mut S, n: u32) -> Compacted
    where
        H: Holes<S>,
        requires some { 0 < n }
        requires memory { HasRange H.are_in (holes_in self.old.table) self.old.table.hi (S.bytes space.old) }
        ensures compacted { Compacts (heap_in self.old.table (S.bytes space.old)) n result.room
            (heap_in self.new.table (S.bytes space.new)) }
        ensures slid { IsSlid (heap_in self.old.table (S.bytes space.old)) result (heap_in self.new.table (S.bytes space.new)) }
        ensures discarded { self.new.discarded ≡ first_eligible (heap_in self.old.table (S.bytes space.old))
            (compaction_prefix (heap_in self.old.table (S.bytes space.old)) n) None }
        ensures rest { KeepsRest H.are_in S.bytes S.lenders self.old.table space.old self.new.table space.new }
        ensures written { S.written space.new ≡ counted (S.written space.old) result.moved }
    {
        reveal_bytes(space);
        let k = self.least_discards(space, None, n);
        self.discard_first(space, k.unwrap_or(self.order_len()), None);
        self.slide_together(space)
    }

    /// The least number of discards that make room for `n` bytes, where `h` isn't counted; none where no number does. Nothing changes.
    pub(crate) fn least_discards<S: Space>(
        &mut self,
        space: &S,
        h: Option<u32>,
        n: u32,
    ) -> Option<usize>
    where
        H: Holes<S>,
        requires kept { H.are_in (holes_in self.old.table) (S.bytes space.now) }
        requires h { IfSome h (λ id. id < length self.old.table.entries) }
        ensures value { result ≡ needed (snapshot self.old.table.lo self.old.table.hi self.old.table.blocks self.old.table.order) n h }
        ensures same { self.new ≡ self.old }
        ensures sound { IsSound self.old.table }
    {
        least_prefix(&self.blocks, space, &self.order, &mut self.gap_rooms, h, n)
    }

    /// How many objects may be discarded at most.
    fn order_len(&self) -> usize
        ensures { result ≡ length self.now.table.order }
    {
        self.order.len()
    }

    /// Nothing was discarded.
    pub(crate) fn forget_discards(&mut self)
        ensures { self.new ≡ record self.old { discarded = [] } }
    {
        self.discarded.clear();
    }
}

/// Whether a request may discard others.
pub(crate) fn may_discard(options: RoomOptions) -> bool
    ensures { result ≡ (options.compact && options.discard) }
{
    options.compact && options.discard
}
