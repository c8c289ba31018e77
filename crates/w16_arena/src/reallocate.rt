//! Reallocation: an object gets another size.
ghost use Rattle.std.specs.Prelude.{◌≡◌, ◌-◌, ◌<◌, ◌≤◌, ◌&&◌, ◌||◌, [], false, true, not, nat_lt, length, is_ok, option_map, unwrap_or, IfOk, IfSome, IfNone, IsSome, IsSomeAnd, IsTrue, OnErr, Some, if◌then◌else◌};
ghost use Rattle.w16_region.specs.Bytes.{counted};
ghost use Rattle.w16_model.specs.Gap.{holds_still};
ghost use Rattle.w16_model.specs.Heap.{IsMultiple, bytes_at, is_fixed, object_at};
ghost use Rattle.w16_model.specs.Table.{IsSound, block_with, entry_at, heap_in};
ghost use Rattle.w16_model.specs.Request.{IsGrown, Reallocates, StaysOrMovesToHole};
ghost use Rattle.w16_model.specs.Reallocation.{ReallocatesFewest};
ghost use Rattle.w16_arena.specs.State.{KeepsRest, holes_in};
ghost use Rattle.w16_blocks.specs.Stay.{HasRange};
ghost use Rattle.w16_arena.specs.Asked.{HasDiscardedFor, IsPlaced, IsResized, Stands, may_grow_in};

use crate::Arena;
use crate::growth::grow_block;
use crate::new_place::{Placed, clear_if};
use crate::requests::{NoRoom, may_discard};
use w16_holes::{HoleList, Holes};
use w16_model::{Block, Entry, RoomOptions};
use w16_region::{Space, reveal_bytes};

impl<H: HoleList> Arena<H> {
    /// An object gets another size, above 0 and a multiple of the grain (GlobalReAlloc). One without bytes gets them as a new object does;
    /// one that has as many or more is cut where it stands; one that is fixed or locked grows into the hole after it, unless the options let
    /// it move; any other grows where it stands, or in the lowest hole, or in the lowest gap with room for it, and where the options let others
    /// be discarded, by as few of the least recently used as are needed. `NoRoom` where none of that is possible, and nothing has changed
    /// then. An object keeps its place in the order of use, but one that had no bytes and is discardable becomes the newest.
    pub fn realloc<S: Space>(
        &mut self,
        space: &mut S,
        id: u32,
        size: u32,
        options: RoomOptions,
    ) -> Result<Placed, NoRoom>
    where
        H: Holes<S>,
        requires object { IsSome (entry_at self.old.table id) }
        requires some { 0 < size }
        requires rounded { IsMultiple self.old.table.grain size }
        requires memory { HasRange H.are_in (holes_in self.old.table) self.old.table.hi (S.bytes space.old) }
        ensures reallocated { Reallocates (heap_in self.old.table (S.bytes space.old)) id size options (is_ok result)
            (heap_in self.new.table (S.bytes space.new)) }
        ensures fewest { IsSomeAnd (object_at (heap_in self.old.table (S.bytes space.old)) id) (λ o. ReallocatesFewest (heap_in self.old.table (S.bytes space.old)) id size o options (is_ok result)
            (heap_in self.new.table (S.bytes space.new))) }
        ensures placed { IfOk result (λ p. IsPlaced (heap_in self.old.table (S.bytes space.old)) id size p
            (heap_in self.new.table (S.bytes space.new))) }
        ensures discarded { IfOk result (λ _. HasDiscardedFor (heap_in self.old.table (S.bytes space.old)) id size options self.new.discarded) }
        ensures refused { OnErr result ((self.new ≡ self.old) × (space.new ≡ space.old)) }
        ensures rest { KeepsRest H.are_in S.bytes S.lenders self.old.table space.old self.new.table space.new }
        ensures written { IfOk result (λ p. S.written space.new ≡ counted (counted (S.written space.old) p.moved)
            (if options.zero then size - unwrap_or (option_map length (bytes_at (heap_in self.old.table (S.bytes space.old)) id)) 0 else 0)) }
    {
        reveal_bytes(space);
        let Some(entry) = self.entry(id) else {
            unreachable!();
        };
        let Some(block) = self.block(id) else {
            return self.alloc(space, id, size, entry.kind, options);
        };
        if size <= block.size {
            return Ok(self.cut(space, block, size));
        }
        if is_held(entry, options) {
            self.grow_in_place(space, block, size, options)
        } else {
            self.grow(space, block, size, options)
        }
    }

    /// An object that may move gets more bytes.
    fn grow<S: Space>(
        &mut self,
        space: &mut S,
        block: Block,
        size: u32,
        options: RoomOptions,
    ) -> Result<Placed, NoRoom>
    where
        H: Holes<S>,
        requires known { block_with self.old.table.blocks block.id ≡ Some block }
        requires free { (holds_still block.hold && not options.may_move) ≡ false }
        requires more { block.size < size }
        requires rounded { IsMultiple self.old.table.grain size }
        requires memory { HasRange H.are_in (holes_in self.old.table) self.old.table.hi (S.bytes space.old) }
        ensures resized { IfOk result (λ p. IsResized (heap_in self.old.table (S.bytes space.old)) block.id size options p self.new.discarded
            (heap_in self.new.table (S.bytes space.new))) }
        ensures refused { OnErr result (Reallocates (heap_in self.old.table (S.bytes space.old)) block.id size options false (heap_in self.old.table (S.bytes space.old))
            × (self.new ≡ self.old) × (space.new ≡ space.old)) }
        ensures rest { KeepsRest H.are_in S.bytes S.lenders self.old.table space.old self.new.table space.new }
        ensures written { IfOk result (λ p. S.written space.new ≡ counted (counted (S.written space.old) p.moved) (if options.zero then size - block.size else 0)) }
    {
        if let Some(placed) = self.grow_now(space, block, size, options) {
            self.forget_discards();
            return Ok(placed);
        }
        if !may_discard(options) {
            return Err(NoRoom);
        }
        self.grow_discarding(space, block, size, options)
    }

    /// The same, where there is no room without a discard and others may be discarded.
    fn grow_discarding<S: Space>(
        &mut self,
        space: &mut S,
        block: Block,
        size: u32,
        options: RoomOptions,
    ) -> Result<Placed, NoRoom>
    where
        H: Holes<S>,
        requires known { block_with self.old.table.blocks block.id ≡ Some block }
        requires free { (holds_still block.hold && not options.may_move) ≡ false }
        requires more { block.size < size }
        requires rounded { IsMultiple self.old.table.grain size }
        requires memory { HasRange H.are_in (holes_in self.old.table) self.old.table.hi (S.bytes space.old) }
        requires may { (options.compact && options.discard) ≡ true }
        ensures resized { IfOk result (λ p. IsResized (heap_in self.old.table (S.bytes space.old)) block.id size options p self.new.discarded
            (heap_in self.new.table (S.bytes space.new))) }
        ensures refused { OnErr result (Reallocates (heap_in self.old.table (S.bytes space.old)) block.id size options false (heap_in self.old.table (S.bytes space.old))
            × (self.new ≡ self.old) × (space.new ≡ space.old)) }
        ensures rest { KeepsRest H.are_in S.bytes S.lenders self.old.table space.old self.new.table space.new }
        ensures written { IfOk result (λ p. S.written space.new ≡ counted (counted (S.written space.old) p.moved) (if options.zero then size - block.size else 0)) }
    {
        self.is_sound();
        reveal_bytes(space);
        let Some(k) = self.least_discards(space, Some(block.id), size) else {
            return Err(NoRoom);
        };
        self.discard_first(space, k, Some(block.id));
        let Some(placed) = self.grow_now(space, block, size, options) else {
            unreachable!();
        };
        Ok(placed)
    }

    /// More bytes for an object that may move, without a discard.
    fn grow_now<S: Space>(
        &mut self,
        space: &mut S,
        block: Block,
        size: u32,
        options: RoomOptions,
    ) -> Option<Placed>
    where
        H: Holes<S>,
        requires known { block_with self.old.table.blocks block.id ≡ Some block }
        requires more { block.size < size }
        requires rounded { IsMultiple self.old.table.grain size }
        requires memory { HasRange H.are_in (holes_in self.old.table) self.old.table.hi (S.bytes space.old) }
        ensures stands { IfSome result (λ p. IsSomeAnd (object_at (heap_in self.old.table (S.bytes space.old)) block.id) (λ o. Stands (heap_in self.old.table (S.bytes space.old)) block.id size
            (IsGrown options.zero size o) (λ _ order. order) options p (heap_in self.new.table (S.bytes space.new)))) }
        ensures hole { options.compact ≡ false → IfSome result (λ _. StaysOrMovesToHole (heap_in self.old.table (S.bytes space.old)) block.id size
            (heap_in self.new.table (S.bytes space.new))) }
        ensures enough { IfSome result (λ _. may_grow_in self.old.table block.id size options.compact ≡ true) }
        ensures refused { IfNone result ((may_grow_in self.old.table block.id size options.compact ≡ false) × (self.new ≡ self.old) × (space.new ≡ space.old)) }
        ensures discarded { self.new.discarded ≡ self.old.discarded }
        ensures rest { KeepsRest H.are_in S.bytes S.lenders self.old.table space.old self.new.table space.new }
        ensures written { IfSome result (λ p. S.written space.new ≡ counted (counted (S.written space.old) p.moved) (if options.zero then size - block.size else 0)) }
        ensures sound { IsSound self.old.table }
    {
        reveal_bytes(space);
        self.blocks.bounds();
        let placed = grow_block(&mut self.blocks, space, block, size, options.compact)?;
        clear_if(
            options.zero,
            space,
            placed.at + block.size,
            size - block.size,
        );
        Some(placed)
    }
}

/// Whether an object keeps its address while it grows: it is fixed or locked, and may not move.
fn is_held(entry: Entry, options: RoomOptions) -> bool
    ensures { result ≡ ((is_fixed entry.kind || nat_lt 0 entry.locks) && not options.may_move) }
{
    (entry.kind.is_fixed() || entry.locks > 0) && !options.may_move
}
