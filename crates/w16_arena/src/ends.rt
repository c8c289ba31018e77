//! Where the range ends: a later end, and the least one at which a request is answered.
ghost use Rattle.std.specs.Prelude.{◌≡◌, ℕ, ◌+◌, ◌<◌, ◌≤◌, ◌&&◌, ◌||◌, not, true, false, max, nat_le, length, is_some, Some, IfSome, IfNone, if◌then◌else◌};
ghost use Rattle.w16_model.specs.Gap.{block_end, hole_after, holds_still};
ghost use Rattle.w16_model.specs.Discards.{fits_in_place, growth_for, snapshot};
ghost use Rattle.w16_model.specs.Heap.{IsMultiple};
ghost use Rattle.w16_model.specs.{Ends.ending, Law.HasNoEnd, Law.IsLeastEnd};
ghost use Rattle.w16_model.specs.Table.{block_with, heap_in, IsSound};
ghost use Rattle.w16_blocks.specs.Layout.{IsOrdered, holes_of};
ghost use Rattle.w16_blocks.specs.Stay.{HasRange};
ghost use Rattle.w16_compact.specs.Stretch.{stretch_at};
ghost use Rattle.w16_holes.specs.declared.holes.TheConstants.{LAST_END};
ghost use Rattle.w16_arena.specs.State.{KeepsBytes, holes_in};

use crate::Arena;
use w16_blocks::{Block, Blocks, Hold};
use w16_compact::{Stretch, stretch_for};
use w16_holes::{HoleList, Holes, LAST_END};
use w16_lru::Order;
use w16_model::RoomOptions;
use w16_region::Space;

impl<H: HoleList> Arena<H> {
    /// Moves the end of the range up to `end`, a multiple of the grain of at most [`LAST_END`]. What is new is free, and
    /// joined with a hole that ends where the range ended; the objects stay, and so do all bytes outside the range. No memory is taken.
    pub fn set_end<S: Space>(&mut self, space: &mut S, end: u32)
    where
        H: Holes<S>,
        requires later { self.old.table.hi ≤ end }
        requires reserved { end ≤ LAST_END }
        requires low { IsMultiple self.old.table.grain self.old.table.hi }
        requires high { IsMultiple self.old.table.grain end }
        requires memory { HasRange H.are_in (holes_in self.old.table) end (S.bytes space.old) }
        ensures value { self.new ≡ record self.old { table = record self.old.table { hi = end } } }
        ensures heap { heap_in self.new.table (S.bytes space.new) ≡ ending (heap_in self.old.table (S.bytes space.old)) end }
        ensures sound { IsSound self.new.table }
        ensures bytes { KeepsBytes H.are_in S.bytes S.lenders S.written (holes_in self.new.table) self.new.table.lo self.new.table.hi self.new.table.blocks space.old space.new }
    {
        self.blocks.set_end(space, end);
    }

    /// The least end, of at most [`LAST_END`] and not below the present one, at which a request of `size` bytes for an id would be answered: an
    /// allocation where it has no bytes, and else a reallocation. It would be answered at every later end too. It is a multiple of the grain where
    /// the present end and the size are. None where no such end serves. It takes one pass over the blocks, and changes nothing.
    pub fn least_end<S: Space>(
        &self,
        space: &S,
        id: u32,
        size: u32,
        options: RoomOptions,
    ) -> Option<u32>
    where
        H: Holes<S>,
        requires some { 0 < size }
        requires memory { HasRange H.are_in (holes_in self.now.table) self.now.table.hi (S.bytes space.now) }
        ensures least { IfSome result (λ end. (end ≤ LAST_END) × IsLeastEnd (heap_in self.now.table (S.bytes space.now)) id size options end) }
        ensures none { IfNone result (HasNoEnd LAST_END (heap_in self.now.table (S.bytes space.now)) id size options) }
        ensures grained { IsMultiple self.now.table.grain self.now.table.hi → IsMultiple self.now.table.grain size → IfSome result (IsMultiple self.now.table.grain) }
    {
        let stretch = match self.block(id) {
            None => stretch_for(&self.blocks, space, &self.order, Some(id), options),
            Some(block) => growth_stretch(&self.blocks, space, &self.order, block, options),
        };
        end_for(stretch, self.blocks.bounds().to, size)
    }
}

/// As many bytes as an object can have that has a block: those that it has, or more by growing.
fn growth_stretch<S: Space, H: Holes<S>>(
    blocks: &Blocks<H>,
    space: &S,
    order: &Order<H::Alloc>,
    block: Block,
    options: RoomOptions,
) -> Stretch
    requires id { block.id < blocks.now.cap }
    requires known { block_with blocks.now.blocks block.id ≡ Some block }
    requires kept { H.are_in (holes_of blocks.now) (S.bytes space.now) }
    ensures grained { IfSome result.last (IsMultiple blocks.now.grain) }
    ensures value { (end n : ℕ) → blocks.now.hi ≤ end → let s = snapshot blocks.now.lo end blocks.now.blocks order.now.ids in
        nat_le n (stretch_at result end) ≡ (nat_le n block.size || (if holds_still block.hold && not options.may_move then fits_in_place s n block.id else is_some (growth_for s n block.id options))) }
{
    let behind = stretch_behind(blocks, space, block);
    if keeps_place(block, options) {
        return behind;
    }
    let elsewhere = stretch_for(blocks, space, order, Some(block.id), options);
    if options.compact {
        let own = Stretch {
            most: block.size,
            last: None,
        };
        return longer(own, elsewhere);
    }
    longer(behind, elsewhere)
}

/// Whether an object keeps its address while it grows.
fn keeps_place(block: Block, options: RoomOptions) -> bool
    ensures { result ≡ (holds_still block.hold && not options.may_move) }
{
    match block.hold {
        Hold::Pinned => !options.may_move,
        Hold::Loose => false,
    }
}

/// As many bytes as a block can have where it stands.
fn stretch_behind<S: Space, H: Holes<S>>(blocks: &Blocks<H>, space: &S, block: Block) -> Stretch
    requires id { block.id < blocks.now.cap }
    requires known { block_with blocks.now.blocks block.id ≡ Some block }
    requires kept { H.are_in (holes_of blocks.now) (S.bytes space.now) }
    ensures value { (end : ℕ) → blocks.now.hi ≤ end → stretch_at result end ≡ block.size + hole_after end blocks.now.blocks (block_end block) }
    ensures grained { IfSome result.last (IsMultiple blocks.now.grain) }
    ensures ordered { IsOrdered blocks.now }
{
    blocks.bounds();
    let free = blocks.free_after(space, block.id);
    let last = match blocks.next_from(space, block.at + block.size) {
        Some(_) => None,
        None => Some(block.at),
    };
    Stretch {
        most: block.size + free,
        last,
    }
}

/// As many bytes as one stretch or the other has.
fn longer(one: Stretch, other: Stretch) -> Stretch
    ensures value { (end : ℕ) → stretch_at result end ≡ max (stretch_at one end) (stretch_at other end) }
    ensures grained { (grain : ℕ) → IfSome one.last (IsMultiple grain) → IfSome other.last (IsMultiple grain) → IfSome result.last (IsMultiple grain) }
{
    let last = match (one.last, other.last) {
        (Some(p), Some(q)) => Some(p.min(q)),
        (Some(p), None) => Some(p),
        (None, last) => last,
    };
    Stretch {
        most: one.most.max(other.most),
        last,
    }
}

/// The least end from `hi` on, of at most [`LAST_END`], from which on a stretch has `n` bytes.
fn end_for(stretch: Stretch, hi: u32, n: u32) -> Option<u32>
    requires { 0 < n }
    ensures some { IfSome result (λ end. (end ≤ LAST_END) × (hi ≤ end)) }
    ensures enough { IfSome result (λ end. (e : ℕ) → end ≤ e → nat_le n (stretch_at stretch e) ≡ true) }
    ensures least { IfSome result (λ end. (e : ℕ) → hi ≤ e → e < end → nat_le n (stretch_at stretch e) ≡ false) }
    ensures none { IfNone result ((e : ℕ) → hi ≤ e → e ≤ LAST_END → nat_le n (stretch_at stretch e) ≡ false) }
    ensures grained { (grain : ℕ) → IsMultiple grain hi → IsMultiple grain n → IfSome stretch.last (IsMultiple grain) → IfSome result (IsMultiple grain) }
{
    let end = if n <= stretch.most {
        hi
    } else {
        stretch.last?.checked_add(n)?.max(hi)
    };
    if end <= LAST_END { Some(end) } else { None }
}
