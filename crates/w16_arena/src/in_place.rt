//! An object gets another size where it stands.
ghost use Rattle.std.specs.Prelude.{◌≡◌, ◌+◌, ◌-◌, ◌<◌, ◌≤◌, ◌&&◌, ◌||◌, ℕ, true, false, not, nat_lt, All, IfOk, OnErr, Some, length, if◌then◌else◌};
ghost use Rattle.w16_model.specs.Bytes.{part};
ghost use Rattle.w16_model.specs.declared.RoomOptions.{RoomOptions};
ghost use Rattle.w16_model.specs.Heap.{IsMultiple, is_fixed};
ghost use Rattle.w16_model.specs.Request.{Reallocates};
ghost use Rattle.w16_model.specs.Table.{block_with, heap_in, hold_of_entry};
ghost use Rattle.w16_model.specs.Gap.{holds_still};
ghost use Rattle.w16_region.specs.Bytes.{counted};
ghost use Rattle.w16_blocks.specs.Layout.{FitsFor, IsOrdered, all_but, holes_of, replaced};
ghost use Rattle.w16_blocks.specs.Stay.{HasRange};
ghost use Rattle.w16_arena.specs.State.{KeepsBytes, KeepsRest, holes_in};
ghost use Rattle.w16_arena.specs.Asked.{IsResized};

use crate::Arena;
use crate::new_place::{NOTHING, Placed, clear_if};
use crate::requests::NoRoom;
use w16_blocks::{Block, Blocks};
use w16_holes::{HoleList, Holes};
use w16_model::RoomOptions;
use w16_region::{Space, reveal_bytes};

impl<H: HoleList> Arena<H> {
    /// An object keeps its first bytes and gives up the others, where it stands.
    pub(crate) fn cut<S: Space>(&mut self, space: &mut S, block: Block, size: u32) -> Placed
    where
        H: Holes<S>,
        requires known { block_with self.old.table.blocks block.id ≡ Some block }
        requires some { 0 < size }
        requires less { size ≤ block.size }
        requires rounded { IsMultiple self.old.table.grain size }
        requires memory { HasRange H.are_in (holes_in self.old.table) self.old.table.hi (S.bytes space.old) }
        ensures resized { (options : RoomOptions) → IsResized (heap_in self.old.table (S.bytes space.old)) block.id size options result self.new.discarded
            (heap_in self.new.table (S.bytes space.new)) }
        ensures moved { result.moved ≡ 0 }
        ensures rest { KeepsRest H.are_in S.bytes S.lenders self.old.table space.old self.new.table space.new }
        ensures written { S.written space.new ≡ S.written space.old }
    {
        reveal_bytes(space);
        self.blocks.bounds();
        resize(&mut self.blocks, space, block, size);
        self.forget_discards();
        Placed {
            at: block.at,
            slid: NOTHING,
            moved: 0,
        }
    }

    /// An object that may not move gets more bytes, from the hole after it.
    pub(crate) fn grow_in_place<S: Space>(
        &mut self,
        space: &mut S,
        block: Block,
        size: u32,
        options: RoomOptions,
    ) -> Result<Placed, NoRoom>
    where
        H: Holes<S>,
        requires known { block_with self.old.table.blocks block.id ≡ Some block }
        requires held { (holds_still block.hold && not options.may_move) ≡ true }
        requires more { block.size < size }
        requires rounded { IsMultiple self.old.table.grain size }
        requires memory { HasRange H.are_in (holes_in self.old.table) self.old.table.hi (S.bytes space.old) }
        ensures resized { IfOk result (λ p. IsResized (heap_in self.old.table (S.bytes space.old)) block.id size options p self.new.discarded
            (heap_in self.new.table (S.bytes space.new))) }
        ensures moved { IfOk result (λ p. p.moved ≡ 0) }
        ensures refused { OnErr result (Reallocates (heap_in self.old.table (S.bytes space.old)) block.id size options false (heap_in self.old.table (S.bytes space.old))
            × (self.new ≡ self.old) × (space.new ≡ space.old)) }
        ensures rest { KeepsRest H.are_in S.bytes S.lenders self.old.table space.old self.new.table space.new }
        ensures written { IfOk result (λ _. S.written space.new ≡ counted (S.written space.old) (if options.zero then size - block.size else 0)) }
    {
        reveal_bytes(space);
        self.blocks.bounds();
        if block.size + self.blocks.free_after(space, block.id) < size {
            return Err(NoRoom);
        }
        resize(&mut self.blocks, space, block, size);
        clear_if(
            options.zero,
            space,
            block.at + block.size,
            size - block.size,
        );
        self.forget_discards();
        Ok(Placed {
            at: block.at,
            slid: NOTHING,
            moved: 0,
        })
    }
}

/// Gives a block another size where it stands. It keeps those of its bytes that it has before and after, and the others keep theirs.
pub(crate) fn resize<S: Space, H: Holes<S>>(
    blocks: &mut Blocks<H>,
    space: &mut S,
    block: Block,
    size: u32,
)
    requires id { block.id < blocks.old.cap }
    requires known { block_with blocks.old.blocks block.id ≡ Some block }
    requires fits { FitsFor blocks.old (record block { size = size }) }
    requires memory { HasRange H.are_in (holes_of blocks.old) blocks.old.hi (S.bytes space.old) }
    ensures value { blocks.new ≡ record blocks.old { blocks = replaced (record block { size = size }) blocks.old.blocks } }
    ensures ordered { IsOrdered blocks.new }
    ensures bytes { KeepsBytes H.are_in S.bytes S.lenders S.written (holes_of blocks.new) blocks.old.lo blocks.old.hi (all_but block.id blocks.old.blocks) space.old space.new }
    ensures own { (m : ℕ) → m ≤ block.size → m ≤ size → part (S.bytes space.new) block.at m ≡ part (S.bytes space.old) block.at m }
    ensures small { All (λ b. b < 256) (S.bytes space.new) }
{
    blocks.bounds();
    blocks.resize(space, block.id, size);
    reveal_bytes(space);
}
