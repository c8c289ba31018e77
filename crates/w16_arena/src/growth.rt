//! A block gets longer: over the hole after it, in another hole, or in a gap whose other blocks slide.
ghost use Rattle.std.specs.Prelude.{◌≡◌, ◌+◌, ◌<◌, ◌≤◌, ◌≢◌, ◌⊎◌, ℕ, false, length, Some, IsTrue, IfSome, IfNone, All};
ghost use Rattle.w16_model.specs.Bytes.{part};
ghost use Rattle.w16_model.specs.Gap.{is_any, IsClear, room};
ghost use Rattle.w16_model.specs.Heap.{IsMultiple};
ghost use Rattle.w16_model.specs.Table.{block_with};
ghost use Rattle.w16_region.specs.Bytes.{counted};
ghost use Rattle.w16_blocks.specs.Layout.{IsOrdered, all_but, holes_of, replaced};
ghost use Rattle.w16_blocks.specs.Stay.{HasRange, Leaves};
ghost use Rattle.w16_compact.specs.Gap.{without, HasRoom};
ghost use Rattle.w16_compact.specs.Gather.{contents};
ghost use Rattle.w16_compact.specs.Rest.{IsSameRest};
ghost use Rattle.w16_arena.specs.NewPlace.{AreFreeBytes};
ghost use Rattle.w16_arena.specs.Growth.{may_grow, HasGrown};

use crate::in_place::resize;
use crate::new_place::{NOTHING, Placed};
use w16_blocks::{Block, Blocks, Span};
use w16_compact::{Gap, gap_for, gather, open, packed_to};
use w16_holes::{HoleList, Holes};
use w16_region::{Space, reveal_bytes};

/// Gives a block more bytes, whatever its hold is: where it stands, if the hole after it is long enough; in the lowest hole of that size; or,
/// where blocks may slide, in the lowest gap with room for it when it is left out, which is opened after it where it stands in it. The block
/// keeps its hold and its bytes. Nothing is changed where there is no place.
pub(crate) fn grow_block<S: Space, H: Holes<S>>(
    blocks: &mut Blocks<H>,
    space: &mut S,
    block: Block,
    size: u32,
    compact: bool,
) -> Option<Placed>
    requires known { block_with blocks.old.blocks block.id ≡ Some block }
    requires more { block.size < size }
    requires rounded { IsMultiple blocks.old.grain size }
    requires memory { HasRange H.are_in (holes_of blocks.old) blocks.old.hi (S.bytes space.old) }
    ensures ordered { IsOrdered blocks.old }
    ensures grown { IfSome result (λ p. HasGrown size block blocks.old (S.bytes space.old) p blocks.new (S.bytes space.new)) }
    ensures enough { IfSome result (λ _. IsTrue (may_grow blocks.old block.id size compact)) }
    ensures still { compact ≡ false → IfSome result (λ p. (all_but block.id blocks.new.blocks ≡ all_but block.id blocks.old.blocks)
        × ((p.at ≡ block.at) ⊎ IsClear is_any blocks.old.lo blocks.old.hi blocks.old.blocks p.at (p.at + size))) }
    ensures rest { Leaves H.are_in S.bytes S.lenders (holes_of blocks.new) (IsSameRest blocks.old.lo blocks.old.hi) space.old space.new }
    ensures written { IfSome result (λ p. S.written space.new ≡ counted (S.written space.old) p.moved) }
    ensures refused { IfNone result ((may_grow blocks.old block.id size compact ≡ false) × (blocks.new ≡ blocks.old) × (space.new ≡ space.old)) }
{
    let _ = blocks.bounds();
    if size - block.size <= blocks.free_after(space, block.id) {
        resize(blocks, space, block, size);
        return Some(Placed {
            at: block.at,
            slid: NOTHING,
            moved: 0,
        });
    }
    if let Some(at) = blocks.hole_for(space, size) {
        return Some(move_to_hole(blocks, space, block, at, size));
    }
    if compact {
        slide_for(blocks, space, block, size)
    } else {
        None
    }
}

/// Moves a block to a hole of `size` bytes, which it gets.
fn move_to_hole<S: Space, H: Holes<S>>(
    blocks: &mut Blocks<H>,
    space: &mut S,
    block: Block,
    at: u32,
    size: u32,
) -> Placed
    requires known { block_with blocks.old.blocks block.id ≡ Some block }
    requires more { block.size < size }
    requires rounded { IsMultiple blocks.old.grain size }
    requires free { AreFreeBytes blocks.old size at }
    requires memory { HasRange H.are_in (holes_of blocks.old) blocks.old.hi (S.bytes space.old) }
    ensures at { result.at ≡ at }
    ensures grown { HasGrown size block blocks.old (S.bytes space.old) result blocks.new (S.bytes space.new) }
    ensures still { all_but block.id blocks.new.blocks ≡ all_but block.id blocks.old.blocks }
    ensures rest { Leaves H.are_in S.bytes S.lenders (holes_of blocks.new) (IsSameRest blocks.old.lo blocks.old.hi) space.old space.new }
    ensures written { S.written space.new ≡ counted (S.written space.old) result.moved }
{
    move_to(blocks, space, block, at, size);
    Placed {
        at,
        slid: NOTHING,
        moved: u64::from(block.size),
    }
}

/// Gives a block `size` bytes in the lowest gap with room for it when it is left out. Nothing is changed where there is none.
fn slide_for<S: Space, H: Holes<S>>(
    blocks: &mut Blocks<H>,
    space: &mut S,
    block: Block,
    size: u32,
) -> Option<Placed>
    requires known { block_with blocks.old.blocks block.id ≡ Some block }
    requires more { block.size < size }
    requires rounded { IsMultiple blocks.old.grain size }
    requires memory { HasRange H.are_in (holes_of blocks.old) blocks.old.hi (S.bytes space.old) }
    ensures grown { IfSome result (λ p. HasGrown size block blocks.old (S.bytes space.old) p blocks.new (S.bytes space.new)) }
    ensures rest { Leaves H.are_in S.bytes S.lenders (holes_of blocks.new) (IsSameRest blocks.old.lo blocks.old.hi) space.old space.new }
    ensures written { IfSome result (λ p. S.written space.new ≡ counted (S.written space.old) p.moved) }
    ensures refused { IfNone result ((room blocks.old.lo blocks.old.hi (all_but block.id blocks.old.blocks) < size)
        × (blocks.new ≡ blocks.old) × (space.new ≡ space.old)) }
{
    let _ = blocks.bounds();
    let gap = gap_for(blocks, space, Some(block.id), size)?;
    if gap.low <= block.at && block.at < gap.high {
        Some(open_own(blocks, space, block, size, gap))
    } else {
        Some(move_to_gap(blocks, space, block, size, gap))
    }
}

/// Opens the gap in which a block stands, directly after it, and gives it `size` bytes there.
fn open_own<S: Space, H: Holes<S>>(
    blocks: &mut Blocks<H>,
    space: &mut S,
    block: Block,
    size: u32,
    gap: Gap,
) -> Placed
    requires known { block_with blocks.old.blocks block.id ≡ Some block }
    requires more { block.size < size }
    requires rounded { IsMultiple blocks.old.grain size }
    requires gap { HasRoom (without (Some block.id) blocks.old) size gap }
    requires own { (gap.low ≤ block.at) × (block.at < gap.high) }
    requires memory { HasRange H.are_in (holes_of blocks.old) blocks.old.hi (S.bytes space.old) }
    ensures grown { HasGrown size block blocks.old (S.bytes space.old) result blocks.new (S.bytes space.new) }
    ensures rest { Leaves H.are_in S.bytes S.lenders (holes_of blocks.new) (IsSameRest blocks.old.lo blocks.old.hi) space.old space.new }
    ensures written { S.written space.new ≡ counted (S.written space.old) result.moved }
{
    let high = whole_grains(blocks, block, gap.high);
    let moved = open(blocks, space, gap.low, high, block.id);
    reveal_bytes(space);
    let Some(opened) = blocks.find(block.id) else {
        unreachable!();
    };
    resize(blocks, space, opened, size);
    Placed {
        at: opened.at,
        slid: Span {
            from: gap.low,
            to: high,
        },
        moved,
    }
}

/// The last multiple of the grain up to a place: no block ends between it and the place.
fn whole_grains<H: HoleList>(blocks: &Blocks<H>, block: Block, high: u32) -> u32
    requires known { block_with blocks.now.blocks block.id ≡ Some block }
    ensures grained { IsMultiple blocks.now.grain result }
    ensures below { result ≤ high }
    ensures last { (m : ℕ) → IsMultiple blocks.now.grain m → m ≤ high → m ≤ result }
    ensures ordered { IsOrdered blocks.now }
{
    let _ = blocks.bounds();
    high - high % blocks.grain()
}

/// Gathers a gap in which a block doesn't stand, and moves it after the blocks there, where it gets `size` bytes.
fn move_to_gap<S: Space, H: Holes<S>>(
    blocks: &mut Blocks<H>,
    space: &mut S,
    block: Block,
    size: u32,
    gap: Gap,
) -> Placed
    requires known { block_with blocks.old.blocks block.id ≡ Some block }
    requires more { block.size < size }
    requires rounded { IsMultiple blocks.old.grain size }
    requires gap { HasRoom (without (Some block.id) blocks.old) size gap }
    requires other { (block.at < gap.low) ⊎ (gap.high ≤ block.at) }
    requires memory { HasRange H.are_in (holes_of blocks.old) blocks.old.hi (S.bytes space.old) }
    ensures grown { HasGrown size block blocks.old (S.bytes space.old) result blocks.new (S.bytes space.new) }
    ensures rest { Leaves H.are_in S.bytes S.lenders (holes_of blocks.new) (IsSameRest blocks.old.lo blocks.old.hi) space.old space.new }
    ensures written { S.written space.new ≡ counted (S.written space.old) result.moved }
{
    let _ = blocks.bounds();
    let from = packed_to(blocks, space, gap.low, gap.high);
    let gathered = gather(blocks, space, gap.low, gap.high);
    reveal_bytes(space);
    let at = gap.low + gap.loose;
    move_to(blocks, space, block, at, size);
    Placed {
        at,
        slid: Span { from, to: gap.high },
        moved: gathered + u64::from(block.size),
    }
}

/// Moves a block to `size` free bytes, which it gets. What the others have stays.
fn move_to<S: Space, H: Holes<S>>(
    blocks: &mut Blocks<H>,
    space: &mut S,
    block: Block,
    to: u32,
    size: u32,
)
    requires known { block_with blocks.old.blocks block.id ≡ Some block }
    requires more { block.size < size }
    requires rounded { IsMultiple blocks.old.grain size }
    requires free { AreFreeBytes blocks.old size to }
    requires memory { HasRange H.are_in (holes_of blocks.old) blocks.old.hi (S.bytes space.old) }
    ensures before { IsOrdered blocks.old }
    ensures elsewhere { to ≢ block.at }
    ensures value { blocks.new ≡ record blocks.old { blocks = replaced (record block { at = to; size = size }) blocks.old.blocks } }
    ensures laid { IsOrdered blocks.new }
    ensures bytes { part (S.bytes space.new) to block.size ≡ part (S.bytes space.old) block.at block.size }
    ensures others { contents (S.bytes space.new) (all_but block.id blocks.old.blocks) ≡ contents (S.bytes space.old) (all_but block.id blocks.old.blocks) }
    ensures small { All (λ b. b < 256) (S.bytes space.new) }
    ensures rest { Leaves H.are_in S.bytes S.lenders (holes_of blocks.new) (IsSameRest blocks.old.lo blocks.old.hi) space.old space.new }
    ensures written { S.written space.new ≡ counted (S.written space.old) block.size }
{
    let _ = blocks.bounds();
    blocks.move_grown(space, block, to, size);
    reveal_bytes(space);
}
