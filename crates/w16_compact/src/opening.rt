//! A gap is opened after one of its blocks.
ghost use Rattle.std.specs.Prelude.{◌≡◌, ℕ, ◌+◌, ◌<◌, ◌≤◌, ◌⊎◌, ◌-◌, ◌==◌, length, map, Some, IsSome, IfSome, if◌then◌else◌, MatchOption};
ghost use Rattle.std.specs.List.{AllByRecursion};
ghost use Rattle.w16_region.specs.Bytes.{counted};
ghost use Rattle.w16_model.specs.Gap.{block_end, loose_bytes};
ghost use Rattle.w16_model.specs.Heap.{IsMultiple};
ghost use Rattle.w16_model.specs.Table.{block_with};
ghost use Rattle.w16_blocks.specs.Layout.{IsOrdered, holes_of};
ghost use Rattle.w16_blocks.specs.Below.{IsLastBelow};
ghost use Rattle.w16_blocks.specs.Runs.{IsRun, IsBare, slid_with};
ghost use Rattle.w16_compact.specs.Gather.{contents, moved_between, MayGather, AreSlid, LeavesFree};
ghost use Rattle.w16_compact.specs.Open.{with_loose, raised, opened, end_in, spare_in};
ghost use Rattle.w16_compact.specs.Rest.{IsSameRest};
ghost use Rattle.w16_blocks.specs.Stay.{HasRange, Leaves};

use crate::slide::{gather, reveal_order};
use w16_blocks::{Block, Blocks, Hold, Span};
use w16_holes::{HoleList, Holes};
use w16_region::Space;

/// Opens the gap from `low` to `high`, two addresses, after an id's block, which stands in it and counts as loose there, whatever its hold
/// is: the loose blocks up to and with it slide down to `low`, and those above it slide up to `high`, both in their order (profile). So one
/// hole is left in a gap, directly after the block, as long as the gap less its loose blocks; none where they fill it. The block keeps its
/// hold.
///
/// Answers how many bytes were moved: the sizes of the blocks whose address changed, together. As
/// many bytes were written, so a block that stays isn't written, and none is written twice.
pub fn open<S: Space, H: Holes<S>>(
    blocks: &mut Blocks<H>,
    space: &mut S,
    low: u32,
    high: u32,
    id: u32,
) -> u64
    requires id { id < blocks.old.cap }
    requires known { IsSome (block_with blocks.old.blocks id) }
    requires within { IfSome (block_with blocks.old.blocks id) (λ b. (low ≤ b.at) × (block_end b ≤ high)) }
    requires gap { MayGather (with_loose id blocks.old) low high }
    requires grained { IsMultiple blocks.old.grain low × IsMultiple blocks.old.grain high }
    requires memory { HasRange H.are_in (holes_of blocks.old) blocks.old.hi (S.bytes space.old) }
    ensures blocks { IfSome (block_with blocks.old.blocks id) (λ b.
        let old = with_loose id blocks.old in
        with_loose id blocks.new ≡ record old { blocks = opened low (block_end b) high old.blocks }) }
    ensures ordered { IsOrdered blocks.new }
    ensures slid { AreSlid (with_loose id blocks.old).blocks (with_loose id blocks.new).blocks }
    ensures contents { contents (S.bytes space.new) blocks.new.blocks
        ≡ contents (S.bytes space.old) blocks.old.blocks }
    ensures place { IfSome (block_with blocks.old.blocks id) (λ b. block_with blocks.new.blocks id
        ≡ Some (record b { at = low + loose_bytes (with_loose id blocks.old).blocks low b.at })) }
    ensures left { IfSome (block_with blocks.old.blocks id) (λ b.
        let old = with_loose id blocks.old in let free = end_in old.blocks low b in
        LeavesFree low high free (free + spare_in old.blocks low high) old blocks.new) }
    ensures moved { result ≡ moved_between blocks.old.blocks blocks.new.blocks }
    ensures written { S.written space.new ≡ counted (S.written space.old) result }
    ensures rest { Leaves H.are_in S.bytes S.lenders (holes_of blocks.new) (IsSameRest blocks.old.lo blocks.old.hi) space.old space.new }
{
    let Some(block) = blocks.find(id) else {
        unreachable!();
    };
    blocks.set_hold(id, Hold::Loose);
    let moved = open_loose(blocks, space, low, high, id);
    blocks.set_hold(id, block.hold);
    moved
}

/// Opens a gap after a block that is loose, as [`open`] does.
fn open_loose<S: Space, H: Holes<S>>(
    blocks: &mut Blocks<H>,
    space: &mut S,
    low: u32,
    high: u32,
    id: u32,
) -> u64
    requires id { id < blocks.old.cap }
    requires known { IsSome (block_with blocks.old.blocks id) }
    requires within { IfSome (block_with blocks.old.blocks id) (λ b. (low ≤ b.at) × (block_end b ≤ high)) }
    requires gap { MayGather blocks.old low high }
    requires grained { IsMultiple blocks.old.grain low × IsMultiple blocks.old.grain high }
    requires memory { HasRange H.are_in (holes_of blocks.old) blocks.old.hi (S.bytes space.old) }
    ensures blocks { IfSome (block_with blocks.old.blocks id) (λ b. blocks.new
        ≡ record blocks.old { blocks = opened low (block_end b) high blocks.old.blocks }) }
    ensures ordered { IsOrdered blocks.new }
    ensures slid { AreSlid blocks.old.blocks blocks.new.blocks }
    ensures contents { contents (S.bytes space.new) blocks.new.blocks
        ≡ contents (S.bytes space.old) blocks.old.blocks }
    ensures place { IfSome (block_with blocks.old.blocks id) (λ b. block_with blocks.new.blocks id
        ≡ Some (record b { at = low + loose_bytes blocks.old.blocks low b.at })) }
    ensures left { IfSome (block_with blocks.old.blocks id) (λ b.
        let free = end_in blocks.old.blocks low b in
        LeavesFree low high free (free + spare_in blocks.old.blocks low high) blocks.old blocks.new) }
    ensures moved { result ≡ moved_between blocks.old.blocks blocks.new.blocks }
    ensures written { S.written space.new ≡ counted (S.written space.old) result }
    ensures rest { Leaves H.are_in S.bytes S.lenders (holes_of blocks.new) (IsSameRest blocks.old.lo blocks.old.hi) space.old space.new }
{
    let Some(block) = blocks.find(id) else {
        unreachable!();
    };
    let end = block.at + block.size;
    let down = gather(blocks, space, low, end);
    down + raise(blocks, space, end, high)
}

/// Slides the loose blocks of `low` up to `high`, two addresses, up to `high`, in their order, so that what is free there lies below them.
/// Answers how many bytes were moved, as `gather` does; as many were written.
fn raise<S: Space, H: Holes<S>>(blocks: &mut Blocks<H>, space: &mut S, low: u32, high: u32) -> u64
    requires gap { MayGather blocks.old low high }
    requires grained { IsMultiple blocks.old.grain high }
    requires memory { HasRange H.are_in (holes_of blocks.old) blocks.old.hi (S.bytes space.old) }
    ensures blocks { blocks.new ≡ record blocks.old { blocks = raised low high blocks.old.blocks } }
    ensures ordered { IsOrdered blocks.new }
    ensures slid { AreSlid blocks.old.blocks blocks.new.blocks }
    ensures contents { contents (S.bytes space.new) blocks.new.blocks
        ≡ contents (S.bytes space.old) blocks.old.blocks }
    ensures moved { result ≡ moved_between blocks.old.blocks blocks.new.blocks }
    ensures written { S.written space.new ≡ counted (S.written space.old) result }
    ensures rest { Leaves H.are_in S.bytes S.lenders (holes_of blocks.new) (IsSameRest blocks.old.lo blocks.old.hi) space.old space.new }
{
    reveal_order(blocks);
    let mut from = high;
    let mut to = high;
    let mut moved = 0;
    // From the last block down, so that each finds its new place free. Those that began from `from` on stand from `to` on by now. Those
    // that stand directly before it slide as far, so they go with it.
    while let Some(block) = last_between(blocks, low, from) {
        let behind = block.at + block.size;
        let run = Span {
            from: blocks.run_begin(behind, low),
            to: behind,
        };
        from = run.from;
        to -= run.to - run.from;
        moved += u64::from(lift(blocks, space, run, to));
    }
    moved
}

/// The last block that begins at a place or above it, and below another.
fn last_between<H: HoleList>(blocks: &Blocks<H>, low: u32, below: u32) -> Option<Block>
    ensures value { MatchOption result
        (AllByRecursion (λ b. (b.at < low) ⊎ (below ≤ b.at)) blocks.now.blocks)
        (λ b. IsLastBelow blocks.now.blocks below b × (low ≤ b.at)) }
    ensures ordered { IsOrdered blocks.now }
{
    let block = blocks.last_below(below)?;
    if low <= block.at { Some(block) } else { None }
}

/// Slides a run of blocks up to a place that the blocks after it leave free. Answers how many bytes were moved, which is none where it
/// stands there.
fn lift<S: Space, H: Holes<S>>(blocks: &mut Blocks<H>, space: &mut S, run: Span, to: u32) -> u32
    requires ordered { IsOrdered blocks.old }
    requires run { IsRun blocks.old run }
    requires some { run.from < run.to }
    requires bare { IsBare run.to (to + (run.to - run.from)) blocks.old.blocks }
    requires grained { IsMultiple blocks.old.grain to }
    requires up { (run.from ≤ to) × (to + (run.to - run.from) ≤ blocks.old.hi) }
    requires memory { HasRange H.are_in (holes_of blocks.old) blocks.old.hi (S.bytes space.old) }
    ensures blocks { blocks.new ≡ record blocks.old { blocks = map (slid_with run to) blocks.old.blocks } }
    ensures ordered { IsOrdered blocks.new }
    ensures contents { contents (S.bytes space.new) blocks.new.blocks
        ≡ contents (S.bytes space.old) blocks.old.blocks }
    ensures moved { result ≡ (if run.from == to then 0 else run.to - run.from) }
    ensures written { S.written space.new ≡ counted (S.written space.old) result }
    ensures rest { Leaves H.are_in S.bytes S.lenders (holes_of blocks.new) (IsSameRest blocks.old.lo blocks.old.hi) space.old space.new }
{
    if run.from == to {
        return 0;
    }
    blocks.lift_run(space, run, to);
    run.to - run.from
}
