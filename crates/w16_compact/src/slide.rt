//! Loose blocks slide to the low end of a gap.
ghost use Rattle.std.specs.Prelude.{◌≡◌, ◌≢◌, ℕ, ◌+◌, ◌<◌, ◌≤◌, ◌⊎◌, ◌-◌, ◌==◌, length, map, slice_get, if◌then◌else◌, MatchOption, IfSome};
ghost use Rattle.std.specs.List.{AllByRecursion};
ghost use Rattle.w16_region.specs.Bytes.{counted};
ghost use Rattle.w16_model.specs.Gap.{block_end, loose_bytes};
ghost use Rattle.w16_model.specs.Heap.{IsMultiple};
ghost use Rattle.w16_holes.specs.Holes.{lowest};
ghost use Rattle.w16_blocks.specs.Layout.{IsOrdered, holes_of, rank};
ghost use Rattle.w16_blocks.specs.Runs.{IsCut, IsRun, IsBare, EndsAt, slid_with};
ghost use Rattle.w16_compact.specs.Gather.{gathered, contents, moved_between, MayGather, AreSlid, LeavesFree};
ghost use Rattle.w16_compact.specs.Rest.{IsSameRest};
ghost use Rattle.w16_blocks.specs.Stay.{HasRange, Leaves};

use w16_blocks::{Block, Blocks, Span};
use w16_holes::{HoleList, Holes};
use w16_region::Space;

/// Slides the loose blocks of `low` up to `high`, two addresses, down to `low`, in their order
/// (profile), so that what is free there lies after them. Of a gap one hole is left, or none where
/// they fill it.
///
/// Answers how many bytes were moved: the sizes of the blocks whose address changed, together. As
/// many bytes were written, so a block that stays isn't written, and none is written twice.
pub fn gather<S: Space, H: Holes<S>>(
    blocks: &mut Blocks<H>,
    space: &mut S,
    low: u32,
    high: u32,
) -> u64
    requires gap { MayGather blocks.old low high }
    requires grained { IsMultiple blocks.old.grain low }
    requires memory { HasRange H.are_in (holes_of blocks.old) blocks.old.hi (S.bytes space.old) }
    ensures blocks { blocks.new
        ≡ record blocks.old { blocks = gathered low high blocks.old.blocks } }
    ensures ordered { IsOrdered blocks.new }
    ensures slid { AreSlid blocks.old.blocks blocks.new.blocks }
    ensures contents { contents (S.bytes space.new) blocks.new.blocks
        ≡ contents (S.bytes space.old) blocks.old.blocks }
    ensures left { LeavesFree low high (low + loose_bytes blocks.old.blocks low high) high blocks.old blocks.new }
    ensures moved { result ≡ moved_between blocks.old.blocks blocks.new.blocks }
    ensures written { S.written space.new ≡ counted (S.written space.old) result }
    ensures rest { Leaves H.are_in S.bytes S.lenders (holes_of blocks.new) (IsSameRest blocks.old.lo blocks.old.hi) space.old space.new }
{
    reveal_order(blocks);
    let mut to = packed_to(blocks, space, low, high);
    let mut moved = 0;
    // What is free lies directly after the settled ones, so the next is found in one step. Those that stand directly after it slide as far,
    // so they go with it.
    while let Some(block) = block_between(blocks, space, to, high) {
        let within = Span {
            from: block.at,
            to: high,
        };
        let run = Span {
            from: block.at,
            to: settle(blocks, space, within, to),
        };
        moved += u64::from(moved_bytes(run, to));
        to += run.to - run.from;
    }
    moved
}

/// How many bytes a run moves by sliding to a place: none where it stands there.
fn moved_bytes(run: Span, to: u32) -> u32
    requires { run.from ≤ run.to }
    ensures { result ≡ (if run.from == to then 0 else run.to - run.from) }
{
    if run.from == to { 0 } else { run.to - run.from }
}

/// Up to where the blocks of `low` up to `high` stand packed from `low` on, so that a gather leaves them: to the lowest hole, if that begins
/// there.
pub fn packed_to<S: Space, H: Holes<S>>(blocks: &Blocks<H>, space: &S, low: u32, high: u32) -> u32
    requires gap { MayGather blocks.now low high }
    requires grained { IsMultiple blocks.now.grain low }
    requires kept { H.are_in (holes_of blocks.now) (S.bytes space.now) }
    ensures run { IsRun blocks.now (record { from = low; to = result }) }
    ensures high { result ≤ high }
    ensures lowest { IfSome (lowest 0 (holes_of blocks.now)) (λ hole. low ≤ hole → hole ≤ high → result ≡ hole) }
{
    match blocks.hole_for(space, 0) {
        Some(hole) if low <= hole && hole <= high => hole,
        _ => low,
    }
}

/// Tells the prover that the blocks are ordered, as they always are. It does nothing else.
pub(crate) fn reveal_order<H: HoleList>(blocks: &Blocks<H>)
    ensures { IsOrdered blocks.now }
{
    let _ = blocks.bounds();
}

/// The first block that begins at a place or above it, and below another.
fn block_between<S: Space, H: Holes<S>>(
    blocks: &Blocks<H>,
    space: &S,
    from: u32,
    high: u32,
) -> Option<Block>
    requires kept { H.are_in (holes_of blocks.now) (S.bytes space.now) }
    ensures value { let first = slice_get blocks.now.blocks (rank from blocks.now.blocks) in
        MatchOption result (IfSome first (λ b. high ≤ b.at)) (λ b. (first ≡ Some b) × (b.at < high)) }
    ensures ordered { IsOrdered blocks.now }
{
    let block = blocks.next_from(space, from)?;
    if block.at < high { Some(block) } else { None }
}

/// Slides the run of blocks that begins a part of the range down to a place that the blocks before it leave free. Answers where the run
/// ended: at the end of the part at the latest.
fn settle<S: Space, H: Holes<S>>(
    blocks: &mut Blocks<H>,
    space: &mut S,
    within: Span,
    to: u32,
) -> u32
    requires ordered { IsOrdered blocks.old }
    requires part { (blocks.old.lo ≤ to) × (to ≤ within.from) × (within.from < within.to) × (within.to ≤ blocks.old.hi) }
    requires grained { IsMultiple blocks.old.grain within.from × IsMultiple blocks.old.grain to }
    requires whole { IsCut within.from blocks.old.blocks × IsCut within.to blocks.old.blocks }
    requires begins { AllByRecursion (λ b. b.at ≢ within.from) blocks.old.blocks → ⊥ }
    requires bare { IsBare to within.from blocks.old.blocks }
    requires memory { HasRange H.are_in (holes_of blocks.old) blocks.old.hi (S.bytes space.old) }
    ensures run { IsRun blocks.old (record { from = within.from; to = result }) }
    ensures high { result ≤ within.to }
    ensures last { EndsAt blocks.old within.to result }
    ensures blocks { blocks.new ≡ record blocks.old { blocks = map (slid_with (record { from = within.from; to = result }) to) blocks.old.blocks } }
    ensures ordered { IsOrdered blocks.new }
    ensures contents { contents (S.bytes space.new) blocks.new.blocks
        ≡ contents (S.bytes space.old) blocks.old.blocks }
    ensures written { S.written space.new ≡ counted (S.written space.old) (if within.from == to then 0 else result - within.from) }
    ensures rest { Leaves H.are_in S.bytes S.lenders (holes_of blocks.new) (IsSameRest blocks.old.lo blocks.old.hi) space.old space.new }
{
    if within.from == to {
        return blocks.run_end(to, within.to);
    }
    blocks.slide_run(space, within, to)
}
