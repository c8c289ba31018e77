//! Room for new bytes, by a hole that is there or by sliding the blocks of a gap.
ghost use Rattle.std.specs.Prelude.{◌≡◌, ◌<◌, ◌≤◌, false, true, length, IfSome, IfNone, if◌then◌else◌, ◌+◌, All};
ghost use Rattle.w16_model.specs.Gap.{room};
ghost use Rattle.w16_blocks.specs.Layout.{Fits, IsOrdered, holes_of, placed};
ghost use Rattle.w16_blocks.specs.Stay.{HasRange, Leaves};
ghost use Rattle.w16_compact.specs.Gather.{moved_between};
ghost use Rattle.w16_model.specs.Bytes.{put_part, repeated};
ghost use Rattle.w16_region.specs.Bytes.{counted};
ghost use Rattle.w16_compact.specs.Rest.{IsSameRest};
ghost use Rattle.w16_arena.specs.State.{KeepsBytes};
ghost use Rattle.w16_arena.specs.NewPlace.{AreMoved, AreFreeBytes, IsLowestGathered, IsLowestPlace, most_for};

use w16_blocks::{Block, Blocks, Span};
use w16_compact::{gap_for, gather, packed_to};
use w16_holes::Holes;
use w16_region::{Space, reveal_bytes};

/// Where new bytes stand, the range whose blocks slid for them, and how many bytes were moved.
#[derive(Clone, Copy, Debug, PartialEq, Eq)]
pub struct Placed {
    pub at: u32,
    /// Empty where no block slid.
    pub slid: Span,
    pub moved: u64,
}

/// The range of a slide that moved nothing.
pub(crate) const NOTHING: Span = Span { from: 0, to: 0 };

/// A place of `size` bytes: in the lowest hole that is long enough, or else, where blocks may slide, after the blocks of the lowest gap
/// with room, gathered. Nothing is changed where there is none.
pub(crate) fn make_room<S: Space, H: Holes<S>>(
    blocks: &mut Blocks<H>,
    space: &mut S,
    size: u32,
    compact: bool,
) -> Option<Placed>
    requires some { 0 < size }
    requires memory { HasRange H.are_in (holes_of blocks.old) blocks.old.hi (S.bytes space.old) }
    ensures ordered { IsOrdered blocks.old }
    ensures slid { IfSome result (λ p. AreMoved p.slid.from p.slid.to blocks.old (S.bytes space.old) blocks.new (S.bytes space.new)) }
    ensures free { IfSome result (λ p. AreFreeBytes blocks.new size p.at) }
    ensures moved { IfSome result (λ p. p.moved ≡ moved_between blocks.old.blocks blocks.new.blocks) }
    ensures lowest { IfSome result (λ p. IsLowestPlace blocks.old size p.at) }
    ensures enough { IfSome result (λ _. size ≤ most_for blocks.old compact) }
    ensures still { compact ≡ false → (blocks.new ≡ blocks.old) × (space.new ≡ space.old) }
    ensures rest { Leaves H.are_in S.bytes S.lenders (holes_of blocks.new) (IsSameRest blocks.old.lo blocks.old.hi) space.old space.new }
    ensures written { IfSome result (λ p. S.written space.new ≡ counted (S.written space.old) p.moved) }
    ensures refused { IfNone result ((most_for blocks.old compact < size) × (blocks.new ≡ blocks.old) × (space.new ≡ space.old)) }
{
    if let Some(at) = blocks.hole_for(space, size) {
        return Some(Placed {
            at,
            slid: NOTHING,
            moved: 0,
        });
    }
    if compact {
        gather_for(blocks, space, size)
    } else {
        None
    }
}

/// A place of `size` bytes after the blocks of the lowest gap with room, gathered.
fn gather_for<S: Space, H: Holes<S>>(
    blocks: &mut Blocks<H>,
    space: &mut S,
    size: u32,
) -> Option<Placed>
    requires some { 0 < size }
    requires memory { HasRange H.are_in (holes_of blocks.old) blocks.old.hi (S.bytes space.old) }
    ensures slid { IfSome result (λ p. AreMoved p.slid.from p.slid.to blocks.old (S.bytes space.old) blocks.new (S.bytes space.new)) }
    ensures free { IfSome result (λ p. AreFreeBytes blocks.new size p.at) }
    ensures moved { IfSome result (λ p. p.moved ≡ moved_between blocks.old.blocks blocks.new.blocks) }
    ensures lowest { IfSome result (λ p. IsLowestGathered blocks.old size p.at) }
    ensures rest { Leaves H.are_in S.bytes S.lenders (holes_of blocks.new) (IsSameRest blocks.old.lo blocks.old.hi) space.old space.new }
    ensures written { IfSome result (λ p. S.written space.new ≡ counted (S.written space.old) p.moved) }
    ensures refused { IfNone result ((most_for blocks.old true < size) × (blocks.new ≡ blocks.old) × (space.new ≡ space.old)) }
{
    let gap = gap_for(blocks, space, None, size)?;
    let from = packed_to(blocks, space, gap.low, gap.high);
    let moved = gather(blocks, space, gap.low, gap.high);
    reveal_bytes(space);
    Some(Placed {
        at: gap.low + gap.loose,
        slid: Span { from, to: gap.high },
        moved,
    })
}

/// Adds a block where bytes are free. What the others have stays.
pub(crate) fn insert<S: Space, H: Holes<S>>(blocks: &mut Blocks<H>, space: &mut S, block: Block)
    requires fits { Fits blocks.old block }
    requires kept { H.are_in (holes_of blocks.old) (S.bytes space.old) }
    ensures value { blocks.new ≡ record blocks.old { blocks = placed block blocks.old.blocks } }
    ensures ordered { IsOrdered blocks.new }
    ensures bytes { KeepsBytes H.are_in S.bytes S.lenders S.written (holes_of blocks.new) blocks.old.lo blocks.old.hi blocks.old.blocks space.old space.new }
    ensures small { All (λ b. b < 256) (S.bytes space.new) }
{
    blocks.bounds();
    blocks.insert(space, block);
    reveal_bytes(space);
}

/// Sets `size` bytes from an address on to zeros, where that is asked for.
pub(crate) fn clear_if<S: Space>(asked: bool, space: &mut S, at: u32, size: u32)
    requires { at + size ≤ length (S.bytes space.old) }
    ensures bytes { S.bytes space.new ≡ if asked then put_part (S.bytes space.old) at (repeated size 0) else S.bytes space.old }
    ensures written { S.written space.new ≡ if asked then counted (S.written space.old) size else S.written space.old }
    ensures rest { IsSameRest at (at + size) (S.bytes space.old) (S.bytes space.new) }
    ensures lenders { S.lenders space.new ≡ S.lenders space.old }
{
    if asked {
        space.fill(at, size, 0);
    }
}
