//! The lowest gap with room.
ghost use Rattle.std.specs.Prelude.{◌≡◌, ◌+◌, ◌<◌, ◌≤◌, sum_by, IsTrue, IsSome, IfSome, MatchOption};
ghost use Rattle.w16_model.specs.Gap.{room, is_pinned};
ghost use Rattle.w16_blocks.specs.Layout.{IsOrdered, holes_of};
ghost use Rattle.w16_compact.specs.Gap.{others, without, HasRoom, IsLowest};

use crate::reach::{Reached, is_about};
use w16_blocks::{Block, Blocks, Hold};
use w16_holes::{HoleList, Holes};
use w16_region::Space;

/// A gap: a longest interval without a byte of a pinned block. Addresses and sizes are in bytes.
#[derive(Clone, Copy, Debug, PartialEq, Eq)]
pub struct Gap {
    /// Its first byte.
    pub low: u32,
    /// The place after its last byte.
    pub high: u32,
    /// The bytes of its loose blocks together, at most `high - low`.
    pub loose: u32,
}

/// The gap that has room for `n` bytes, at least one, beside its loose blocks: the lowest of those
/// that have (profile). There is none exactly where the room is below `n`. The block of `h` is left out, as if its bytes were free.
pub fn gap_for<S: Space, H: Holes<S>>(
    blocks: &Blocks<H>,
    space: &S,
    h: Option<u32>,
    n: u32,
) -> Option<Gap>
    requires some { 0 < n }
    requires about { IfSome h (λ id. id < blocks.now.cap) }
    requires kept { H.are_in (holes_of blocks.now) (S.bytes space.now) }
    ensures found { MatchOption result
        (room blocks.now.lo blocks.now.hi (others h blocks.now.blocks) < n)
        (HasRoom (without h blocks.now) n) }
    ensures enough { IsSome result → n ≤ room blocks.now.lo blocks.now.hi (others h blocks.now.blocks) }
    ensures lowest { IfSome result (λ g. IsLowest (without h blocks.now) n g.low) }
    ensures ordered { IsOrdered blocks.now }
{
    let bounds = blocks.bounds();
    // No gap has more than the free bytes of all together.
    let spare = blocks.free() + left_out(blocks, h);
    if spare < n {
        return None;
    }
    if !blocks.has_pinned() {
        // All is one gap.
        let whole = Reached {
            low: bounds.from,
            loose: bounds.to - bounds.from - spare,
        };
        return gap_to(whole, bounds.to, n);
    }
    let mut reached = Reached {
        low: bounds.from,
        loose: 0,
    };
    for block in blocks.by_address(space) {
        if is_about(h, block.id) {
            continue;
        }
        if let Some(gap) = gap_before(reached, &block, n) {
            return Some(gap);
        }
        reached = reached.passing(&block);
    }
    gap_to(reached, bounds.to, n)
}

/// The bytes of the block that is left out.
fn left_out<H: HoleList>(blocks: &Blocks<H>, h: Option<u32>) -> u32
    requires { IfSome h (λ id. id < blocks.now.cap) }
    ensures value { result + sum_by (λ b. b.size) (others h blocks.now.blocks) ≡ sum_by (λ b. b.size) blocks.now.blocks }
    ensures ordered { IsOrdered blocks.now }
{
    let _ = blocks.bounds();
    let Some(id) = h else {
        return 0;
    };
    let Some(block) = blocks.find(id) else {
        return 0;
    };
    block.size
}

/// The gap that ends where a block begins, if the block is pinned and the gap has room.
fn gap_before(reached: Reached, block: &Block, n: u32) -> Option<Gap>
    requires { reached.low + reached.loose ≤ block.now.at }
    ensures { MatchOption result
        (IsTrue (is_pinned block.now) → block.now.at < reached.low + reached.loose + n)
        (λ g. (g ≡ record { low = reached.low; high = block.now.at; loose = reached.loose })
        × (reached.low + reached.loose + n ≤ block.now.at) × IsTrue (is_pinned block.now)) }
{
    match block.hold {
        Hold::Pinned => gap_to(reached, block.at, n),
        Hold::Loose => None,
    }
}

/// The gap that ends at a place, if it has room.
fn gap_to(reached: Reached, high: u32, n: u32) -> Option<Gap>
    requires { reached.low + reached.loose ≤ high }
    ensures { MatchOption result
        (high < reached.low + reached.loose + n)
        (λ g. (g ≡ record { low = reached.low; high = high; loose = reached.loose })
        × (reached.low + reached.loose + n ≤ high)) }
{
    if n <= reached.room_to(high) {
        return Some(Gap {
            low: reached.low,
            high,
            loose: reached.loose,
        });
    }
    None
}
