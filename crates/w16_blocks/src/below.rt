//! The last block below an address, for walks from high addresses to low ones.
ghost use Rattle.std.specs.Prelude.{◌≡◌, ◌<◌, ◌≤◌, ℕ, IsTrue, length, slice_index, MatchOption};
ghost use Rattle.std.specs.List.{AllByRecursion};
ghost use Rattle.w16_blocks.specs.Below.{IsLastBelow};
ghost use Rattle.w16_blocks.specs.Kept.{blocks_in, AreTables};

use crate::ends::noted;
use crate::{Block, Blocks, Span};
use w16_holes::HoleList;

/// How many cells are looked at together.
const TOGETHER: usize = 8;

/// Whether no block begins in these cells. Their bits together have no branch, so all are looked at at once.
fn are_blank(cells: &[u32; TOGETHER]) -> bool
    ensures { IsTrue result → (k : ℕ) → k < TOGETHER → slice_index cells.now k ≡ 0 }
{
    let [a, b, c, d, e, f, g, h] = *cells;
    (a | b | c | d) | (e | f | g | h) == 0
}

/// Up to which cell below another a block may begin: those after it were looked at together, and none does.
fn last_filled(begins: &[u32], below: usize) -> usize
    requires { below ≤ length begins.now }
    ensures within { result ≤ below }
    ensures blank { (k : ℕ) → result ≤ k → k < below → slice_index begins.now k ≡ 0 }
{
    let mut end = below;
    'together: while let Some((_, cells)) = begins[..end].split_last_chunk::<TOGETHER>() {
        if !are_blank(cells) {
            return end;
        }
        end -= TOGETHER;
    }
    end
}

/// The last block that the cells tell below a place. It takes one step where a block ends at the place.
pub(crate) fn block_below(
    slots: &[Block],
    begins: &[u32],
    ends: &[u16],
    bounds: Span,
    grain: u32,
    place: u32,
) -> Option<Block>
    requires tables { AreTables (length slots.now) bounds.from bounds.to grain slots.now begins.now }
    ensures { let blocks = blocks_in slots.now begins.now in
        MatchOption result (AllByRecursion (λ b. place ≤ b.at) blocks) (IsLastBelow blocks place) }
{
    if let Some(block) = noted(slots, ends, bounds.from, grain, place) {
        return Some(block);
    }
    let below = place.saturating_sub(bounds.from).div_ceil(grain) as usize;
    for unit in (0..last_filled(begins, below.min(begins.len()))).rev() {
        let begin = begins[unit] as usize;
        if begin > 0 {
            return Some(slots[begin - 1]);
        }
    }
    None
}

impl<H: HoleList> Blocks<H> {
    ghost use Rattle.w16_blocks.specs.Layout.{IsOrdered};

    /// The last block that begins below an address, none where none does. It takes one step where a block
    /// ends at the address, and else looks at each unit of grain from there down, so a walk asks from where the block before began.
    pub fn last_below(&self, at: u32) -> Option<Block>
        ensures value { MatchOption result (AllByRecursion (λ b. at ≤ b.at) self.now.blocks) (IsLastBelow self.now.blocks at) }
        ensures ordered { IsOrdered self.now }
    {
        block_below(
            &self.slots,
            &self.begins,
            &self.ends,
            self.bounds(),
            self.grain,
            at,
        )
    }
}
