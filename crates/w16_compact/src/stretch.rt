//! How many bytes a request can have in a row, by where the range ends.
ghost use Rattle.std.specs.Prelude.{◌≡◌, ℕ, ◌<◌, ◌≤◌, ◌&&◌, ◌||◌, not, nat_le, is_some, IfSome};
ghost use Rattle.w16_model.specs.Gap.{is_pinned};
ghost use Rattle.w16_model.specs.Heap.{IsMultiple};
ghost use Rattle.w16_model.specs.Discards.{is_about, is_member, is_pinned_id, prefix_for, snapshot};
ghost use Rattle.w16_blocks.specs.Layout.{IsOrdered, holes_of};
ghost use Rattle.w16_compact.specs.Stretch.{stretch_at};

use crate::prefix::is_eligible;
use crate::reach::{Reached, is_about, is_pinned};
use w16_blocks::{Block, Blocks};
use w16_holes::{HoleList, Holes};
use w16_lru::Order;
use w16_model::RoomOptions;
use w16_region::Space;

/// How many bytes there can be in a row, by where the range ends.
#[derive(Clone, Copy, Debug, PartialEq, Eq)]
pub struct Stretch {
    /// At least as many, at the present end and at each later one.
    pub most: u32,
    /// And as many as lie between this place, a multiple of the grain, and a later end; none where a later end gives no more.
    pub last: Option<u32>,
}

/// As many as a request about `h` can have in a range of these blocks: for every end from the present one on, so many bytes are had just
/// where some number of discards makes room for them. The place from which a later end counts is a multiple of the grain. It takes one pass over
/// the blocks.
pub fn stretch_for<S: Space, H: Holes<S>>(
    blocks: &Blocks<H>,
    space: &S,
    order: &Order<H::Alloc>,
    h: Option<u32>,
    options: RoomOptions,
) -> Stretch
    requires { H.are_in (holes_of blocks.now) (S.bytes space.now) }
    ensures value { (end n : ℕ) → blocks.now.hi ≤ end → nat_le n (stretch_at result end)
        ≡ is_some (prefix_for (snapshot blocks.now.lo end blocks.now.blocks order.now.ids) n h options) }
    ensures grained { IfSome result.last (IsMultiple blocks.now.grain) }
    ensures ordered { IsOrdered blocks.now }
{
    let bounds = blocks.bounds();
    let mut reached = Reached {
        low: bounds.from,
        loose: 0,
    };
    let mut most = 0;
    for block in blocks.by_address(space) {
        if is_left_out(blocks, order, h, options, block.id) {
            continue;
        }
        if may_slide(options, &block) {
            reached = reached.passing(&block);
            continue;
        }
        most = most.max(reached.room_to(block.at));
        reached = Reached {
            low: block.at + block.size,
            loose: 0,
        };
    }
    Stretch {
        most: most.max(reached.room_to(bounds.to)),
        last: Some(reached.low + reached.loose),
    }
}

/// Whether a request about `h` leaves out an id's block: where others may slide, `h`'s, and each that it may discard.
fn is_left_out<H: HoleList>(
    blocks: &Blocks<H>,
    order: &Order<H::Alloc>,
    h: Option<u32>,
    options: RoomOptions,
    id: u32,
) -> bool
    requires { id < blocks.now.cap }
    ensures { result ≡ (options.compact && ((options.discard && (is_member id order.now.ids && (not (is_pinned_id blocks.now.blocks id) && not (is_about h id)))) || is_about h id)) }
{
    if !options.compact {
        return false;
    }
    if options.discard && order.contains(id) && is_eligible(blocks, h, id) {
        return true;
    }
    is_about(h, id)
}

/// Whether a block may slide for a request.
fn may_slide(options: RoomOptions, block: &Block) -> bool
    ensures { result ≡ (options.compact && not (is_pinned block.now)) }
{
    options.compact && !is_pinned(block)
}
