//! How many discards make room.
ghost use Rattle.std.specs.Prelude.{◌≡◌, ℕ, ◌<◌, ◌≤◌, ◌&&◌, not, length};
ghost use Rattle.w16_model.specs.Discards.{is_about, is_pinned_id, needed, room_for, snapshot};
ghost use Rattle.w16_blocks.specs.Layout.{IsOrdered, holes_of};

use crate::gap_rooms::{GapRooms, fill, widen};
use crate::reach::{is_about, is_pinned};
use w16_blocks::Blocks;
use w16_holes::{HoleList, Holes};
use w16_lru::Order;
use w16_region::Space;

/// The least number of discards, in the order of use, after which there is room for `n` bytes,
/// where `h` isn't counted; none where no number makes room. What is locked, a pinned block, and
/// `h` itself are skipped: they aren't discarded (profile).
///
/// `table` is for all ids of the blocks, whatever it holds.
pub fn least_prefix<S: Space, H: Holes<S>>(
    blocks: &Blocks<H>,
    space: &S,
    order: &Order<H::Alloc>,
    table: &mut GapRooms<H::Alloc>,
    h: Option<u32>,
    n: u32,
) -> Option<usize>
    requires table { blocks.now.cap ≤ table.old }
    requires ids { order.now.cap ≤ blocks.now.cap }
    requires kept { H.are_in (holes_of blocks.now) (S.bytes space.now) }
    ensures value { result
        ≡ needed (snapshot blocks.now.lo blocks.now.hi blocks.now.blocks order.now.ids) n h }
    ensures table { table.new ≡ table.old }
    ensures ordered { IsOrdered blocks.now }
{
    let all = order.len();
    let found = search(
        blocks,
        space,
        order,
        &mut table.gap_of,
        &mut table.rooms,
        h,
        all,
        u64::from(n),
    );
    if found.room < n {
        return None;
    }
    Some(found.discards)
}

/// The room after `k` discards, or after all where there are fewer to be made, where `h` isn't
/// counted. `table` is as for [`least_prefix`].
pub fn room_after<S: Space, H: Holes<S>>(
    blocks: &Blocks<H>,
    space: &S,
    order: &Order<H::Alloc>,
    table: &mut GapRooms<H::Alloc>,
    h: Option<u32>,
    k: usize,
) -> u32
    requires table { blocks.now.cap ≤ table.old }
    requires ids { order.now.cap ≤ blocks.now.cap }
    requires kept { H.are_in (holes_of blocks.now) (S.bytes space.now) }
    ensures value { result
        ≡ room_for (snapshot blocks.now.lo blocks.now.hi blocks.now.blocks order.now.ids) k h }
    ensures table { table.new ≡ table.old }
    ensures ordered { IsOrdered blocks.now }
{
    // No room is as long as that, so the search goes on to `k`.
    let found = search(
        blocks,
        space,
        order,
        &mut table.gap_of,
        &mut table.rooms,
        h,
        k,
        u64::MAX,
    );
    found.room
}

/// How far a search has come: how many objects it counts as discarded, and the room that this leaves.
#[derive(Clone, Copy)]
struct Found {
    discards: usize,
    room: u32,
}

/// Counts the oldest objects that may be discarded as if they were, one after another, until there is room for `n` bytes or `most` of
/// them are counted. The table's parts are as for [`least_prefix`].
fn search<S: Space, H: Holes<S>>(
    blocks: &Blocks<H>,
    space: &S,
    order: &Order<H::Alloc>,
    gap_of: &mut [u32],
    rooms: &mut [u32],
    h: Option<u32>,
    most: usize,
    n: u64,
) -> Found
    requires gap_of { blocks.now.cap ≤ length gap_of.old }
    requires rooms { blocks.now.cap < length rooms.old }
    requires ids { order.now.cap ≤ blocks.now.cap }
    requires kept { H.are_in (holes_of blocks.now) (S.bytes space.now) }
    ensures room { result.room
        ≡ room_for (snapshot blocks.now.lo blocks.now.hi blocks.now.blocks order.now.ids) result.discards h }
    ensures fewest { (k : ℕ) → k < result.discards
        → room_for (snapshot blocks.now.lo blocks.now.hi blocks.now.blocks order.now.ids) k h < n }
    ensures all { result.room < n → result.room
        ≡ room_for (snapshot blocks.now.lo blocks.now.hi blocks.now.blocks order.now.ids) most h }
    ensures ordered { IsOrdered blocks.now }
{
    let mut room = fill(blocks, space, gap_of, rooms, h);
    let mut discards = 0;
    for id in order.oldest_first() {
        if discards == most || n <= u64::from(room) {
            return Found { discards, room };
        }
        if !is_eligible(blocks, h, id) {
            continue;
        }
        discards += 1;
        room = room.max(widen(blocks, gap_of, rooms, id));
    }
    Found { discards, room }
}

/// Whether a request about `h` may discard a member of the order: it isn't locked, and isn't `h` itself (profile).
pub fn is_eligible<H: HoleList>(blocks: &Blocks<H>, h: Option<u32>, id: u32) -> bool
    requires { id < blocks.now.cap }
    ensures { result ≡ (not (is_pinned_id blocks.now.blocks id) && not (is_about h id)) }
{
    !is_about(h, id) && !is_pinned_id(blocks, id)
}

/// Whether an id has a block that keeps its address.
fn is_pinned_id<H: HoleList>(blocks: &Blocks<H>, id: u32) -> bool
    requires { id < blocks.now.cap }
    ensures { result ≡ is_pinned_id blocks.now.blocks id }
{
    match blocks.find(id) {
        Some(block) => is_pinned(&block),
        None => false,
    }
}
