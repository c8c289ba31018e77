//! The room of each gap, in a table.
ghost use Rattle.std.specs.Prelude.{◌≡◌, false, ◌+◌, ◌<◌, ◌≤◌, ◌^◌, [], length, slice_index, slice_set, sum_by, IfOk, MatchOption};
ghost use Rattle.std.specs.List.{list_any};
ghost use Rattle.std.specs.Option.{ForSome};
ghost use Rattle.w16_model.specs.Gap.{is_pinned, room};
ghost use Rattle.w16_model.specs.Discards.{blocks_without};
ghost use Rattle.w16_model.specs.Table.{block_with};
ghost use Rattle.w16_blocks.specs.Layout.{IsOrdered, holes_of};
ghost use Rattle.w16_compact.specs.Told.{AreTold};

use crate::reach::{Reached, is_about, is_pinned};
use crate::slide::reveal_order;
use std::alloc::{AllocError, Allocator, Global};
use std::marker::Model;
use w16_blocks::Blocks;
use w16_holes::{HoleList, Holes};
use w16_region::Space;

/// Memory for the search of those to discard, for the ids below a number. Whatever it holds, each search fills it anew.
#[derive(Drop)]
pub struct GapRooms<A: Allocator = Global> {
    /// By id, in which gap its loose block lies. A gap has the id of the pinned block before it as its number, and the lowest one the
    /// number of ids.
    pub(crate) gap_of: Vec<u32, A>,
    /// By a gap's number, its room.
    pub(crate) rooms: Vec<u32, A>,
}

impl<A: Allocator> Model for GapRooms<A> {
    ghost use Rattle.std.specs.Prelude.{◌≡◌, ◌+◌, ℕ, vec_len};

    ghost Value = { ℕ };

    ghost view = { λ t. vec_len t.gap_of };

    ghost invariant = { λ t. vec_len t.rooms ≡ vec_len t.gap_of + 1 };
}

impl<A: Allocator> GapRooms<A> {
    /// Takes all memory of a table for the ids below `cap`. An error is that there was none.
    pub fn with_room(alloc: A, cap: u32) -> Result<GapRooms<A>, AllocError>
    where
        A: Copy,
        ensures { IfOk result (λ made. made ≡ cap) }
    {
        let gap_of = vec![in alloc; 0; cap as usize]?;
        let rooms = vec![in alloc; 0; cap as usize + 1]?;
        Ok(GapRooms { gap_of, rooms })
    }
}

/// Fills a table by one pass over the blocks, `h`'s left out, and answers their room.
pub(crate) fn fill<S: Space, H: Holes<S>>(
    blocks: &Blocks<H>,
    space: &S,
    gap_of: &mut [u32],
    rooms: &mut [u32],
    h: Option<u32>,
) -> u32
    requires gap_of { blocks.now.cap ≤ length gap_of.old }
    requires rooms { blocks.now.cap < length rooms.old }
    requires kept { H.are_in (holes_of blocks.now) (S.bytes space.now) }
    ensures value { result ≡ room blocks.now.lo blocks.now.hi (blocks_without blocks.now.blocks [] h) }
    ensures told { AreTold blocks.now (blocks_without blocks.now.blocks [] h) gap_of.new rooms.new }
    ensures ordered { IsOrdered blocks.now }
{
    let bounds = blocks.bounds();
    if !blocks.has_pinned() {
        return fill_whole(blocks, gap_of, rooms, h);
    }
    let mut gap = blocks.cap();
    let mut reached = Reached {
        low: bounds.from,
        loose: 0,
    };
    let mut most = 0;
    for block in blocks.by_address(space) {
        if is_about(h, block.id) {
            continue;
        }
        if !is_pinned(&block) {
            gap_of[block.id as usize] = gap;
            reached = reached.passing(&block);
            continue;
        }
        let room = reached.room_to(block.at);
        rooms[gap as usize] = room;
        most = most.max(room);
        gap = block.id;
        reached = reached.passing(&block);
    }
    let room = reached.room_to(bounds.to);
    rooms[gap as usize] = room;
    most.max(room)
}

/// The same where no block is pinned, so that all is one gap.
fn fill_whole<H: HoleList>(
    blocks: &Blocks<H>,
    gap_of: &mut [u32],
    rooms: &mut [u32],
    h: Option<u32>,
) -> u32
    requires loose { list_any is_pinned blocks.now.blocks ≡ false }
    requires gap_of { blocks.now.cap ≤ length gap_of.old }
    requires rooms { blocks.now.cap < length rooms.old }
    ensures value { result ≡ room blocks.now.lo blocks.now.hi (blocks_without blocks.now.blocks [] h) }
    ensures told { AreTold blocks.now (blocks_without blocks.now.blocks [] h) gap_of.new rooms.new }
{
    reveal_order(blocks);
    let gap = blocks.cap();
    let room = blocks.free() + own_size(blocks, h);
    gap_of.fill(gap);
    rooms[gap as usize] = room;
    room
}

/// The bytes of the block that is left out.
fn own_size<H: HoleList>(blocks: &Blocks<H>, h: Option<u32>) -> u32
    ensures { result + sum_by (λ b. b.size) (blocks_without blocks.now.blocks [] h) ≡ sum_by (λ b. b.size) blocks.now.blocks }
{
    reveal_order(blocks);
    let Some(id) = h else {
        return 0;
    };
    if blocks.cap() <= id {
        return 0;
    }
    match blocks.find(id) {
        Some(block) => block.size,
        None => 0,
    }
}

/// Adds the size of an id's block to the room of its gap, as where it is discarded. Answers that room, and 0 for an id without a block.
pub(crate) fn widen<H: HoleList>(
    blocks: &Blocks<H>,
    gap_of: &[u32],
    rooms: &mut [u32],
    id: u32,
) -> u32
    requires id { id < blocks.now.cap }
    requires in_table { id < length gap_of.now }
    requires gap { ForSome (block_with blocks.now.blocks id) (λ b. slice_index gap_of.now id < length rooms.old) }
    requires fits { ForSome (block_with blocks.now.blocks id)
        (λ b. slice_index rooms.old (slice_index gap_of.now id) + b.size < 2 ^ 32) }
    ensures { let gap = slice_index gap_of.now id in MatchOption (block_with blocks.now.blocks id)
        ((result ≡ 0) × (rooms.new ≡ rooms.old))
        (λ b. (result ≡ slice_index rooms.old gap + b.size)
        × (rooms.new ≡ slice_set rooms.old gap (slice_index rooms.old gap + b.size))) }
{
    let Some(block) = blocks.find(id) else {
        return 0;
    };
    let gap = gap_of[id as usize] as usize;
    let room = rooms[gap] + block.size;
    rooms[gap] = room;
    room
}
