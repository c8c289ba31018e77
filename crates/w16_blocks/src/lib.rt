//! The blocks of a heap, at most one for each id: an id's in one step, the next by address in a few, and the holes between them behind
//! a trait. No call but the constructor takes memory, and none is refused.
#![tactic(auto)]

ghost use Rattle.std.specs.Prelude.{◌≡◌, ◌≢◌, ◌+◌, ◌-◌, ◌*◌, ◌/◌, ◌^◌, ◌<◌, ◌≤◌, ◌==◌, ◌++◌, [], length, replicate, IfOk, IsSome, IfSome, vec_capacity, vec_len, slice_get, sum_by, Some, if◌then◌else◌};
ghost use Rattle.std.specs.List.{list_any};
ghost use Rattle.std.specs.Int.{div_ceil};
ghost use Rattle.std.specs.Option.{ForSome};
ghost use Rattle.w16_model.specs.Heap.{IsMultiple};
ghost use Rattle.w16_blocks.specs.Kept.{pins_of};

mod below;
mod by_address;
mod ends;
mod lifts;
mod parts;
mod rename;
mod runs;

pub use by_address::ByAddress;
use ends::note_end;
pub use parts::Part;
use std::alloc::{AllocError, Allocator};
use std::marker::Model;
use w16_holes::{HoleList, Holes, LAST_END, units_in, units_over};
pub use w16_model::{Block, Hold, Span};
use w16_region::Space;

/// What the table has for an id without a block.
const NO_BLOCK: Block = Block {
    id: 0,
    at: 0,
    size: 0,
    hold: Hold::Loose,
};

/// Blocks between two bounds, at most one for each id, and the holes between them. No call but `with_room` takes memory.
#[derive(Drop)]
pub struct Blocks<H: HoleList> {
    /// By id, the block of no bytes where an id has none.
    slots: Vec<Block, H::Alloc>,
    /// By unit of grain from `lo` on, as far as the range goes: one more than the id of the block that begins there, or 0. It has the
    /// capacity for an end at [`LAST_END`], and so has `ends`.
    begins: Vec<u32, H::Alloc>,
    /// By unit of grain from `lo` on: the id of the block that was the last to be placed so that it ended there. It may end elsewhere by
    /// now, so who reads a note looks at the block.
    ends: Vec<u16, H::Alloc>,
    /// The bytes that no block has.
    free: u32,
    /// How many blocks are pinned.
    pinned: u32,
    holes: H,
    lo: u32,
    hi: u32,
    grain: u32,
}

impl<H: HoleList> Model for Blocks<H> {
    ghost use Rattle.w16_blocks.specs.Layout.{Layout};
    ghost use Rattle.w16_blocks.specs.Kept.{layout_in, AreReserved, BlocksInvariant};
    ghost use Rattle.std.specs.Prelude.{vec_capacity, vec_len};

    ghost Value = { Layout };

    ghost view = { λ s. layout_in (vec_len s.slots) s.lo s.hi s.grain s.slots.items s.begins.items };

    ghost invariant = { λ s. BlocksInvariant (vec_len s.slots) s.lo s.hi s.grain s.slots.items s.begins.items s.free s.pinned (H.range s.holes) (H.holes s.holes)
        × AreReserved s.lo s.grain (vec_capacity s.begins) (vec_capacity s.ends) };
}

/// How many blocks keep their address, of one with this hold.
fn pins_of(hold: Hold) -> u32
    ensures { result ≡ pins_of hold }
{
    match hold {
        Hold::Pinned => 1,
        Hold::Loose => 0,
    }
}

/// In which unit a place lies that begins one.
fn unit_of(place: u32, lo: u32, grain: u32) -> usize
    requires some { 0 < grain }
    requires from { lo ≤ place }
    requires low { IsMultiple grain lo }
    requires grained { IsMultiple grain place }
    ensures { place ≡ lo + grain * result }
{
    units_in(place - lo, grain) as usize
}

/// How many cells a table by unit needs, where the range ends at `end`: one for each place, the end among them.
fn cells_to(end: u32, lo: u32, grain: u32) -> usize
    requires some { 0 < grain }
    requires from { lo ≤ end }
    ensures { result ≡ (end - lo) / grain + 1 }
{
    units_in(end - lo, grain) as usize + 1
}

/// Gives a table at least so many cells, for which it has the capacity. The new ones are `cell`. No memory is taken.
fn lengthen<T: Copy, A: Allocator>(table: &mut Vec<T, A>, cells: usize, cell: T)
    requires { cells ≤ vec_capacity table.old }
    ensures items { table.new.items ≡ table.old.items ++ replicate (cells - vec_len table.old) cell }
    ensures capacity { vec_capacity table.old ≤ vec_capacity table.new }
{
    if table.len() < cells {
        let Ok(()) = table.resize(cells, cell) else {
            unreachable!()
        };
    }
}

impl<H: HoleList> Blocks<H> {
    ghost use Rattle.w16_model.specs.Table.{block_with};
    ghost use Rattle.w16_model.specs.Gap.{hole_after, block_end, is_pinned};
    ghost use Rattle.w16_holes.specs.Holes.{lowest, add_span, AreSameOutside};
    ghost use Rattle.w16_model.specs.Bytes.{part};
    ghost use Rattle.w16_region.specs.Bytes.{counted};
    ghost use Rattle.w16_blocks.specs.Stay.{AreSameOutsideBoth, HasRange, Leaves};
    ghost use Rattle.w16_blocks.specs.Layout.{Layout, IsApart, IsOrdered, Fits, FitsFor, placed, all_but, replaced, rank, holes_of};

    /// No blocks yet, between `lo` and `hi`, with ids below `cap`, at multiples of the grain, over holes of which all that is one. All the
    /// memory that the blocks ever have is taken here, for an end at [`LAST_END`] too; fails where there is not enough.
    pub fn with_room(
        alloc: H::Alloc,
        cap: u32,
        holes: H,
        lo: u32,
        hi: u32,
        grain: u32,
    ) -> Result<Blocks<H>, AllocError>
    where
        H: Drop,
        requires bounds { lo ≤ hi }
        requires some { 0 < grain }
        requires grained { IsMultiple grain lo }
        requires range { H.range holes ≡ record { lo = lo; hi = hi; grain = grain } }
        requires whole { H.holes holes ≡ add_span lo hi [] }
        ensures { IfOk result (λ made. made ≡ record { cap = cap; lo = lo; hi = hi; grain = grain; blocks = [] }) }
    {
        let slots = vec![in alloc; NO_BLOCK; cap as usize]?;
        let most = cells_to(hi.max(LAST_END), lo, grain);
        let mut begins = Vec::with_capacity(alloc, most)?;
        let mut ends = Vec::with_capacity(alloc, most)?;
        // Cells for a later end are not written before there is one, and so cost the host no memory until then.
        let cells = cells_to(hi, lo, grain);
        lengthen(&mut begins, cells, 0);
        lengthen(&mut ends, cells, 0);
        Ok(Blocks {
            slots,
            begins,
            ends,
            free: hi - lo,
            pinned: 0,
            holes,
            lo,
            hi,
            grain,
        })
    }

    /// The block of an id, none where it has none.
    pub fn find(&self, id: u32) -> Option<Block>
        requires { id < self.now.cap }
        ensures value { result ≡ block_with self.now.blocks id }
        ensures ordered { IsOrdered self.now }
    {
        let block = self.slots[id as usize];
        if block.size == 0 { None } else { Some(block) }
    }

    /// The block of an id that has one.
    fn block_of(&self, id: u32) -> Block
        requires id { id < self.now.cap }
        requires known { IsSome (block_with self.now.blocks id) }
        ensures known { block_with self.now.blocks id ≡ Some result }
        ensures ordered { IsOrdered self.now }
    {
        self.slots[id as usize]
    }

    /// Adds a block, whose bytes are taken from a hole. Bytes outside the holes stay.
    pub fn insert<S: Space>(&mut self, space: &mut S, block: Block)
    where
        H: Holes<S>,
        requires fits { Fits self.old block }
        requires kept { H.are_in (holes_of self.old) (S.bytes space.old) }
        ensures value { self.new ≡ record self.old { blocks = placed block self.old.blocks } }
        ensures ordered { IsOrdered self.new }
        ensures written { S.written space.new ≡ S.written space.old }
        ensures rest { Leaves H.are_in S.bytes S.lenders (holes_of self.new) (AreSameOutside (holes_of self.old)) space.old space.new }
    {
        let unit = unit_of(block.at, self.lo, self.grain);
        self.holes.take(space, block.at, block.size);
        self.slots[block.id as usize] = block;
        self.begins[unit] = block.id + 1;
        note_end(&mut self.ends, self.lo, self.grain, block);
        self.free -= block.size;
        self.pinned += pins_of(block.hold);
    }

    /// Removes an id's block; its bytes become free. Bytes outside the holes that there are afterwards stay.
    pub fn remove<S: Space>(&mut self, space: &mut S, id: u32)
    where
        H: Holes<S>,
        requires id { id < self.old.cap }
        requires known { IsSome (block_with self.old.blocks id) }
        requires memory { HasRange H.are_in (holes_of self.old) self.old.hi (S.bytes space.old) }
        ensures value { self.new ≡ record self.old { blocks = all_but id self.old.blocks } }
        ensures ordered { IsOrdered self.new }
        ensures written { S.written space.new ≡ S.written space.old }
        ensures rest { Leaves H.are_in S.bytes S.lenders (holes_of self.new) (AreSameOutside (holes_of self.new)) space.old space.new }
    {
        let block = self.block_of(id);
        let unit = unit_of(block.at, self.lo, self.grain);
        self.holes.put(space, block.at, block.size);
        self.slots[id as usize] = NO_BLOCK;
        self.begins[unit] = 0;
        self.free += block.size;
        self.pinned -= pins_of(block.hold);
    }

    /// Gives an id's block another size, with which it meets no other block. What it has more is taken from the hole after it, and what it
    /// has less joins the holes. Bytes outside the holes of before and after stay.
    pub fn resize<S: Space>(&mut self, space: &mut S, id: u32, size: u32)
    where
        H: Holes<S>,
        requires id { id < self.old.cap }
        requires known { IsSome (block_with self.old.blocks id) }
        requires fits { ForSome (block_with self.old.blocks id) (λ b. FitsFor self.old (record b { size = size })) }
        requires memory { HasRange H.are_in (holes_of self.old) self.old.hi (S.bytes space.old) }
        ensures value { IfSome (block_with self.old.blocks id) (λ b. self.new ≡ record self.old { blocks = replaced (record b { size = size }) self.old.blocks }) }
        ensures ordered { IsOrdered self.new }
        ensures written { S.written space.new ≡ S.written space.old }
        ensures rest { Leaves H.are_in S.bytes S.lenders (holes_of self.new) (AreSameOutsideBoth (holes_of self.old) (holes_of self.new)) space.old space.new }
    {
        let block = self.block_of(id);
        if block.size < size {
            self.grow(space, block, size)
        } else if size < block.size {
            self.shrink(space, block, size)
        }
    }

    /// Gives a block a larger size.
    fn grow<S: Space>(&mut self, space: &mut S, block: Block, size: u32)
    where
        H: Holes<S>,
        requires known { block_with self.old.blocks block.id ≡ Some block }
        requires more { block.size < size }
        requires fits { FitsFor self.old (record block { size = size }) }
        requires kept { H.are_in (holes_of self.old) (S.bytes space.old) }
        ensures value { self.new ≡ record self.old { blocks = replaced (record block { size = size }) self.old.blocks } }
        ensures ordered { IsOrdered self.new }
        ensures written { S.written space.new ≡ S.written space.old }
        ensures rest { Leaves H.are_in S.bytes S.lenders (holes_of self.new) (AreSameOutside (holes_of self.old)) space.old space.new }
    {
        let more = size - block.size;
        self.holes.take(space, block.at + block.size, more);
        self.free -= more;
        self.slots[block.id as usize] = Block { size, ..block };
        note_end(&mut self.ends, self.lo, self.grain, Block { size, ..block });
    }

    /// Gives a block a smaller size.
    fn shrink<S: Space>(&mut self, space: &mut S, block: Block, size: u32)
    where
        H: Holes<S>,
        requires known { block_with self.old.blocks block.id ≡ Some block }
        requires less { size < block.size }
        requires fits { FitsFor self.old (record block { size = size }) }
        requires memory { HasRange H.are_in (holes_of self.old) self.old.hi (S.bytes space.old) }
        ensures value { self.new ≡ record self.old { blocks = replaced (record block { size = size }) self.old.blocks } }
        ensures ordered { IsOrdered self.new }
        ensures written { S.written space.new ≡ S.written space.old }
        ensures rest { Leaves H.are_in S.bytes S.lenders (holes_of self.new) (AreSameOutside (holes_of self.new)) space.old space.new }
    {
        let less = block.size - size;
        self.holes.put(space, block.at + size, less);
        self.free += less;
        self.slots[block.id as usize] = Block { size, ..block };
        note_end(&mut self.ends, self.lo, self.grain, Block { size, ..block });
    }

    /// Gives a block `size` free bytes elsewhere, at least as many as it has. Its own bytes come along to the begin of these, and its old place
    /// joins the holes. The size that it had counts as written, once. Bytes outside the holes of before and after stay.
    pub fn move_grown<S: Space>(&mut self, space: &mut S, block: Block, to: u32, size: u32)
    where
        H: Holes<S>,
        requires known { block_with self.old.blocks block.id ≡ Some block }
        requires more { block.size ≤ size }
        requires fits { FitsFor self.old (record block { at = to; size = size }) }
        requires apart { IsApart (record block { at = to; size = size }) block }
        requires memory { HasRange H.are_in (holes_of self.old) self.old.hi (S.bytes space.old) }
        ensures value { self.new ≡ record self.old { blocks = replaced (record block { at = to; size = size }) self.old.blocks } }
        ensures ordered { IsOrdered self.new }
        ensures contents { part (S.bytes space.new) to block.size ≡ part (S.bytes space.old) block.at block.size }
        ensures written { S.written space.new ≡ counted (S.written space.old) block.size }
        ensures rest { Leaves H.are_in S.bytes S.lenders (holes_of self.new) (AreSameOutsideBoth (holes_of self.old) (holes_of self.new)) space.old space.new }
    {
        let from_unit = unit_of(block.at, self.lo, self.grain);
        let to_unit = unit_of(to, self.lo, self.grain);
        self.holes.take(space, to, size);
        space.slide(block.at, to, block.size);
        self.holes.put(space, block.at, block.size);
        let grown = Block {
            at: to,
            size,
            ..block
        };
        self.begins[from_unit] = 0;
        self.begins[to_unit] = block.id + 1;
        self.slots[block.id as usize] = grown;
        note_end(&mut self.ends, self.lo, self.grain, grown);
        self.free -= size - block.size;
    }

    /// Moves the end of the range up to `end`, a multiple of the grain of at most [`LAST_END`]. What is new is free, and joined with a hole
    /// that ends where the range ended; the blocks stay. Bytes outside the holes that there are afterwards stay. No memory is taken.
    pub fn set_end<S: Space>(&mut self, space: &mut S, end: u32)
    where
        H: Holes<S>,
        requires later { self.old.hi ≤ end }
        requires reserved { end ≤ LAST_END }
        requires low { IsMultiple self.old.grain self.old.hi }
        requires high { IsMultiple self.old.grain end }
        requires memory { HasRange H.are_in (holes_of self.old) end (S.bytes space.old) }
        ensures value { self.new ≡ record self.old { hi = end } }
        ensures ordered { IsOrdered self.new }
        ensures written { S.written space.new ≡ S.written space.old }
        ensures rest { Leaves H.are_in S.bytes S.lenders (holes_of self.new) (AreSameOutside (holes_of self.new)) space.old space.new }
    {
        let from = self.hi;
        if from < end {
            self.holes.set_end(end);
            self.holes.put(space, from, end - from);
            let cells = cells_to(end, self.lo, self.grain);
            lengthen(&mut self.begins, cells, 0);
            lengthen(&mut self.ends, cells, 0);
            self.free += end - from;
            self.hi = end;
        }
    }

    /// Pins an id's block or lets it loose. Its place and size stay.
    pub fn set_hold(&mut self, id: u32, hold: Hold)
        requires id { id < self.old.cap }
        requires known { IsSome (block_with self.old.blocks id) }
        ensures value { IfSome (block_with self.old.blocks id) (λ b. self.new ≡ record self.old { blocks = replaced (record b { hold = hold }) self.old.blocks }) }
        ensures ordered { IsOrdered self.new }
    {
        let block = self.block_of(id);
        self.slots[id as usize] = Block { hold, ..block };
        self.pinned = self.pinned - pins_of(block.hold) + pins_of(hold);
    }

    /// Where the lowest hole of at least `n` bytes begins, none where none is so long. Each hole has a byte, so for 0 it is the lowest there
    /// is.
    pub fn hole_for<S: Space>(&self, space: &S, n: u32) -> Option<u32>
    where
        H: Holes<S>,
        requires { H.are_in (holes_of self.now) (S.bytes space.now) }
        ensures value { result ≡ lowest n (holes_of self.now) }
        ensures ordered { IsOrdered self.now }
    {
        self.holes.lowest(space, n)
    }

    /// The length of the hole directly after an id's block, 0 where there is none.
    pub fn free_after<S: Space>(&self, space: &S, id: u32) -> u32
    where
        H: Holes<S>,
        requires id { id < self.now.cap }
        requires known { IsSome (block_with self.now.blocks id) }
        requires kept { H.are_in (holes_of self.now) (S.bytes space.now) }
        ensures value { IfSome (block_with self.now.blocks id) (λ b. result ≡ hole_after self.now.hi self.now.blocks (block_end b)) }
        ensures ordered { IsOrdered self.now }
    {
        let block = self.block_of(id);
        self.holes.at(space, block.at + block.size)
    }

    /// The first block that begins at an address or above, none where none does. It takes one step where a block begins at the address, a few
    /// where a hole does, and else it goes on unit by unit.
    #[inline(always)]
    pub fn next_from<S: Space>(&self, space: &S, at: u32) -> Option<Block>
    where
        H: Holes<S>,
        requires { H.are_in (holes_of self.now) (S.bytes space.now) }
        ensures value { result ≡ slice_get self.now.blocks (rank at self.now.blocks) }
        ensures ordered { IsOrdered self.now }
    {
        match self.beginning_at(at) {
            Some(block) => Some(block),
            None => self.first_from(space, at),
        }
    }

    /// The same, looked for hole by hole.
    fn first_from<S: Space>(&self, space: &S, at: u32) -> Option<Block>
    where
        H: Holes<S>,
        requires { H.are_in (holes_of self.now) (S.bytes space.now) }
        ensures value { result ≡ slice_get self.now.blocks (rank at self.now.blocks) }
        ensures ordered { IsOrdered self.now }
    {
        let units = self.units();
        let mut unit = units_over(at.saturating_sub(self.lo), self.grain) as usize;
        while unit < units {
            let begin = self.begins[unit] as usize;
            if begin > 0 {
                return Some(self.slots[begin - 1]);
            }
            // Nothing begins in a hole, so from its begin it is passed in one step.
            let hole = self.holes.at(space, self.lo + unit as u32 * self.grain);
            unit += units_in(hole, self.grain).max(1) as usize;
        }
        None
    }

    /// How many units of grain begin inside the range. After them nothing begins.
    pub(crate) fn units(&self) -> usize
        ensures value { result ≡ div_ceil (self.now.hi - self.now.lo) self.now.grain }
        ensures ordered { IsOrdered self.now }
    {
        units_over(self.hi - self.lo, self.grain) as usize
    }

    /// The blocks by address, each found from the end of the one before.
    pub fn by_address<'a, S: Space>(&'a self, space: &'a S) -> ByAddress<'a, S, H>
    where
        H: Holes<S>,
        ensures blocks { result.blocks.now ≡ self.now }
        ensures space { result.space.now ≡ space.now }
        ensures from { result.from ≡ 0 }
        ensures ordered { IsOrdered self.now }
    {
        // Opens the blocks, so that what always holds of them is known here.
        let _ = &self.free;
        ByAddress {
            blocks: self,
            space,
            from: 0,
        }
    }

    /// The bounds inside which the blocks lie.
    pub fn bounds(&self) -> Span
        ensures value { result ≡ record { from = self.now.lo; to = self.now.hi } }
        ensures ordered { IsOrdered self.now }
    {
        Span {
            from: self.lo,
            to: self.hi,
        }
    }

    /// Whether a block is pinned.
    pub fn has_pinned(&self) -> bool
        ensures { result ≡ list_any is_pinned self.now.blocks }
    {
        self.pinned > 0
    }

    /// How many ids there are.
    pub fn cap(&self) -> u32
        ensures { result ≡ self.now.cap }
    {
        self.slots.len() as u32
    }

    /// Of what each place and each size is a multiple, in bytes.
    pub fn grain(&self) -> u32
        ensures { result ≡ self.now.grain }
    {
        self.grain
    }

    /// The bytes that no block has.
    pub fn free(&self) -> u32
        ensures value { result ≡ self.now.hi - self.now.lo - sum_by (λ b. b.size) self.now.blocks }
        ensures ordered { IsOrdered self.now }
    {
        self.free
    }
}
