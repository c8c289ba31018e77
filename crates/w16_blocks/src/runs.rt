//! Runs of blocks that stand one after another, which slide as one.
ghost use Rattle.std.specs.Prelude.{◌≡◌, ◌≢◌, ◌+◌, ◌-◌, ◌<◌, ◌≤◌, suc, Some, length, map, slice_index, MatchOption};
ghost use Rattle.std.specs.List.{AllByRecursion};
ghost use Rattle.w16_model.specs.Heap.{IsMultiple};
ghost use Rattle.w16_model.specs.Table.{block_with};
ghost use Rattle.w16_blocks.specs.Layout.{FitsFor, replaced};
ghost use Rattle.w16_blocks.specs.Kept.{blocks_in, layout_in, AreTables};
ghost use Rattle.w16_blocks.specs.Runs.{IsCut, IsRun, IsBare, EndsAt, slid_with};

use crate::ends::note_end;
use crate::{Block, Blocks, Span, unit_of};
use w16_holes::{HoleList, Holes, is_whole};
use w16_region::Space;

/// The block that begins at a place of the range.
fn block_at(slots: &[Block], begins: &[u32], bounds: Span, grain: u32, place: u32) -> Option<Block>
    requires tables { AreTables (length slots.now) bounds.from bounds.to grain slots.now begins.now }
    requires from { bounds.from ≤ place }
    requires to { place ≤ bounds.to }
    requires grained { IsMultiple grain place }
    ensures { let blocks = blocks_in slots.now begins.now in MatchOption result
        (AllByRecursion (λ b. b.at ≢ place) blocks)
        (λ b. (b.at ≡ place) × (block_with blocks b.id ≡ Some b)) }
{
    let begin = begins[unit_of(place, bounds.from, grain)] as usize;
    if begin == 0 {
        return None;
    }
    Some(slots[begin - 1])
}

/// The table, the cells and the notes of ends, with a block in place of the one of its id, which begins in a unit.
pub(crate) fn retag(
    slots: &mut [Block],
    begins: &mut [u32],
    ends: &mut [u16],
    bounds: Span,
    grain: u32,
    unit: usize,
    block: Block,
)
    requires tables { AreTables (length slots.old) bounds.from bounds.to grain slots.old begins.old }
    requires told { slice_index begins.old unit ≡ suc block.id }
    requires fits { FitsFor (layout_in (length slots.old) bounds.from bounds.to grain slots.old begins.old) block }
    ensures tables { AreTables (length slots.old) bounds.from bounds.to grain slots.new begins.new }
    ensures blocks { blocks_in slots.new begins.new ≡ replaced block (blocks_in slots.old begins.old) }
    ensures slots { length slots.new ≡ length slots.old }
    ensures begins { length begins.new ≡ length begins.old }
{
    begins[unit] = 0;
    begins[unit_of(block.at, bounds.from, grain)] = block.id + 1;
    slots[block.id as usize] = block;
    note_end(ends, bounds.from, grain, block);
}

/// The table and the cells, where the run of blocks that begins a part of the range has slid to a place, one after another, each as it is
/// found. Answers where the run ended: at the end of the part at the latest.
fn retag_run(
    slots: &mut [Block],
    begins: &mut [u32],
    ends: &mut [u16],
    bounds: Span,
    grain: u32,
    within: Span,
    to: u32,
) -> u32
    requires tables { AreTables (length slots.old) bounds.from bounds.to grain slots.old begins.old }
    requires inside { (bounds.from ≤ to) × (to ≤ within.from) × (within.from ≤ within.to) × (within.to ≤ bounds.to) }
    requires grained { IsMultiple grain within.from × IsMultiple grain to }
    requires whole { IsCut within.from (blocks_in slots.old begins.old) × IsCut within.to (blocks_in slots.old begins.old) }
    requires bare { IsBare to within.from (blocks_in slots.old begins.old) }
    ensures run { IsRun (layout_in (length slots.old) bounds.from bounds.to grain slots.old begins.old) (record { from = within.from; to = result }) }
    ensures high { result ≤ within.to }
    ensures last { EndsAt (layout_in (length slots.old) bounds.from bounds.to grain slots.old begins.old) within.to result }
    ensures tables { AreTables (length slots.old) bounds.from bounds.to grain slots.new begins.new }
    ensures blocks { blocks_in slots.new begins.new ≡ map (slid_with (record { from = within.from; to = result }) to) (blocks_in slots.old begins.old) }
    ensures slots { length slots.new ≡ length slots.old }
    ensures begins { length begins.new ≡ length begins.old }
{
    let mut at = within.from;
    while at < within.to {
        let unit = unit_of(at, bounds.from, grain);
        let begin = begins[unit] as usize;
        if begin == 0 {
            return at;
        }
        let block = slots[begin - 1];
        let place = to + (at - within.from);
        retag(
            slots,
            begins,
            ends,
            bounds,
            grain,
            unit,
            Block { at: place, ..block },
        );
        at += block.size;
    }
    at
}

impl<H: HoleList> Blocks<H> {
    ghost use Rattle.std.specs.Prelude.{◌≡◌, ◌≢◌, ◌+◌, ◌-◌, ◌<◌, ◌≤◌, Some, length, map, MatchOption};
    ghost use Rattle.std.specs.List.{AllByRecursion};
    ghost use Rattle.w16_model.specs.Table.{block_with};
    ghost use Rattle.w16_model.specs.Heap.{IsMultiple};
    ghost use Rattle.w16_model.specs.Bytes.{part};
    ghost use Rattle.w16_region.specs.Bytes.{counted};
    ghost use Rattle.w16_blocks.specs.Layout.{IsOrdered, holes_of};
    ghost use Rattle.w16_holes.specs.Holes.{AreSameBut};
    ghost use Rattle.w16_blocks.specs.Stay.{HasRange, Leaves};
    ghost use Rattle.w16_blocks.specs.Runs.{IsCut, IsRun, IsBare, EndsAt, slid_with};

    /// The block that begins at a place, in one step. None begins at a place outside the bounds, or at no multiple of the grain.
    pub fn beginning_at(&self, place: u32) -> Option<Block>
        ensures value { MatchOption result
            (AllByRecursion (λ b. b.at ≢ place) self.now.blocks)
            (λ b. (b.at ≡ place) × (block_with self.now.blocks b.id ≡ Some b)) }
        ensures ordered { IsOrdered self.now }
    {
        let bounds = self.bounds();
        if place < bounds.from || place > bounds.to || !is_whole(place, self.grain) {
            return None;
        }
        block_at(&self.slots, &self.begins, bounds, self.grain, place)
    }

    /// Where the run of blocks ends that stand one after another from a place on: at `high` at the latest, which no block reaches over, and
    /// at the place itself where no block begins there.
    pub fn run_end(&self, from: u32, high: u32) -> u32
        requires inside { (self.now.lo ≤ from) × (from ≤ high) × (high ≤ self.now.hi) }
        requires grained { IsMultiple self.now.grain from }
        requires whole { IsCut from self.now.blocks × IsCut high self.now.blocks }
        ensures run { IsRun self.now (record { from = from; to = result }) }
        ensures high { result ≤ high }
        ensures last { EndsAt self.now high result }
    {
        let bounds = self.bounds();
        let mut end = from;
        while end < high {
            let Some(block) = block_at(&self.slots, &self.begins, bounds, self.grain, end) else {
                return end;
            };
            end += block.size;
        }
        end
    }

    /// Slides the run of blocks that begins a part of the range down to a place from which on no block has a byte before the part, and their
    /// bytes with them, in one move. Answers where the run ended: at the end of the part at the latest, which no block reaches over. What the
    /// new place has beyond the old one is taken from the holes, and what the old one has beyond the new joins them. The size of the run
    /// counts as written, once. Bytes outside the holes of before and after stay, but for those of the new place.
    pub fn slide_run<S: Space>(&mut self, space: &mut S, within: Span, to: u32) -> u32
    where
        H: Holes<S>,
        requires part { (self.old.lo ≤ to) × (to < within.from) × (within.from < within.to) × (within.to ≤ self.old.hi) }
        requires grained { IsMultiple self.old.grain within.from × IsMultiple self.old.grain to }
        requires whole { IsCut within.from self.old.blocks × IsCut within.to self.old.blocks }
        requires begins { AllByRecursion (λ b. b.at ≢ within.from) self.old.blocks → ⊥ }
        requires bare { IsBare to within.from self.old.blocks }
        requires memory { HasRange H.are_in (holes_of self.old) self.old.hi (S.bytes space.old) }
        ensures run { IsRun self.old (record { from = within.from; to = result }) }
        ensures some { within.from < result }
        ensures high { result ≤ within.to }
        ensures last { EndsAt self.old within.to result }
        ensures value { self.new ≡ record self.old { blocks = map (slid_with (record { from = within.from; to = result }) to) self.old.blocks } }
        ensures ordered { IsOrdered self.new }
        ensures contents { part (S.bytes space.new) to (result - within.from) ≡ part (S.bytes space.old) within.from (result - within.from) }
        ensures written { S.written space.new ≡ counted (S.written space.old) (result - within.from) }
        ensures rest { Leaves H.are_in S.bytes S.lenders (holes_of self.new) (AreSameBut to (result - within.from) (holes_of self.old) (holes_of self.new)) space.old space.new }
    {
        let bounds = Span {
            from: self.lo,
            to: self.hi,
        };
        // Before the bytes, which would drive the tables out of the cache.
        let end = retag_run(
            &mut self.slots,
            &mut self.begins,
            &mut self.ends,
            bounds,
            self.grain,
            within,
            to,
        );
        self.holes
            .slide_down(space, within.from, to, end - within.from);
        end
    }
}
