//! Runs of blocks slide up.
ghost use Rattle.std.specs.Prelude.{◌≡◌, ◌+◌, ◌-◌, ◌<◌, ◌≤◌, ◌⊎◌, length, map};
ghost use Rattle.std.specs.List.{AllByRecursion};
ghost use Rattle.w16_model.specs.Gap.{block_end};
ghost use Rattle.w16_model.specs.Heap.{IsMultiple};
ghost use Rattle.w16_blocks.specs.Kept.{blocks_in, layout_in, AreTables};
ghost use Rattle.w16_blocks.specs.Runs.{IsRun, IsBare, slid_with};

use crate::below::block_below;
use crate::runs::retag;
use crate::{Block, Blocks, Span, unit_of};
use w16_holes::{HoleList, Holes};
use w16_region::Space;

/// The table and the cells, where the blocks of a run have slid up to a place, one after another from the last.
fn retag_run_up(
    slots: &mut [Block],
    begins: &mut [u32],
    ends: &mut [u16],
    bounds: Span,
    grain: u32,
    run: Span,
    to: u32,
)
    requires tables { AreTables (length slots.old) bounds.from bounds.to grain slots.old begins.old }
    requires run { IsRun (layout_in (length slots.old) bounds.from bounds.to grain slots.old begins.old) run }
    requires grained { IsMultiple grain to }
    requires up { (run.from ≤ to) × (to + (run.to - run.from) ≤ bounds.to) }
    requires bare { IsBare run.to (to + (run.to - run.from)) (blocks_in slots.old begins.old) }
    ensures tables { AreTables (length slots.old) bounds.from bounds.to grain slots.new begins.new }
    ensures blocks { blocks_in slots.new begins.new ≡ map (slid_with run to) (blocks_in slots.old begins.old) }
    ensures slots { length slots.new ≡ length slots.old }
    ensures begins { length begins.new ≡ length begins.old }
{
    let mut at = run.to;
    while run.from < at {
        let Some(block) = block_below(slots, begins, ends, bounds, grain, at) else {
            unreachable!();
        };
        at = block.at;
        retag(
            slots,
            begins,
            ends,
            bounds,
            grain,
            unit_of(at, bounds.from, grain),
            Block {
                at: to + (at - run.from),
                ..block
            },
        );
    }
}

impl<H: HoleList> Blocks<H> {
    ghost use Rattle.w16_model.specs.Bytes.{part};
    ghost use Rattle.w16_region.specs.Bytes.{counted};
    ghost use Rattle.w16_blocks.specs.Layout.{IsOrdered, holes_of};
    ghost use Rattle.w16_holes.specs.Holes.{AreSameBut};
    ghost use Rattle.w16_blocks.specs.Stay.{HasRange, Leaves};
    ghost use Rattle.w16_blocks.specs.Runs.{IsCut, BeginsAt};

    /// Where the run of blocks begins that stand one after another up to a place: at `low` at the earliest, which no block reaches over,
    /// and at the place itself where no block ends there.
    pub fn run_begin(&self, to: u32, low: u32) -> u32
        requires inside { (self.now.lo ≤ low) × (low ≤ to) × (to ≤ self.now.hi) }
        requires grained { IsMultiple self.now.grain to }
        requires whole { IsCut low self.now.blocks × IsCut to self.now.blocks }
        ensures run { IsRun self.now (record { from = result; to = to }) }
        ensures low { low ≤ result }
        ensures first { BeginsAt self.now low result }
    {
        let mut begin = to;
        while low < begin {
            let Some(block) = self.last_below(begin) else {
                return begin;
            };
            if block.at + block.size < begin {
                return begin;
            }
            begin = block.at;
        }
        begin
    }

    /// Slides a run of blocks up to a place up to whose end no block has a byte after the run, and their bytes with them, in one move. What
    /// the new place has beyond the old one is taken from the holes, and what the old one has beyond the new joins them. The size of the run
    /// counts as written, once. Bytes outside the holes of before and after stay, but for those of the new place.
    pub fn lift_run<S: Space>(&mut self, space: &mut S, run: Span, to: u32)
    where
        H: Holes<S>,
        requires run { IsRun self.old run }
        requires some { run.from < run.to }
        requires grained { IsMultiple self.old.grain to }
        requires up { (run.from < to) × (to + (run.to - run.from) ≤ self.old.hi) }
        requires bare { IsBare run.to (to + (run.to - run.from)) self.old.blocks }
        requires memory { HasRange H.are_in (holes_of self.old) self.old.hi (S.bytes space.old) }
        ensures value { self.new ≡ record self.old { blocks = map (slid_with run to) self.old.blocks } }
        ensures ordered { IsOrdered self.new }
        ensures contents { part (S.bytes space.new) to (run.to - run.from) ≡ part (S.bytes space.old) run.from (run.to - run.from) }
        ensures written { S.written space.new ≡ counted (S.written space.old) (run.to - run.from) }
        ensures rest { Leaves H.are_in S.bytes S.lenders (holes_of self.new) (AreSameBut to (run.to - run.from) (holes_of self.old) (holes_of self.new)) space.old space.new }
    {
        let size = run.to - run.from;
        let apart = size.min(to - run.from);
        self.holes.take(space, to + size - apart, apart);
        space.slide(run.from, to, size);
        self.holes.put(space, run.from, apart);
        let bounds = Span {
            from: self.lo,
            to: self.hi,
        };
        retag_run_up(
            &mut self.slots,
            &mut self.begins,
            &mut self.ends,
            bounds,
            self.grain,
            run,
            to,
        );
    }
}
