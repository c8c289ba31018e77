//! Discards, by least recent use.
ghost use Rattle.std.specs.Prelude.{◌≡◌, ◌≤◌, length, take, Option, vec_capacity};
ghost use Rattle.w16_model.specs.Discards.{eligible};
ghost use Rattle.w16_arena.specs.Asked.{Discards};
ghost use Rattle.w16_blocks.specs.Stay.{HasRange};
ghost use Rattle.w16_arena.specs.State.{KeepsBytes, holes_in};

use crate::Arena;
use w16_blocks::Blocks;
use w16_compact::is_eligible;
use w16_holes::{HoleList, Holes};
use w16_lru::Order;
use w16_region::Space;

impl<H: HoleList> Arena<H> {
    /// Discards the first `k` that a request about `h` may, or all where there are fewer.
    pub(crate) fn discard_first<S: Space>(&mut self, space: &mut S, k: usize, h: Option<u32>)
    where
        H: Holes<S>,
        requires memory { HasRange H.are_in (holes_in self.old.table) self.old.table.hi (S.bytes space.old) }
        ensures discards { Discards k h self.old self.new }
        ensures bytes { KeepsBytes H.are_in S.bytes S.lenders S.written (holes_in self.new.table) self.new.table.lo self.new.table.hi self.new.table.blocks space.old space.new }
    {
        list_eligible(&self.blocks, &self.order, k, h, &mut self.discarded);
        for i in 0..self.discarded.len() {
            let id = self.discarded[i];
            self.give_up(space, id);
        }
    }
}

/// Lists the first `k` that a request about `h` may discard, or all where there are fewer: those that aren't locked, and not `h` itself.
fn list_eligible<H: HoleList>(
    blocks: &Blocks<H>,
    order: &Order<H::Alloc>,
    k: usize,
    h: Option<u32>,
    listed: &mut Vec<u32, H::Alloc>,
)
    requires ids { order.now.cap ≤ blocks.now.cap }
    requires room { length order.now.ids ≤ vec_capacity listed.old }
    ensures listed { listed.new.items ≡ take k (eligible blocks.now.blocks order.now.ids h) }
    ensures room { vec_capacity listed.new ≡ vec_capacity listed.old }
{
    listed.clear();
    for id in order.oldest_first() {
        if listed.len() == k {
            return;
        }
        if is_eligible(blocks, h, id) {
            listed.push_reserved(id);
        }
    }
}
