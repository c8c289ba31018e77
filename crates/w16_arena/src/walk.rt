//! A walk of the heap, part by part.
ghost use Rattle.std.specs.Prelude.{◌≡◌, ◌+◌, ◌^◌, ◌<◌, ◌≤◌, ℕ, List, length, IfSome, IsSomeAnd, Some, slice_get};
ghost use Rattle.w16_model.specs.Table.{entry_at, heap_in, IsSound};
ghost use Rattle.w16_model.specs.{Law.IsFirstItem, Law.IsItemAt, Law.by_its_id, Walk.IsItem};
ghost use Rattle.w16_arena.specs.State.{holes_in};

use crate::Arena;
use w16_blocks::Part;
use w16_holes::{HoleList, Holes};
use w16_model::{Block, Item, Owner};
use w16_region::Space;

impl<H: HoleList> Arena<H> {
    /// The i-th part of the heap by address, from 0 on, an object's bytes or a hole; none after the last. Objects are named by their ids. It
    /// goes over the parts before it: a whole walk is quicker by [`Arena::walk_from`].
    pub fn walk<S: Space>(&self, space: &S, i: usize) -> Option<Item>
    where
        H: Holes<S>,
        requires kept { H.are_in (holes_in self.now.table) (S.bytes space.now) }
        ensures { (memory : List ℕ) → self.now.table.hi ≤ length memory → IsItemAt by_its_id (heap_in self.now.table memory) i result }
    {
        let mut from = 0;
        for _ in 0..i {
            let item = self.walk_from(space, from)?;
            from = item.at + item.size;
        }
        self.walk_from(space, from)
    }

    /// The first part of the heap that begins at an address or above it; none after the last. A whole walk asks from 0 on, and then each
    /// time from where the last part ends. From inside a part the next is sought unit by unit.
    pub fn walk_from<S: Space>(&self, space: &S, from: u32) -> Option<Item>
    where
        H: Holes<S>,
        requires kept { H.are_in (holes_in self.now.table) (S.bytes space.now) }
        ensures found { (memory : List ℕ) → self.now.table.hi ≤ length memory → IsFirstItem by_its_id (heap_in self.now.table memory) from result }
        ensures inside { IfSome result (λ item. (0 < item.size) × (item.at + item.size < 2 ^ 32)) }

        // No part begins inside it.
        ensures apart { (memory : List ℕ) → self.now.table.hi ≤ length memory → IfSome result (λ item. (other : Item) → IsItem by_its_id (heap_in self.now.table memory) other → item.at < other.at → item.at + item.size ≤ other.at) }
    {
        match self.blocks.part_from(space, from)? {
            Part::Hole(hole) => Some(Item {
                at: hole.from,
                size: hole.to - hole.from,
                owner: None,
            }),
            Part::Block(block) => Some(self.item_of(block)),
        }
    }

    /// A block as a part of the heap.
    fn item_of(&self, block: Block) -> Item
        requires { (i : ℕ) × (slice_get self.now.table.blocks i ≡ Some block) }
        ensures value { IsSomeAnd (entry_at self.now.table block.id) (λ e. result
            ≡ record { at = block.at; size = block.size; owner = Some (record { name = block.id; kind = e.kind; locks = e.locks }) }) }
        ensures sound { IsSound self.now.table }
    {
        let Some(entry) = self.entry(block.id) else {
            unreachable!();
        };
        Item {
            at: block.at,
            size: block.size,
            owner: Some(Owner {
                name: block.id,
                kind: entry.kind,
                locks: entry.locks,
            }),
        }
    }
}
