//! The blocks by address, one after another.
ghost use Rattle.std.specs.Prelude.{◌+◌};
ghost use Rattle.std.specs.Iterator.{YieldsFirst, item_count};
ghost use Rattle.w16_blocks.specs.Layout.{from_address, holes_of};

use crate::{Block, Blocks};
use w16_holes::Holes;
use w16_region::Space;

/// The blocks from an address on, by address.
#[derive(Drop)]
pub struct ByAddress<'a, S: Space, H: Holes<S>> {
    pub(crate) blocks: &'a Blocks<H>,
    pub(crate) space: &'a S,
    pub(crate) from: u32,
}

impl<'a, S: Space, H: Holes<S>> Iterator for ByAddress<'a, S, H> {
    type Item = Block;

    ghost can_next = { λ s. H.are_in (holes_of s.blocks.now) (S.bytes s.space.now) };

    ghost next_gives = { YieldsFirst (λ s. from_address s.from s.blocks.now.blocks) };

    ghost remaining = { item_count (λ s. from_address s.from s.blocks.now.blocks) };

    fn next(&mut self) -> Option<Block> {
        let block = self.blocks.next_from(self.space, self.from)?;
        self.from = block.at + block.size;
        Some(block)
    }
}
