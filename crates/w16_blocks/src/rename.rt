//! A block that gets another id.
ghost use Rattle.std.specs.Prelude.{◌≡◌, ◌<◌, None};
ghost use Rattle.w16_model.specs.Table.{block_with};
ghost use Rattle.w16_blocks.specs.Layout.{IsOrdered, renamed};

use crate::ends::note_end;
use crate::{Block, Blocks, NO_BLOCK, unit_of};
use w16_holes::HoleList;

impl<H: HoleList> Blocks<H> {
    /// An id's block, if it has one, becomes that of an id that has none. Its place, size and hold stay.
    pub fn rename(&mut self, id: u32, to: u32)
        requires id { id < self.old.cap }
        requires to { to < self.old.cap }
        requires free { block_with self.old.blocks to ≡ None }
        ensures value { self.new ≡ record self.old { blocks = renamed id to self.old.blocks } }
        ensures ordered { IsOrdered self.new }
    {
        let Some(block) = self.find(id) else {
            return;
        };
        let block = Block { id: to, ..block };
        let unit = unit_of(block.at, self.lo, self.grain);
        self.slots[id as usize] = NO_BLOCK;
        self.slots[to as usize] = block;
        self.begins[unit] = to + 1;
        note_end(&mut self.ends, self.lo, self.grain, block);
    }
}
