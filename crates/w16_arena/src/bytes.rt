//! The bytes of objects, in the memory of the caller.
ghost use Rattle.std.specs.Prelude.{◌≡◌, ◌≤◌, None, Some, length, MatchOption};
ghost use Rattle.w16_model.specs.Heap.{bytes_at};
ghost use Rattle.w16_model.specs.Table.{IsSound, block_with, heap_in};
ghost use Rattle.std.specs.Borrow.{sem};
ghost use Rattle.w16_region.specs.Lending.{LendsPart};

use crate::Arena;
use w16_holes::HoleList;
use w16_model::Block;
use w16_region::Space;

impl<H: HoleList> Arena<H> {
    /// An object's bytes, if it has any.
    pub fn bytes<'a, S: Space>(&self, space: &'a S, id: u32) -> Option<&'a [u8]>
        requires { self.now.table.hi ≤ length (S.bytes space.now) }
        ensures { MatchOption result (bytes_at (heap_in self.now.table (S.bytes space.now)) id ≡ None) (λ b. bytes_at (heap_in self.now.table (S.bytes space.now)) id ≡ Some b.now) }
    {
        let Some(block) = self.block(id) else {
            return None;
        };
        Some(space.view(block.at, block.size))
    }

    /// The bytes of the object whose block this is, to be written. All of them count as written. The memory that lends them stands first.
    pub fn bytes_mut<'a, S: Space>(space: &'a mut S, arena: &Arena<H>, block: Block) -> &'a mut [u8]
        requires inside { arena.now.table.hi ≤ length (S.bytes space.old) }
        requires known { block_with arena.now.table.blocks block.id ≡ Some block }
        ensures value { bytes_at (heap_in arena.now.table (S.bytes space.old)) block.id ≡ Some result.now }
        ensures* writes_back { sem 𝓛 (LendsPart S.row S.after_part space.entry block.at block.size result) }
    {
        arena.is_sound();
        space.view_mut(block.at, block.size)
    }

    /// Tells the prover what holds of every arena. It does nothing else.
    pub(crate) fn is_sound(&self)
        ensures { IsSound self.now.table }
    {
        let _ = &self.entries;
    }
}
