//! An object that gets another id.
ghost use Rattle.std.specs.Prelude.{◌≡◌, ◌<◌, None, IsSome, length};
ghost use Rattle.w16_model.specs.Resizes.{rehoused};
ghost use Rattle.w16_model.specs.Table.{entry_at};
ghost use Rattle.w16_arena.specs.State.{Steps, holes_in};

use crate::Arena;
use w16_holes::HoleList;

impl<H: HoleList> Arena<H> {
    /// An object becomes that of an id that has none. Its bytes and address, its kind and locks and its place in the order of use stay.
    pub fn rename(&mut self, id: u32, to: u32)
        requires known { IsSome (entry_at self.old.table id) }
        requires to { to < length self.old.table.entries }
        requires free { entry_at self.old.table to ≡ None }
        ensures steps { Steps self.old self.new (λ old new. new ≡ rehoused old id to) }
        ensures holes { holes_in self.new.table ≡ holes_in self.old.table }
    {
        let entry = self.entries[id as usize];
        self.entries[id as usize] = None;
        self.entries[to as usize] = entry;
        self.blocks.rename(id, to);
        self.order.rename(id, to);
    }
}
