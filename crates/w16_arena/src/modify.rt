//! The change of an object's kind.
ghost use Rattle.std.specs.Prelude.{◌≡◌, ◌<◌, ◌||◌, Ok, Err, IfErr, OnOk};
ghost use Rattle.w16_model.specs.Heap.{is_fixed};
ghost use Rattle.w16_model.specs.OneObject.{after_modify};
ghost use Rattle.w16_arena.specs.State.{Steps, holes_in, relisted};

use crate::Arena;
use std::alloc::Allocator;
use w16_holes::HoleList;
use w16_lru::Order;
use w16_model::{Entry, Kind, Refusal};

impl<H: HoleList> Arena<H> {
    /// A moveable object becomes discardable, or a discardable one moveable; its locks and bytes stay (GlobalReAlloc with `GMEM_MODIFY`). One
    /// that becomes discardable is the newest, and one that was so keeps its place in the order of use. `Absent` where there is no object; a
    /// fixed object stays so, and none becomes fixed: `Fixed`.
    pub fn modify(&mut self, id: u32, kind: Kind) -> Result<(), Refusal>
        ensures ok { OnOk result (Steps self.old self.new (λ old new. after_modify old id kind ≡ Ok new)) }
        ensures err { IfErr result (λ r. (self.new ≡ self.old) × Steps self.old self.new (λ old new. after_modify old id kind ≡ Err r)) }
        ensures holes { holes_in self.new.table ≡ holes_in self.old.table }
    {
        let Some(entry) = self.entry(id) else {
            return Err(Refusal::Absent);
        };
        if is_either_fixed(entry.kind, kind) {
            return Err(Refusal::Fixed);
        }
        let was = entry.kind.is_discardable();
        let is = kind.is_discardable();
        let has_bytes = self.block(id).is_some();
        self.entries[id as usize] = Some(Entry { kind, ..entry });
        relist(&mut self.order, id, was, is, has_bytes);
        Ok(())
    }
}

/// Whether one of two kinds is fixed.
fn is_either_fixed(before: Kind, after: Kind) -> bool
    ensures { result ≡ (is_fixed before || is_fixed after) }
{
    before.is_fixed() || after.is_fixed()
}

/// The order of use once an id was, or wasn't, and is, or isn't, discardable.
fn relist<A: Allocator>(order: &mut Order<A>, id: u32, was: bool, is: bool, has_bytes: bool)
    requires { id < order.old.cap }
    ensures { order.new ≡ record order.old { ids = relisted was is has_bytes id order.old.ids } }
{
    if was && is {
        return;
    }
    if is && has_bytes {
        order.newest(id);
    } else {
        order.remove(id);
    }
}
