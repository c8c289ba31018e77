//! What becomes of single objects. None of these calls asks for room.
ghost use Rattle.std.specs.Prelude.{◌≡◌, ◌<◌, ◌≤◌, Ok, Err, Some, None, length, IfErr, IfSome, IfNone, IsSomeAnd, IsTrue, true, OnOk, OnErr};
ghost use Rattle.w16_model.specs.Heap.{object_at};
ghost use Rattle.w16_model.specs.OneObject.{Enters, after_free, after_lock, after_unlock, after_discard, after_touch, after_newest, after_oldest, refused_order};
ghost use Rattle.w16_model.specs.Law.{after_release};
ghost use Rattle.w16_model.specs.Table.{block_with, entry_at, hold_of_entry, IsCountedBy};
ghost use Rattle.w16_model.specs.Changes as changes;
ghost use Rattle.w16_model.specs.Discards.{is_member};
ghost use Rattle.w16_blocks.specs.Layout.{IsOrdered, all_but, holes_of, replaced};
ghost use Rattle.w16_blocks.specs.Stay.{HasRange};
ghost use Rattle.w16_arena.specs.State.{KeepsBytes, Steps, after_end, holes_in};

use crate::Arena;
use w16_blocks::{Blocks, Hold};
use w16_holes::{HoleList, Holes};
use w16_lru::End;
use w16_model::{Entry, Kind, Refusal};
use w16_region::Space;

impl<H: HoleList> Arena<H> {
    /// A new object that is absent, for an id that has none.
    pub fn enter(&mut self, id: u32, kind: Kind)
        requires id { id < length self.old.table.entries }
        requires free { entry_at self.old.table id ≡ None }
        ensures steps { Steps self.old self.new (λ old new. Enters old id kind new) }
        ensures holes { holes_in self.new.table ≡ holes_in self.old.table }
    {
        self.entries[id as usize] = Some(Entry { kind, locks: 0 });
    }

    /// Takes an object away, absent or not, locked or not.
    pub fn release<S: Space>(&mut self, space: &mut S, id: u32)
    where
        H: Holes<S>,
        requires memory { HasRange H.are_in (holes_in self.old.table) self.old.table.hi (S.bytes space.old) }
        ensures steps { Steps self.old self.new (λ old new. new ≡ after_release old id) }
        ensures bytes { KeepsBytes H.are_in S.bytes S.lenders S.written (holes_in self.new.table) self.new.table.lo self.new.table.hi self.new.table.blocks space.old space.new }
    {
        if self.entry(id).is_some() {
            remove_block(&mut self.blocks, space, id);
            self.entries[id as usize] = None;
            self.order.remove(id);
        }
    }

    /// Takes an object away, absent or not. A locked one stays: `Locked`.
    pub fn free<S: Space>(&mut self, space: &mut S, id: u32) -> Result<(), Refusal>
    where
        H: Holes<S>,
        requires memory { HasRange H.are_in (holes_in self.old.table) self.old.table.hi (S.bytes space.old) }
        ensures ok { OnOk result (Steps self.old self.new (λ old new. after_free old id ≡ Ok new)) }
        ensures err { IfErr result (λ r. (self.new ≡ self.old) × Steps self.old self.new (λ old new. after_free old id ≡ Err r)) }
        ensures refused { OnErr result (space.new ≡ space.old) }
        ensures bytes { KeepsBytes H.are_in S.bytes S.lenders S.written (holes_in self.new.table) self.new.table.lo self.new.table.hi self.new.table.blocks space.old space.new }
    {
        let Some(entry) = self.entry(id) else {
            return Ok(());
        };
        if entry.locks > 0 {
            return Err(Refusal::Locked); // someone has its address
        }
        self.release(space, id);
        Ok(())
    }

    /// One lock more, and a discardable object becomes the newest. An absent object isn't locked (`Absent`), a fixed one counts none
    /// (`Fixed`), and a count of 255 is full (`LockFull`).
    pub fn lock(&mut self, id: u32) -> Result<(), Refusal>
        ensures ok { OnOk result (Steps self.old self.new (λ old new. after_lock old id ≡ Ok new)) }
        ensures err { IfErr result (λ r. (self.new ≡ self.old) × Steps self.old self.new (λ old new. after_lock old id ≡ Err r)) }
        ensures holes { holes_in self.new.table ≡ holes_in self.old.table }
    {
        if self.block(id).is_none() {
            return Err(Refusal::Absent); // it has no address
        }
        let Some(entry) = self.entry(id) else {
            return Err(Refusal::Absent);
        };
        if entry.kind.is_fixed() {
            return Err(Refusal::Fixed); // it never moves, so it counts no locks
        }
        if entry.locks == 255 {
            return Err(Refusal::LockFull);
        }
        self.set_locks(id, entry.kind, entry.locks + 1);
        self.touch(id);
        Ok(())
    }

    /// One lock less, if there is one. A fixed object counts none: `Fixed`.
    pub fn unlock(&mut self, id: u32) -> Result<(), Refusal>
        ensures ok { OnOk result (Steps self.old self.new (λ old new. after_unlock old id ≡ Ok new)) }
        ensures err { IfErr result (λ r. (self.new ≡ self.old) × Steps self.old self.new (λ old new. after_unlock old id ≡ Err r)) }
        ensures holes { holes_in self.new.table ≡ holes_in self.old.table }
    {
        let Some(entry) = self.entry(id) else {
            return Ok(());
        };
        if entry.kind.is_fixed() {
            return Err(Refusal::Fixed);
        }
        self.set_locks(id, entry.kind, entry.locks.saturating_sub(1));
        Ok(())
    }

    /// A discardable object gives up its bytes, if it has any. A locked one keeps them (`Locked`), and so does one that isn't discardable
    /// (`NotDiscardable`).
    pub fn discard<S: Space>(&mut self, space: &mut S, id: u32) -> Result<(), Refusal>
    where
        H: Holes<S>,
        requires memory { HasRange H.are_in (holes_in self.old.table) self.old.table.hi (S.bytes space.old) }
        ensures ok { OnOk result (Steps self.old self.new (λ old new. after_discard old id ≡ Ok new)) }
        ensures err { IfErr result (λ r. (self.new ≡ self.old) × Steps self.old self.new (λ old new. after_discard old id ≡ Err r)) }
        ensures refused { OnErr result (space.new ≡ space.old) }
        ensures bytes { KeepsBytes H.are_in S.bytes S.lenders S.written (holes_in self.new.table) self.new.table.lo self.new.table.hi self.new.table.blocks space.old space.new }
    {
        let Some(entry) = self.entry(id) else {
            return Err(Refusal::NotDiscardable);
        };
        if entry.locks > 0 {
            return Err(Refusal::Locked); // someone reads its bytes
        }
        if !entry.kind.is_discardable() {
            return Err(Refusal::NotDiscardable); // no one could make its bytes again
        }
        self.give_up(space, id);
        Ok(())
    }

    /// An object was used: a discardable one with bytes becomes the newest, any other is as it was.
    pub fn touch(&mut self, id: u32)
        ensures steps { Steps self.old self.new (λ old new. new ≡ after_touch old id) }
        ensures holes { holes_in self.new.table ≡ holes_in self.old.table }
    {
        if self.is_listed(id) {
            self.order.newest(id);
        }
    }

    /// Whether an id is in the order of use, which has the discardable objects with bytes.
    fn is_listed(&self, id: u32) -> bool
        ensures value { result ≡ is_member id self.now.table.order }
        ensures known { IsTrue result → id < length self.now.table.entries }
    {
        let Some(entry) = self.entry(id) else {
            return false;
        };
        entry.kind.is_discardable() && self.block(id).is_some()
    }

    /// A discardable object with bytes becomes the newest, locked or not. It tells why another doesn't: `Absent` or `NotDiscardable`.
    pub fn to_newest(&mut self, id: u32) -> Result<(), Refusal>
        ensures ok { OnOk result (Steps self.old self.new (λ old new. after_newest old id ≡ Ok new)) }
        ensures err { IfErr result (λ r. (self.new ≡ self.old) × Steps self.old self.new (λ old new. after_newest old id ≡ Err r)) }
        ensures holes { holes_in self.new.table ≡ holes_in self.old.table }
    {
        self.to_end(id, End::Newest)
    }

    /// A discardable object with bytes becomes the oldest, locked or not. It tells why another doesn't: `Absent` or `NotDiscardable`.
    pub fn to_oldest(&mut self, id: u32) -> Result<(), Refusal>
        ensures ok { OnOk result (Steps self.old self.new (λ old new. after_oldest old id ≡ Ok new)) }
        ensures err { IfErr result (λ r. (self.new ≡ self.old) × Steps self.old self.new (λ old new. after_oldest old id ≡ Err r)) }
        ensures holes { holes_in self.new.table ≡ holes_in self.old.table }
    {
        self.to_end(id, End::Oldest)
    }

    /// A discardable object with bytes goes to an end of the order of use, locked or not.
    fn to_end(&mut self, id: u32, end: End) -> Result<(), Refusal>
        ensures ok { OnOk result (Steps self.old self.new (λ old new. after_end end old id ≡ Ok new)) }
        ensures err { IfErr result (λ r. (self.new ≡ self.old) × Steps self.old self.new (λ old new. after_end end old id ≡ Err r)) }
        ensures holes { holes_in self.new.table ≡ holes_in self.old.table }
    {
        self.check_in_order(id)?;
        self.order.to_end(id, end);
        Ok(())
    }

    /// Sets the lock count of an object of this kind.
    fn set_locks(&mut self, id: u32, kind: Kind, locks: u8)
        requires kind { IsSomeAnd (entry_at self.old.table id) (λ e. e.kind ≡ kind) }
        requires counted { IsCountedBy (block_with self.old.table.blocks id) (record { kind = kind; locks = locks }) }
        ensures steps { Steps self.old self.new (λ old new. IfSome (object_at old id) (λ o. new ≡ changes.with_object old id (record o { locks = locks }))) }
        ensures holes { holes_in self.new.table ≡ holes_in self.old.table }
    {
        let entry = Entry { kind, locks };
        set_hold(&mut self.blocks, id, hold(entry));
        self.entries[id as usize] = Some(entry);
    }

    /// An object that isn't locked gives up its bytes, if it has any. Its id and kind stay.
    pub(crate) fn give_up<S: Space>(&mut self, space: &mut S, id: u32)
    where
        H: Holes<S>,
        requires memory { HasRange H.are_in (holes_in self.old.table) self.old.table.hi (S.bytes space.old) }
        requires unlocked { IsSomeAnd (entry_at self.old.table id) (λ e. e.locks ≡ 0) }
        ensures steps { Steps self.old self.new (λ old new. new ≡ changes.absent old id) }
        ensures blocks { self.new.table.blocks ≡ all_but id self.old.table.blocks }
        ensures order { self.new.table.order ≡ changes.without id self.old.table.order }
        ensures entries { self.new.table.entries ≡ self.old.table.entries }
        ensures bytes { KeepsBytes H.are_in S.bytes S.lenders S.written (holes_in self.new.table) self.new.table.lo self.new.table.hi self.new.table.blocks space.old space.new }
    {
        remove_block(&mut self.blocks, space, id);
        self.order.remove(id);
    }

    /// Checks that a step on the order of use is about a discardable object with bytes; it tells why it isn't.
    fn check_in_order(&self, id: u32) -> Result<(), Refusal>
        ensures ok { OnOk result (Steps self.now self.now (λ old new. refused_order old id ≡ None)) }
        ensures err { IfErr result (λ r. Steps self.now self.now (λ old new. refused_order old id ≡ Some r)) }
        ensures known { OnOk result (id < length self.now.table.entries) }
        ensures listed { OnOk result (is_member id self.now.table.order ≡ true) }
    {
        if self.block(id).is_none() {
            return Err(Refusal::Absent);
        }
        let Some(entry) = self.entry(id) else {
            return Err(Refusal::Absent);
        };
        if entry.kind.is_discardable() {
            Ok(())
        } else {
            Err(Refusal::NotDiscardable)
        }
    }
}

/// Takes an id's block away, if it has one.
fn remove_block<S: Space, H: Holes<S>>(blocks: &mut Blocks<H>, space: &mut S, id: u32)
    requires id { id < blocks.old.cap }
    requires memory { HasRange H.are_in (holes_of blocks.old) blocks.old.hi (S.bytes space.old) }
    ensures value { blocks.new ≡ record blocks.old { blocks = all_but id blocks.old.blocks } }
    ensures ordered { IsOrdered blocks.new }
    ensures bytes { KeepsBytes H.are_in S.bytes S.lenders S.written (holes_of blocks.new) blocks.new.lo blocks.new.hi blocks.new.blocks space.old space.new }
{
    if blocks.find(id).is_some() {
        blocks.remove(space, id);
    }
}

/// Pins an id's block or lets it loose, if it has one.
fn set_hold<H: HoleList>(blocks: &mut Blocks<H>, id: u32, hold: Hold)
    requires { id < blocks.old.cap }
    ensures none { IfNone (block_with blocks.old.blocks id) (blocks.new ≡ blocks.old) }
    ensures some { IfSome (block_with blocks.old.blocks id) (λ b. blocks.new ≡ record blocks.old { blocks = replaced (record b { hold = hold }) blocks.old.blocks }) }
    ensures ordered { IsOrdered blocks.new }
    ensures holes { holes_of blocks.new ≡ holes_of blocks.old }
{
    if blocks.find(id).is_some() {
        blocks.set_hold(id, hold);
    }
}

/// Whether an object's block keeps its address.
pub(crate) fn hold(entry: Entry) -> Hold
    ensures { result ≡ hold_of_entry entry }
{
    if entry.kind.is_fixed() || entry.locks > 0 {
        Hold::Pinned
    } else {
        Hold::Loose
    }
}
