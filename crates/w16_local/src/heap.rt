//! One local heap, without the bytes that it is over.
ghost use Rattle.std.specs.Prelude.{◌≡◌, ◌≤◌, ◌<◌, None, IfOk, IfSome, IfNone, OnErr};
ghost use Rattle.w16_model.specs.Heap.{IsMultiple};
ghost use Rattle.w16_model.specs.Table.{entry_at};
ghost use Rattle.w16_model.specs.OneObject.{Enters, after_lock, after_modify, after_unlock};
ghost use Rattle.w16_machine.specs.declared.local.TheConstants.{LOCAL_ENTRIES};
ghost use Rattle.w16_machine.specs.Local.{IsLocalTable, new_table};
ghost use Rattle.w16_local.specs.Kept.{IsFull, IsLowest};
ghost use Rattle.w16_local.specs.Steps.{MayStep, Turns, after_step, outcome};

use crate::free_entries::FreeEntries;
use crate::steps::TableOp;
use std::alloc::{AllocError, Allocator};
use std::marker::Model;
use w16_arena::Arena;
use w16_holes::SideHoles;
use w16_machine::local::{LOCAL_ENTRIES, LOCAL_GRAIN};
use w16_model::{Kind, Refusal, Span};

/// A local heap. Its value is its table.
#[derive(Drop)]
pub(crate) struct LocalHeap<A: Allocator + Copy> {
    pub(crate) arena: Arena<SideHoles<A>>,
    pub(crate) free: FreeEntries<A>,
}

impl<A: Allocator + Copy> Model for LocalHeap<A> {
    ghost use Rattle.w16_model.specs.Table.{Table};
    ghost use Rattle.w16_local.specs.Codes.{table_code};
    ghost use Rattle.w16_local.specs.Kept.{LocalHeapInvariant};

    ghost Value = { Table };

    ghost coded = { table_code };

    ghost view = { λ s. s.arena.table };

    ghost invariant = { λ s. LocalHeapInvariant s.arena.table s.free };
}

impl<A: Allocator + Copy> LocalHeap<A> {
    /// No object yet, over a range of at least a grain. An error is that there was no memory.
    pub fn new(alloc: A, range: Span) -> Result<LocalHeap<A>, AllocError>
        requires low { 4 ≤ range.from }
        requires some { range.from < range.to }
        requires high { range.to ≤ 65536 }
        requires grained { IsMultiple 4 range.from }
        ensures { IfOk result (λ made. made ≡ new_table range) }
    {
        let holes = SideHoles::new(alloc, range.from, range.to, LOCAL_GRAIN)?;
        let arena = Arena::new(
            alloc,
            LOCAL_ENTRIES,
            holes,
            range.from,
            range.to,
            LOCAL_GRAIN,
        )?;
        let free = FreeEntries::new(alloc)?;
        Ok(LocalHeap { arena, free })
    }

    /// Its objects, without which of its entries are free.
    pub fn arena(&self) -> &Arena<SideHoles<A>>
        ensures { result.now.table ≡ self.now }
    {
        &self.arena
    }

    /// Tells the prover that this is a local heap's table, as it always is. It does nothing else.
    pub fn reveal_local(&self)
        ensures { IsLocalTable self.now }
    {
        let _arena = &self.arena;
    }

    /// The lowest free entry.
    pub fn lowest_free(&self) -> Option<u32>
        ensures found { IfSome result (λ id. IsLowest self.now id) }
        ensures none { IfNone result (IsFull self.now) }
    {
        let id = self.free.lowest()?;
        Some(id as u32)
    }

    /// A step of an object.
    pub fn step(&mut self, id: u32, step: TableOp) -> Result<(), Refusal>
        requires { MayStep step id self.old }
        ensures turns { Turns self.old self.new (λ old new. after_step step old id ≡ outcome result new) }
        ensures refused { OnErr result (self.new ≡ self.old) }
    {
        match step {
            TableOp::Enter(kind) => {
                self.enter(id, kind);
                Ok(())
            }
            TableOp::Lock => self.lock(id),
            TableOp::Unlock => self.unlock(id),
            TableOp::Modify(kind) => self.modify(id, kind),
        }
    }

    /// A new object without bytes.
    fn enter(&mut self, id: u32, kind: Kind)
        requires id { id < LOCAL_ENTRIES }
        requires free { entry_at self.old id ≡ None }
        ensures { Turns self.old self.new (λ old new. Enters old id kind new) }
    {
        self.arena.enter(id, kind);
        self.free.set(id as usize, 0);
    }

    /// One lock more.
    fn lock(&mut self, id: u32) -> Result<(), Refusal>
        ensures turns { Turns self.old self.new (λ old new. after_lock old id ≡ outcome result new) }
        ensures refused { OnErr result (self.new ≡ self.old) }
    {
        self.arena.lock(id)
    }

    /// One lock less.
    fn unlock(&mut self, id: u32) -> Result<(), Refusal>
        ensures turns { Turns self.old self.new (λ old new. after_unlock old id ≡ outcome result new) }
        ensures refused { OnErr result (self.new ≡ self.old) }
    {
        self.arena.unlock(id)
    }

    /// Another kind.
    fn modify(&mut self, id: u32, kind: Kind) -> Result<(), Refusal>
        ensures turns { Turns self.old self.new (λ old new. after_modify old id kind ≡ outcome result new) }
        ensures refused { OnErr result (self.new ≡ self.old) }
    {
        self.arena.modify(id, kind)
    }
}
