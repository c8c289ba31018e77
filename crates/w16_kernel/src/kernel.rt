//! The machine's state, and its steps.
ghost use Rattle.std.specs.Prelude.{◌≡◌, ◌+◌, ◌%◌, ◌^◌, ◌<◌, ◌≤◌, List, map, slice_get, All, None, IfSome, IfOk, IfErr, OnOk, OnErr};
ghost use Rattle.w16_model.specs.Handles.{handle_of};
ghost use Rattle.w16_model.specs.{Law.IsFirstItem, Walk.IsItem};
ghost use Rattle.w16_machine.specs.Law.{IsWorldWalk, empty_world};
ghost use Rattle.w16_machine.specs.Machine.{Event, Run};
ghost use Rattle.w16_writes.specs.Promises.{Promises};
ghost use Rattle.w16_store.specs.Files.{file_of};
ghost use Rattle.w16_kernel.specs.Growing.{AddsFile, IsNotAdded, IsNotRemoved, RemovesFile};
ghost use Rattle.w16_kernel.specs.Made.{IsMade};
ghost use Rattle.w16_kernel.specs.Parts.{KernelStep};
ghost use Rattle.w16_kernel.specs.Runs.{command_of, answer_of, IsCall};
ghost use Rattle.w16_kernel.specs.Stops.{StopsEarly};

mod ask;
pub mod facts;
mod lent;
pub mod marks;
pub mod modules;
mod peek;
mod questions;
pub mod why;

use crate::call::{Answer, Call, Reply};
use crate::growing::{AddFault, GrowingStore, RemoveFault};
use crate::kernel::modules::is_loaded_from;
use crate::parts::Parts;
use crate::step::made;
use std::alloc::{AllocError, Allocator, Global};
use std::marker::Model;
use w16_global::Global16;
use w16_loader::Registry;
use w16_local::LocalHeaps;
use w16_machine::access::MOST_READ;
use w16_model::{GRAIN, Item, MOST_SLOTS};
use w16_reloc::Scratch;
use w16_resource::{Loading, Resources};
use w16_store::Store;

/// The machine over a store of module files. Its value is the world that a script sees.
#[derive(Drop)]
pub struct Kernel<S: Store + Drop, A: Allocator + Copy = Global> {
    parts: Parts<S, A>,
}

impl<S: Store + Drop, A: Allocator + Copy> Model for Kernel<S, A> {
    ghost use Rattle.w16_machine.specs.World.{World};
    ghost use Rattle.w16_kernel.specs.Codes.{world_code};
    ghost use Rattle.w16_kernel.specs.Parts.{IsWorldOver};

    ghost Value = { World };

    ghost coded = { world_code };

    ghost view = { λ k. k.parts };

    ghost invariant = { λ k. IsWorldOver S.is_honest k.parts };
}

impl<S: Store + Drop, A: Allocator + Copy> Kernel<S, A> {
    /// A machine over a store, and over `memory` bytes, a multiple of 32, with that many selectors, at most 8,160, in which nothing is allocated
    /// and nothing loaded. It takes its memory here, room for one segment of a file among it, except for that of local heaps and of modules. An error
    /// is that there was none, and then the store is dropped.
    pub fn new(alloc: A, memory: u32, slots: u32, store: S) -> Result<Kernel<S, A>, AllocError>
        requires grained { memory % GRAIN ≡ 0 }
        requires few { slots ≤ MOST_SLOTS }
        ensures { IfOk result (λ kernel. kernel ≡ empty_world memory slots (S.files store) (S.failures store)) }
    {
        let scratch = Scratch::new(alloc)?;
        let registry = Registry::new(alloc)?;
        let resources = Resources::new(alloc)?;
        let locals = LocalHeaps::new(alloc, slots)?;
        // last, so that no way out has to drop it
        let global = Global16::new(alloc, memory, slots)?;
        let loading = Loading {
            alloc,
            global,
            registry,
            resources,
            store,
            scratch,
        };
        let ds = 0;
        Ok(Kernel {
            parts: Parts {
                loading,
                locals,
                ds,
            },
        })
    }

    /// One step of the machine. Bytes that are read are put into the room, and the reply borrows them there. A `LocalInit` by which a heap
    /// begins takes memory, and so do `Builtin`, `LoadModule` and `LoadLibrary`: an error is that there was none, and the world is the same but
    /// for the count of the store's failures. Every other call answers.
    ///
    /// It is a run of one step, and keeps what each run promises: no two objects share a byte; only an unlocked discardable object loses bytes to
    /// another's request; fixed and locked objects keep their address until their own reallocation, last unlock or freeing; a request is refused only
    /// where no gap could hold it; and what is written stays until it is written again.
    #[inline(always)]
    pub fn call<'r>(
        &mut self,
        call: &Call<'_>,
        room: &'r mut [u8; MOST_READ],
    ) -> Result<Reply<'r>, AllocError>
        requires { IsCall call.now }
        ensures { IsMade (KernelStep S.is_honest) self.old call.now result self.new }
    {
        made(&mut self.parts, call, room)
    }

    /// The i-th part of the heap by address, from 0 on: an object's bytes, the object named by its handle, or a hole. None after the last. It
    /// goes over the parts before it: a whole walk is quicker by [`Kernel::walk_from`].
    pub fn walk_at(&self, i: usize) -> Option<Item>
        ensures { (items : List Item) × IsWorldWalk self.now items × (result ≡ slice_get items i) }
    {
        self.parts.loading.global.reveal_handles();
        self.parts.loading.global.walk(i)
    }

    /// The first part of the heap that begins at an address or above it; none after the last. A whole walk asks from 0 on, then from the
    /// end of each part.
    pub fn walk_from(&self, from: u32) -> Option<Item>
        ensures found { IsFirstItem handle_of self.now.loading.handles.heap from result }
        ensures inside { IfSome result (λ item. (0 < item.size) × (item.at + item.size < 2 ^ 32)) }
        ensures words { IfSome result (λ item. IfSome item.owner (λ owner. owner.name < 2 ^ 16)) }

        // No part begins inside it.
        ensures apart { IfSome result (λ item. (other : Item) → IsItem handle_of self.now.loading.handles.heap other → item.at < other.at → item.at + item.size ≤ other.at) }

        // All parts together are the walk of the world.
        ensures whole { (items : List Item) × IsWorldWalk self.now items }
    {
        self.parts.loading.global.reveal_handles();
        self.parts.loading.global.walk_from(from)
    }

    /// Calls one after another, and their answers: a run of the machine, which keeps what each run promises ([`Kernel::call`]). An error is that
    /// there was no memory, for the answers or for a call that takes some: the calls before it were done, and no other.
    pub fn run_calls(&mut self, calls: &[Call<'_>]) -> Result<Vec<Answer, A>, AllocError>
        requires { All IsCall calls.now }
        ensures run { IfOk result (λ answers. (events : List Event) × Run (KernelStep S.is_honest) self.old events self.new × (map (λ e. e.command) events ≡ map command_of calls.now)
            × (map (λ e. e.reply) events ≡ map answer_of answers.items)
            × Promises self.old events) }
        ensures refused { OnErr result (StopsEarly (KernelStep S.is_honest) self.old calls.now self.new) }
    {
        let mut answers = Vec::with_capacity(self.parts.loading.alloc, calls.len())?;
        let mut room = [0; MOST_READ];
        for call in calls {
            let reply = self.call(call, &mut room)?;
            answers.push_reserved(Answer::of(reply));
        }
        Ok(answers)
    }
}

impl<A: Allocator + Copy> Kernel<GrowingStore, A> {
    /// Adds a module file under a name of at least one byte that no file has, in any case of letters. No file is replaced: what is loaded stays as its file says. A fault
    /// changes nothing.
    pub fn add_file(&mut self, name: &[u8], bytes: &[u8]) -> Result<(), AddFault>
        ensures added { OnOk result (AddsFile self.old name.now bytes.now self.new) }
        ensures fault { IfErr result (IsNotAdded self.old.loading.files name.now) }
        ensures same { OnErr result (self.new ≡ self.old) }
    {
        match self.parts.loading.store.add(name, bytes) {
            Ok(()) => Ok(()),
            Err(fault) => Err(fault),
        }
    }

    /// Takes a module file away, from which no module is loaded: one that is reads its code there when that was discarded. A fault changes nothing.
    pub fn remove_file(&mut self, name: &[u8]) -> Result<(), RemoveFault>
        ensures removed { OnOk result (RemovesFile self.old name.now self.new) }
        ensures fault { IfErr result (IsNotRemoved self.old.loading name.now) }
        ensures same { OnErr result (self.new ≡ self.old) }
    {
        if is_loaded_from(&self.parts.loading.registry, name) {
            return Err(RemoveFault::InUse);
        }
        if self.parts.loading.store.remove(name) {
            Ok(())
        } else {
            Err(RemoveFault::Missing)
        }
    }

    /// The name of the file that the last load missed, where it answered 2 or 20 for want of one: [`GrowingStore::missed`].
    pub fn missed_file(&self) -> Option<&[u8]>
        ensures { IfSome result (λ name. file_of self.now.loading.files name.now ≡ None) }
    {
        self.parts.loading.store.missed()
    }
}
