//! Steps of local objects that ask for no room and give none up: no byte moves.
ghost use Rattle.std.specs.Prelude.{◌≡◌, OnErr, IsSomeAnd, if◌then◌else◌, nat_lt};
ghost use Rattle.std.specs.FinMap as finmap;
ghost use Rattle.w16_machine.specs.LocalCalls as calls;
ghost use Rattle.w16_model.specs.Commands.Command.{LocalLock, LocalUnlock};
ghost use Rattle.w16_local.specs.Parts.{Calls};
ghost use Rattle.w16_local.specs.Steps.{MayStep, Stepped, after_step, outcome, answer_of};

use crate::LocalHeaps;
use crate::current::Named;
use crate::look::{locks_of, place_of};
use std::alloc::Allocator;
use w16_global::Global16;
use w16_model::{Kind, Refusal};

/// What is done to one object.
#[derive(Clone, Copy, Debug)]
pub(crate) enum TableOp {
    /// A new object without bytes.
    Enter(Kind),
    Lock,
    Unlock,
    Modify(Kind),
}

impl<A: Allocator + Copy> LocalHeaps<A> {
    /// `LocalLock`: one lock more, and the near pointer; a fixed object has that with none. 0 for a bad name, an object without bytes, or
    /// a count of 255.
    pub fn local_lock(&mut self, global: &Global16<A>, ds: u16, name: u16) -> u16
        ensures { Calls global.now.handles self.old ds (LocalLock name) result global.now.handles self.new }
    {
        let Some(Named { slot, heap, id }) = self.named(global, ds, name) else {
            return 0;
        };
        let pointer = place_of(heap, id);
        let done = self.step(slot, id, TableOp::Lock);
        lock_answer(done, pointer)
    }

    /// `LocalUnlock`: one lock less; 1 where locks are left, else 0, also for a fixed object and for a bad name.
    pub fn local_unlock(&mut self, global: &Global16<A>, ds: u16, name: u16) -> u16
        ensures { Calls global.now.handles self.old ds (LocalUnlock name) result global.now.handles self.new }
    {
        let Some(Named { slot, heap, id }) = self.named(global, ds, name) else {
            return 0;
        };
        let locks = locks_of(heap, id);
        let done = self.step(slot, id, TableOp::Unlock);
        unlock_answer(done, locks)
    }

    /// A step of an object in a slot's heap, which changes the heap's table alone.
    pub(crate) fn step(&mut self, slot: u16, id: u32, step: TableOp) -> Result<(), Refusal>
        requires { IsSomeAnd (finmap.get self.old slot) (MayStep step id) }
        ensures stepped { Stepped self.old slot (λ old new. after_step step old id ≡ outcome result new) self.new }
        ensures refused { OnErr result (self.new ≡ self.old) }
    {
        let Some(mut heap) = self.heaps[slot as usize].take() else {
            unreachable!();
        };
        let done = heap.step(id, step);
        heap.reveal_local();
        self.heaps[slot as usize] = Some(heap);
        done
    }
}

/// What `LocalLock` answers of an object with this near pointer.
fn lock_answer(done: Result<(), Refusal>, pointer: u16) -> u16
    ensures { result ≡ answer_of done pointer (calls.lock_refused pointer) }
{
    match done {
        Ok(()) | Err(Refusal::Fixed) => pointer,
        Err(_) => 0,
    }
}

/// What `LocalUnlock` answers of an object that had so many locks.
fn unlock_answer(done: Result<(), Refusal>, locks: u8) -> u16
    ensures { result ≡ answer_of done (if nat_lt 1 locks then 1 else 0) (λ _. 0) }
{
    match done {
        Ok(()) => (locks > 1) as u16,
        Err(_) => 0,
    }
}
