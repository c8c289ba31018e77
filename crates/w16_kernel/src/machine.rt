//! What a run asks of a machine.
ghost use Rattle.std.specs.Prelude.{◌+◌, ◌^◌, ◌<◌, ◌≤◌, List, IfSome};
ghost use Rattle.w16_model.specs.Handles.{handle_of};
ghost use Rattle.w16_model.specs.{Law.IsFirstItem, Walk.IsItem};
ghost use Rattle.w16_loading.specs.Replies as printed;
ghost use Rattle.w16_machine.specs.{Law.IsWorldWalk, World.World};
ghost use Rattle.w16_loading.specs.Families.{AnyCommand};
ghost use Rattle.w16_kernel.specs.Made.{IsMade};
ghost use Rattle.w16_kernel.specs.Parts.{KernelStep};
ghost use Rattle.w16_kernel.specs.Runs.{IsCall};

use crate::call::{Call, Reply};
use crate::kernel::Kernel;
use std::alloc::{AllocError, Allocator};
use w16_machine::access::MOST_READ;
use w16_model::Item;
use w16_store::Store;

/// A machine in a world, which is asked one call after another, as [`Kernel`] is. What runs calls stands on this, so that neither its
/// proof nor its code needs a machine's.
pub trait Machine {
    /// The world that it is in.
    ghost world: { Self → World };

    /// The steps that it may take.
    ghost steps: { World → AnyCommand → printed.Reply → World → Type 0 };

    /// One call: a step that it may take, and a run of one step, which keeps what each run promises. Bytes that are read are put into the room. An
    /// error is that there was no memory, for a new local heap, a built-in or a load, and the world is the same except for the count of the store's
    /// failures.
    fn call<'r>(
        &mut self,
        call: &Call<'_>,
        room: &'r mut [u8; MOST_READ],
    ) -> Result<Reply<'r>, AllocError>
        requires { IsCall call.now }
        ensures { IsMade steps (world self.old) call.now result (world self.new) };

    /// The first part of the heap that begins at an address or above it; none after the last. A whole walk asks from 0 on, then from the
    /// end of each part.
    fn walk_from(&self, from: u32) -> Option<Item>
        ensures found { IsFirstItem handle_of (world self.now).loading.handles.heap from result }
        ensures inside { IfSome result (λ item. (0 < item.size) × (item.at + item.size < 2 ^ 32)) }
        ensures words { IfSome result (λ item. IfSome item.owner (λ owner. owner.name < 2 ^ 16)) }
        ensures whole { (items : List Item) × IsWorldWalk (world self.now) items }

        // No part begins inside it.
        ensures apart { IfSome result (λ item. (other : Item) → IsItem handle_of (world self.now).loading.handles.heap other → item.at < other.at → item.at + item.size ≤ other.at) };
}

impl<S: Store + Drop, A: Allocator + Copy> Machine for Kernel<S, A> {
    ghost world = { λ kernel. kernel };

    ghost steps = { KernelStep S.is_honest };

    #[inline(always)]
    fn call<'r>(
        &mut self,
        call: &Call<'_>,
        room: &'r mut [u8; MOST_READ],
    ) -> Result<Reply<'r>, AllocError> {
        Kernel::call(self, call, room)
    }

    fn walk_from(&self, from: u32) -> Option<Item> {
        Kernel::walk_from(self, from)
    }
}
