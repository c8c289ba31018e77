//! Bytes of objects, lent without a copy.
ghost use Rattle.std.specs.Prelude.{◌≡◌, ℕ, IfErr, length};
ghost use Rattle.std.specs.Borrow.{Array, Lends, sem, u8};
ghost use Rattle.w16_global.specs.Loans.{IsPlaceIn, lent_bytes};
ghost use Rattle.w16_global.specs.Shown.{ShowsBytes};
ghost use Rattle.w16_machine.specs.World.{World};
ghost use Rattle.w16_kernel.specs.Lent.{FindsPlace, IsFarFault, IsTaken, after_lending};
ghost use Rattle.w16_kernel.specs.Parts.{IsWorldOver};
ghost use Rattle.w16_kernel.specs.Runs.{IsReply, reply_of};

use crate::call::Reply;
use crate::far;
use crate::kernel::Kernel;
use std::alloc::Allocator;
use w16_global::Place;
use w16_store::Store;

impl<S: Store + Drop, A: Allocator + Copy> Kernel<S, A> {
    ghost use Rattle.w16_kernel.specs.contracts.kernel.Kernel.{the_row};

    /// Tells the prover what holds of each machine. It does nothing else.
    pub fn reveal_world(&self)
        ensures { IsWorldOver S.is_honest self.now }
    {
        self.parts.loading.global.reveal_handles();
    }

    /// A far access to so many bytes that are to be read, or to be written: where they are, without a copy. Its faults, what it fetches and its use
    /// are those of a `Read`, or of a `Write`. The place is good until the next call.
    pub fn find(&mut self, pointer: u32, count: usize, write: bool) -> Result<Place, Reply<'static>>
        ensures found { FindsPlace S.is_honest self.old write pointer count result self.new }
        ensures short { IfErr result (λ reply. IsReply reply) }
        ensures fault { IfErr result (λ reply. IsFarFault (reply_of reply)) }
    {
        far::find(&mut self.parts, pointer, count, write)
    }

    /// The bytes at a place, to be read.
    pub fn bytes(&self, place: Place) -> &[u8]
        requires { IsPlaceIn self.now.loading.handles place }
        ensures { result.now ≡ lent_bytes self.now.loading.handles place }
    {
        self.parts.loading.global.bytes(place)
    }

    /// The bytes at a place, to be written. What is left there is what a `Write` of it, in place of the access that found the place, would have left.
    pub fn bytes_mut(&mut self, place: Place) -> &mut [u8]
        requires there { IsPlaceIn self.old.loading.handles place }
        requires taken { (before : World) × (pointer : ℕ) × IsTaken S.is_honest before pointer self.old place }
        ensures value { result.now ≡ lent_bytes self.old.loading.handles place }
        ensures* writes_back { sem 𝓛 (Lends (the_row S.row A.row S.Store A.Allocator A.Clone) (Array u8 0) self.entry result (after_lending place self.old)) }
    {
        self.parts.loading.global.bytes_mut(place)
    }

    /// The whole memory. The bytes that a selector reaches begin at its descriptor's base.
    pub fn memory(&self) -> &[u8]
        ensures shown { ShowsBytes result.now self.now.loading.handles }
        ensures long { length result.now ≡ self.now.loading.handles.heap.hi }
    {
        self.parts.loading.global.memory()
    }
}
