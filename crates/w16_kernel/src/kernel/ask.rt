//! Calls that need no room.
ghost use Rattle.w16_kernel.specs.Made.{IsMade};
ghost use Rattle.w16_kernel.specs.Parts.{KernelStep};
ghost use Rattle.w16_kernel.specs.Runs.{HasRoom, IsCall};

use crate::call::{Call, Reply};
use crate::kernel::Kernel;
use crate::step::made;
use std::alloc::{AllocError, Allocator};
use w16_store::Store;

impl<S: Store + Drop, A: Allocator + Copy> Kernel<S, A> {
    /// As [`Kernel::call`], for a call that reads no bytes, and so needs no room.
    #[inline(always)]
    pub fn ask(&mut self, call: &Call<'_>) -> Result<Reply<'static>, AllocError>
        requires call { IsCall call.now }
        requires room { HasRoom call.now 0 }
        ensures { IsMade (KernelStep S.is_honest) self.old call.now result self.new }
    {
        made(&mut self.parts, call, &mut [])
    }
}
