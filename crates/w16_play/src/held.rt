//! A kernel and parts of one, in structs that are dropped by a function of this crate.
//!
//! A function that owns a value whose `Drop` is derived drops each list in it by itself, on each way out. A `Drop` that is written is one call there. So
//! the drop of all that a kernel has is proved here, and not in each function of a test that owns one.

use std::alloc::{Allocator, Global};
use w16_global::Global16;
use w16_kernel::Kernel;
use w16_local::LocalHeaps;
use w16_store::Store;

/// A kernel.
pub struct HeldKernel<S: Store + Drop, A: Allocator + Copy = Global> {
    pub kernel: Kernel<S, A>,
}

impl<S: Store + Drop, A: Allocator + Copy> Drop for HeldKernel<S, A> {
    fn drop(self) {
        let Self { kernel } = self;
        drop(kernel);
    }
}

/// A global heap.
pub struct HeldGlobal<A: Allocator + Copy = Global> {
    pub heap: Global16<A>,
}

impl<A: Allocator + Copy> Drop for HeldGlobal<A> {
    fn drop(self) {
        let Self { heap } = self;
        drop(heap);
    }
}

/// The local heaps.
pub struct HeldLocals<A: Allocator + Copy = Global> {
    pub heaps: LocalHeaps<A>,
}

impl<A: Allocator + Copy> Drop for HeldLocals<A> {
    fn drop(self) {
        let Self { heaps } = self;
        drop(heaps);
    }
}
