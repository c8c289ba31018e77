//! An allocator that refuses one growth.
#![tactic(auto)]

use std::alloc::{AllocError, Allocator};
use std::cell::Cell;

/// Another allocator, of which one growth is refused.
pub struct Fuse<B: Allocator> {
    inner: B,
    left: Cell<u64>,
}

impl<B: Allocator> Fuse<B> {
    /// None is refused until it is armed.
    pub fn new(inner: B) -> Fuse<B> {
        Fuse {
            inner,
            left: Cell::new(0),
        }
    }

    /// The `k`-th growth from now on is refused, once; none is where it is 0.
    pub fn arm(&self, k: u64) {
        self.left.set(k);
    }

    /// Whether no growth was refused since it was armed.
    pub fn is_armed(&self) -> bool {
        self.left.get() > 0
    }
}

impl<B: Allocator> Drop for Fuse<B> {
    fn drop(self) {
        let Self { inner: _, left: _ } = self;
    }
}

/// Counts a growth, and says whether it is to be refused.
fn tick(left: &Cell<u64>) -> bool {
    let now = left.get();
    left.set(now.saturating_sub(1));
    now == 1
}

unsafe impl<B: Allocator> Allocator for Fuse<B> {
    ghost dealloc_token = { λ heap ty ptr. B.dealloc_token heap.inner ty ptr };

    fn allocate(&self, size: usize, align: usize) -> Result<*mut u8, AllocError> {
        if tick(&self.left) {
            return Err(AllocError);
        }
        self.inner.allocate(size, align)
    }

    unsafe fn deallocate(&self, ptr: *mut u8, size: usize, align: usize) {
        self.inner.deallocate(ptr, size, align);
    }
}

/// More growths than any test has.
const MANY: u64 = 10_000;

/// How many growths something takes: each in turn is refused, until it comes. None where it doesn't come though no growth was refused,
/// where it comes though one was, and where it takes 10,000 or more.
pub fn growths<B: Allocator, F: Fn(&Fuse<B>) -> bool>(fuse: &Fuse<B>, comes: F) -> Option<u64>
    requires { F.IsAlwaysCallable comes }
{
    for taken in 0..MANY {
        fuse.arm(taken + 1);
        let came = comes(fuse);
        if came != fuse.is_armed() {
            return None;
        }
        if came {
            return Some(taken);
        }
    }
    None
}
