//! The memory as a whole, to be read where selectors say that their bytes are.
ghost use Rattle.std.specs.Prelude.{◌≡◌, length};
ghost use Rattle.w16_global.specs.Shown.{ShowsBytes};

use crate::global::Global16;
use std::alloc::Allocator;

impl<A: Allocator + Copy> Global16<A> {
    /// The whole memory. The bytes that a selector reaches begin at its descriptor's base.
    pub fn memory(&self) -> &[u8]
        ensures shown { ShowsBytes result.now self.now.handles }
        ensures long { length result.now ≡ self.now.handles.heap.hi }
    {
        self.objects.memory()
    }
}
