//! Looks at what selectors reach, which are no use of it and fetch nothing.
ghost use Rattle.std.specs.Prelude.{◌≡◌, IfErr, OnErr, OnOk, None, Some, length};
ghost use Rattle.w16_model.specs.Bytes.{part};
ghost use Rattle.w16_model.specs.Far.{far_at, far_bytes, far_fault};
ghost use Rattle.w16_model.specs.Handles.{offset_in, selector_in};
ghost use Rattle.w16_global.specs.Peek.{selector_descriptor};

use crate::kernel::Kernel;
use std::alloc::Allocator;
use w16_global::Descriptor;
use w16_model::FarFault;
use w16_model::names::{offset_in, selector_in};
use w16_store::Store;

impl<S: Store + Drop, A: Allocator + Copy> Kernel<S, A> {
    /// Reads as many bytes as the buffer has, as a `Read` of an object that has bytes; `NotPresent` where it has none, since nothing is fetched.
    pub fn peek(&self, pointer: u32, buffer: &mut [u8]) -> Result<(), FarFault>
        ensures length { length buffer.new ≡ length buffer.old }
        ensures ok { OnOk result ((far_fault self.now.loading.handles (selector_in pointer) (offset_in pointer) (length buffer.old) ≡ None)
            × (buffer.new ≡ part (far_bytes self.now.loading.handles (selector_in pointer)) (far_at self.now.loading.handles (selector_in pointer) (offset_in pointer)) (length buffer.old))) }
        ensures err { IfErr result (λ fault. far_fault self.now.loading.handles (selector_in pointer) (offset_in pointer) (length buffer.old) ≡ Some fault) }
        ensures kept { OnErr result (buffer.new ≡ buffer.old) }
    {
        self.parts
            .loading
            .global
            .far_peek(selector_in(pointer), offset_in(pointer), buffer)
    }

    /// What a selector tells; none where no object has it.
    pub fn descriptor(&self, selector: u16) -> Option<Descriptor>
        ensures { result ≡ selector_descriptor self.now.loading.handles selector }
    {
        self.parts.loading.global.descriptor(selector)
    }
}
